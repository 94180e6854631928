//! Worked examples, comparison with a plain set, and memory that is refused.
ghost use Rattle.std.specs.Prelude.{◌≤◌, IfOk};
ghost use Rattle.bridge_search.specs.Trees.{size_of};

mod shapes;

use bridge_search::Half;
use hull_plain::PlainSet;
use hull_questions::{area2, extreme, place, tangents, vertices};
use hull_set::{AddReply, HullSet, POINT_LIMIT, Place};
use lattice::{Direction, Point};
use shapes::{Sixteen, sixteen};
use std::alloc::{AllocError, Global};
use std::process::Abort;
use std::test::Fail;

fn at(rt: &impl Abort, x: i64, y: i64) -> Point {
    match Point::new(x, y) {
        Ok(point) => point,
        Err(_) => panic!(rt; "{x} {y} is no point"),
    }
}

fn points_of(
    rt: &impl Abort,
    alloc: Global,
    pairs: &[(i64, i64)],
) -> Result<Vec<Point>, AllocError> {
    let mut points = Vec::new(alloc);
    for (x, y) in pairs {
        points.push(at(rt, *x, *y))?;
    }
    Ok(points)
}

/// The half of one to sixteen points in order.
fn half_of(rt: &impl Abort, alloc: Global, pairs: &[(i64, i64)]) -> Result<Sixteen, Fail>
    ensures { IfOk result (λ h. size_of (⟦<Sixteen as Half>⟧.tree h) ≤ 16) }
{
    let points = points_of(rt, alloc, pairs)?;
    Ok(sixteen(&points).ok_or("order")?)
}

/// Whether the vertices of a half are these, if there is memory for them.
fn has_vertices<H: Half>(alloc: Global, half: H, wanted: &[Point]) -> bool {
    match vertices(alloc, half) {
        Ok(found) => found.as_slice() == wanted,
        Err(_) => false,
    }
}

/// The vertices of a hull, and its doubled area.
fn assert_polygon(
    rt: &impl Abort,
    alloc: Global,
    pairs: &[(i64, i64)],
    wanted: &[(i64, i64)],
    doubled: u128,
) -> Result<(), Fail> {
    let half = half_of(rt, alloc, pairs)?;
    let expected = points_of(rt, alloc, wanted)?;
    let has = has_vertices(alloc, half, &expected);
    assert!(rt; has && area2(half) == doubled);
    Ok(())
}

/// A direction and the first of the points that are farthest in it.
type Farthest = ((i64, i64), (i64, i64));

fn assert_extremes(
    rt: &impl Abort,
    alloc: Global,
    pairs: &[(i64, i64)],
    cases: &[Farthest],
) -> Result<(), Fail> {
    let half = half_of(rt, alloc, pairs)?;
    for (d, expected) in cases {
        let found = extreme(half, Direction::new(d.0, d.1)?);
        assert!(rt; (found.x(), found.y()) == *expected, "{} {}", d.0, d.1);
    }
    Ok(())
}

/// A point and its location.
type Placed = ((i64, i64), Place);

/// Whether each of these points has that location.
fn has_places<H: Half>(rt: &impl Abort, half: H, cases: &[Placed]) -> bool {
    let mut all = true;
    for case in cases {
        let ((x, y), expected) = *case;
        all = place(half, at(rt, x, y)) == expected && all;
    }
    all
}

/// The same of the half of these points.
fn are_placed(
    rt: &impl Abort,
    alloc: Global,
    pairs: &[(i64, i64)],
    cases: &[Placed],
) -> Result<bool, Fail> {
    let half = half_of(rt, alloc, pairs)?;
    Ok(has_places(rt, half, cases))
}

/// The left and the right tangent point, or nothing.
type Ends = Option<((i64, i64), (i64, i64))>;

/// A point, and the ends of its tangents.
type Touched = ((i64, i64), Ends);

fn ends<H: Half>(half: H, q: Point) -> Ends {
    let (l, r) = tangents(half, q)?;
    Some(((l.x(), l.y()), (r.x(), r.y())))
}

/// Whether the tangents of each of these points end there.
fn has_tangents<H: Half>(rt: &impl Abort, half: H, cases: &[Touched]) -> bool {
    let mut all = true;
    for case in cases {
        let ((x, y), expected) = *case;
        all = ends(half, at(rt, x, y)) == expected && all;
    }
    all
}

/// The same of the half of these points.
fn are_touched(
    rt: &impl Abort,
    alloc: Global,
    pairs: &[(i64, i64)],
    cases: &[Touched],
) -> Result<bool, Fail> {
    let half = half_of(rt, alloc, pairs)?;
    Ok(has_tangents(rt, half, cases))
}

#[test]
fn left_wall(rt: HostRuntime) -> Result<(), Fail> {
    let points = [(0, 0), (0, 1), (0, 2), (1, 3), (2, 3)];
    let extremes = [((-1, 0), (0, 0))];
    let places = [((0, 1), Place::On), ((1, 2), Place::Inside)];
    let tangents = [((0, 4), Some(((2, 3), (0, 0))))];
    let wanted = [(0, 0), (2, 3), (1, 3), (0, 2)];
    assert_extremes(&rt, rt.alloc(), &points, &extremes)?;
    let placed = are_placed(&rt, rt.alloc(), &points, &places)?;
    let touched = are_touched(&rt, rt.alloc(), &points, &tangents)?;
    assert!(rt; placed && touched);
    assert_polygon(&rt, rt.alloc(), &points, &wanted, 5)
}

const LEAST: i64 = -1048576;

const MOST: i64 = 1048576;

#[test]
fn range_corners(rt: HostRuntime) -> Result<(), Fail> {
    let points = [(LEAST, LEAST), (LEAST, MOST), (MOST, LEAST), (MOST, MOST)];
    let extremes = [((MOST, MOST), (MOST, MOST))];
    let places = [((0, 0), Place::Inside), ((MOST, 0), Place::On)];
    let tangents = [((MOST, 0), None)];
    let wanted = [(LEAST, LEAST), (MOST, LEAST), (MOST, MOST), (LEAST, MOST)];
    assert_extremes(&rt, rt.alloc(), &points, &extremes)?;
    let placed = are_placed(&rt, rt.alloc(), &points, &places)?;
    let touched = are_touched(&rt, rt.alloc(), &points, &tangents)?;
    assert!(rt; placed && touched);
    assert_polygon(&rt, rt.alloc(), &points, &wanted, 8796093022208)
}

/// A plain set of the same points.
fn plain_of(rt: &impl Abort, alloc: Global, pairs: &[(i64, i64)]) -> PlainSet {
    let mut set = PlainSet::new(alloc, POINT_LIMIT);
    let mut all = true;
    for (x, y) in pairs {
        all = set.add(at(rt, *x, *y)) == AddReply::Added && all;
    }
    assert!(rt; all);
    set
}

/// Whether a half and a plain set give the same answers about each point from -1 to `end`, both ways.
fn agree_on_points<H: Half>(rt: &impl Abort, half: H, set: &PlainSet, end: i64) -> bool {
    for x in -1..end {
        for y in -1..end {
            let q = at(rt, x, y);
            if place(half, q) != set.place(q) || tangents(half, q) != set.tangents(q) {
                return false;
            }
        }
    }
    true
}

/// Whether a half and a plain set give the same answers in each direction with components up to 3.
fn agree_on_directions<H: Half>(half: H, set: &PlainSet) -> bool {
    let mut alike = true;
    for x in -3..4 {
        for y in -3..4 {
            if let Ok(d) = Direction::new(x, y) {
                alike = Some(extreme(half, d)) == set.extreme(d) && alike;
            }
        }
    }
    alike
}

/// Whether a half and a plain set have the same polygon.
fn agree_on_polygon<H: Half>(alloc: Global, half: H, set: &PlainSet) -> bool
    requires { size_of (H.tree half) ≤ 16 }
{
    match set.vertices() {
        Ok(wanted) => has_vertices(alloc, half, &wanted) && area2(half) == set.area2(),
        Err(_) => false,
    }
}

/// A half and a plain set of the same points give the same answers.
fn agree(rt: &impl Abort, alloc: Global, pairs: &[(i64, i64)], end: i64) -> Result<(), Fail> {
    let half = half_of(rt, alloc, pairs)?;
    let set = plain_of(rt, alloc, pairs);
    let on_points = agree_on_points(rt, half, &set, end);
    let on_directions = agree_on_directions(half, &set);
    let on_polygon = agree_on_polygon(alloc, half, &set);
    drop(set);
    assert!(rt; on_points && on_directions && on_polygon);
    Ok(())
}

/// The points of a grid with columns of `size` that the bits of a number choose, in order; sixteen at most.
fn chosen(alloc: Global, bits: u64, size: u32) -> Result<Vec<(i64, i64)>, Fail>
    requires some { 1 ≤ size }
    requires few { size ≤ 8 }
{
    let mut pairs = Vec::new(alloc);
    for place in 0..size * size {
        if pairs.len() < 16 && (bits >> place) & 1 == 1 {
            pairs.push(((place / size) as i64, (place % size) as i64))?;
        }
    }
    Ok(pairs)
}

#[test]
fn all_sets_on_a_small_grid(rt: HostRuntime) -> Result<(), Fail> {
    for bits in 1u64..512 {
        let pairs = chosen(rt.alloc(), bits, 3)?;
        agree(&rt, rt.alloc(), &pairs, 4)?;
    }
    Ok(())
}

#[test]
fn many_sets_on_a_grid(rt: HostRuntime) -> Result<(), Fail> {
    let mut state = 1u64;
    for _ in 0..400 {
        state = state
            .wrapping_mul(6364136223846793005)
            .wrapping_add(1442695040888963407);
        let first = state >> 16;
        state = state
            .wrapping_mul(6364136223846793005)
            .wrapping_add(1442695040888963407);
        let pairs = chosen(rt.alloc(), first & (state >> 16), 6)?;
        if !pairs.is_empty() {
            agree(&rt, rt.alloc(), &pairs, 7)?;
        }
    }
    Ok(())
}

/// Points of which each is a vertex: as many as take three requests for memory.
const BOWL: [(i64, i64); 9] = [
    (0, 0),
    (1, 1),
    (2, 4),
    (3, 9),
    (4, 16),
    (5, 25),
    (6, 36),
    (7, 49),
    (8, 64),
];

/// The points of the bowl, which take no memory.
fn bowl(rt: &impl Abort) -> [Point; 9] {
    let mut points = [at(rt, 0, 0); 9];
    for i in 0..9 {
        let (x, y) = BOWL[i];
        points[i] = at(rt, x, y);
    }
    points
}

// `rt try --test --fail-alloc N` at N = 1, 2, 3 refuses each of its requests for memory.
#[test]
fn refused_vertices(rt: HostRuntime) -> Result<(), Fail> {
    let points = bowl(&rt);
    let half = sixteen(&points).ok_or("order")?;
    let mut found = vertices(rt.alloc(), half);
    if found.is_err() {
        found = vertices(rt.alloc(), half);
    }
    assert!(rt; found?.as_slice() == points.as_slice());
    Ok(())
}
