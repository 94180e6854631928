//! Limits by their numbers, many changes, and memory that is refused. The worked examples are cases of tests/cli, in which `check` judges the plain
//! set.
use hull_plain::PlainSet;
use hull_set::{AddReply, HullSet, NoMemory, Place, PointList, RemoveReply, Reply};
use lattice::{Direction, Point};
use std::alloc::Global;
use std::process::Abort;
use std::test::Fail;

/// The greatest limit of a set, by its number: no contract fixes the number of the constant.
const LIMIT: u32 = 1048576;

/// The greatest multiplicity, by its number.
const MOST: u32 = 65535;

fn at(rt: &impl Abort, x: i64, y: i64) -> Point {
    match Point::new(x, y) {
        Ok(point) => point,
        Err(_) => panic!(rt; "{x} {y} is no point"),
    }
}

/// Whether each of these points is added, one after the other.
fn adds_all(rt: &impl Abort, set: &mut PlainSet, points: &[(i64, i64)]) -> bool {
    let mut all = true;
    for (x, y) in points {
        all = set.add(at(rt, *x, *y)) == AddReply::Added && all;
    }
    all
}

/// A set to which these points were added one after the other, all of them new.
fn set_of(rt: &impl Abort, alloc: Global, points: &[(i64, i64)]) -> PlainSet {
    let mut set = PlainSet::new(alloc, LIMIT);
    let all = adds_all(rt, &mut set, points);
    assert!(rt; all);
    set
}

/// Whether the points are these, in this order.
fn are_points(points: &[Point], expected: &[(i64, i64)]) -> bool {
    for (point, (x, y)) in points.iter().zip(expected) {
        if point.x() != *x || point.y() != *y {
            return false;
        }
    }
    points.len() == expected.len()
}

/// Whether the vertices of a set are these, if there is memory for them.
fn has_vertices(set: &PlainSet, expected: &[(i64, i64)]) -> bool {
    match set.vertices() {
        Ok(vertices) => are_points(&vertices, expected),
        Err(NoMemory) => false,
    }
}

const SQUARE: [(i64, i64); 4] = [(0, 0), (2, 0), (2, 2), (0, 2)];

#[test]
fn empty_set(rt: HostRuntime) {
    let origin = at(&rt, 0, 0);
    let set = PlainSet::new(rt.alloc(), LIMIT);
    let returned = [set.limit(), set.count(), set.multiplicity(origin)];
    assert_eq!(rt; returned, [LIMIT, 0, 0]);
    assert!(rt; hull_set::POINT_LIMIT == LIMIT);
}

/// Adds a point until it has the greatest multiplicity. Returns the multiplicity up to which each reply was right.
fn add_to_the_most(set: &mut PlainSet, p: Point) -> u32 {
    let mut held = 1;
    for multiplicity in 2u32..=MOST {
        if held == multiplicity - 1 && set.add(p) == AddReply::Again(multiplicity) {
            held = multiplicity;
        }
    }
    held
}

#[test]
fn held_most(rt: HostRuntime) {
    let p = at(&rt, 5, 5);
    let mut set = set_of(&rt, rt.alloc(), &[(5, 5)]);
    let held = add_to_the_most(&mut set, p);
    let one_more = set.add(p);
    let most = set.multiplicity(p);
    let changes = (set.remove(p), set.add(p));
    let is_one = set.count() == 1 && has_vertices(&set, &[(5, 5)]);
    drop(set);
    assert_eq!(rt; [held, most, hull_set::MULTIPLICITY_LIMIT], [MOST; 3]);
    assert_eq!(rt; one_more, AddReply::TooMany);
    assert_eq!(rt;
        changes,
        (RemoveReply::Left(MOST - 1), AddReply::Again(MOST))
    );
    assert!(rt; is_one);
}

/// Points of which each is a vertex: as many as take three requests for memory, in `add` and in `vertices`.
const BOWL: [(i64, i64); 9] = [
    (0, 0),
    (1, 1),
    (2, 4),
    (3, 9),
    (4, 16),
    (5, 25),
    (6, 36),
    (7, 49),
    (8, 64),
];

/// Whether a new point is added, and may be added again and removed. If memory is refused, the set is as it was and the point is added at the second
/// attempt.
fn adds_again(set: &mut PlainSet, p: Point) -> bool {
    let count = set.count();
    let mut reply = set.add(p);
    let mut kept = true;
    if reply == AddReply::NoMemory {
        kept = set.count() == count && set.remove(p) == RemoveReply::Absent;
        reply = set.add(p);
    }
    let (again, left) = (set.add(p), set.remove(p));
    kept && reply == AddReply::Added && (again, left) == (AddReply::Again(2), RemoveReply::Left(1))
}

/// Whether the points of the bowl are added so.
fn adds_the_bowl(rt: &impl Abort, set: &mut PlainSet) -> bool {
    let mut all = true;
    for (x, y) in BOWL {
        all = adds_again(set, at(rt, x, y)) && all;
    }
    all
}

// `rt try --test --fail-alloc N` at N = 1, 2, .. refuses each of its requests for memory: those of the first `add`, of the polygon as it grows, and
// of the ordered map.
#[test]
fn refused_add(rt: HostRuntime) -> Result<(), Fail> {
    let (right, last) = (Direction::new(1, 0)?, at(&rt, 8, 64));
    let mut set = PlainSet::new(rt.alloc(), LIMIT);
    let all = adds_the_bowl(&rt, &mut set);
    let returned = (set.count(), set.extreme(right));
    drop(set);
    assert!(rt; all);
    assert_eq!(rt; returned, (9, Some(last)));
    Ok(())
}

// The same, if the last requests are those of `vertices`: the lower chain is the whole bowl.
#[test]
fn refused_vertices(rt: HostRuntime) {
    let mut set = PlainSet::new(rt.alloc(), LIMIT);
    let mut all = adds_the_bowl(&rt, &mut set);
    if set.vertices() == Err(NoMemory) {
        all = set.count() == 9 && all;
    }
    let has = has_vertices(&set, &BOWL);
    drop(set);
    assert!(rt; all && has);
}

/// Whether the points of a grid of 32 by 32 are added, row by row.
fn adds_a_grid(rt: &impl Abort, set: &mut PlainSet) -> bool {
    let mut all = true;
    for k in 0i64..1024 {
        all = set.add(at(rt, k % 32, k / 32)) == AddReply::Added && all;
    }
    all
}

/// Whether the points of its diagonal are removed.
fn removes_the_diagonal(rt: &impl Abort, set: &mut PlainSet) -> bool {
    let mut all = true;
    for k in 0i64..32 {
        all = set.remove(at(rt, k, k)) == RemoveReply::Removed && all;
    }
    all
}

/// The points of a grid are added row by row, so that many of them are vertices when they are added; then vertices are removed.
#[test]
fn vertices_come_and_go(rt: HostRuntime) {
    let (vertex, inner) = (at(&rt, 0, 0), at(&rt, 15, 15));
    let mut set = PlainSet::new(rt.alloc(), LIMIT);
    let come = adds_a_grid(&rt, &mut set);
    let is_square = has_vertices(&set, &[(0, 0), (31, 0), (31, 31), (0, 31)]);
    let go = removes_the_diagonal(&rt, &mut set);
    let places = (set.place(vertex), set.place(inner));
    let area = set.area2();
    drop(set);
    assert!(rt; come && is_square && go);
    assert_eq!(rt; places, (Place::Outside, Place::Inside));
    assert!(rt; area == 2 * 31 * 31 - 2);
}

/// The list of the square's vertices.
fn listed_square(rt: &impl Abort, alloc: Global) -> PointList {
    match set_of(rt, alloc, &SQUARE).vertices() {
        Ok(vertices) => PointList::new(vertices),
        Err(NoMemory) => panic!(rt; "there is memory for the vertices"),
    }
}

#[test]
fn replies_compare(rt: HostRuntime) {
    let one = Reply::VertexList(listed_square(&rt, rt.alloc()));
    let other = Reply::VertexList(listed_square(&rt, rt.alloc()));
    let none = Reply::VertexList(PointList::new(Vec::new(rt.alloc())));
    let compared = (one == other, one != none);
    assert!(rt; compared == (true, true));
}

#[test]
fn replies_to_changes_are_replies(rt: HostRuntime) {
    let plain = Reply::from(AddReply::NoMemory) == Reply::NoMemory
        && Reply::from(RemoveReply::Absent) == Reply::Absent;
    let added = Reply::from(AddReply::Again(2)) == Reply::Again(2)
        && Reply::from(AddReply::Again(2)) != Reply::Again(3);
    let removed = Reply::from(RemoveReply::Left(2)) == Reply::Left(2)
        && Reply::from(RemoveReply::Left(2)) != Reply::Again(2);
    assert!(rt; (plain, added, removed) == (true, true, true));
}

#[test]
fn a_list_gives_its_points_back(rt: HostRuntime) -> Result<(), Fail> {
    let list = listed_square(&rt, rt.alloc());
    let count = list.as_slice().len();
    let vertex = list.into_vec().get(2).copied();
    assert!(rt; (count, vertex) == (4, Some(at(&rt, 2, 2))));
    let text = format!(in rt.alloc(); "{NoMemory}")?;
    assert!(rt; text.as_str() == "out of memory");
    Ok(())
}
