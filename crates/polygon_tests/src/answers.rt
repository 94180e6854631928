//! A polygon and the set with the same vertices get the same questions.
use hull_plain::PlainSet;
use hull_polygon::Polygon;
use hull_set::{AddReply, HullSet};
use lattice::{Direction, Point};
use std::alloc::Global;
use std::process::Abort;
use std::test::Fail;

/// The greatest limit of a set, by its number.
const LIMIT: u32 = 1048576;

/// The points and directions of the questions have coordinates of at most this.
const REACH: i64 = 3;

/// The result for these two numbers is true.
fn assert_at(rt: &impl Abort, truth: bool, x: i64, y: i64) {
    assert!(rt; truth, "at {x} {y}");
}

/// Both answer alike of the farthest points.
fn assert_same_extremes<S: HullSet>(
    rt: &impl Abort,
    set: &S,
    polygon: Polygon<'_>,
) -> Result<(), Fail> {
    for x in -REACH..REACH + 1 {
        for y in -REACH..REACH + 1 {
            if x != 0 || y != 0 {
                let d = Direction::new(x, y)?;
                assert_at(rt, polygon.extreme(d) == set.extreme(d), x, y);
            }
        }
    }
    Ok(())
}

/// Each point of a grid with this mesh, as far as points go, has the same location and tangents in both.
fn assert_same_locations<S: HullSet>(rt: &impl Abort, set: &S, polygon: Polygon<'_>, mesh: i64) {
    for right in -REACH..REACH + 1 {
        for up in -REACH..REACH + 1 {
            if let Ok(q) = Point::new(right.wrapping_mul(mesh), up.wrapping_mul(mesh)) {
                assert_at(rt, polygon.place(q) == set.place(q), right, up);
                assert_at(rt, polygon.tangents(q) == set.tangents(q), right, up);
            }
        }
    }
}

/// A set and the polygon of its vertices answer alike, whether the list was checked or not.
fn assert_same_answers<S: HullSet>(rt: &impl Abort, set: &S, mesh: i64) -> Result<(), Fail> {
    let _known = (set.count(), set.limit());
    let vertices = set.vertices()?;
    let polygon = Polygon::of_vertices(&vertices);
    assert_eq!(rt; polygon.vertices(), vertices.as_slice());
    assert_eq!(rt; polygon.area2(), set.area2());
    assert_same_extremes(rt, set, polygon)?;
    assert_same_locations(rt, set, polygon, mesh);
    match Polygon::new(&vertices) {
        Some(looked_at) => assert_same_locations(rt, set, looked_at, mesh),
        None => assert!(rt; false, "corners of a set are an outline"),
    }
    Ok(())
}

/// Returns the set of those points of a grid of 3 by 3, two meshes apart and around the origin, whose bits are set.
fn grid_set(rt: &impl Abort, alloc: Global, bits: u32, mesh: i64) -> Result<PlainSet, Fail> {
    let mut set = PlainSet::new(alloc, LIMIT);
    for place in 0u32..9 {
        if bits >> place & 1 == 1 {
            let right = (place % 3) as i64 - 1;
            let up = (place / 3) as i64 - 1;
            let p = Point::new(
                right.wrapping_mul(2).wrapping_mul(mesh),
                up.wrapping_mul(2).wrapping_mul(mesh),
            )?;
            assert_eq!(rt; set.add(p), AddReply::Added);
        }
    }
    Ok(set)
}

#[test]
fn all_sets_of_a_small_grid(rt: HostRuntime) -> Result<(), Fail> {
    for bits in 0u32..512 {
        let set = grid_set(&rt, rt.alloc(), bits, 1)?;
        assert_same_answers(&rt, &set, 1)?;
    }
    Ok(())
}

// The outermost points of the grid are at the limit of coordinates.
#[test]
fn all_sets_at_the_limit(rt: HostRuntime) -> Result<(), Fail> {
    for bits in 0u32..512 {
        let set = grid_set(&rt, rt.alloc(), bits, 549755813888)?;
        assert_same_answers(&rt, &set, 549755813888)?;
    }
    Ok(())
}

// The vertices are points of two parabolas, so that each is a vertex.
#[test]
fn many_vertices(rt: HostRuntime) -> Result<(), Fail> {
    let mut set = PlainSet::new(rt.alloc(), LIMIT);
    for x in -20i64..21 {
        assert_eq!(rt; set.add(Point::new(x, x.wrapping_mul(x))?), AddReply::Added);
        assert_eq!(rt;
            set.add(Point::new(x, 900i64.wrapping_sub(x.wrapping_mul(x)))?),
            AddReply::Added
        );
    }
    assert_eq!(rt; set.vertices()?.len(), 82);
    assert_same_answers(&rt, &set, 7)?;
    assert_same_answers(&rt, &set, 10)?;
    assert_same_answers(&rt, &set, 300)
}
