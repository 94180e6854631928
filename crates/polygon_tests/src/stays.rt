//! Whether the vertices stay when a point is added or removed, compared with a set to which it is added and from which it is removed.
use hull_plain::PlainSet;
use hull_polygon::Polygon;
use hull_set::HullSet;
use lattice::Point;
use std::alloc::Global;
use std::process::Abort;
use std::test::Fail;

/// The greatest limit of a set, by its number.
const LIMIT: u32 = 1048576;

/// The points of a grid of 4 by 4.
fn grid(alloc: Global) -> Result<Vec<Point>, Fail> {
    let mut points = Vec::new(alloc);
    for x in 0i64..4 {
        for y in 0i64..4 {
            points.push(Point::new(x, y)?)?;
        }
    }
    Ok(points)
}

/// Whether the polygon's answer for each point is what becomes of the set's vertices when it is added or removed, and is the same if the index of the
/// last vertex is given. The set is unchanged afterwards.
fn are_returned(set: &mut PlainSet, points: &[Point]) -> Result<bool, Fail> {
    let _known = (set.count(), set.limit());
    let vertices = set.vertices()?;
    let polygon = Polygon::of_vertices(&vertices);
    let again = Polygon::of_separated(&vertices, polygon.last());
    let mut returned = true;
    for p in points {
        let there = set.multiplicity(*p) > 0;
        let _change = set.remove(*p);
        returned = polygon.stays_without(*p) == (set.vertices()? == vertices) && returned;
        let _change = set.add(*p);
        returned = polygon.stays_with(*p) == (set.vertices()? == vertices) && returned;
        if !there {
            let _change = set.remove(*p);
        }
        returned = again.place(*p) == polygon.place(*p) && returned;
    }
    Ok(returned)
}

// The points of each 19th set of those of the grid are added and removed.
#[test]
fn vertices_stay_as_returned(rt: HostRuntime) -> Result<(), Fail> {
    let points = grid(rt.alloc())?;
    for number in 0u32..3449 {
        let mut set = PlainSet::new(rt.alloc(), LIMIT);
        let mut digits = number * 19;
        for p in &points {
            if digits % 2 == 1 {
                let _change = set.add(*p);
            }
            digits /= 2;
        }
        let returned = are_returned(&mut set, &points)?;
        assert!(rt; returned, "the set {number}");
    }
    Ok(())
}
