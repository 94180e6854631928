//! Pairs of polygons that are near one another, and which points vertices are.
use hull_polygon::{Length, Polygon};
use hull_reply::{Code, HullPoint, HullReply};
use lattice::Point;
use polygon_arrays::vertex_indices;
use polygon_pairs::{HullPair, pairs_within_distance};
use std::alloc::Global;
use std::test::Fail;

/// The points of these coordinates.
fn points(alloc: Global, coordinates: &[(i64, i64)]) -> Result<Vec<Point>, Fail> {
    let mut points = Vec::new(alloc);
    for (x, y) in coordinates {
        points.push(Point::new(*x, *y)?)?;
    }
    Ok(points)
}

/// Finds the pairs of three polygons that are within a length.
fn near(
    alloc: Global,
    polygons: (&Polygon, &Polygon, &Polygon),
    reach: Length,
    out: &mut [HullPair],
) -> HullReply {
    let (one, two, three) = polygons;
    pairs_within_distance(
        alloc,
        &[one.vertices(), two.vertices(), three.vertices()],
        reach,
        out,
    )
}

#[test]
fn finds_near_pairs(rt: HostRuntime) -> Result<(), Fail> {
    let alloc = rt.alloc();
    let right = points(alloc, &[(4, 0), (6, 0), (6, 2), (4, 2)])?;
    let left = points(alloc, &[(0, 0), (2, 0), (2, 2), (0, 2)])?;
    let above = points(alloc, &[(3, 3)])?;
    let polygons = (
        &Polygon::new(&right).ok_or("no polygon")?,
        &Polygon::new(&left).ok_or("no polygon")?,
        &Polygon::new(&above).ok_or("no polygon")?,
    );
    let mut out = [HullPair {
        first: 9,
        second: 9,
    }; 3];
    let reach = |numerator, denominator| Length {
        numerator,
        denominator,
    };
    let reply = near(alloc, polygons, reach(3, 2), &mut out);
    assert!(rt; reply.code == Code::Number.number() && reply.number == 2);
    assert!(rt; (out[0].first, out[0].second) == (0, 2) && (out[1].first, out[1].second) == (1, 2));
    assert!(rt; near(alloc, polygons, reach(1, 1), &mut out).number == 0);
    assert!(rt; near(alloc, polygons, reach(2, 1), &mut out).number == 3);
    let small = near(alloc, polygons, reach(2, 1), &mut out[..2]);
    assert!(rt; small.code == Code::TooSmall.number() && small.number == 3);
    Ok(())
}

#[test]
fn finds_the_points_of_vertices(rt: HostRuntime) -> Result<(), Fail> {
    let vertices = points(rt.alloc(), &[(0, 0), (4, 0), (2, 3)])?;
    let polygon = Polygon::new(&vertices).ok_or("no polygon")?;
    let corners = polygon.vertices();
    assert_eq!(rt; corners.len(), 3);
    let given = [(2, 3), (1, 1), (4, 0), (2, 3)].map(|(x, y)| HullPoint { x, y });
    let mut out = [9; 3];
    assert_eq!(rt; vertex_indices(corners, &given, &mut out), 2);
    assert_eq!(rt; out, [4, 2, 0]);
    Ok(())
}
