//! Rays and segments that enter a square at known points.
use super::meetings::polygon_of;
use hull_polygon::{Entry, Hit};
use lattice::{Direction, Point};
use std::process::Abort;
use std::test::Fail;

/// The position on a path, across the edge between two vertices.
fn across(p: Point, q: Point, numerator: u128, denominator: u128) -> Option<Hit> {
    Some(Hit {
        place: Entry::Edge(p, q),
        numerator,
        denominator,
    })
}

#[test]
fn ways_into_a_square(rt: HostRuntime) -> Result<(), Fail> {
    let vertices = [
        Point::new(0, 0)?,
        Point::new(4, 0)?,
        Point::new(4, 4)?,
        Point::new(0, 4)?,
    ];
    let polygon = polygon_of(&rt, &vertices);
    let (start, end, inside) = (Point::new(-2, 1)?, Point::new(7, 4)?, Point::new(1, 1)?);
    let (on, back) = (Direction::new(3, 1)?, Direction::new(-3, -1)?);
    assert!(rt; polygon.raycast(start, on) == across(vertices[3], vertices[0], 8, 12));
    assert!(rt; polygon.raycast_exit(start, on) == across(vertices[1], vertices[2], 24, 12));
    assert!(rt; polygon.raycast_segment(start, end) == across(vertices[3], vertices[0], 8, 36));
    assert!(rt; polygon.raycast_segment(end, start) == across(vertices[1], vertices[2], 12, 36));
    assert!(rt;
        polygon.raycast(start, back).is_none() && polygon.raycast_exit(start, back).is_none()
    );
    assert!(rt; polygon.raycast_segment(start, start).is_none());
    match polygon.raycast(inside, back) {
        Some(hit) => assert!(rt; hit.place == Entry::Start && hit.numerator == 0),
        None => panic!(rt; "the square covers the start"),
    }
    Ok(())
}
