//! Points of which some lie inside are dropped.
use heap::Heap;
use lattice::Point;
use outer_points::{are_many_inner, drop_inner};
use std::process::Abort;
use std::test::Fail;

/// Returns the points of a square grid with this many on each side.
fn grid(alloc: Heap, side: i64) -> Result<Vec<Point, Heap>, Fail> {
    let mut points = Vec::new(alloc);
    for x in 0..side {
        for y in 0..side {
            points.push(Point::new(x, y)?)?;
        }
    }
    Ok(points)
}

/// Returns points of a parabola.
fn parabola(alloc: Heap, count: i64) -> Result<Vec<Point, Heap>, Fail> {
    let mut points = Vec::new(alloc);
    for x in 0..count {
        points.push(Point::new(x, x.wrapping_mul(x))?)?;
    }
    Ok(points)
}

/// So many of the points are left.
fn assert_left(rt: &impl Abort, mut points: Vec<Point, Heap>, wanted: usize) {
    drop_inner(&mut points);
    assert_eq!(rt; points.len(), wanted);
}

#[test]
fn drops_what_is_inside(rt: HostRuntime) -> Result<(), Fail> {
    let alloc = rt.alloc();
    assert!(rt; are_many_inner(&grid(alloc, 20)?));
    assert_left(&rt, grid(alloc, 20)?, 40);
    assert_left(&rt, grid(alloc, 2)?, 4);
    assert!(rt; !are_many_inner(&parabola(alloc, 400)?));
    assert_left(&rt, parabola(alloc, 400)?, 400);
    assert_left(&rt, Vec::new(alloc), 0);
    Ok(())
}
