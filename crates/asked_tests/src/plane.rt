//! Points, directions and exact comparisons.
use lattice::{Direction, LatticeFault, Point, before, crossing_at_or_before, orient, product};
use std::test::Fail;

/// The point of these coordinates.
pub(super) fn at(x: i64, y: i64) -> Result<Point, Fail> {
    let point: Result<Point, LatticeFault> = Point::new(x, y);
    Ok(point?)
}

/// The direction of these components.
pub(super) fn toward(dx: i64, dy: i64) -> Result<Direction, Fail> {
    let direction: Result<Direction, LatticeFault> = Direction::new(dx, dy);
    Ok(direction?)
}

#[test]
fn points_and_directions(rt: HostRuntime) -> Result<(), Fail> {
    let p = at(-1099511627776, 1099511627776)?;
    let x: i64 = p.x();
    let y: i64 = p.y();
    assert_eq!(rt; (x, y), (-1099511627776, 1099511627776));
    let d = toward(3, -4)?;
    let dx: i64 = d.x();
    let dy: i64 = d.y();
    assert_eq!(rt; (dx, dy), (3, -4));
    assert!(rt; p == p && d == d && p != at(0, 0)?);
    Ok(())
}

/// A number outside the range is refused before a zero direction is.
#[test]
fn refused_numbers(rt: HostRuntime) {
    assert_eq!(rt; Point::new(1099511627777, 0), Err(LatticeFault::OutOfRange));
    assert_eq!(rt;
        Point::new(0, -1099511627777),
        Err(LatticeFault::OutOfRange)
    );
    assert_eq!(rt;
        Direction::new(0, 1099511627777),
        Err(LatticeFault::OutOfRange)
    );
    assert_eq!(rt; Direction::new(0, 0), Err(LatticeFault::ZeroDirection));
}

#[test]
fn comparisons(rt: HostRuntime) -> Result<(), Fail> {
    let (a, b, c) = (at(0, 0)?, at(2, 0)?, at(0, 1)?);
    let left: i128 = orient(a, b, c);
    let farther: i128 = product(toward(1, 2)?, c);
    let first: bool = before(a, c);
    assert_eq!(rt; (left, farther, first), (2, 2, true));
    assert_eq!(rt; (orient(a, c, b), orient(a, b, at(5, 0)?)), (-2, 0));
    assert!(rt; !before(a, a) && before(a, b) && !before(b, c));
    Ok(())
}

// Whether the lines ab and cd cross before m or at m; `None` if the four points do not satisfy the conditions of the question.
fn crossing(a: Point, b: Point, c: Point, d: Point, m: Point) -> Option<bool> {
    if before(a, b) && before(b, c) && before(c, d) && orient(a, b, c) < 0 && orient(b, c, d) < 0 {
        let found: bool = crossing_at_or_before(a, b, c, d, m);
        return Some(found);
    }
    None
}

#[test]
fn left_wall_crossing(rt: HostRuntime) -> Result<(), Fail> {
    let (a, b, c, d) = (at(0, 0)?, at(0, 1)?, at(1, 3)?, at(2, 3)?);
    assert_eq!(rt; (orient(a, b, c), orient(b, a, d)), (-1, 2));
    assert_eq!(rt; crossing(a, b, c, d, at(0, 2)?), Some(false));
    assert_eq!(rt; crossing(a, b, c, d, at(0, 3)?), Some(true));
    Ok(())
}
