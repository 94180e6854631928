use lattice::{
    Direction, LatticeFault, NEAR_LIMIT, Point, before, crossing_at_or_before, distance_squared,
    is_near, orient, orient_near, product,
};
use std::test::Fail;

#[test]
fn coordinates_at_the_limit(rt: HostRuntime) -> Result<(), Fail> {
    let vertex = Point::new(-1099511627776, 1099511627776)?;
    let points = (Point::new(1099511627777, 0), Point::new(0, -1099511627777));
    let directions = (Direction::new(0, 0), Direction::new(0, 1099511627777));
    assert!(rt; (vertex.x(), vertex.y()) == (-1099511627776, 1099511627776));
    assert_eq!(rt;
        points,
        (Err(LatticeFault::OutOfRange), Err(LatticeFault::OutOfRange))
    );
    assert_eq!(rt;
        directions,
        (
            Err(LatticeFault::ZeroDirection),
            Err(LatticeFault::OutOfRange)
        )
    );
    Ok(())
}

#[test]
fn range_corners(rt: HostRuntime) -> Result<(), Fail> {
    let a = Point::new(-1099511627776, -1099511627776)?;
    let b = Point::new(1099511627776, -1099511627776)?;
    let c = Point::new(1099511627776, 1099511627776)?;
    assert_eq!(rt; orient(a, b, c), 4835703278458516698824704);
    assert_eq!(rt; orient(a, c, b), -4835703278458516698824704);
    assert_eq!(rt; distance_squared(a, c), 9671406556917033397649408);
    assert_eq!(rt; product(Direction::new(1, 1)?, c), 2199023255552);
    Ok(())
}

// The largest sides of near points, and a next one that is not near.
#[test]
fn near_vertices(rt: HostRuntime) -> Result<(), Fail> {
    let a = Point::new(-NEAR_LIMIT, -NEAR_LIMIT)?;
    let b = Point::new(NEAR_LIMIT, -NEAR_LIMIT)?;
    let c = Point::new(NEAR_LIMIT, NEAR_LIMIT)?;
    let (right, below) = (Point::new(1073741824, 0)?, Point::new(0, -1073741824)?);
    assert!(rt; is_near(a) && is_near(b) && is_near(c));
    let sides = [orient_near(a, b, c), orient_near(a, c, b)];
    assert!(rt; NEAR_LIMIT == 1073741823);
    assert_eq!(rt; sides, [4611686009837453316, -4611686009837453316]);
    assert!(rt; !is_near(right) && !is_near(below));
    Ok(())
}

#[test]
fn order_by_x_and_then_by_y(rt: HostRuntime) -> Result<(), Fail> {
    let low = Point::new(0, 0)?;
    let high = Point::new(0, 1)?;
    let right = Point::new(1, -5)?;
    let upwards = [before(low, high), before(high, right)];
    let others = [before(high, low), before(low, low)];
    assert!(rt; upwards == [true; 2] && others == [false; 2]);
    Ok(())
}

/// Whether the lines ab and cd cross before m or at m; nothing if a, b, c, d are not in order, or the path along them does not turn right at b and at
/// c.
fn crossing(a: Point, b: Point, c: Point, d: Point, m: Point) -> Option<bool> {
    if !before(a, b) || !before(b, c) || !before(c, d) {
        return None;
    }
    if orient(a, b, c) >= 0 || orient(b, c, d) >= 0 {
        return None;
    }
    Some(crossing_at_or_before(a, b, c, d, m))
}

#[test]
fn lines_that_cross_above_the_left_wall(rt: HostRuntime) -> Result<(), Fail> {
    let (a, b) = (Point::new(0, 0)?, Point::new(0, 1)?);
    let (c, d) = (Point::new(1, 3)?, Point::new(2, 3)?);
    let (early, there, late) = (Point::new(0, 2)?, Point::new(0, 3)?, Point::new(1, -9)?);
    let crossings = [
        crossing(a, b, c, d, early),
        crossing(a, b, c, d, there),
        crossing(a, b, c, d, late),
        crossing(d, c, b, a, early),
    ];
    assert_eq!(rt; crossings, [Some(false), Some(true), Some(true), None]);
    Ok(())
}
