//! Points and directions from two numbers of a caller.
ghost use Rattle.hull_reply.specs.Coordinates.{IsDirectionOf, IsPointOf};

use crate::code::Code;
use lattice::{Direction, LatticeFault, Point};

/// Returns the point (x, y). Fails with [`Code::OutOfRange`] if one of the numbers is not a coordinate.
pub fn point_of(x: i64, y: i64) -> Result<Point, Code>
    ensures { IsPointOf x y result }
{
    match Point::new(x, y) {
        Ok(p) => Ok(p),
        Err(_) => Err(Code::OutOfRange),
    }
}

/// Returns the direction (x, y). Fails with [`Code::OutOfRange`] if one of the numbers is not a coordinate, and with
/// [`Code::ZeroDirection`] if both are 0.
pub fn direction_of(x: i64, y: i64) -> Result<Direction, Code>
    ensures { IsDirectionOf x y result }
{
    match Direction::new(x, y) {
        Ok(d) => Ok(d),
        Err(LatticeFault::OutOfRange) => Err(Code::OutOfRange),
        Err(LatticeFault::ZeroDirection) => Err(Code::ZeroDirection),
    }
}
