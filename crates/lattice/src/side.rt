//! The two sides of a hull, and orientations as they are seen from either.
ghost use Rattle.std.specs.Prelude.{◌≡◌};
ghost use Rattle.lattice.specs.Plane.{IsWithin, widest_side};
ghost use Rattle.lattice.specs.Orientations as orientations;

use super::compare::orient;
use super::point::Point;

/// The side of a hull on which a chain of edges lies.
#[derive(Clone, Copy, PartialEq, Eq, Debug)]
pub enum Side {
    Lower,
    Upper,
}

/// Returns a positive number if `b`, between `a` and `c` in the order "before", lies outwards of the segment from `a`
/// to `c`; that is, if `c` lies inwards of the line from `a` forward to `b`. It is `orient(a, b, c)` on the lower side,
/// and its negative on the upper one.
pub fn orient_on(side: Side, a: Point, b: Point, c: Point) -> i128
    ensures value { result ≡ orientations.orient_on side a b c }
    ensures size { IsWithin widest_side result }
{
    match side {
        Side::Lower => orient(a, b, c),
        Side::Upper => orient(b, a, c),
    }
}
