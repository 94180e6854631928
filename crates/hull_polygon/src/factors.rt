//! The square of a distance as a quotient of numbers that fit in 128 bits.
ghost use Rattle.std.specs.Prelude.{◌≡◌, ◌≤◌, ◌*◌, pos, ◌*ℤ◌};
ghost use Rattle.lattice.specs.Plane as plane;
ghost use Rattle.lattice.specs.Plane.{widest_side};
ghost use Rattle.hull_polygon.specs.Squares.{AreFactorsOf, AreSmall};

use super::distance::Distance;
use super::strips::{length_of, natural};
use lattice::{Point, orient};

/// The square of a distance: the product of the first two numbers, divided by the third.
#[derive(Clone, Copy)]
pub(crate) struct Factors {
    pub(crate) first: u128,
    pub(crate) second: u128,
    pub(crate) divisor: u128,
}

/// Returns how far `t` lies beside the line from `a` to `b`, times the distance of the two.
pub(crate) fn distance_beside(a: Point, b: Point, t: Point) -> u128
    ensures value { pos result *ℤ pos result ≡ plane.orient a b t *ℤ plane.orient a b t }
    ensures size { result ≤ widest_side }
{
    let side = orient(a, b, t);
    if side < 0 {
        natural(-side)
    } else {
        natural(side)
    }
}

/// Returns the square of the distance of `t` from the line from `a` to `b`.
fn beside(a: Point, b: Point, t: Point) -> Factors
    ensures value { (pos (result.first * result.second) ≡ plane.orient a b t *ℤ plane.orient a b t)
        × (pos result.divisor ≡ plane.distance_squared a b) }
    ensures small { AreSmall result }
{
    let _at_most = length_of(a, t);
    let side = distance_beside(a, b, t);
    Factors {
        first: side,
        second: side,
        divisor: length_of(a, b),
    }
}

impl Distance {
    /// Returns the factors of the square of the distance.
    pub(crate) fn factors(&self) -> Factors
        ensures value { AreFactorsOf self.now result }
        ensures small { AreSmall result }
    {
        match *self {
            Distance::Zero => Factors {
                first: 0,
                second: 0,
                divisor: 1,
            },
            Distance::Vertices(c, d) => Factors {
                first: length_of(c, d),
                second: 1,
                divisor: 1,
            },
            Distance::VertexAndEdge(c, a, b) => beside(a, b, c),
            Distance::EdgeAndVertex(a, b, d) => beside(a, b, d),
        }
    }
}
