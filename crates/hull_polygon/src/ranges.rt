//! Whether two hulls are within a distance of each other: exactly, without a division or a root.
ghost use Rattle.std.specs.Prelude.{◌≡◌, ◌⊎◌, ◌↔◌, IsTrue, ◌<◌, ◌≤◌, ◌*◌, List, [], MatchOption};
ghost use Rattle.lattice.specs.Plane.{Pair, widest_side};
ghost use Rattle.hull_polygon.specs.Closest.{IsDistance};
ghost use Rattle.hull_polygon.specs.Polygons.{HoldsOfBoth};
ghost use Rattle.hull_polygon.specs.Ranges.{IsNoFarther, ReturnsWithin};
ghost use Rattle.hull_polygon.specs.Lent.{vertices_of};

use super::distance::Distance;
use super::factors::distance_beside;
use super::polygon::Polygon;
use super::ratios::is_less_ratio;
use super::strips::length_of;

/// A length: the quotient of two numbers. With the denominator 0 it is longer than any distance.
#[derive(Clone, Copy, PartialEq, Eq, Debug)]
pub struct Length {
    /// The length in units,
    pub numerator: u64,
    /// divided by this number.
    pub denominator: u32,
}

impl Length {
    /// Whether the square of a distance is more than that of the length.
    fn is_passed_by_square(self, square: u128) -> bool
        requires { square ≤ widest_side }
        ensures { IsTrue result ↔ (self.numerator * self.numerator < self.denominator * self.denominator * square) }
    {
        is_less_ratio(
            u128::from(self.numerator),
            square,
            u128::from(self.denominator),
            1,
        )
    }

    /// Whether the square of `side`, divided by `edge`, is more than that of the length.
    fn is_passed_by_quotient(self, side: u128, edge: u128) -> bool
        requires side { side ≤ widest_side }
        requires edge { edge ≤ widest_side }
        ensures { IsTrue result
            ↔ (self.numerator * self.numerator * edge < side * side * (self.denominator * self.denominator)) }
    {
        let squared = u128::from(self.denominator) * u128::from(self.denominator);
        is_less_ratio(u128::from(self.numerator), squared, side, edge)
    }
}

impl Distance {
    /// Whether this distance is at most that length. It compares squares, by products of 252 bits.
    pub fn is_within_distance(&self, length: Length) -> bool
        ensures { IsTrue result ↔ IsNoFarther self.now length }
    {
        match *self {
            Distance::Zero => true,
            Distance::Vertices(c, d) => !length.is_passed_by_square(length_of(c, d)),
            Distance::VertexAndEdge(c, a, b) => {
                !length.is_passed_by_quotient(distance_beside(a, b, c), length_of(a, b))
            }
            Distance::EdgeAndVertex(a, b, d) => {
                !length.is_passed_by_quotient(distance_beside(a, b, d), length_of(a, b))
            }
        }
    }
}

/// Whether there is a distance, and it is at most that length.
pub(crate) fn has_distance_within(distance: Option<Distance>, length: Length) -> bool
    ensures { (S T : List Pair) → MatchOption distance ((S ≡ []) ⊎ (T ≡ [])) (λ found. IsDistance S T found)
        → ReturnsWithin result length S T }
{
    match distance {
        Some(found) => found.is_within_distance(length),
        None => false,
    }
}

impl<'a> Polygon<'a> {
    /// Whether the distance of this hull and `other` is at most that length; false if either is empty. The cost is that
    /// of [`Polygon::distance`].
    pub fn is_within_distance(&self, other: &Polygon, length: Length) -> bool
        ensures { HoldsOfBoth (vertices_of self.now) (vertices_of other.now) (λ S T. ReturnsWithin result length S T) }
    {
        has_distance_within(self.distance(other), length)
    }
}
