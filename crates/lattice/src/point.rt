ghost use Rattle.std.specs.Prelude.{◌≡◌, ◌≢◌, ◌↔◌, IfOk, IsTrue, Ok, Err};
ghost use Rattle.lattice.specs.Plane.{IsCoordinate, IsInRange, turned_point};

use super::COORDINATE_LIMIT;
use super::fault::LatticeFault;
use std::marker::Model;

/// A point with two coordinates, each at most [`COORDINATE_LIMIT`] in size. Its layout is that of C, so that arrays of
/// points can be borrowed from C.
#[derive(Clone, Copy, PartialEq, Eq, PartialOrd, Ord, Debug)]
#[repr(C)]
pub struct Point {
    x: i64,
    y: i64,
}

impl Model for Point {
    ghost use Rattle.lattice.specs.Plane.{Pair, IsCoordinate};

    ghost Value = { Pair };

    ghost view = { λ p. record { x = p.x; y = p.y } };

    ghost inverse = { λ p. record { x = p.x; y = p.y } };

    ghost invariant = { λ p. IsCoordinate p.x × IsCoordinate p.y };
}

/// Whether a number may be a coordinate.
pub(crate) fn is_coordinate(number: i64) -> bool
    ensures { IsTrue result ↔ IsCoordinate number }
{
    -COORDINATE_LIMIT <= number && number <= COORDINATE_LIMIT
}

impl Point {
    /// Returns the point with two coordinates. Fails with `OutOfRange` if one of them is too large.
    pub fn new(x: i64, y: i64) -> Result<Point, LatticeFault>
        ensures point { IfOk result (λ p. p ≡ record { x = x; y = y }) }
        ensures in_range { IfOk result (λ _. IsCoordinate x × IsCoordinate y) }
        ensures out_of_range { (result ≡ Err LatticeFault.OutOfRange) ↔ ¬ (IsCoordinate x × IsCoordinate y) }
        ensures other_fault { result ≢ Err LatticeFault.ZeroDirection }
    {
        if is_coordinate(x) && is_coordinate(y) {
            Ok(Point { x, y })
        } else {
            Err(LatticeFault::OutOfRange)
        }
    }

    /// Returns the first coordinate.
    pub fn x(self) -> i64
        ensures value { result ≡ self.x }
        ensures range { IsCoordinate result }
    {
        self.x
    }

    /// Returns the second coordinate.
    pub fn y(self) -> i64
        ensures value { result ≡ self.y }
        ensures range { IsCoordinate result }
    {
        self.y
    }

    /// Returns the point after a rotation by 180 degrees about the origin: both coordinates negated.
    pub fn turned(self) -> Point
        ensures { result ≡ turned_point self }
    {
        Point {
            x: -self.x,
            y: -self.y,
        }
    }
}
