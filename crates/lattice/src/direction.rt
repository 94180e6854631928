ghost use Rattle.std.specs.Prelude.{◌≡◌, ◌↔◌, IfOk, Ok, Err, pos};
ghost use Rattle.lattice.specs.Plane.{IsCoordinate, IsZero};

use super::fault::LatticeFault;
use super::point::is_coordinate;
use std::marker::Model;

/// A direction in which points are compared: two components, each at most
/// [`COORDINATE_LIMIT`](crate::COORDINATE_LIMIT) in size and not both zero.
#[derive(Clone, Copy, PartialEq, Eq, Debug)]
pub struct Direction {
    dx: i64,
    dy: i64,
}

impl Model for Direction {
    ghost use Rattle.lattice.specs.Plane.{Pair, IsCoordinate, IsZero};

    ghost Value = { Pair };

    ghost view = { λ d. record { x = d.dx; y = d.dy } };

    ghost inverse = { λ d. record { dx = d.x; dy = d.y } };

    ghost invariant = { λ d. IsCoordinate d.dx × IsCoordinate d.dy × ¬ IsZero (record { x = d.dx; y = d.dy }) };
}

impl Direction {
    /// Returns the direction with two components. Fails with `OutOfRange` if one of them is too large, else with
    /// `ZeroDirection` if both are zero.
    pub fn new(dx: i64, dy: i64) -> Result<Direction, LatticeFault>
        ensures direction { IfOk result (λ d. d ≡ record { x = dx; y = dy }) }
        ensures in_range { IfOk result (λ _. IsCoordinate dx × IsCoordinate dy) }
        ensures nonzero { IfOk result (λ _. ¬ ((dx ≡ pos 0) × (dy ≡ pos 0))) }
        ensures out_of_range { (result ≡ Err LatticeFault.OutOfRange) ↔ ¬ (IsCoordinate dx × IsCoordinate dy) }
        ensures zero { (result ≡ Err LatticeFault.ZeroDirection) ↔ ((dx ≡ pos 0) × (dy ≡ pos 0)) }
    {
        if !is_coordinate(dx) || !is_coordinate(dy) {
            Err(LatticeFault::OutOfRange)
        } else if dx == 0 && dy == 0 {
            Err(LatticeFault::ZeroDirection)
        } else {
            Ok(Direction { dx, dy })
        }
    }

    /// Returns the first component.
    pub fn x(self) -> i64
        ensures value { result ≡ self.x }
        ensures range { IsCoordinate result }
        ensures nonzero { ¬ IsZero self }
    {
        self.dx
    }

    /// Returns the second component.
    pub fn y(self) -> i64
        ensures value { result ≡ self.y }
        ensures range { IsCoordinate result }
    {
        self.dy
    }
}
