//! Directions with small components: how far a step goes in one is computed in 64 bits, instead of 128.
ghost use Rattle.std.specs.Prelude.{◌≡◌, ◌↔◌, ◌^◌, ◌*ℤ◌, ◌+ℤ◌, ◌<ℤ◌, IsTrue, MatchOption};
ghost use Rattle.lattice.specs.Plane as plane;
ghost use Rattle.lattice.specs.Plane.{IsWithin, widest_side};

use super::vector::Vector;
use lattice::{Point, sum_of_near_products};
use std::marker::Model;

/// The size up to which a component is short: 2^20.
const SHORT_LIMIT: i64 = 1048576;

/// A direction with two short components.
#[derive(Clone, Copy)]
pub(crate) struct ShortVector {
    dx: i64,
    dy: i64,
}

impl Model for ShortVector {
    ghost use Rattle.std.specs.Prelude.{◌^◌};
    ghost use Rattle.lattice.specs.Plane.{Pair, IsWithin};

    ghost Value = { Pair };

    ghost view = { λ v. record { x = v.dx; y = v.dy } };

    ghost inverse = { λ v. record { dx = v.x; dy = v.y } };

    ghost invariant = { λ v. IsWithin (2 ^ 20) v.dx × IsWithin (2 ^ 20) v.dy };
}

/// Whether a component is short.
fn is_short(component: i64) -> bool
    ensures { IsTrue result ↔ IsWithin (2 ^ 20) component }
{
    -SHORT_LIMIT <= component && component <= SHORT_LIMIT
}

impl ShortVector {
    /// Returns the same direction, or `None` if a component is not short.
    pub(crate) fn of(d: Vector) -> Option<ShortVector>
        ensures { MatchOption result (¬ (IsWithin (2 ^ 20) d.x × IsWithin (2 ^ 20) d.y)) (λ short. short ≡ d) }
    {
        let (dx, dy) = (d.x(), d.y());
        if is_short(dx) && is_short(dy) {
            Some(ShortVector { dx, dy })
        } else {
            None
        }
    }

    /// Returns how far a step goes in this direction.
    fn along_step(self, step: Vector) -> i128
        ensures value { result ≡ self.x *ℤ step.x +ℤ self.y *ℤ step.y }
        ensures size { IsWithin widest_side result }
    {
        sum_of_near_products(self.dx, step.x(), self.dy, step.y())
    }

    /// Whether `p` lies less far than `q` in this direction.
    pub(crate) fn is_nearer(self, p: Point, q: Point) -> bool
        ensures { IsTrue result ↔ (plane.product self p <ℤ plane.product self q) }
    {
        self.along_step(Vector::step(q, p)) < 0
    }
}
