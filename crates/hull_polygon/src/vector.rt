//! Steps from one point to another, as directions with components up to 2^41.
ghost use Rattle.std.specs.Prelude.{◌≡◌, ◌↔◌, ◌*◌, ◌*ℤ◌, ◌+ℤ◌, pos, neg_ℤ, IsTrue, MatchOption};
ghost use Rattle.lattice.specs.Plane as plane;
ghost use Rattle.lattice.specs.Plane.{IsWithin, widest, widest_side};
ghost use Rattle.hull_polygon.specs.Steps.{step, left_of, turned_left, backward};

use lattice::{Direction, Point, difference, sum_of_products};
use std::marker::Model;

/// A direction: two components, each at most 2^41 in size, as the differences of coordinates are.
#[derive(Clone, Copy, PartialEq, Eq, Debug)]
pub struct Vector {
    dx: i64,
    dy: i64,
}

impl Model for Vector {
    ghost use Rattle.std.specs.Prelude.{◌*◌};
    ghost use Rattle.lattice.specs.Plane.{Pair, IsWithin, widest};

    ghost Value = { Pair };

    ghost view = { λ v. record { x = v.dx; y = v.dy } };

    ghost inverse = { λ v. record { dx = v.x; dy = v.y } };

    ghost invariant = { λ v. IsWithin (2 * widest) v.dx × IsWithin (2 * widest) v.dy };
}

/// The largest size of a component, 2^41.
const LARGEST: i64 = 2199023255552;

/// Whether a component is not too large.
fn is_component(component: i64) -> bool
    ensures { IsTrue result ↔ IsWithin (2 * widest) component }
{
    -LARGEST <= component && component <= LARGEST
}

impl Vector {
    /// Returns the direction with these components, or `None` if one is larger than 2^41.
    pub(crate) fn of(dx: i64, dy: i64) -> Option<Vector>
        ensures { MatchOption result (¬ (IsWithin (2 * widest) dx × IsWithin (2 * widest) dy))
            (λ d. d ≡ record { x = dx; y = dy }) }
    {
        if is_component(dx) && is_component(dy) {
            Some(Vector { dx, dy })
        } else {
            None
        }
    }

    /// Returns the same direction.
    pub(crate) fn along(d: Direction) -> Vector
        ensures { result ≡ d }
    {
        Vector {
            dx: d.x(),
            dy: d.y(),
        }
    }

    /// Returns the vector of no length.
    pub(crate) fn zero() -> Vector
        ensures { result ≡ record { x = pos 0; y = pos 0 } }
    {
        Vector { dx: 0, dy: 0 }
    }

    /// Returns the direction down.
    pub(crate) fn down() -> Vector
        ensures { result ≡ record { x = pos 0; y = neg_ℤ (pos 1) } }
    {
        Vector { dx: 0, dy: -1 }
    }

    /// Returns the direction up.
    pub(crate) fn up() -> Vector
        ensures { result ≡ record { x = pos 0; y = pos 1 } }
    {
        Vector { dx: 0, dy: 1 }
    }

    /// Returns the step from `a` to `b`.
    pub(crate) fn step(a: Point, b: Point) -> Vector
        ensures { result ≡ step a b }
    {
        Vector {
            dx: difference(b.x(), a.x()),
            dy: difference(b.y(), a.y()),
        }
    }

    /// Returns the step from `a` to `b`, rotated to the left by 90 degrees.
    pub(crate) fn left_of(a: Point, b: Point) -> Vector
        ensures { result ≡ left_of a b }
    {
        Vector {
            dx: difference(a.y(), b.y()),
            dy: difference(b.x(), a.x()),
        }
    }

    /// Returns the direction rotated to the left by 90 degrees.
    pub(crate) fn turned_left(self) -> Vector
        ensures { result ≡ turned_left self }
    {
        Vector {
            dx: -self.dy,
            dy: self.dx,
        }
    }

    /// Returns the square of its length.
    pub(crate) fn squared_length(self) -> i128
        ensures value { result ≡ self.x *ℤ self.x +ℤ self.y *ℤ self.y }
        ensures size { IsWithin widest_side result }
    {
        sum_of_products(self.x(), self.x(), self.y(), self.y())
    }

    /// Returns the opposite direction.
    pub(crate) fn back(self) -> Vector
        ensures { result ≡ backward self }
    {
        Vector {
            dx: -self.dx,
            dy: -self.dy,
        }
    }

    /// Returns the first component.
    pub fn x(self) -> i64
        ensures value { result ≡ self.x }
        ensures size { IsWithin (2 * widest) result }
    {
        self.dx
    }

    /// Returns the second component.
    pub fn y(self) -> i64
        ensures value { result ≡ self.y }
        ensures size { IsWithin (2 * widest) result }
    {
        self.dy
    }

    /// Returns how far `p` lies in this direction: the sum of the products of their components.
    #[tactic(auto, unfolding(lattice::specs::Plane::product))]
    pub fn product(self, p: Point) -> i128
        ensures value { result ≡ plane.product self p }
        ensures size { IsWithin widest_side result }
    {
        sum_of_products(self.x(), p.x(), self.y(), p.y())
    }

    /// Returns how far a step goes in this direction.
    pub(crate) fn along_step(self, step: Vector) -> i128
        ensures value { result ≡ self.x *ℤ step.x +ℤ self.y *ℤ step.y }
        ensures size { IsWithin widest_side result }
    {
        sum_of_products(self.x(), step.x(), self.y(), step.y())
    }
}
