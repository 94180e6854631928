//! The order of points by comparisons of which none waits for another's outcome, for a way down that no branch predicts.
ghost use Rattle.std.specs.Prelude.{◌≡◌, ◌<ℤ◌, ◌↔◌, IsTrue};
ghost use Rattle.lattice.specs.Plane.{IsBefore};

use lattice::Point;

/// Whether the x of `p` is less than that of `q`.
#[inline(always)]
fn has_less_x(p: Point, q: Point) -> bool
    ensures { IsTrue result ↔ (p.x <ℤ q.x) }
{
    p.x() < q.x()
}

/// Whether the x of both is the same.
#[inline(always)]
fn has_same_x(p: Point, q: Point) -> bool
    ensures { IsTrue result ↔ (p.x ≡ q.x) }
{
    p.x() == q.x()
}

/// Whether the y of `p` is less than that of `q`.
#[inline(always)]
fn has_less_y(p: Point, q: Point) -> bool
    ensures { IsTrue result ↔ (p.y <ℤ q.y) }
{
    p.y() < q.y()
}

/// Whether `p` is before `q`, as [`before`](lattice::before).
#[inline(always)]
pub(crate) fn is_before(p: Point, q: Point) -> bool
    ensures { IsTrue result ↔ IsBefore p q }
{
    has_less_x(p, q) | (has_same_x(p, q) & has_less_y(p, q))
}
