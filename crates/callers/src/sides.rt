//! A caller of `lattice`.
ghost use Rattle.std.specs.Prelude.{◌↔◌, pos, ◌<ℤ◌, IsTrue, MatchOption};
ghost use Rattle.lattice.specs.Plane.{IsCoordinate, orient};

use lattice::{Point, orient};

/// Returns the point of two coordinates from outside; `None` if one is out of range.
pub fn point_at(x: i64, y: i64) -> Option<Point>
    ensures { MatchOption result (¬ (IsCoordinate x × IsCoordinate y)) (λ _. IsCoordinate x × IsCoordinate y) }
{
    match Point::new(x, y) {
        Ok(p) => Some(p),
        Err(_) => None,
    }
}

/// Whether a path over three points bends left at the second.
pub fn lies_left(a: Point, b: Point, c: Point) -> bool
    ensures { IsTrue result ↔ (pos 0 <ℤ orient a b c) }
{
    orient(a, b, c) > 0
}
