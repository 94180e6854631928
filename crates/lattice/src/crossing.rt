ghost use Rattle.std.specs.Prelude.{◌≡◌, ◌↔◌, ◌*◌, IsTrue, pos, ◌<ℤ◌, ◌+ℤ◌, ◌-ℤ◌, ◌*ℤ◌};
ghost use Rattle.lattice.specs.Plane as plane;
ghost use Rattle.lattice.specs.Plane.{IsBefore, IsWithin, widest, widest_side};
ghost use Rattle.lattice.specs.Crossing.{IsCrossingAtOrBefore, IsWeightedAtOrBefore};

use super::compare::orient;
use super::point::Point;
use super::wide::multiplied;

/// Returns u * (p - r) + v * (q - r), of two sides and three coordinates.
fn weighted(u: i128, p: i64, v: i128, q: i64, r: i64) -> i128
    requires first { IsWithin widest_side u }
    requires second { IsWithin widest_side v }
    requires third { IsWithin widest p }
    requires fourth { IsWithin widest q }
    requires fifth { IsWithin widest r }
    ensures { result ≡ u *ℤ (p -ℤ r) +ℤ v *ℤ (q -ℤ r) }
{
    multiplied(u, (p - r) as i128) + multiplied(v, (q - r) as i128)
}

/// Whether the point u*d + v*c, divided by u + v, is before m or is m. It does not divide: it tests the sign of
/// u*(d - m) + v*(c - m), first in x, and in y only if that is zero.
/// For callers that already have the two sides of a crossing.
pub fn weighted_at_or_before(u: i128, v: i128, c: Point, d: Point, m: Point) -> bool
    requires first { IsWithin widest_side u }
    requires second { IsWithin widest_side v }
    ensures { IsTrue result ↔ IsWeightedAtOrBefore u v c d m }
{
    let x = weighted(u, d.x(), v, c.x(), m.x());
    if x < 0 {
        return true;
    }
    if x > 0 {
        return false;
    }
    weighted(u, d.y(), v, c.y(), m.y()) <= 0
}

/// Whether the crossing of the lines ab and cd is before m or is m.
/// The crossing is (s1*d + s2*c) / (s1 + s2), where s1 is the side of c as seen from ab, and s2 that of d as seen from
/// ba. The requirements make s1 + s2 positive, and the point is on both lines
/// ([`crossing_is_on_both_lines`](crate::crossing_is_on_both_lines)).
pub fn crossing_at_or_before(a: Point, b: Point, c: Point, d: Point, m: Point) -> bool
    requires first { IsBefore a b }
    requires second { IsBefore b c }
    requires third { IsBefore c d }
    requires under_first { plane.orient a b c <ℤ pos 0 }
    requires under_second { plane.orient b c d <ℤ pos 0 }
    ensures { IsTrue result ↔ IsCrossingAtOrBefore a b c d m }
{
    weighted_at_or_before(orient(a, b, c), orient(b, a, d), c, d, m)
}
