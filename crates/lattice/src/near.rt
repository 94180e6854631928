//! Sides of points near the origin, multiplied in 64 bits.
ghost use Rattle.std.specs.Prelude.{◌≡◌, ◌↔◌, ◌*◌, ◌+ℤ◌, ◌-ℤ◌, ◌*ℤ◌, IsTrue};
ghost use Rattle.lattice.specs.Plane as plane;
ghost use Rattle.lattice.specs.Plane.{IsWithin, IsNear, nearest, widest_side};

use super::NEAR_LIMIT;
use super::point::Point;

/// Whether both coordinates are at most [`NEAR_LIMIT`] in size.
pub fn is_near(p: Point) -> bool
    ensures { IsTrue result ↔ IsNear p }
{
    -NEAR_LIMIT <= p.x() && p.x() <= NEAR_LIMIT && -NEAR_LIMIT <= p.y() && p.y() <= NEAR_LIMIT
}

/// Returns the product of two numbers, which fits.
fn multiplied(a: i64, b: i64) -> i64
    requires { IsWithin (4 * (nearest * nearest)) (a *ℤ b) }
    ensures value { result ≡ a *ℤ b }
    ensures size { IsWithin (4 * (nearest * nearest)) result }
{
    a * b
}

/// Returns (u - v) * (p - q), of four coordinates of near points.
fn product_of_differences(u: i64, v: i64, p: i64, q: i64) -> i64
    requires first { IsWithin nearest u }
    requires second { IsWithin nearest v }
    requires third { IsWithin nearest p }
    requires fourth { IsWithin nearest q }
    ensures value { result ≡ (u -ℤ v) *ℤ (p -ℤ q) }
    ensures size { IsWithin (4 * (nearest * nearest)) result }
{
    multiplied(u - v, p - q)
}

/// Returns u * p + v * q, of numbers whose products fit in 64 bits.
pub fn sum_of_near_products(u: i64, p: i64, v: i64, q: i64) -> i128
    requires first { IsWithin (4 * (nearest * nearest)) (u *ℤ p) }
    requires second { IsWithin (4 * (nearest * nearest)) (v *ℤ q) }
    ensures value { result ≡ u *ℤ p +ℤ v *ℤ q }
    ensures size { IsWithin widest_side result }
{
    let sum = multiplied(u, p) + multiplied(v, q);
    sum as i128
}

/// Returns what [`orient`](crate::orient) returns, of three near points: it multiplies in 64 bits, `orient` in 128.
#[tactic(auto, unfolding(crate::specs::Plane::orient))]
pub fn orient_near(a: Point, b: Point, c: Point) -> i128
    requires first { IsNear a }
    requires second { IsNear b }
    requires third { IsNear c }
    ensures value { result ≡ plane.orient a b c }
    ensures size { IsWithin widest_side result }
{
    let side = product_of_differences(b.x(), a.x(), c.y(), a.y())
        - product_of_differences(b.y(), a.y(), c.x(), a.x());
    side as i128
}
