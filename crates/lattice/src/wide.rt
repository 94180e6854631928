//! Differences of coordinates, and sums of two products of such differences, in 128 bits, for coordinates up to 2^40.
ghost use Rattle.std.specs.Prelude.{◌≡◌, ◌^◌, ◌*◌, ◌+ℤ◌, ◌-ℤ◌, ◌*ℤ◌};
ghost use Rattle.lattice.specs.Plane.{IsWithin, widest, widest_side};

/// Returns the difference of two coordinates.
pub fn difference(a: i64, b: i64) -> i64
    requires first { IsWithin widest a }
    requires second { IsWithin widest b }
    ensures value { result ≡ a -ℤ b }
    ensures size { IsWithin (2 * widest) result }
{
    a - b
}

/// Returns the product of two numbers, which fits.
pub(crate) fn multiplied(a: i128, b: i128) -> i128
    requires { IsWithin (2 ^ 125) (a *ℤ b) }
    ensures value { result ≡ a *ℤ b }
    ensures size { IsWithin (2 ^ 125) result }
{
    a * b
}

/// Returns (u - v) * (p - q), of four coordinates: two subtractions of 64 bits and one product of 128.
pub(crate) fn product_of_differences(u: i64, v: i64, p: i64, q: i64) -> i128
    requires first { IsWithin widest u }
    requires second { IsWithin widest v }
    requires third { IsWithin widest p }
    requires fourth { IsWithin widest q }
    ensures value { result ≡ (u -ℤ v) *ℤ (p -ℤ q) }
    ensures size { IsWithin (4 * (widest * widest)) result }
{
    multiplied((u - v) as i128, (p - q) as i128)
}

/// Returns u * p + v * q, of numbers no larger than differences of coordinates.
pub fn sum_of_products(u: i64, p: i64, v: i64, q: i64) -> i128
    requires first { IsWithin (2 * widest) u }
    requires second { IsWithin (2 * widest) p }
    requires third { IsWithin (2 * widest) v }
    requires fourth { IsWithin (2 * widest) q }
    ensures value { result ≡ u *ℤ p +ℤ v *ℤ q }
    ensures size { IsWithin widest_side result }
{
    multiplied(u as i128, p as i128) + multiplied(v as i128, q as i128)
}
