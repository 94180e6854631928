//! Comparison of fractions whose numbers do not fit in 128 bits.
ghost use Rattle.std.specs.Prelude.{◌≡◌, ◌↔◌, IsTrue, ◌<◌, ◌≤◌, ◌+◌, ◌*◌, ◌^◌};
ghost use Rattle.hull_polygon.specs.Wide.{HasDigits, base, number_of};

/// 2^42: two digits to this base are one to the base 2^84.
const HALF: u128 = 4398046511104;

/// The base of the digits, 2^84.
const BASE: u128 = 19342813113834066795298816;

/// A number of three digits to the base 2^84.
#[derive(Clone, Copy)]
pub(crate) struct Wide {
    high: u128,
    middle: u128,
    low: u128,
}

/// Returns the product of a half digit and a digit.
fn half_product(a: u128, b: u128) -> u128
    requires first { a < 2 ^ 42 }
    requires second { b < base }
    ensures value { result ≡ a * b }
    ensures size { result < 2 ^ 126 }
{
    a * b
}

/// Returns the product of two digits, the upper and the lower digit.
pub(crate) fn two_digits(a: u128, b: u128) -> (u128, u128)
    requires first { a < base }
    requires second { b < base }
    ensures value { a * b ≡ result.0 * base + result.1 }
    ensures upper { result.0 < base }
    ensures lower { result.1 < base }
{
    let upper = half_product(a / HALF, b);
    let lower = half_product(a % HALF, b);
    let rest = upper % HALF * HALF + lower;
    (upper / HALF + rest / BASE, rest % BASE)
}

/// Returns the product of three digits.
pub(crate) fn three_digits(a: u128, b: u128, c: u128) -> Wide
    requires first { a < base }
    requires second { b < base }
    requires third { c < base }
    ensures value { number_of result ≡ a * b * c }
    ensures digits { HasDigits result }
{
    let (upper, lower) = two_digits(a, b);
    let (high, above) = two_digits(upper, c);
    let (below, low) = two_digits(lower, c);
    let middle = above + below;
    Wide {
        high: high + middle / BASE,
        middle: middle % BASE,
        low,
    }
}

/// Returns the square of a number of at most 54 bits times a digit.
pub(crate) fn square_times(root: u128, by: u128) -> Wide
    requires short { root < 2 ^ 54 }
    requires digit { by < base }
    ensures value { number_of result ≡ root * root * by }
    ensures digits { HasDigits result }
{
    let square = root * root;
    let (above, low) = two_digits(square % BASE, by);
    let middle = half_product(square / BASE, by) + above;
    Wide {
        high: middle / BASE,
        middle: middle % BASE,
        low,
    }
}

/// Returns 2^104 times a digit.
pub(crate) fn full_times(by: u128) -> Wide
    requires digit { by < base }
    ensures value { number_of result ≡ 2 ^ 104 * by }
    ensures digits { HasDigits result }
{
    let shifted = by * 1048576;
    Wide {
        high: shifted / BASE,
        middle: shifted % BASE,
        low: 0,
    }
}

/// Returns four times a number.
pub(crate) fn four_times(w: Wide) -> Wide
    requires digits { HasDigits w }
    requires small { number_of w < 2 ^ 250 }
    ensures value { number_of result ≡ 4 * number_of w }
    ensures digits { HasDigits result }
{
    let low = 4 * w.low;
    let middle = 4 * w.middle + low / BASE;
    Wide {
        high: 4 * w.high + middle / BASE,
        middle: middle % BASE,
        low: low % BASE,
    }
}

/// Returns a number divided by 2 to this exponent, the lowest 128 bits of the quotient.
pub(crate) fn quotient_by_power(w: Wide, exponent: u32) -> u128
    requires { exponent ≤ 84 }
{
    let upper = w.high.wrapping_shl(84) | w.middle;
    upper.wrapping_shl(84 - exponent) | w.low >> exponent
}

/// Whether one number is less than another.
pub(crate) fn is_less(u: Wide, v: Wide) -> bool
    requires first { HasDigits u }
    requires second { HasDigits v }
    ensures { IsTrue result ↔ (number_of u < number_of v) }
{
    if u.high != v.high {
        u.high < v.high
    } else if u.middle != v.middle {
        u.middle < v.middle
    } else {
        u.low < v.low
    }
}

/// Whether the square of `a`, divided by `b`, is less than the square of `c`, divided by `d`, of numbers below 2^84. It
/// does not divide.
pub(crate) fn is_less_ratio(a: u128, b: u128, c: u128, d: u128) -> bool
    requires first { a < base }
    requires second { b < base }
    requires third { c < base }
    requires fourth { d < base }
    ensures { IsTrue result ↔ (a * a * d < c * c * b) }
{
    is_less(three_digits(a, a, d), three_digits(c, c, b))
}
