//! A guess at the root of a quotient. Nothing is proved of it: the caller tests it by products.
ghost use Rattle.std.specs.Prelude.{◌<◌, ◌≤◌};

use super::ratios::{Wide, quotient_by_power};
use std::num::{nearest_i64_to_f64, saturating_f64_to_u64};

/// 2^64.
const WORD: u128 = 18446744073709551616;

/// Returns a divisor of at most 84 bits, scaled to 64 bits and made odd, and how many bits it had.
fn normalized(divisor: u128) -> (u128, u32)
    ensures some { 0 < result.0 }
    ensures few { result.1 ≤ 84 }
{
    if divisor == 0 {
        return (1, 0);
    }
    let bits = divisor.ilog2() + 1;
    if bits > 84 {
        return (1, 0);
    }
    let scaled = if bits < 64 {
        divisor.wrapping_shl(64 - bits)
    } else {
        divisor >> (bits - 64)
    };
    (scaled / 2 * 2 + 1, bits)
}

/// Returns the double nearest to a number of 63 bits.
fn double_of(number: u64) -> f64 {
    nearest_i64_to_f64(number.cast_signed())
}

/// Returns about the root of the quotient of two numbers of 63 bits, times 2^53.
fn rough_root(number: u64, divisor: u64) -> u64 {
    let quotient = double_of(number) / double_of(divisor);
    saturating_f64_to_u64(quotient.sqrt() * 9007199254740992.0)
}

/// Returns how much a root is above the rough one, plus 8, rounded down, by the remainder that the square of that leaves, divided
/// by 2^64, and the divisor. (The added fraction keeps a whole number from being rounded to the one below it.)
fn excess_over(rough: u64, remainder: i64, divisor: u64) -> u64 {
    let slope = double_of(rough) * (double_of(divisor) / 4611686018427387904.0);
    saturating_f64_to_u64(nearest_i64_to_f64(remainder) / slope + 8.00390625)
}

/// Returns about the greatest whole number that is at most the root of a quotient, which is from 2^52 to 2^53: a root in doubles,
/// and one step of Newton's method with the remainder in whole numbers.
pub(crate) fn guess_root(number: Wide, divisor: u128) -> u128 {
    let (scaled, bits) = normalized(divisor);
    let leading = quotient_by_power(number, bits);
    let half = (scaled / 2 % WORD) as u64;
    let rough = rough_root((leading / 8796093022208 % WORD) as u64, half);
    let square = u128::from(rough).wrapping_mul(u128::from(rough));
    let remainder = leading
        .wrapping_mul(WORD)
        .wrapping_sub(square.wrapping_mul(scaled));
    let excess = excess_over(
        rough,
        ((remainder / WORD % WORD) as u64).cast_signed(),
        half,
    );
    u128::from(rough.wrapping_add(excess).wrapping_sub(8))
}
