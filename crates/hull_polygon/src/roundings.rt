//! A distance, which is a root, exactly enclosed by the two doubles next to it.
ghost use Rattle.std.specs.Prelude.{◌≡◌, ◌<◌, ◌≤◌, ◌+◌, ◌*◌, ◌^◌, IfSome};
ghost use Rattle.hull_polygon.specs.Roundings.{IsRounded, IsRoundedRoot, full};
ghost use Rattle.hull_polygon.specs.Squares.{AreSmall};
ghost use Rattle.hull_polygon.specs.Wide.{HasDigits, base, number_of};

use super::distance::Distance;
use super::factors::Factors;
use super::ratios::{Wide, four_times, full_times, is_less, square_times, three_digits};
use super::roots::guess_root;

/// 2^52, the least number of 53 bits, which is the precision of a double.
const FULL: u128 = 4503599627370496;

/// How many bits a digit has.
const DIGIT_BITS: u32 = 84;

/// The least shift that is greater than any distance needs: the squares of two distances that are not 0 differ by less than a
/// factor of 4^95.
const SHIFTS: u32 = 95;

/// A distance between two doubles: the greatest that is not above it and the least that is not below it, each a whole
/// number divided by a power of two. They are equal if the distance is a double; else no double is between them.
#[derive(Clone, Copy, PartialEq, Eq, Debug)]
pub struct Rounded {
    /// The lower one, times 2^shift: 0, or a number of 53 bits.
    pub lower: u64,
    /// The upper one, times 2^shift: the same as the lower one, or one more.
    pub upper: u64,
    /// The exponent of the power of two.
    pub shift: u32,
}

/// Returns a number times a power of two, as high a one as keeps it below 2^84, at most the given one, and the exponent that is
/// left.
fn raised(number: u128, exponent: u32) -> (u128, u32)
    requires { number < base }
    ensures value { result.0 * 2 ^ result.1 ≡ number * 2 ^ exponent }
    ensures digit { result.0 < base }
{
    let room = number.leading_zeros().saturating_sub(128 - DIGIT_BITS);
    let taken = exponent.min(room);
    if taken < DIGIT_BITS && number >> (DIGIT_BITS - taken) == 0 {
        (number << taken, exponent - taken)
    } else {
        (number, exponent)
    }
}

/// Returns the square of a distance times a power of four with this exponent, if it is below the limit.
fn raised_square(factors: Factors, shift: u32, limit: Wide) -> Option<Wide>
    requires small { AreSmall factors }
    requires limited { HasDigits limit }
    requires few { shift ≤ 95 }
    ensures { IfSome result (λ number. (number_of number ≡ factors.first * factors.second * 4 ^ shift) × HasDigits number
        × (number_of number < number_of limit)) }
{
    let (first, after_first) = raised(factors.first, 2 * shift);
    let (second, after_second) = raised(factors.second, after_first);
    let (power, rest) = raised(1, after_second);
    let number = three_digits(first, second, power);
    if rest == 0 && is_less(number, limit) {
        Some(number)
    } else {
        None
    }
}

/// Returns how many bits a number has.
fn bits_of(number: u128) -> u32 {
    128u32.wrapping_sub(number.leading_zeros())
}

/// Returns a guess at the exponent of the power of four times which the square has a root of 53 bits, or at the one before it.
fn guess_shift(factors: Factors) -> u32
    ensures { result ≤ 95 }
{
    let bits = bits_of(factors.first).wrapping_add(bits_of(factors.second));
    bits_of(factors.divisor)
        .wrapping_add(105)
        .saturating_sub(bits)
        .min(190)
        / 2
}

/// Returns a square times a power of four, below the limit, and the exponent of that power.
fn start_of(factors: Factors, limit: Wide) -> (Wide, u32)
    requires small { AreSmall factors }
    requires below { factors.first * factors.second < number_of limit }
    requires limited { HasDigits limit }
    ensures value { number_of result.0 ≡ factors.first * factors.second * 4 ^ result.1 }
    ensures digits { HasDigits result.0 }
    ensures to { number_of result.0 < number_of limit }
    ensures most { result.1 ≤ 95 }
{
    let shift = guess_shift(factors);
    match raised_square(factors, shift, limit) {
        Some(number) => (number, shift),
        None => (three_digits(factors.first, factors.second, 1), 0),
    }
}

/// Returns a square times a power of four, so large that its quotient by the divisor has a root of 53 bits, and the
/// exponent of that power.
fn scaled(factors: Factors) -> (Wide, u32)
    requires some { 0 < factors.first * factors.second }
    requires small { AreSmall factors }
    ensures value { number_of result.0 ≡ factors.first * factors.second * 4 ^ result.1 }
    ensures digits { HasDigits result.0 }
    ensures from { full * full * factors.divisor ≤ number_of result.0 }
    ensures to { number_of result.0 < 4 * (full * full * factors.divisor) }
{
    let least = full_times(factors.divisor);
    let (mut number, start) = start_of(factors, four_times(least));
    for shift in start..SHIFTS {
        if !is_less(number, least) {
            return (number, shift);
        }
        number = four_times(number);
    }
    unreachable!()
}

/// Returns two numbers of which the first is at most the root of a quotient, and the second is above it: those next to
/// the guess, if two products confirm it.
fn bracket(number: Wide, divisor: u128) -> (u128, u128)
    requires digits { HasDigits number }
    requires small { divisor < base }
    requires from { full * full * divisor ≤ number_of number }
    requires to { number_of number < 4 * (full * full * divisor) }
    ensures least { full ≤ result.0 }
    ensures ordered { result.0 < result.1 }
    ensures most { result.1 ≤ 2 * full }
    ensures below { result.0 * result.0 * divisor ≤ number_of number }
    ensures above { number_of number < result.1 * result.1 * divisor }
{
    let guess = guess_root(number, divisor);
    if guess <= FULL || guess >= 2 * FULL {
        return (FULL, 2 * FULL);
    }
    if is_less(number, square_times(guess, divisor)) {
        if is_less(number, square_times(guess - 1, divisor)) {
            (FULL, guess - 1)
        } else {
            (guess - 1, guess)
        }
    } else if is_less(number, square_times(guess + 1, divisor)) {
        (guess, guess + 1)
    } else {
        (guess + 1, 2 * FULL)
    }
}

/// Returns the greatest number whose square, times the divisor, is at most a number; it has 53 bits. If the guess is
/// right, one step of bisection is left, else up to 53.
fn root(number: Wide, divisor: u128) -> u64
    requires digits { HasDigits number }
    requires small { divisor < base }
    requires from { full * full * divisor ≤ number_of number }
    requires to { number_of number < 4 * (full * full * divisor) }
    ensures least { full ≤ result }
    ensures most { result < 2 * full }
    ensures below { result * result * divisor ≤ number_of number }
    ensures above { number_of number < (result + 1) * (result + 1) * divisor }
{
    let (mut low, mut high) = bracket(number, divisor);
    while low + 1 < high {
        let middle = low + (high - low) / 2;
        if is_less(number, square_times(middle, divisor)) {
            high = middle;
        } else {
            low = middle;
        }
    }
    low as u64
}

/// Returns the root of a quotient between two doubles.
fn rounded_root(factors: Factors) -> Rounded
    requires some { 0 < factors.first * factors.second }
    requires small { AreSmall factors }
    ensures { IsRoundedRoot (factors.first * factors.second) factors.divisor result }
{
    let (number, shift) = scaled(factors);
    let lower = root(number, factors.divisor);
    let square = square_times(u128::from(lower), factors.divisor);
    if is_less(square, number) {
        Rounded {
            lower,
            upper: lower + 1,
            shift,
        }
    } else {
        Rounded {
            lower,
            upper: lower,
            shift,
        }
    }
}

impl Distance {
    /// Returns this distance between the two doubles next to it. A root in doubles and one step of Newton's method in whole
    /// numbers guess it, and two or three products of 252 bits confirm it.
    pub fn rounded(&self) -> Rounded
        ensures { IsRounded self.now result }
    {
        let factors = self.factors();
        if factors.first == 0 || factors.second == 0 {
            Rounded {
                lower: 0,
                upper: 0,
                shift: 0,
            }
        } else {
            rounded_root(factors)
        }
    }
}
