//! Squared distances as fractions in words of 64 bits, and their comparison.
ghost use Rattle.std.specs.Prelude.{◌≡◌, ◌<◌, ◌≤◌, ◌+◌, ◌*◌, ◌-◌, ◌↔◌, IsTrue};
ghost use Rattle.hull_polygon.specs.Squares.{HasWords, IsSquareOf, ReturnsNearer, ReturnsOrder};
ghost use Rattle.hull_polygon.specs.Squares.{denominator_of, number_of_words, numerator_of, word};
ghost use Rattle.hull_polygon.specs.Wide.{base};

use super::distance::Distance;
use super::ratios::two_digits;
use std::cmp::Ordering;

/// The base of words, 2^64.
const WORD: u128 = 18446744073709551616;

/// 2^84, the base of digits, divided by the base of words.
const DIGIT: u128 = 1048576;

/// The base of words, divided by that.
const REST: u128 = 17592186044416;

/// A squared distance: a fraction of two whole numbers in words of 64 bits, not in lowest terms.
#[derive(Clone, Copy, PartialEq, Eq, Debug)]
pub struct SquaredDistance {
    /// The highest word of the numerator,
    pub high: u64,
    /// the next one,
    pub middle: u64,
    /// and the lowest.
    pub low: u64,
    /// The higher word of the denominator,
    pub divisor_high: u64,
    /// and the lower one.
    pub divisor_low: u64,
}

/// A number in five words, the highest of which may be of any size.
#[derive(Clone, Copy)]
pub(crate) struct Words {
    fifth: u128,
    fourth: u128,
    third: u128,
    second: u128,
    first: u128,
}

/// Returns the words of a number, the higher and the lower one.
fn two_words(number: u128) -> (u64, u64)
    ensures { result.0 * word + result.1 ≡ number }
{
    ((number / WORD) as u64, (number % WORD) as u64)
}

/// Returns the words of a number of two digits, from the highest to the lowest.
fn three_words(upper: u128, lower: u128) -> (u64, u64, u64)
    requires first { upper < base }
    requires second { lower < base }
    ensures { (result.0 * word + result.1) * word + result.2 ≡ upper * base + lower }
{
    let middle = upper % REST * DIGIT + lower / WORD;
    ((upper / REST) as u64, middle as u64, (lower % WORD) as u64)
}

/// Returns the product of two numbers, divided by a third.
pub(crate) fn fraction(a: u128, b: u128, divisor: u128) -> SquaredDistance
    requires first { a < base }
    requires second { b < base }
    ensures numerator { numerator_of result ≡ a * b }
    ensures denominator { denominator_of result ≡ divisor }
{
    let (upper, lower) = two_digits(a, b);
    let (high, middle, low) = three_words(upper, lower);
    let (divisor_high, divisor_low) = two_words(divisor);
    SquaredDistance {
        high,
        middle,
        low,
        divisor_high,
        divisor_low,
    }
}

/// Returns the product of two words.
fn product_of_words(a: u64, b: u64) -> u128
    ensures value { result ≡ a * b }
    ensures size { result ≤ (word - 1) * (word - 1) }
{
    u128::from(a) * u128::from(b)
}

/// Returns the product of two words plus the carry, the higher and the lower word.
fn product_and_carried(a: u64, b: u64, carried: u128) -> (u128, u128)
    requires { carried < word }
    ensures value { result.0 * word + result.1 ≡ a * b + carried }
    ensures higher { result.0 < word }
    ensures lower { result.1 < word }
{
    let sum = product_of_words(a, b) + carried;
    (sum / WORD, sum % WORD)
}

/// Returns the numerator times a word, from the highest word to the lowest.
fn times_word(n: &SquaredDistance, by: u64) -> (u128, u128, u128, u128)
    ensures value { ((result.0 * word + result.1) * word + result.2) * word + result.3 ≡ numerator_of n.now * by }
    ensures fourth { result.0 < word }
    ensures third { result.1 < word }
    ensures second { result.2 < word }
    ensures first { result.3 < word }
{
    let (carried, first) = product_and_carried(n.low, by, 0);
    let (above, second) = product_and_carried(n.middle, by, carried);
    let (fourth, third) = product_and_carried(n.high, by, above);
    (fourth, third, second, first)
}

/// Returns the sum of two products, the second of which is one word higher.
fn sum_of_shifted(below: (u128, u128, u128, u128), above: (u128, u128, u128, u128)) -> Words
    requires fourth { below.0 < word }
    requires third { below.1 < word }
    requires second { below.2 < word }
    requires first { below.3 < word }
    requires higher_fourth { above.0 < word }
    requires higher_third { above.1 < word }
    requires higher_second { above.2 < word }
    requires higher_first { above.3 < word }
    ensures value { number_of_words result
        ≡ (((above.0 * word + above.1) * word + above.2) * word + above.3) * word
        + (((below.0 * word + below.1) * word + below.2) * word + below.3) }
    ensures words { HasWords result }
{
    let second = below.2 + above.3;
    let third = below.1 + above.2 + second / WORD;
    let fourth = below.0 + above.1 + third / WORD;
    Words {
        fifth: above.0 + fourth / WORD,
        fourth: fourth % WORD,
        third: third % WORD,
        second: second % WORD,
        first: below.3,
    }
}

/// Returns the numerator of the one times the denominator of the other.
fn product(n: &SquaredDistance, d: &SquaredDistance) -> Words
    ensures value { number_of_words result ≡ numerator_of n.now * denominator_of d.now }
    ensures words { HasWords result }
{
    let below = times_word(n, d.divisor_low);
    let above = times_word(n, d.divisor_high);
    sum_of_shifted(below, above)
}

/// Whether one number is less than another.
fn is_less(u: Words, v: Words) -> bool
    requires first { HasWords u }
    requires second { HasWords v }
    ensures { IsTrue result ↔ (number_of_words u < number_of_words v) }
{
    if u.fifth != v.fifth {
        u.fifth < v.fifth
    } else if u.fourth != v.fourth {
        u.fourth < v.fourth
    } else if u.third != v.third {
        u.third < v.third
    } else if u.second != v.second {
        u.second < v.second
    } else {
        u.first < v.first
    }
}

/// Returns the order of two numbers.
fn order(u: Words, v: Words) -> Ordering
    requires first { HasWords u }
    requires second { HasWords v }
    ensures { ReturnsOrder (number_of_words u) (number_of_words v) result }
{
    if is_less(u, v) {
        Ordering::Less
    } else if is_less(v, u) {
        Ordering::Greater
    } else {
        Ordering::Equal
    }
}

impl SquaredDistance {
    /// Returns the order of this fraction and the other, exactly: it compares the products of the one's numerator with
    /// the other's denominator, in 320 bits. Fractions that are equal may have different words.
    pub fn compare(&self, other: &SquaredDistance) -> Ordering
        ensures { ReturnsOrder (numerator_of self.now * denominator_of other.now) (numerator_of other.now * denominator_of self.now)
            result }
    {
        order(product(self, other), product(other, self))
    }
}

impl Distance {
    /// Returns the square of this distance.
    pub fn squared(&self) -> SquaredDistance
        ensures { IsSquareOf self.now result }
    {
        let factors = self.factors();
        fraction(factors.first, factors.second, factors.divisor)
    }

    /// Returns the order of this distance and the other, exactly.
    pub fn compare(&self, other: &Distance) -> Ordering
        ensures { ReturnsNearer self.now other.now result }
    {
        self.squared().compare(&other.squared())
    }
}
