//! Products of numbers of 128 bits, compared exactly.
ghost use Rattle.std.specs.Prelude.{◌≡◌, ◌<◌, ◌≤◌, ◌+◌, ◌-◌, ◌*◌, ◌↔◌, IsTrue};
ghost use Rattle.first_meeting.specs.Words.{HasWords, number_of, word};

/// The base of words, 2^64.
const WORD: u128 = 18446744073709551616;

/// A number in four words.
#[derive(Clone, Copy)]
struct Words {
    fourth: u128,
    third: u128,
    second: u128,
    first: u128,
}

/// Returns the words of a number, the higher and the lower one.
fn two_words(number: u128) -> (u64, u64)
    ensures { result.0 * word + result.1 ≡ number }
{
    ((number / WORD) as u64, (number % WORD) as u64)
}

/// Returns the product of two words.
fn product_of_words(a: u64, b: u64) -> u128
    ensures value { result ≡ a * b }
    ensures size { result ≤ (word - 1) * (word - 1) }
{
    u128::from(a) * u128::from(b)
}

/// Returns the product of two words plus the carry, the higher and the lower word.
fn product_and_carried(a: u64, b: u64, carried: u128) -> (u128, u128)
    requires { carried < word }
    ensures value { result.0 * word + result.1 ≡ a * b + carried }
    ensures higher { result.0 < word }
    ensures lower { result.1 < word }
{
    let sum = product_of_words(a, b) + carried;
    (sum / WORD, sum % WORD)
}

/// Returns the product of two words, the higher and the lower one, and a third, from the highest word to the lowest.
fn times_word(high: u64, low: u64, by: u64) -> (u128, u128, u128)
    ensures value { (result.0 * word + result.1) * word + result.2 ≡ (high * word + low) * by }
    ensures third { result.0 < word }
    ensures second { result.1 < word }
    ensures first { result.2 < word }
{
    let (carried, first) = product_and_carried(low, by, 0);
    let (third, second) = product_and_carried(high, by, carried);
    (third, second, first)
}

/// Returns the sum of two products, the second of which is one word higher.
fn sum_of_shifted(below: (u128, u128, u128), above: (u128, u128, u128)) -> Words
    requires third { below.0 < word }
    requires second { below.1 < word }
    requires first { below.2 < word }
    requires higher_third { above.0 < word }
    requires higher_second { above.1 < word }
    requires higher_first { above.2 < word }
    ensures value { number_of result
        ≡ ((above.0 * word + above.1) * word + above.2) * word + ((below.0 * word + below.1) * word + below.2) }
    ensures words { HasWords result }
{
    let second = below.1 + above.2;
    let third = below.0 + above.1 + second / WORD;
    Words {
        fourth: above.0 + third / WORD,
        third: third % WORD,
        second: second % WORD,
        first: below.2,
    }
}

/// Returns the product of two numbers.
fn product(a: u128, b: u128) -> Words
    ensures value { number_of result ≡ a * b }
    ensures words { HasWords result }
{
    let (high, low) = two_words(a);
    let (by_high, by_low) = two_words(b);
    let below = times_word(high, low, by_low);
    let above = times_word(high, low, by_high);
    sum_of_shifted(below, above)
}

/// Whether one number is less than another.
fn is_less(u: Words, v: Words) -> bool
    requires first { HasWords u }
    requires second { HasWords v }
    ensures { IsTrue result ↔ (number_of u < number_of v) }
{
    if u.fourth != v.fourth {
        u.fourth < v.fourth
    } else if u.third != v.third {
        u.third < v.third
    } else if u.second != v.second {
        u.second < v.second
    } else {
        u.first < v.first
    }
}

/// Whether the product of the first two numbers is less than that of the others.
pub(crate) fn is_product_less(a: u128, b: u128, c: u128, d: u128) -> bool
    ensures { IsTrue result ↔ (a * b < c * d) }
{
    is_less(product(a, b), product(c, d))
}
