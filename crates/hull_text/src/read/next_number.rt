ghost use Rattle.std.specs.Prelude.{◌≡◌, ◌<◌, ◌∷◌, ◌^◌, [], ℕ, MatchOption, IfSome, Some, true};
ghost use Rattle.hull_text.specs.Number.{digits_after, number_of};
ghost use Rattle.hull_text.specs.Returned.{ReturnsNumber};
ghost use Rattle.hull_text.specs.Field.{fields_left, fields_of};

use super::field::{Rest, next_field};
use super::number::{Number, number_in};

/// A number from here on may not fit into 64 bits with another digit.
const SHORT: u64 = 100_000_000_000_000_000;

/// Whether digits are the one spelling of their number.
#[inline(always)]
#[tactic(auto, unfolding(crate::specs::Number::number_of))]
fn are_spelling(digits: &[u8]) -> bool
    ensures { (n : ℕ) → result ≡ true → digits_after 0 digits.now ≡ Some n → number_of digits.now ≡ Some n }
{
    !matches!(digits, [] | [b'0', _, ..])
}

/// Returns the first field of a text as a number, and the rest after it, in one pass over the field. `None` means
/// nothing: the field may spell no number, or one of more digits.
#[inline(always)]
#[tactic(auto, using(crate::proofs::Cut::cut_at, crate::proofs::Cut::cut_none))]
fn short_number(text: &[u8]) -> Option<(&[u8], u64, Rest<'_>)>
    ensures field { IfSome result (λ x. fields_of text.now ≡ x.0.now ∷ fields_left x.2) }
    ensures number { IfSome result (λ x. number_of x.0.now ≡ Some x.1) }
{
    let mut value = 0u64;
    for (i, b) in text.iter().enumerate() {
        if *b == b' ' {
            let (field, back) = text.split_at(i);
            let (_, after) = back.split_at(1);
            if are_spelling(field) {
                return Some((field, value, Some(after)));
            }
            return None;
        }
        if *b < b'0' || *b > b'9' || value >= SHORT {
            return None;
        }
        value = value * 10 + u64::from(*b - b'0');
    }
    if are_spelling(text) {
        Some((text, value, None))
    } else {
        None
    }
}

/// Does the same for any field, in one pass for the field and one for its digits.
#[cold]
#[inline(never)]
fn long_number(rest: Rest<'_>) -> Option<(&[u8], Number<u64>, Rest<'_>)>
    ensures { MatchOption result (fields_left rest.entry ≡ [])
        (λ x. (fields_left rest.entry ≡ x.0.now ∷ fields_left x.2) × ReturnsNumber (2 ^ 64) x.1 (number_of x.0.now)) }
{
    let (field, after) = next_field(rest)?;
    Some((field, number_in(field), after))
}

/// Returns the next field, the number that it should be, and the rest after it.
#[inline(always)]
pub(crate) fn next_number(rest: Rest<'_>) -> Option<(&[u8], Number<u64>, Rest<'_>)>
    ensures { MatchOption result (fields_left rest.entry ≡ [])
        (λ x. (fields_left rest.entry ≡ x.0.now ∷ fields_left x.2) × ReturnsNumber (2 ^ 64) x.1 (number_of x.0.now)) }
{
    if let Some((field, number, after)) = short_number(rest?) {
        return Some((field, Number::Value(number), after));
    }
    long_number(rest)
}
