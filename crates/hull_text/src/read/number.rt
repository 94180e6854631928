ghost use Rattle.std.specs.Prelude.{◌≡◌, ◌+◌, ◌*◌, ◌-◌, ◌≤◌, ◌^◌, ℕ, length};
ghost use Rattle.hull_text.specs.Number.{Returns, digits_after, number_of};
ghost use Rattle.hull_text.specs.Returned.{ReturnsNumber};

/// A field that should be a number.
#[derive(Clone, Copy, Debug, PartialEq, Eq)]
pub(crate) enum Number<N> {
    /// It spells none.
    Unspelled,
    Value(N),
    /// The number does not fit into the type.
    Huge,
}

// value * 10 + digit
fn with_digit(value: Option<u64>, digit: u8) -> Option<u64>
    ensures { (n : ℕ) → Returns (2 ^ 64) value n → Returns (2 ^ 64) result (n * 10 + digit) }
{
    value?.checked_mul(10)?.checked_add(u64::from(digit))
}

fn with_digit_wide(value: Option<u128>, digit: u8) -> Option<u128>
    ensures { (n : ℕ) → Returns (2 ^ 128) value n → Returns (2 ^ 128) result (n * 10 + digit) }
{
    value?.checked_mul(10)?.checked_add(u128::from(digit))
}

#[tactic(auto, unfolding(crate::specs::Number::digits_after))]
fn digits(field: &[u8]) -> Number<u64>
    ensures { ReturnsNumber (2 ^ 64) result (digits_after 0 field.now) }
{
    let mut value = Some(0u64);
    let mut rest = field;
    while let [b, after @ ..] = rest {
        if *b < b'0' || *b > b'9' {
            return Number::Unspelled;
        }
        value = with_digit(value, *b - b'0');
        rest = after;
    }
    match value {
        Some(n) => Number::Value(n),
        None => Number::Huge,
    }
}

#[tactic(auto, unfolding(crate::specs::Number::digits_after))]
fn digits_wide(field: &[u8]) -> Number<u128>
    ensures { ReturnsNumber (2 ^ 128) result (digits_after 0 field.now) }
{
    let mut value = Some(0u128);
    let mut rest = field;
    while let [b, after @ ..] = rest {
        if *b < b'0' || *b > b'9' {
            return Number::Unspelled;
        }
        value = with_digit_wide(value, *b - b'0');
        rest = after;
    }
    match value {
        Some(n) => Number::Value(n),
        None => Number::Huge,
    }
}

/// Returns the unsigned number that a field spells, if it has at most 64 bits.
#[tactic(auto, unfolding(crate::specs::Number::number_of, crate::specs::Number::digits_after))]
pub(crate) fn number_in(field: &[u8]) -> Number<u64>
    ensures { ReturnsNumber (2 ^ 64) result (number_of field.now) }
{
    match field {
        [] => Number::Unspelled,
        [b'0', _, ..] => Number::Unspelled,
        _ => digits(field),
    }
}

/// Returns the unsigned number that a field spells, if it has at most 128 bits.
#[tactic(auto, unfolding(crate::specs::Number::number_of, crate::specs::Number::digits_after))]
pub(crate) fn wide_number_in(field: &[u8]) -> Number<u128>
    ensures { ReturnsNumber (2 ^ 128) result (number_of field.now) }
{
    match field {
        [] | [b'0', _, ..] => Number::Unspelled,
        _ => digits_wide(field),
    }
}
