//! Indices as the bits of a word.
ghost use Rattle.std.specs.Prelude.{◌≡◌, ◌⊎◌, ◌<◌, ◌≤◌, ◌+◌, ◌-◌, ◌*◌, ◌/◌, ◌%◌, ◌^◌, ◌↔◌, IsTrue};
ghost use Rattle.hull_buckets.specs.Masks.{AreApart, IsGap, lowest_of, highest_of};

/// Returns the lowest index of a mask that has one.
pub(crate) fn lowest(mask: u64) -> usize
    requires { 0 < mask }
    ensures value { result ≡ lowest_of mask }
    ensures within { result < 64 }
    ensures least { 2 ^ result ≤ mask }
    ensures none_below { mask % 2 ^ result ≡ 0 }
    ensures there { mask % 2 ^ (result + 1) ≡ 2 ^ result }
{
    mask.trailing_zeros() as usize
}

/// Returns the highest index of a mask that has one.
pub(crate) fn highest(mask: u64) -> usize
    requires { 0 < mask }
    ensures value { result ≡ highest_of mask }
    ensures within { result < 64 }
    ensures there { 2 ^ result ≤ mask }
    ensures none_above { mask < 2 ^ (result + 1) }
{
    63 - mask.leading_zeros() as usize
}

/// Returns the mask of one index.
pub(crate) fn bit(place: usize) -> u64
    requires { place < 64 }
    ensures { result ≡ 2 ^ place }
{
    1 << place
}

/// Returns the indices of a mask before one.
pub(crate) fn below(mask: u64, place: usize) -> u64
    requires { place < 64 }
    ensures { result ≡ mask % 2 ^ place }
{
    mask & (bit(place) - 1)
}

/// Returns the indices of a mask from one on, each moved up by one.
pub(crate) fn moved_up(mask: u64, place: usize) -> u64
    requires within { place < 64 }
    requires space { mask < 2 ^ 63 }
    ensures { result ≡ mask / 2 ^ place * 2 ^ (place + 1) }
{
    (mask - below(mask, place)) * 2
}

/// Returns the indices of a mask after one, each moved down by one.
pub(crate) fn moved_down(mask: u64, place: usize) -> u64
    requires { place < 64 }
    ensures { result ≡ mask / 2 ^ (place + 1) * 2 ^ place }
{
    mask >> place >> 1 << place
}

/// Whether a mask has an index.
pub(crate) fn has(mask: u64, place: usize) -> bool
    requires { place < 64 }
    ensures { IsTrue result ↔ (mask / 2 ^ place % 2 ≡ 1) }
{
    (mask >> place) & 1 == 1
}

/// Returns the mask of the first `count` indices.
pub(crate) fn first(count: usize) -> u64
    requires { count ≤ 64 }
    ensures { result ≡ 2 ^ count - 1 }
{
    if count == 64 {
        u64::MAX
    } else {
        bit(count) - 1
    }
}

/// Returns the index after the highest one of a mask; the first if it has none.
fn index_after(mask: u64) -> usize
    ensures all { mask < 2 ^ result }
    ensures next { (result ≡ 0) ⊎ (2 ^ (result - 1) ≤ mask) }
    ensures within { result ≤ 64 }
{
    if mask == 0 {
        return 0;
    }
    highest(mask) + 1
}

/// Returns the lowest index of a mask of `count` indices, or `count` if it has none.
fn ahead(mask: u64, count: usize) -> usize
    requires { mask < 2 ^ count }
    ensures none { mask % 2 ^ result ≡ 0 }
    ensures next { (result ≡ count) ⊎ (mask % 2 ^ (result + 1) ≡ 2 ^ result) }
    ensures within { result ≤ count }
{
    if mask == 0 {
        return count;
    }
    lowest(mask)
}

/// Returns those of the first `count` indices that are after all of `low` and before all of `high`.
#[tactic(none)]
pub(crate) fn between(low: u64, high: u64, count: usize) -> u64
    requires few { count ≤ 64 }
    requires apart { AreApart low high }
    requires low_within { low < 2 ^ count }
    requires high_within { high < 2 ^ count }
    ensures { IsGap low high count result }
{
    first(ahead(high, count)) - first(index_after(low))
}
