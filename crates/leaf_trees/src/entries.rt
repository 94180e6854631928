//! Points in order, each with its multiplicity: made from points in any order, and merged.
ghost use Rattle.std.specs.Prelude.{◌≡◌, ◌≤◌, ◌<◌, ◌+◌, ◌⊎◌, ℕ, IfOk, IsTrue, false, length, vec_len, vec_capacity, Err};
ghost use Rattle.std.specs.List.{Contains};
ghost use Rattle.lattice.specs.Plane.{Pair, IsBefore};
ghost use Rattle.hull_set.specs.Held.{multiplicity_among};
ghost use Rattle.hull_set.specs.PointLists.{IsAscending};
ghost use Rattle.leaf_trees.specs.Entries.{several, IsMultiplicity, AreEntries, points_listed, multiplicity_listed, Precedes};

use super::fault::LoadFault;
use heap::Heap;
use hull_set::MULTIPLICITY_LIMIT;
use lattice::{Point, before};

/// Counts in an entry whose point is before none of the entries, which have capacity for one more: raises the multiplicity of the last one, or
/// appends the entry. Returns whether a point may have that multiplicity.
fn count_in(entries: &mut Vec<(Point, u32), Heap>, entry: (Point, u32)) -> bool
    requires entries { AreEntries entries.old.items }
    requires multiplicities { IsMultiplicity entry.1 }
    requires last { (t : Pair) → Contains (points_listed entries.old.items) t → ¬ IsBefore entry.0 t }
    requires space { vec_len entries.old < vec_capacity entries.old }
    ensures entries { AreEntries entries.new.items }
    ensures among { (t : Pair) → Contains (points_listed entries.new.items) t
        → Contains (points_listed entries.old.items) t ⊎ (t ≡ entry.0) }
    ensures multiplicities { IsTrue result
        → (q : Pair) → multiplicity_listed entries.new.items q ≡ multiplicity_listed entries.old.items q + several entry.1 entry.0 q }
    ensures too_often { result ≡ false → MULTIPLICITY_LIMIT < multiplicity_listed entries.old.items entry.0 + entry.1 }
    ensures short { vec_len entries.new ≤ vec_len entries.old + 1 }
    ensures capacity { vec_capacity entries.new ≡ vec_capacity entries.old }
{
    let Some(last) = entries.pop() else {
        entries.push_reserved(entry);
        return true;
    };
    if last.0 != entry.0 {
        entries.push_reserved(last);
        entries.push_reserved(entry);
        return true;
    }
    if last.1 > MULTIPLICITY_LIMIT - entry.1 {
        entries.push_reserved(last);
        return false;
    }
    entries.push_reserved((entry.0, last.1 + entry.1));
    true
}

/// Writes points in ascending order to the entries, each once with the number of times it is among them. Returns `false` if that is more often than a
/// point may be in a set.
fn counted(points: &[Point], entries: &mut Vec<(Point, u32), Heap>) -> bool
    requires ascending { IsAscending points.now }
    requires none { vec_len entries.old ≡ 0 }
    requires space { length points.now ≤ vec_capacity entries.old }
    ensures entries { AreEntries entries.new.items }
    ensures multiplicities { IsTrue result → (q : Pair) → multiplicity_listed entries.new.items q ≡ multiplicity_among points.now q }
    ensures too_often { result ≡ false → (q : Pair) × (MULTIPLICITY_LIMIT < multiplicity_among points.now q) }
{
    for i in 0..points.len() {
        if !count_in(entries, (points[i], 1)) {
            return false;
        }
    }
    true
}

/// Whether the first entry left of the first list comes next, of what is left of two lists of entries.
fn is_next(first: &[(Point, u32)], i: usize, second: &[(Point, u32)], j: usize) -> bool
    requires { (i < length first.now) ⊎ (j < length second.now) }
    ensures first { IsTrue result → Precedes first.now i second.now j }
    ensures second { result ≡ false → Precedes second.now j first.now i }
{
    if i >= first.len() {
        return false;
    }
    if j >= second.len() {
        return true;
    }
    !before(second[j].0, first[i].0)
}

/// Merges two lists of entries: the multiplicity of a point of both is the sum. Returns whether a point may have that multiplicity.
fn merged(
    first: &[(Point, u32)],
    second: &[(Point, u32)],
    entries: &mut Vec<(Point, u32), Heap>,
) -> bool
    requires first { AreEntries first.now }
    requires second { AreEntries second.now }
    requires none { vec_len entries.old ≡ 0 }
    requires space { length first.now + length second.now ≤ vec_capacity entries.old }
    ensures entries { AreEntries entries.new.items }
    ensures multiplicities { IsTrue result → (q : Pair) → multiplicity_listed entries.new.items q
        ≡ multiplicity_listed first.now q + multiplicity_listed second.now q }
    ensures too_often { result ≡ false → (q : Pair)
        × (MULTIPLICITY_LIMIT < multiplicity_listed first.now q + multiplicity_listed second.now q) }
{
    let (mut i, mut j) = (0, 0);
    while i < first.len() || j < second.len() {
        if is_next(first, i, second, j) {
            if !count_in(entries, first[i]) {
                return false;
            }
            i += 1;
        } else {
            if !count_in(entries, second[j]) {
                return false;
            }
            j += 1;
        }
    }
    true
}

/// Merges two lists of entries into one: the multiplicity of a point of both is the sum.
pub fn merged_entries(
    alloc: Heap,
    first: &[(Point, u32)],
    second: &[(Point, u32)],
) -> Result<Vec<(Point, u32), Heap>, LoadFault>
    requires first { AreEntries first.now }
    requires second { AreEntries second.now }
    ensures entries { IfOk result (λ entries. AreEntries entries.items) }
    ensures multiplicities { IfOk result (λ entries. (q : Pair) → multiplicity_listed entries.items q
        ≡ multiplicity_listed first.now q + multiplicity_listed second.now q) }
    ensures too_often { result ≡ Err LoadFault.TooMany → (q : Pair)
        × (MULTIPLICITY_LIMIT < multiplicity_listed first.now q + multiplicity_listed second.now q) }
{
    let mut entries = Vec::with_capacity(alloc, first.len() + second.len())?;
    if merged(first, second, &mut entries) {
        Ok(entries)
    } else {
        Err(LoadFault::TooMany)
    }
}

/// Makes entries from points in any order: sorted, each once with the number of times it is among them. Fails with `NoMemory` only if there are
/// points.
pub fn entries_of(alloc: Heap, points: &[Point]) -> Result<Vec<(Point, u32), Heap>, LoadFault>
    ensures entries { IfOk result (λ entries. AreEntries entries.items) }
    ensures multiplicities { IfOk result (λ entries. (q : Pair) → multiplicity_listed entries.items q ≡ multiplicity_among points.now q) }
    ensures too_often { result ≡ Err LoadFault.TooMany
        → (q : Pair) × (MULTIPLICITY_LIMIT < multiplicity_among points.now q) }
    ensures none { IfOk result (λ entries. length points.now ≡ 0 → length entries.items ≡ 0) }
    ensures refused { result ≡ Err LoadFault.NoMemory → 1 ≤ length points.now }
{
    if points.is_empty() {
        return Ok(Vec::new(alloc));
    }
    let mut sorted = Vec::from_slice(alloc, points)?;
    sorted.sort_unstable();
    let mut entries = Vec::with_capacity(alloc, sorted.len())?;
    if counted(&sorted, &mut entries) {
        Ok(entries)
    } else {
        Err(LoadFault::TooMany)
    }
}
