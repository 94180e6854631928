//! Sets that list their points, and are made from such a list.
ghost use Rattle.std.specs.Prelude.{◌≡◌, ◌≢◌, ◌≤◌, ◌+◌, ◌++◌, ℕ, List, [], Err, IfOk, IfErr, length, take, vec_len, vec_capacity};
ghost use Rattle.lattice.specs.Plane.{Pair};
ghost use Rattle.hull_set.specs.Held.{nothing_held, multiplicity_among};
ghost use Rattle.leaf_trees.specs.Entries.{AreEntries, AreTooMany, held_after_adds, held_listed};
ghost use Rattle.leaf_trees.specs.ChainRanges.{IsChainRange, entries_from};

use super::adding::add_each;
use super::entries::{entries_of, merged_entries};
use super::fault::LoadFault;
use heap::Heap;
use hull_set::{HullSet, NoMemory, POINT_LIMIT};
use lattice::Point;

/// A set that lists its points in order, each with its multiplicity, and is made from such a list at once.
pub trait Listed: HullSet + Drop {
    /// If the new points are at least one in this many of the set's points, the set is built anew for them.
    const SHARE: usize;

    ghost SHARE: { ℕ };

    ghost listed: { Self → List (Pair × ℕ) };

    /// Returns the allocator of the set.
    fn alloc(&self) -> Heap;

    /// The law of such a set: its list is what it contains.
    fn lists_are_sound(&self)
        ensures sound { Self.sound self.now }
        ensures entries { AreEntries (listed self.now) }
        ensures held { held_listed (listed self.now) ≡ Self.held self.now };

    /// Appends all points, each with its multiplicity, to entries with capacity for them.
    fn push_entries(&self, entries: &mut Vec<(Point, u32), Heap>)
        requires { vec_len entries.old + length (Self.held self.now).points ≤ vec_capacity entries.old }
        ensures { entries.new.items ≡ entries.old.items ++ listed self.now };

    /// Appends the points that are not before `start`, each with its multiplicity, until there are `most` entries.
    fn push_from(&self, start: Point, most: usize, entries: &mut Vec<(Point, u32), Heap>)
        requires few { vec_len entries.old ≤ most }
        requires space { most ≤ vec_capacity entries.old }
        ensures { entries.new.items ≡ take most (entries.old.items ++ entries_from start (listed self.now)) };

    /// Makes the set of some points in order, each with its multiplicity, for up to `limit` points, in a small part of the time of adding them one by
    /// one. Fails with `NoMemory` only if there are points, and leaves nothing allocated.
    fn from_entries(alloc: Heap, limit: u32, entries: &[(Point, u32)]) -> Result<Self, NoMemory>
        requires high { limit ≤ POINT_LIMIT }
        requires low { 1 ≤ limit }
        requires space { length entries.now ≤ limit }
        requires entries { AreEntries entries.now }
        ensures held { IfOk result (λ set. Self.held set ≡ held_listed entries.now) }
        ensures limit { IfOk result (λ set. Self.bound set ≡ limit) }
        ensures sound { IfOk result (λ set. Self.sound set) }
        ensures refused { IfErr result (λ _. 1 ≤ length entries.now) };

    ghost some_share: { 1 ≤ SHARE };

    /// Makes the set of some points in any order, for up to `limit` points; the multiplicity of each is the number of times it is among them. The
    /// result is the same as after adding them one by one, in a small part of the time. Fails with `TooMany` if adding them would, and with
    /// `NoMemory` only if there are points; an error leaves nothing allocated.
    final fn from_points(alloc: Heap, limit: u32, points: &[Point]) -> Result<Self, LoadFault>
        requires high { limit ≤ POINT_LIMIT }
        requires low { 1 ≤ limit }
        ensures held { IfOk result (λ set. Self.held set ≡ held_after_adds nothing_held points.now) }
        ensures multiplicities { IfOk result (λ set. (q : Pair) → (Self.held set).multiplicities q ≡ multiplicity_among points.now q) }
        ensures limit { IfOk result (λ set. Self.bound set ≡ limit) }
        ensures sound { IfOk result (λ set. Self.sound set) }
        ensures too_many { result ≡ Err LoadFault.TooMany → AreTooMany nothing_held points.now limit }
        ensures refused { result ≡ Err LoadFault.NoMemory → 1 ≤ length points.now }
    {
        let entries = entries_of(alloc, points)?;
        if entries.len() > limit as usize {
            return Err(LoadFault::TooMany);
        }
        Ok(Self::from_entries(alloc, limit, &entries)?)
    }

    /// Returns the points in order, each with its multiplicity. Fails with `NoMemory` only if there are points.
    final fn entries(&self) -> Result<Vec<(Point, u32), Heap>, NoMemory>
        ensures entries { IfOk result (λ entries. AreEntries entries.items) }
        ensures held { IfOk result (λ entries. held_listed entries.items ≡ Self.held self.now) }
        ensures refused { IfErr result (λ _. (Self.held self.now).points ≢ []) }
    {
        self.lists_are_sound();
        let count = self.count() as usize;
        if count == 0 {
            return Ok(Vec::new(self.alloc()));
        }
        let mut entries = Vec::with_capacity(self.alloc(), count)?;
        self.push_entries(&mut entries);
        Ok(entries)
    }

    /// Returns the first `most` points that are not before `start`, in order, each with its multiplicity. With it you can read all points a piece at
    /// a time: each piece starts after the last point of the one before. Fails with `NoMemory` only if there are points.
    final fn entries_from(
        &self,
        start: Point,
        most: usize,
    ) -> Result<Vec<(Point, u32), Heap>, NoMemory>
        ensures chain_range { IfOk result (λ entries. IsChainRange (Self.held self.now) start most entries.items) }
        ensures refused { IfErr result (λ _. (Self.held self.now).points ≢ []) }
    {
        self.lists_are_sound();
        let count = self.count() as usize;
        if count == 0 {
            return Ok(Vec::new(self.alloc()));
        }
        let space = most.min(count);
        let mut entries = Vec::with_capacity(self.alloc(), space)?;
        self.push_from(start, space, &mut entries);
        Ok(entries)
    }

    /// Adds points in any order, all or none of them; the result is the same as after adding them one by one. If they are at least one in
    /// [`SHARE`](Listed::SHARE) of the set's points, a new set is built while the old one still exists; otherwise they are added one by one. Fails
    /// with `TooMany` if adding them would, and with `NoMemory` only if there are points; an error leaves the set unchanged.
    final fn extend(&mut self, points: &[Point]) -> Result<(), LoadFault>
        ensures held { IfOk result (λ _. Self.held self.new ≡ held_after_adds (Self.held self.old) points.now) }
        ensures fault { IfErr result (λ _. Self.held self.new ≡ Self.held self.old) }
        ensures too_many { result ≡ Err LoadFault.TooMany
            → AreTooMany (Self.held self.old) points.now (Self.bound self.old) }
        ensures refused { result ≡ Err LoadFault.NoMemory → 1 ≤ length points.now }
        ensures limit { Self.bound self.new ≡ Self.bound self.old }
        ensures sound { Self.sound self.new }
    {
        self.lists_are_sound();
        if points.is_empty() {
            return Ok(());
        }
        if points.len() < self.count() as usize / Self::SHARE {
            add_each(self, points)
        } else {
            extend_anew(self, points)
        }
    }
}

/// Adds points, all or none of them: builds a new set from the points of both while the old one still exists.
fn extend_anew<S: Listed>(set: &mut S, points: &[Point]) -> Result<(), LoadFault>
    ensures held { IfOk result (λ _. S.held set.new ≡ held_after_adds (S.held set.old) points.now) }
    ensures fault { IfErr result (λ _. set.new ≡ set.old) }
    ensures too_many { result ≡ Err LoadFault.TooMany → AreTooMany (S.held set.old) points.now (S.bound set.old) }
    ensures limit { S.bound set.new ≡ S.bound set.old }
    ensures sound { S.sound set.new }
{
    set.lists_are_sound();
    let limit = set.limit();
    let added = entries_of(set.alloc(), points)?;
    let held = set.entries()?;
    let entries = merged_entries(set.alloc(), &held, &added)?;
    if entries.len() > limit as usize {
        return Err(LoadFault::TooMany);
    }
    *set = S::from_entries(set.alloc(), limit, &entries)?;
    Ok(())
}
