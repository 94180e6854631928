//! The two candidate lists of a set, and when they are rebuilt.
ghost use Rattle.std.specs.Prelude.{◌≡◌, ◌+◌, ◌≤◌, [], ℕ, length, List, OnOk};
ghost use Rattle.std.specs.List.{Contains};
ghost use Rattle.std.specs.Map.{keys_of};
ghost use Rattle.lattice.specs.Plane.{Pair};
ghost use Rattle.lattice.specs.Covers.{IsPointSet, with_point, without_point};
ghost use Rattle.hull_plain.specs.Drafts.{ScratchChainHasSpace, IsAsRoomy};
ghost use Rattle.hull_geometry.specs.Monotone.{AreCandidateListsOf};
ghost use Rattle.hull_plain.specs.ChainPairs.{CandidateListsHaveSpace};

use super::candidates::{put_on, renew, take_off};
use super::scratch_chain::ScratchChain;
use heap::Heap;
use lattice::{Point, Side};
use std::alloc::AllocError;
use std::collections::BTreeMap;
use tiered_list::TieredList;

/// The candidate lists of a set, and the number of changes since they were rebuilt.
///
/// They are built from slices of 2 * sqrt(n) points, of a set of n, and contain the chain of each slice. Adding a point
/// adds at most that point to them, and removing one may add the points that it had hidden. After some changes for each
/// slice they are rebuilt.
#[derive(Drop)]
pub(crate) struct CandidateLists {
    pub(crate) below: TieredList,
    pub(crate) above: TieredList,
    changes: usize,
}

impl CandidateLists {
    /// Returns the candidate lists of the empty set. Does not allocate.
    pub(crate) fn new(alloc: Heap) -> CandidateLists
        ensures { AreCandidateListsOf [] result.below.items result.above.items }
    {
        CandidateLists {
            below: TieredList::new(alloc),
            above: TieredList::new(alloc),
            changes: 0,
        }
    }

    /// Reserves capacity for the candidate lists of a set of `count` points.
    pub(crate) fn reserve(&mut self, count: usize) -> Result<(), AllocError>
        ensures same_below { self.new.below.items ≡ self.old.below.items }
        ensures same_above { self.new.above.items ≡ self.old.above.items }
        ensures space { OnOk result (CandidateListsHaveSpace self.new count) }
        ensures kept { (n : ℕ) → CandidateListsHaveSpace self.old n → CandidateListsHaveSpace self.new n }
    {
        self.below.reserve(count)?;
        self.above.reserve(count)
    }

    /// Updates the candidate lists after a new point `p` was added to the set, which is now `points`.
    pub(crate) fn add(
        &mut self,
        p: Point,
        points: &BTreeMap<Point, u16, Heap>,
        scratch_chain: &mut ScratchChain,
    )
        requires in_order { IsPointSet (keys_of points.now.entries) }
        requires candidate_lists { (S : List Pair) × AreCandidateListsOf S self.old.below.items self.old.above.items
            × (keys_of points.now.entries ≡ with_point p S)
            × CandidateListsHaveSpace self.old (length S + 1) × ScratchChainHasSpace scratch_chain.old (length S + 1) }
        requires absent_below { ¬ Contains self.old.below.items p }
        requires absent_above { ¬ Contains self.old.above.items p }
        ensures candidate_lists { AreCandidateListsOf (keys_of points.now.entries) self.new.below.items self.new.above.items }
        ensures kept { (n : ℕ) → CandidateListsHaveSpace self.old n → CandidateListsHaveSpace self.new n }
        ensures scratch_chain_space { IsAsRoomy scratch_chain.old scratch_chain.new }
    {
        let below = put_on(Side::Lower, &mut self.below, scratch_chain, p);
        let above = put_on(Side::Upper, &mut self.above, scratch_chain, p);
        self.note(below || above, points, scratch_chain);
    }

    /// Updates the candidate lists after `p` was removed from the set, which is now `points`.
    pub(crate) fn remove(
        &mut self,
        p: Point,
        points: &BTreeMap<Point, u16, Heap>,
        scratch_chain: &mut ScratchChain,
    )
        requires left { IsPointSet (keys_of points.now.entries) }
        requires candidate_lists { (S : List Pair) × IsPointSet S
            × AreCandidateListsOf S self.old.below.items self.old.above.items
            × (keys_of points.now.entries ≡ without_point p S) }
        requires space { CandidateListsHaveSpace self.old (length (keys_of points.now.entries)) }
        requires scratch_chain_space { ScratchChainHasSpace scratch_chain.old (length (keys_of points.now.entries)) }
        ensures candidate_lists { AreCandidateListsOf (keys_of points.now.entries) self.new.below.items self.new.above.items }
        ensures kept { (n : ℕ) → CandidateListsHaveSpace self.old n → CandidateListsHaveSpace self.new n }
        ensures scratch_chain_space { IsAsRoomy scratch_chain.old scratch_chain.new }
    {
        let run = run_of(points);
        let below = take_off(Side::Lower, &mut self.below, scratch_chain, p, points, run);
        let above = take_off(Side::Upper, &mut self.above, scratch_chain, p, points, run);
        self.note(below || above, points, scratch_chain);
    }

    /// Counts a change, and rebuilds the candidate lists if there were many.
    fn note(
        &mut self,
        changed: bool,
        points: &BTreeMap<Point, u16, Heap>,
        scratch_chain: &mut ScratchChain,
    )
        requires in_order { IsPointSet (keys_of points.now.entries) }
        requires candidate_lists { AreCandidateListsOf (keys_of points.now.entries) self.old.below.items self.old.above.items }
        requires space { CandidateListsHaveSpace self.old (length (keys_of points.now.entries)) }
        requires scratch_chain_space { ScratchChainHasSpace scratch_chain.old (length (keys_of points.now.entries)) }
        ensures candidate_lists { AreCandidateListsOf (keys_of points.now.entries) self.new.below.items self.new.above.items }
        ensures kept { (n : ℕ) → CandidateListsHaveSpace self.old n → CandidateListsHaveSpace self.new n }
        ensures scratch_chain_space { IsAsRoomy scratch_chain.old scratch_chain.new }
    {
        if !changed {
            return;
        }
        self.changes = self.changes.saturating_add(1);
        let run = run_of(points);
        if self.changes / 2 > run {
            self.changes = 0;
            renew(Side::Lower, &mut self.below, scratch_chain, points, run);
            renew(Side::Upper, &mut self.above, scratch_chain, points, run);
        }
    }
}

/// Returns the number of points of a slice, for the candidate lists of this set.
fn run_of(points: &BTreeMap<Point, u16, Heap>) -> usize {
    2 * points.len().isqrt()
}
