//! The candidate list of a set on a side: some of its points, in order, such that each other point of the set lies
//! inwards of the segment between two consecutive ones. The chain is the candidate list with the fewest points. Longer
//! ones have fewer points of the set between two of their points, and these have to be visited if one is removed.
ghost use Rattle.std.specs.Prelude.{◌≡◌, ◌+◌, ◌<◌, ◌≤◌, ◌⊎◌, ◌++◌, List, length, take, drop};
ghost use Rattle.std.specs.List.{Contains};
ghost use Rattle.std.specs.Map.{keys_of};
ghost use Rattle.lattice.specs.Plane.{Pair};
ghost use Rattle.lattice.specs.Covers.{IsPointSet, with_point, without_point};
ghost use Rattle.hull_plain.specs.Drafts.{ScratchChainHasSpace, IsAsRoomy, drafted};
ghost use Rattle.hull_geometry.specs.Monotone.{IsCandidateListOf};
ghost use Rattle.hull_geometry.specs.Mending.{ThinsBetween};

use super::monotone::extend_behind;
use super::positions::position_of;
use super::repairing::{ahead, behind, is_inwards};
use super::scratch_chain::ScratchChain;
use heap::Heap;
use lattice::{Point, Side};
use std::collections::BTreeMap;
use tiered_list::TieredList;

/// Fills the scratch chain with the first points of a candidate list, up to index `at`, and then the points of a map
/// that are between these and the list's points from index `to` on, without those that lie inwards of others of them.
/// After each `run` of them the points so far stay, whatever follows: each such slice has a chain of its own.
fn fill(
    side: Side,
    points: &BTreeMap<Point, u16, Heap>,
    run: usize,
    candidates: &TieredList,
    scratch_chain: &mut ScratchChain,
    at: usize,
    to: usize,
)
    requires ordered { IsPointSet (keys_of points.now.entries) }
    requires order { at ≤ to }
    requires inside { to ≤ length candidates.now.items }
    requires set { IsPointSet (take at candidates.now.items ++ drop to candidates.now.items) }
    requires among { (t : Pair) → Contains (take at candidates.now.items ++ drop to candidates.now.items) t
        → Contains (keys_of points.now.entries) t }
    requires space { ScratchChainHasSpace scratch_chain.old (length (keys_of points.now.entries)) }
    ensures thinned { ThinsBetween side (keys_of points.now.entries) (take at candidates.now.items)
        (drop to candidates.now.items) (drafted candidates.now.items scratch_chain.new) }
    ensures within { scratch_chain.new.kept ≤ at }
    ensures space { IsAsRoomy scratch_chain.old scratch_chain.new }
{
    scratch_chain.start(at);
    let start = behind(candidates, at);
    let end = ahead(candidates, to);
    let mut fixed = 0;
    let mut left = run;
    for (point, _) in points.range((start, end)) {
        if left == 0 {
            fixed = scratch_chain.fresh_len();
            left = run;
        }
        let _stays = extend_behind(side, candidates, scratch_chain, Some(fixed), *point);
        left = left.saturating_sub(1);
    }
}

/// Updates the candidate list after a new point `p` was added to its set. Returns whether the list changed.
pub(crate) fn put_on(
    side: Side,
    candidates: &mut TieredList,
    scratch_chain: &mut ScratchChain,
    p: Point,
) -> bool
    requires ordered { IsPointSet candidates.old.items }
    requires absent { ¬ Contains candidates.old.items p }
    requires space { length candidates.old.items + 1 ≤ candidates.old.space }
    requires scratch_chain_space { ScratchChainHasSpace scratch_chain.old (length candidates.old.items + 1) }
    ensures candidates { (S : List Pair) → IsCandidateListOf side S candidates.old.items
        → IsCandidateListOf side (with_point p S) candidates.new.items }
    ensures candidates_space { candidates.new.space ≡ candidates.old.space }
    ensures space { IsAsRoomy scratch_chain.old scratch_chain.new }
{
    let Err(i) = position_of(candidates, p) else {
        unreachable!()
    };
    if is_inwards(side, candidates, i, p) {
        return false;
    }
    scratch_chain.start(i);
    scratch_chain.push(p);
    scratch_chain.write(candidates, i);
    true
}

/// Updates the candidate list after `p` was removed from its set, whose remaining points are `points`. If `p` was on
/// the list, the points between its neighbours are visited. Returns whether the list changed.
pub(crate) fn take_off(
    side: Side,
    candidates: &mut TieredList,
    scratch_chain: &mut ScratchChain,
    p: Point,
    points: &BTreeMap<Point, u16, Heap>,
    run: usize,
) -> bool
    requires ordered { IsPointSet candidates.old.items }
    requires left { IsPointSet (keys_of points.now.entries) }
    requires among { (t : Pair) → Contains candidates.old.items t → (t ≡ p) ⊎ Contains (keys_of points.now.entries) t }
    requires space { length (keys_of points.now.entries) ≤ candidates.old.space }
    requires scratch_chain_space { ScratchChainHasSpace scratch_chain.old (length (keys_of points.now.entries)) }
    ensures candidates { (S : List Pair) → IsPointSet S → IsCandidateListOf side S candidates.old.items
        → keys_of points.now.entries ≡ without_point p S
        → IsCandidateListOf side (keys_of points.now.entries) candidates.new.items }
    ensures candidates_space { candidates.new.space ≡ candidates.old.space }
    ensures space { IsAsRoomy scratch_chain.old scratch_chain.new }
{
    let Ok(i) = position_of(candidates, p) else {
        return false;
    };
    fill(side, points, run, candidates, scratch_chain, i, i + 1);
    scratch_chain.write(candidates, i + 1);
    true
}

/// Rebuilds a candidate list of a set, in one pass over all of its points.
pub(crate) fn renew(
    side: Side,
    candidates: &mut TieredList,
    scratch_chain: &mut ScratchChain,
    points: &BTreeMap<Point, u16, Heap>,
    run: usize,
)
    requires ordered { IsPointSet (keys_of points.now.entries) }
    requires space { length (keys_of points.now.entries) ≤ candidates.old.space }
    requires scratch_chain_space { ScratchChainHasSpace scratch_chain.old (length (keys_of points.now.entries)) }
    ensures candidates { IsCandidateListOf side (keys_of points.now.entries) candidates.new.items }
    ensures candidates_space { candidates.new.space ≡ candidates.old.space }
    ensures space { IsAsRoomy scratch_chain.old scratch_chain.new }
{
    let len = candidates.len();
    fill(side, points, run, candidates, scratch_chain, 0, len);
    scratch_chain.write(candidates, len);
}
