//! Repair of the chain of a set that changed: it is rebuilt from where it changed up to where it is as it was.
ghost use Rattle.std.specs.Prelude.{◌≡◌, ◌+◌, ◌-◌, ◌<◌, ◌≤◌, ◌⊎◌, ◌++◌, Err, List, IsTrue, ◌↔◌, length, take, drop, slice_range};
ghost use Rattle.std.specs.List.{All, Contains};
ghost use Rattle.lattice.specs.Plane.{Pair, IsBefore};
ghost use Rattle.lattice.specs.Covers.{IsPointSet, with_point, without_point};
ghost use Rattle.hull_plain.specs.Drafts.{ScratchChainHasSpace, IsAsRoomy};
ghost use Rattle.hull_geometry.specs.Monotone.{IsStrict, IsChainOf, IsCandidateListOf};
ghost use Rattle.hull_geometry.specs.Mending.{IsOverEdge, IsBetween};
ghost use Rattle.hull_geometry.specs.Positions.{IsPositionOf};
ghost use Rattle.hull_plain.specs.Bounds.{IsBehind, IsAhead};

use super::monotone::{extend, pass_over, take_up};
use super::positions::{count_up_to, first_not_before, position_of};
use super::scratch_chain::ScratchChain;
use lattice::{Point, Side, orient_on};
use std::ops::Bound;
use tiered_list::TieredList;

/// Returns the bound for points that are after the first points of a chain.
pub(crate) fn behind(chain: &TieredList, i: usize) -> Bound<Point>
    requires { i ≤ length chain.now.items }
    ensures { IsBehind (take i chain.now.items) result }
{
    if i == 0 {
        Bound::Unbounded
    } else {
        Bound::Excluded(chain.get(i - 1))
    }
}

/// Returns the bound for points that are before the points of a chain from an index on.
pub(crate) fn ahead(chain: &TieredList, i: usize) -> Bound<Point>
    requires { i ≤ length chain.now.items }
    ensures { IsAhead (drop i chain.now.items) result }
{
    if i == chain.len() {
        Bound::Unbounded
    } else {
        Bound::Excluded(chain.get(i))
    }
}

/// Whether a point with this position is between two points of a chain, and not outwards of their segment.
pub(crate) fn is_inwards(side: Side, chain: &TieredList, i: usize, p: Point) -> bool
    requires { i ≤ length chain.now.items }
    ensures { IsTrue result ↔ IsOverEdge side chain.now.items i p }
{
    if i == 0 || i == chain.len() {
        return false;
    }
    orient_on(side, chain.get(i - 1), p, chain.get(i)) <= 0
}

/// Returns the number of points up to the last of the first points of a chain.
fn passed_by(points: &TieredList, chain: &TieredList, i: usize) -> usize
    requires ordered { IsPointSet points.now.items }
    requires chain_ordered { IsPointSet (take i chain.now.items) }
    requires inside { i ≤ length chain.now.items }
    ensures within { result ≤ length points.now.items }
    ensures passed { (t : Pair) → Contains (take result points.now.items) t
        → ¬ (All (λ u. IsBefore u t) (take i chain.now.items)) }
    ensures to_come { (t : Pair) → Contains (drop result points.now.items) t
        → All (λ u. IsBefore u t) (take i chain.now.items) }
{
    if i == 0 {
        0
    } else {
        count_up_to(points, chain.get(i - 1))
    }
}

/// Returns the first index, from one on, whose point is not before the points of a chain from an index on.
fn short_of(points: &TieredList, from: usize, chain: &TieredList, i: usize) -> usize
    requires ordered { IsPointSet points.now.items }
    requires chain_ordered { IsPointSet (drop i chain.now.items) }
    requires from { from ≤ length points.now.items }
    requires inside { i ≤ length chain.now.items }
    ensures order { from ≤ result }
    ensures within { result ≤ length points.now.items }
    ensures before { (t : Pair) → Contains (take (result - from) (drop from points.now.items)) t
        → All (IsBefore t) (drop i chain.now.items) }
    ensures beyond { (t : Pair) → Contains (drop result points.now.items) t
        → ¬ (All (IsBefore t) (drop i chain.now.items)) }
{
    if i == chain.len() {
        points.len()
    } else {
        first_not_before(points, from, chain.get(i))
    }
}

/// Returns the range of indices of the points that are between the neighbours of an index of a chain.
fn between(points: &TieredList, chain: &TieredList, i: usize) -> (usize, usize)
    requires ordered { IsPointSet points.now.items }
    requires inside { i < length chain.now.items }
    requires few { i < usize.MAX }
    requires set { IsPointSet (take i chain.now.items ++ drop (i + 1) chain.now.items) }
    ensures order { result.0 ≤ result.1 }
    ensures within { result.1 ≤ length points.now.items }
    ensures between { IsBetween points.now.items (take i chain.now.items) (drop (i + 1) chain.now.items)
        (slice_range points.now.items result.0 result.1) }
{
    let from = passed_by(points, chain, i);
    let to = short_of(points, from, chain, i + 1);
    (from, to)
}

/// Updates the chain after a new point `p`, which has the position `i` in it, was added to its set: the points that no
/// longer lie outwards are removed.
pub(crate) fn put_in_at(
    side: Side,
    chain: &mut TieredList,
    scratch_chain: &mut ScratchChain,
    i: usize,
    p: Point,
)
    requires strict { IsStrict side chain.old.items }
    requires position { IsPositionOf chain.old.items p (Err i) }
    requires space { length chain.old.items + 1 ≤ chain.old.space }
    requires scratch_chain_space { ScratchChainHasSpace scratch_chain.old (length chain.old.items + 1) }
    ensures chain { (S : List Pair) → IsChainOf side S chain.old.items
        → IsChainOf side (with_point p S) chain.new.items }
    ensures chain_space { chain.new.space ≡ chain.old.space }
    ensures space { IsAsRoomy scratch_chain.old scratch_chain.new }
{
    if is_inwards(side, chain, i, p) {
        return;
    }
    scratch_chain.start(i);
    let _stays = extend(side, chain, scratch_chain, p);
    let to = take_up(side, chain, scratch_chain, i);
    scratch_chain.write(chain, to);
}

/// Updates the chain after a new point `p` was added to its set.
pub(crate) fn put_in(side: Side, chain: &mut TieredList, scratch_chain: &mut ScratchChain, p: Point)
    requires strict { IsStrict side chain.old.items }
    requires absent { ¬ Contains chain.old.items p }
    requires space { length chain.old.items + 1 ≤ chain.old.space }
    requires scratch_chain_space { ScratchChainHasSpace scratch_chain.old (length chain.old.items + 1) }
    ensures chain { (S : List Pair) → IsChainOf side S chain.old.items
        → IsChainOf side (with_point p S) chain.new.items }
    ensures chain_space { chain.new.space ≡ chain.old.space }
    ensures space { IsAsRoomy scratch_chain.old scratch_chain.new }
{
    let Err(i) = position_of(chain, p) else {
        unreachable!()
    };
    put_in_at(side, chain, scratch_chain, i, p);
}

/// Updates the chain after `p` was removed from its set `S`, which now has this candidate list. If `p` was on the
/// chain, the pass goes over only the points of the candidate list between its neighbours.
pub(crate) fn drain(
    side: Side,
    chain: &mut TieredList,
    scratch_chain: &mut ScratchChain,
    p: Point,
    candidates: &TieredList,
)
    requires strict { IsStrict side chain.old.items }
    requires left { IsPointSet candidates.now.items }
    requires among { (t : Pair) → Contains chain.old.items t → (t ≡ p) ⊎ Contains candidates.now.items t }
    requires space { length candidates.now.items ≤ chain.old.space }
    requires scratch_chain_space { ScratchChainHasSpace scratch_chain.old (length candidates.now.items) }
    ensures chain { (S : List Pair) → IsPointSet S → IsChainOf side S chain.old.items
        → IsCandidateListOf side (without_point p S) candidates.now.items → IsChainOf side (without_point p S) chain.new.items }
    ensures chain_space { chain.new.space ≡ chain.old.space }
    ensures space { IsAsRoomy scratch_chain.old scratch_chain.new }
{
    let Ok(i) = position_of(chain, p) else {
        return;
    };
    let (from, before) = between(candidates, chain, i);
    scratch_chain.start(i);
    pass_over(side, chain, scratch_chain, candidates, from, before);
    let to = take_up(side, chain, scratch_chain, i + 1);
    scratch_chain.write(chain, to);
}
