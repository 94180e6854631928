//! Renewing forks from the top down after a point was added below them. A bridge of which the point is not clear ends at it, and its other end is in
//! the half to which it was not added; so no fork waits for those below it, and the way down is a loop.
ghost use Rattle.std.specs.Prelude.{◌≡◌, ◌≤◌, ◌+◌, ◌*◌, ◌↔◌, IsTrue, true, false, not, List};
ghost use Rattle.lattice.specs.Plane.{Pair, IsBefore};
ghost use Rattle.lattice.specs.declared.side.Side.{Side};
ghost use Rattle.bucket_tree.specs.Changes.{HasEdgesAfter, HasEnds, IsBridgeBetween, IsClearOf, IsEndUnlessClear, IsSameBut, change_of, edge_on};
ghost use Rattle.bucket_tree.specs.Halves.{half_of};
ghost use Rattle.bucket_tree.specs.InPlace.{HasChanged, HasChangedBelow, IsChangeable};
ghost use Rattle.bucket_tree.specs.Nodes.{ends_in, node_height};
ghost use Rattle.bucket_tree.specs.TopDown.{HasSubstitute, IsToRenewOver, WereEnds};
ghost use Rattle.bucket_tree.specs.Turns.{most_turns};
ghost use Rattle.bucket_tree.specs.declared.node.Node.{Node};

use crate::bridge_to_added::search_to_added;
use crate::node::{Ends, Fork, Node};
use crate::order::is_before;
use crate::renewal::{Changed, is_inner, is_inwards};
use lattice::{Point, Side, before};

/// Whether a point is clear of an edge on a side: no end of it, and inner to it.
#[inline(always)]
fn is_clear(side: Side, edge: &(Point, Point), p: Point) -> bool
    ensures { IsTrue result ↔ IsClearOf side edge.now p }
{
    if is_inwards(side, edge, p) {
        return true;
    }
    if !is_inner(side, edge, p) {
        return false;
    }
    before(edge.0, p) && before(p, edge.1)
}

/// Returns the earlier one of two points.
fn earlier(p: Point, q: Point) -> Point
    ensures first { IsBefore p q → result ≡ p }
    ensures second { ¬ IsBefore p q → result ≡ q }
{
    if before(p, q) { p } else { q }
}

/// Returns the later one of two points.
fn later(p: Point, q: Point) -> Point
    ensures second { IsBefore p q → result ≡ q }
    ensures first { ¬ IsBefore p q → result ≡ p }
{
    if before(p, q) { q } else { p }
}

/// Moves the ends of the points of a half outwards to a point that was added to them.
fn extend(ends: &mut Ends, p: Point)
    ensures { (S : List Pair) → WereEnds p ends.old S → ends.new ≡ ends_in S }
{
    *ends = Ends {
        first: earlier(ends.first, p),
        last: later(p, ends.last),
    };
}

/// Renews the edge of a fork on a side, after a point was added to one half: if the point is not clear of it, the new one ends there. An unaffected
/// chain is skipped. Returns the turns of the search.
#[inline(always)]
fn renew_edge_to_added(side: Side, fork: &mut Fork, is_left: bool, p: Point, at_issue: bool) -> u32
    requires half { HasSubstitute is_left fork.old }
    requires unaffected { at_issue ≡ false → IsBridgeBetween side fork.old.left fork.old.right (edge_on side fork.old) }
    requires clear { IsClearOf side (edge_on side fork.old) p → IsBridgeBetween side fork.old.left fork.old.right (edge_on side fork.old) }
    requires end { IsEndUnlessClear (change_of is_left true) side p fork.old.left fork.old.right (edge_on side fork.old) }
    ensures same { IsSameBut side fork.old fork.new }
    ensures bridge { IsBridgeBetween side fork.new.left fork.new.right (edge_on side fork.new) }
    ensures turns { result ≤ node_height (half_of (not is_left) fork.old) + 6 }
{
    if !at_issue {
        return 0;
    }
    if is_clear(side, fork.edge(side), p) {
        return 0;
    }
    let (edge, turns) = search_to_added(side, fork, is_left, p);
    fork.set_edge(side, edge);
    turns
}

/// Renews the ends that a fork stores of the half to which a point was added, unless the point is known to be between two others there.
#[inline(always)]
fn extend_half(fork: &mut Fork, is_left: bool, p: Point, change: &Changed)
    requires { IsToRenewOver is_left p change.now fork.old }
    ensures ends { HasEnds fork.old.left fork.old.right fork.new }
    ensures left { fork.new.left ≡ fork.old.left }
    ensures right { fork.new.right ≡ fork.old.right }
    ensures edges { (side : Side) → edge_on side fork.new ≡ edge_on side fork.old }
{
    if change.is_between {
        return;
    }
    if is_left {
        extend(&mut fork.left_ends, p);
    } else {
        extend(&mut fork.right_ends, p);
    }
}

/// Renews the edges of a fork on the affected chains, after a point was added to one half. Returns the turns of the searches.
#[inline(always)]
fn renew_edges_to_added(fork: &mut Fork, is_left: bool, p: Point, change: &Changed) -> u32
    requires half { HasSubstitute is_left fork.old }
    requires edges { HasEdgesAfter p change.now.sides fork.old }
    requires end { (side : Side) → IsEndUnlessClear (change_of is_left true) side p fork.old.left fork.old.right (edge_on side fork.old) }
    requires low { node_height (half_of (not is_left) fork.old) ≤ 28 }
    requires ends { HasEnds fork.old.left fork.old.right fork.old }
    ensures edges { (side : Side) → IsBridgeBetween side fork.new.left fork.new.right (edge_on side fork.new) }
    ensures left { fork.new.left ≡ fork.old.left }
    ensures right { fork.new.right ≡ fork.old.right }
    ensures ends { HasEnds fork.new.left fork.new.right fork.new }
    ensures turns { result ≤ 2 * node_height (half_of (not is_left) fork.old) + 12 }
{
    let upper = renew_edge_to_added(Side::Upper, fork, is_left, p, change.sides.upper);
    let lower = renew_edge_to_added(Side::Lower, fork, is_left, p, change.sides.lower);
    upper + lower
}

/// Renews a fork to one half of which a point was added, the left one or else the right one; the forks of that half need not be renewed. Returns the
/// turns of the searches.
#[inline(always)]
fn renew_fork_to_added(fork: &mut Fork, is_left: bool, p: Point, change: &Changed) -> u32
    requires over { IsToRenewOver is_left p change.now fork.old }
    requires low { node_height (half_of (not is_left) fork.old) ≤ 28 }
    ensures left { fork.new.left ≡ fork.old.left }
    ensures right { fork.new.right ≡ fork.old.right }
    ensures edges { (side : Side) → IsBridgeBetween side fork.new.left fork.new.right (edge_on side fork.new) }
    ensures ends { HasEnds fork.new.left fork.new.right fork.new }
    ensures turns { result ≤ 2 * node_height (half_of (not is_left) fork.old) + 12 }
{
    extend_half(fork, is_left, p, change);
    renew_edges_to_added(fork, is_left, p, change)
}

/// Renews the forks below a node on the way to the bucket to which a point was added, and adds the turns of the searches to `turns`. The change is
/// that of the bucket.
pub(crate) fn renew_top_down(node: &mut Node, p: Point, change: &Changed, turns: &mut u32)
    requires changed { (n : Node) × IsChangeable true n × HasChangedBelow true p n node.old change.now }
    requires few { turns.old + most_turns (node_height node.old) ≤ 9208 }
    ensures changed { (n : Node) → IsChangeable true n → HasChangedBelow true p n node.old change.now
        → HasChanged true p n node.new change.now }
    ensures turns { turns.new ≤ turns.old + most_turns (node_height node.old) }
{
    match node {
        Node::Leaf(_) => {}
        Node::Fork(_, fork) => {
            let is_left = is_before(p, fork.right_ends.first);
            *turns += renew_fork_to_added(fork, is_left, p, change);
            renew_top_down(fork.half_mut(is_left), p, change, turns);
        }
        Node::Taken => unreachable!(),
    }
}
