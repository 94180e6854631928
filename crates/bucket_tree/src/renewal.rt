//! The forks above a point that was added or removed: a bridge that the change cannot have altered is kept.
ghost use Rattle.std.specs.Prelude.{◌≡◌, ◌≤◌, ◌+◌, ◌*◌, ◌++◌, ◌⊎◌, ◌↔◌, IsTrue, true, false, not, max, length};
ghost use Rattle.lattice.specs.declared.side.Side.{Side};
ghost use Rattle.std.specs.Prelude.{pos, ◌≤ℤ◌, ◌<ℤ◌};
ghost use Rattle.lattice.specs.Orientations as orientations;
ghost use Rattle.lattice.specs.Bridges.{IsBridge};
ghost use Rattle.bridge_search.specs.Trees.{On};
ghost use Rattle.hull_buckets.specs.Buckets.{IsCovered};
ghost use Rattle.hull_set.specs.declared.TheConstants.{POINT_LIMIT};
ghost use Rattle.bucket_tree.specs.Changes.{IsAfter, IsBridgeBetween, IsClearOf, IsRenewed, IsSameBut, ReturnsOf, ClosesBy, edge_on};
ghost use Rattle.std.specs.List.{Contains};
ghost use Rattle.bucket_tree.specs.Changes.{AreInnerTo, AreKept, HasEnds, IsEndOf, IsEndUnlessClear, change_of};
ghost use Rattle.bucket_tree.specs.Halves.{ends_of_half, half_of};
ghost use Rattle.bucket_tree.specs.InPlace.{IsAfterHalf, IsBetween, IsBetweenKept, IsToBalance};
ghost use Rattle.bucket_tree.specs.Nodes.{tree_of, points_below, multiplicities_below, node_height, AreInRow, IsWellBuilt};
ghost use Rattle.bucket_tree.specs.Nodes.{HasBuckets, IsHeightOver, IsLabelled, ends_in};

use crate::bridge_to_added::search_to_added;
use crate::join::search_one;
use crate::node::{Ends, Fork, Node, ends_of, height_of};
use crate::other_end::{BridgeEnd, other_end};
use crate::rotation::{rotate_left, rotate_right};
use heap::Heap;
use lattice::{Point, Side, before, orient_on};
use std::mem;

/// The chains that are affected by a point that was added or removed, that is, on which it may matter to the bridges above: it does not if it is
/// under an edge of two points that stay.
#[derive(Clone, Copy)]
pub struct Affected {
    /// Whether the lower chain is affected.
    pub lower: bool,
    /// Whether the upper chain is affected.
    pub upper: bool,
}

/// The fork after a change.
#[derive(Drop)]
pub(crate) struct Renewed {
    pub(crate) node: Node,
    pub(crate) turns: u32,
    pub(crate) sides: Affected,
}

/// The position of a point relative to an edge.
#[derive(Clone, Copy)]
pub(crate) enum EdgePosition {
    /// Strictly between its ends, and inwards of it.
    Covered,
    /// Inner to it and no end of it, but not between its ends.
    Clear,
    /// An end of it, or not inner to it.
    Touching,
}

/// Whether a point is not outwards of the line of an edge.
pub(crate) fn is_inner(side: Side, edge: &(Point, Point), p: Point) -> bool
    ensures { IsTrue result ↔ (pos 0 ≤ℤ orientations.orient_on side edge.now.0 edge.now.1 p) }
{
    orient_on(side, edge.0, edge.1, p) >= 0
}

/// Whether a point is inwards of the line of an edge.
pub(crate) fn is_inwards(side: Side, edge: &(Point, Point), p: Point) -> bool
    ensures { IsTrue result ↔ (pos 0 <ℤ orientations.orient_on side edge.now.0 edge.now.1 p) }
{
    orient_on(side, edge.0, edge.1, p) > 0
}

/// Returns the position of a point relative to an edge on a side.
#[inline(always)]
pub(crate) fn edge_position_of(side: Side, edge: &(Point, Point), p: Point) -> EdgePosition
    ensures { ReturnsOf side edge.now p result }
{
    if before(edge.0, p) && before(p, edge.1) {
        if is_inner(side, edge, p) {
            return EdgePosition::Covered;
        }
        return EdgePosition::Touching;
    }
    if edge.0 != p && edge.1 != p && is_inwards(side, edge, p) {
        return EdgePosition::Clear;
    }
    EdgePosition::Touching
}

/// How one half of a fork changed at a point.
#[derive(Clone, Copy)]
pub(crate) enum Change {
    /// The point was added to the left half.
    AddedLeft,
    /// The point was added to the right half.
    AddedRight,
    /// The left half changed, but the point was not added to it.
    OtherLeft,
    /// The right half changed, but the point was not added to it.
    OtherRight,
}

/// Returns the change of a fork of which the left half changed at a point, or else the right one, and whether the point was added to it.
pub(crate) fn change_at(is_left: bool, is_added: bool) -> Change
    ensures { result ≡ change_of is_left is_added }
{
    match (is_left, is_added) {
        (true, true) => Change::AddedLeft,
        (false, true) => Change::AddedRight,
        (true, false) => Change::OtherLeft,
        (false, false) => Change::OtherRight,
    }
}

/// The result of a change below a node.
#[derive(Clone, Copy)]
pub struct Changed {
    /// The turns of the searches for bridges.
    pub turns: u32,
    /// The chains on which the point may be, or may have been, a vertex of the hull of all points below the node.
    pub sides: Affected,
    /// Whether the point is known to be between two others below the node; then the change leaves the ends there.
    pub is_between: bool,
}

/// The result of renewing the edges of a fork.
#[derive(Clone, Copy)]
pub(crate) struct RenewedEdges {
    pub(crate) turns: u32,
    pub(crate) sides: Affected,
}

/// Searches the bridge on a side between the halves of a fork after the left one changed: from the end that is still there to the left half, and
/// back. If that leads to the same end, it is the bridge; else both ends are searched. Returns the bridge and the turns of the searches.
fn search_by_end(side: Side, fork: &Fork) -> ((Point, Point), u32)
    requires row { AreInRow fork.now.left fork.now.right }
    requires few { length (points_below fork.now.left ++ points_below fork.now.right) ≤ POINT_LIMIT }
    requires low { max (node_height fork.now.left) (node_height fork.now.right) ≤ 28 }
    requires ends { HasEnds fork.now.left fork.now.right fork.now }
    requires there { Contains (points_below fork.now.right) (edge_on side fork.now).1 }
    requires inner { AreInnerTo side fork.now.left fork.now.right (edge_on side fork.now) }
    ensures bridge { IsBridge side (On (tree_of fork.now.left)) (On (tree_of fork.now.right)) result.0.0 result.0.1 }
    ensures turns { result.1 ≤ 4 * max (node_height fork.now.left) (node_height fork.now.right) + 24 }
{
    let kept = fork.edge(side).1;
    let (start, there) = other_end(
        BridgeEnd::Start,
        side,
        kept,
        &fork.left,
        fork.left_ends.first,
        fork.left_ends.last,
    );
    let (end, back) = other_end(
        BridgeEnd::End,
        side,
        start,
        &fork.right,
        fork.right_ends.first,
        kept,
    );
    if end == kept {
        return ((start, end), there + back);
    }
    let (edge, turns) = search_one(side, &fork.left, &fork.right);
    (edge, there + back + turns)
}

/// Searches the bridge as [`search_by_end`], after the right half changed.
fn search_by_start(side: Side, fork: &Fork) -> ((Point, Point), u32)
    requires row { AreInRow fork.now.left fork.now.right }
    requires few { length (points_below fork.now.left ++ points_below fork.now.right) ≤ POINT_LIMIT }
    requires low { max (node_height fork.now.left) (node_height fork.now.right) ≤ 28 }
    requires ends { HasEnds fork.now.left fork.now.right fork.now }
    requires there { Contains (points_below fork.now.left) (edge_on side fork.now).0 }
    requires inner { AreInnerTo side fork.now.left fork.now.right (edge_on side fork.now) }
    ensures bridge { IsBridge side (On (tree_of fork.now.left)) (On (tree_of fork.now.right)) result.0.0 result.0.1 }
    ensures turns { result.1 ≤ 4 * max (node_height fork.now.left) (node_height fork.now.right) + 24 }
{
    let kept = fork.edge(side).0;
    let (end, there) = other_end(
        BridgeEnd::End,
        side,
        kept,
        &fork.right,
        fork.right_ends.first,
        fork.right_ends.last,
    );
    let (start, back) = other_end(
        BridgeEnd::Start,
        side,
        end,
        &fork.left,
        kept,
        fork.left_ends.last,
    );
    if start == kept {
        return ((start, end), there + back);
    }
    let (edge, turns) = search_one(side, &fork.left, &fork.right);
    (edge, there + back + turns)
}

/// Searches the bridge on a side between the halves of a fork after a change at a point. If the point was added, the bridge ends at it, and only its
/// other end is searched. Returns the bridge and the turns of the searches.
fn search_after(side: Side, fork: &Fork, p: Point, change: Change) -> ((Point, Point), u32)
    requires row { AreInRow fork.now.left fork.now.right }
    requires few { length (points_below fork.now.left ++ points_below fork.now.right) ≤ POINT_LIMIT }
    requires low { max (node_height fork.now.left) (node_height fork.now.right) ≤ 28 }
    requires ends { HasEnds fork.now.left fork.now.right fork.now }
    requires end { IsEndOf change side p fork.now.left fork.now.right (edge_on side fork.now) }
    ensures bridge { IsBridge side (On (tree_of fork.now.left)) (On (tree_of fork.now.right)) result.0.0 result.0.1 }
    ensures turns { result.1 ≤ 4 * max (node_height fork.now.left) (node_height fork.now.right) + 24 }
{
    match change {
        Change::AddedLeft => search_to_added(side, fork, true, p),
        Change::AddedRight => search_to_added(side, fork, false, p),
        Change::OtherLeft => search_by_end(side, fork),
        Change::OtherRight => search_by_start(side, fork),
    }
}

/// Searches the edge of a fork on a side after one subtree changed at a point, and replaces it. Returns the turns of the search.
#[inline(never)]
fn search_edge(side: Side, fork: &mut Fork, p: Point, change: Change) -> u32
    requires row { AreInRow fork.old.left fork.old.right }
    requires few { length (points_below fork.old.left ++ points_below fork.old.right) ≤ POINT_LIMIT }
    requires low { max (node_height fork.old.left) (node_height fork.old.right) ≤ 28 }
    requires ends { HasEnds fork.old.left fork.old.right fork.old }
    requires end { IsEndOf change side p fork.old.left fork.old.right (edge_on side fork.old) }
    ensures same { IsSameBut side fork.old fork.new }
    ensures bridge { IsBridge side (On (tree_of fork.old.left)) (On (tree_of fork.old.right))
        (edge_on side fork.new).0 (edge_on side fork.new).1 }
    ensures turns { result ≤ 4 * max (node_height fork.old.left) (node_height fork.old.right) + 24 }
{
    let (edge, turns) = search_after(side, fork, p, change);
    fork.set_edge(side, edge);
    turns
}

/// Renews the edge of a fork on a side after one subtree changed at a point: searches it if it may not be a bridge any more. An unaffected chain is
/// skipped. Returns how many turns the search took, and whether the chain is still affected.
#[inline(always)]
fn renew_edge(side: Side, fork: &mut Fork, p: Point, change: Change, at_issue: bool) -> (u32, bool)
    requires row { AreInRow fork.old.left fork.old.right }
    requires few { length (points_below fork.old.left ++ points_below fork.old.right) ≤ POINT_LIMIT }
    requires unaffected { at_issue ≡ false → IsBridgeBetween side fork.old.left fork.old.right (edge_on side fork.old) }
    requires clear { IsClearOf side (edge_on side fork.old) p
        → IsBridgeBetween side fork.old.left fork.old.right (edge_on side fork.old) }
    requires low { max (node_height fork.old.left) (node_height fork.old.right) ≤ 28 }
    requires ends { HasEnds fork.old.left fork.old.right fork.old }
    requires end { IsEndUnlessClear change side p fork.old.left fork.old.right (edge_on side fork.old) }
    ensures same { IsSameBut side fork.old fork.new }
    ensures bridge { IsBridge side (On (tree_of fork.old.left)) (On (tree_of fork.old.right))
        (edge_on side fork.new).0 (edge_on side fork.new).1 }
    ensures turns { result.0 ≤ 4 * max (node_height fork.old.left) (node_height fork.old.right) + 24 }
    ensures closes { result.1 ≡ false
        → (at_issue ≡ false) ⊎ IsCovered side p (points_below fork.old.left ++ points_below fork.old.right) }
{
    if !at_issue {
        return (0, false);
    }
    match edge_position_of(side, fork.edge(side), p) {
        EdgePosition::Covered => (0, false),
        EdgePosition::Clear => (0, true),
        EdgePosition::Touching => (search_edge(side, fork, p, change), true),
    }
}

/// Renews the edges of a fork on the affected chains, after one subtree changed at a point.
#[inline(always)]
pub(crate) fn renew_edges(
    fork: &mut Fork,
    p: Point,
    change: Change,
    sides: Affected,
) -> RenewedEdges
    requires row { AreInRow fork.old.left fork.old.right }
    requires few { length (points_below fork.old.left ++ points_below fork.old.right) ≤ POINT_LIMIT }
    requires after { IsAfter p sides fork.old.left fork.old.right fork.old }
    requires end { (side : Side) → IsEndUnlessClear change side p fork.old.left fork.old.right (edge_on side fork.old) }
    requires low { max (node_height fork.old.left) (node_height fork.old.right) ≤ 28 }
    ensures renewed { IsRenewed fork.new }
    ensures left { fork.new.left ≡ fork.old.left }
    ensures right { fork.new.right ≡ fork.old.right }
    ensures turns { result.turns ≤ 8 * max (node_height fork.old.left) (node_height fork.old.right) + 48 }
    ensures closes { ClosesBy p sides result.sides (points_below fork.old.left ++ points_below fork.old.right) }
{
    let (upper_turns, upper) = renew_edge(Side::Upper, fork, p, change, sides.upper);
    let (lower_turns, lower) = renew_edge(Side::Lower, fork, p, change, sides.lower);
    RenewedEdges {
        turns: upper_turns + lower_turns,
        sides: Affected { lower, upper },
    }
}

/// Makes a balanced tree of a fork over two subtrees whose heights differ by at most two. Returns it and the turns of
/// the searches of a rotation.
fn rebalanced(mut place: Box<Fork, Heap>) -> (Node, u32)
    requires renewed { IsRenewed place.value }
    requires few { length (points_below place.value.left ++ points_below place.value.right) ≤ POINT_LIMIT }
    requires near_left { node_height place.value.left ≤ node_height place.value.right + 2 }
    requires near_right { node_height place.value.right ≤ node_height place.value.left + 2 }
    requires low { max (node_height place.value.left) (node_height place.value.right) ≤ 28 }
    ensures built { IsWellBuilt result.0 }
    ensures points { points_below result.0 ≡ points_below place.value.left ++ points_below place.value.right }
    ensures multiplicities { multiplicities_below result.0
        ≡ multiplicities_below place.value.left ++ multiplicities_below place.value.right }
    ensures height { IsHeightOver (node_height place.value.left) (node_height place.value.right) (node_height result.0) }
    ensures turns { result.1 ≤ 8 * max (node_height place.value.left) (node_height place.value.right) + 48 }
{
    let (on_left, on_right) = (height_of(&place.left), height_of(&place.right));
    if on_left <= on_right + 1 && on_right <= on_left + 1 {
        return (Node::Fork(on_left.max(on_right) + 1, place), 0);
    }
    let left = mem::replace(&mut place.left, Node::Taken);
    let right = mem::replace(&mut place.right, Node::Taken);
    if on_left > on_right {
        rotate_right(left, right, place)
    } else {
        rotate_left(left, right, place)
    }
}

/// Makes a balanced tree of a fork of which one half changed at a point, the left one or else the right one, and whose halves' heights differ by at
/// most two. The edges are renewed first, so that a rotation can keep them.
pub(crate) fn balance(
    mut place: Box<Fork, Heap>,
    is_left: bool,
    p: Point,
    change: Change,
    sides: Affected,
) -> Renewed
    requires { IsToBalance is_left change p sides place.value }
    ensures built { IsWellBuilt result.node }
    ensures points { points_below result.node ≡ points_below place.value.left ++ points_below place.value.right }
    ensures multiplicities { multiplicities_below result.node
        ≡ multiplicities_below place.value.left ++ multiplicities_below place.value.right }
    ensures height { IsHeightOver (node_height place.value.left) (node_height place.value.right) (node_height result.node) }
    ensures turns { result.turns ≤ 16 * max (node_height place.value.left) (node_height place.value.right) + 96 }
    ensures closes { ClosesBy p sides result.sides (points_below place.value.left ++ points_below place.value.right) }
{
    renew_half_ends(&mut place, is_left, p, sides, false);
    let above = renew_edges(&mut place, p, change, sides);
    let (node, turns) = rebalanced(place);
    Renewed {
        node,
        turns: above.turns + turns,
        sides: above.sides,
    }
}

/// Renews the ends of a subtree that changed at a point, unless the point is known to be between two others there. Returns whether it is.
#[inline(always)]
pub(crate) fn renew_ends_around(ends: &mut Ends, node: &Node, p: Point, is_between: bool) -> bool
    requires buckets { HasBuckets node.now }
    requires labelled { IsLabelled node.now }
    requires kept { AreKept p ends.old (points_below node.now) }
    requires between { is_between ≡ true → IsBetweenKept p ends.old (points_below node.now) }
    ensures ends { ends.new ≡ ends_in (points_below node.now) }
    ensures between { result ≡ true → IsBetween p (points_below node.now) }
{
    if is_between {
        return true;
    }
    if before(ends.first, p) && before(p, ends.last) {
        return true;
    }
    *ends = ends_of(node);
    false
}

/// Renews the ends that a fork stores of a half that changed at a point, the left one or else the right one. Returns whether the point is known to be
/// between two others there.
#[inline(always)]
pub(crate) fn renew_half_ends(
    fork: &mut Fork,
    is_left: bool,
    p: Point,
    sides: Affected,
    is_between: bool,
) -> bool
    requires half { IsAfterHalf is_left p sides fork.old }
    requires between { is_between ≡ true → IsBetweenKept p (ends_of_half is_left fork.old) (points_below (half_of is_left fork.old)) }
    ensures after { IsAfter p sides fork.old.left fork.old.right fork.new }
    ensures left { fork.new.left ≡ fork.old.left }
    ensures right { fork.new.right ≡ fork.old.right }
    ensures edges { (side : Side) → edge_on side fork.new ≡ edge_on side fork.old }
    ensures between { result ≡ true → IsBetween p (points_below (half_of is_left fork.old)) }
{
    if is_left {
        renew_ends_around(&mut fork.left_ends, &fork.left, p, is_between)
    } else {
        renew_ends_around(&mut fork.right_ends, &fork.right, p, is_between)
    }
}
