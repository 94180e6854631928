//! Making forks over two subtrees, and taking them apart.
ghost use Rattle.std.specs.Prelude.{◌≡◌, ◌<◌, ◌≤◌, ◌+◌, ◌*◌, ◌++◌, max, length};
ghost use Rattle.lattice.specs.Bridges.{IsAllBefore, IsBridge, IsUpperBridge, IsLowerBridge};
ghost use Rattle.bridge_search.specs.Trees.{On, Fork as ForkTree};
ghost use Rattle.hull_geometry.specs.Positions.{first_of as first_in};
ghost use Rattle.lattice.specs.declared.side.Side.{Side};
ghost use Rattle.bucket_tree.specs.Changes.{HasEnds, IsBridgeBetween, edge_on};
ghost use Rattle.hull_set.specs.declared.TheConstants.{POINT_LIMIT};
ghost use Rattle.bucket_tree.specs.Nodes.{tree_of, points_below, multiplicities_below, node_height, AreNear, AreInRow};
ghost use Rattle.bucket_tree.specs.Nodes.{IsWellBuilt};

use crate::node::{Fork, Node, ends_of, height_of};
use crate::part::Part;
use crate::questions::vertices_are_few;
use bridge_search::{both_bridges, lower_bridge_counted, upper_bridge_counted};
use heap::Heap;
use lattice::{Point, Side};
use std::mem;

/// Searches the upper and the lower bridge between two subtrees. Returns them and the turns of the searches.
fn search(left: &Node, right: &Node) -> ((Point, Point), (Point, Point), u32)
    requires row { AreInRow left.now right.now }
    requires few { length (points_below left.now ++ points_below right.now) ≤ POINT_LIMIT }
    ensures before { IsAllBefore (On (tree_of left.now)) (On (tree_of right.now)) }
    ensures upper { IsUpperBridge (On (tree_of left.now)) (On (tree_of right.now)) result.0.0 result.0.1 }
    ensures lower { IsLowerBridge (On (tree_of left.now)) (On (tree_of right.now)) result.1.0 result.1.1 }
    ensures turns { result.2 ≤ 4 * max (node_height left.now) (node_height right.now) + 24 }
{
    vertices_are_few(left);
    vertices_are_few(right);
    let ((upper, upper_turns), (lower, lower_turns)) = both_bridges(
        Part::new(left),
        Part::new(right),
    );
    (upper, lower, upper_turns + lower_turns)
}

/// Searches the bridge on a side between two subtrees. Returns it and the turns of the search.
pub(crate) fn search_one(side: Side, left: &Node, right: &Node) -> ((Point, Point), u32)
    requires row { AreInRow left.now right.now }
    requires few { length (points_below left.now ++ points_below right.now) ≤ POINT_LIMIT }
    ensures bridge { IsBridge side (On (tree_of left.now)) (On (tree_of right.now)) result.0.0 result.0.1 }
    ensures turns { result.1 ≤ 2 * max (node_height left.now) (node_height right.now) + 12 }
{
    vertices_are_few(left);
    vertices_are_few(right);
    let (u, w) = (Part::new(left), Part::new(right));
    match side {
        Side::Upper => upper_bridge_counted(u, w),
        Side::Lower => lower_bridge_counted(u, w),
    }
}

/// Makes a fork over two subtrees, whose bridges are known, in an existing box.
pub(crate) fn fork_over(
    left: Node,
    right: Node,
    mut place: Box<Fork, Heap>,
    upper: (Point, Point),
    lower: (Point, Point),
) -> Node
    requires row { AreInRow left right }
    requires near { AreNear (node_height left) (node_height right) }
    requires low { max (node_height left) (node_height right) ≤ 28 }
    requires upper { IsUpperBridge (On (tree_of left)) (On (tree_of right)) upper.0 upper.1 }
    requires lower { IsLowerBridge (On (tree_of left)) (On (tree_of right)) lower.0 lower.1 }
    ensures built { IsWellBuilt result }
    ensures tree { tree_of result ≡ ForkTree upper lower (tree_of left) (tree_of right) }
    ensures points { points_below result ≡ points_below left ++ points_below right }
    ensures multiplicities { multiplicities_below result ≡ multiplicities_below left ++ multiplicities_below right }
    ensures height { node_height result ≡ max (node_height left) (node_height right) + 1 }
{
    let height = height_of(&left).max(height_of(&right)) + 1;
    let (left_ends, right_ends) = (ends_of(&left), ends_of(&right));
    *place = Fork {
        right_ends,
        left,
        right,
        left_ends,
        upper,
        lower,
    };
    Node::Fork(height, place)
}

/// Makes a fork over two subtrees, in an existing box. Returns it and how many turns the searches for its bridges took.
pub(crate) fn join(left: Node, right: Node, place: Box<Fork, Heap>) -> (Node, u32)
    requires row { AreInRow left right }
    requires few { length (points_below left ++ points_below right) ≤ POINT_LIMIT }
    requires near { AreNear (node_height left) (node_height right) }
    requires low { max (node_height left) (node_height right) ≤ 28 }
    ensures built { IsWellBuilt result.0 }
    ensures points { points_below result.0 ≡ points_below left ++ points_below right }
    ensures multiplicities { multiplicities_below result.0 ≡ multiplicities_below left ++ multiplicities_below right }
    ensures height { node_height result.0 ≡ max (node_height left) (node_height right) + 1 }
    ensures turns { result.1 ≤ 4 * max (node_height left) (node_height right) + 24 }
{
    let (upper, lower, turns) = search(&left, &right);
    (fork_over(left, right, place, upper, lower), turns)
}

/// Separates a fork into its halves and its box.
pub(crate) fn take_apart(node: Node) -> (Node, Node, Box<Fork, Heap>)
    requires built { IsWellBuilt node }
    requires fork { 0 < node_height node }
    ensures row { AreInRow result.0 result.1 }
    ensures near { AreNear (node_height result.0) (node_height result.1) }
    ensures tree { tree_of node ≡ ForkTree result.2.value.upper result.2.value.lower (tree_of result.0) (tree_of result.1) }
    ensures points { points_below node ≡ points_below result.0 ++ points_below result.1 }
    ensures multiplicities { multiplicities_below node ≡ multiplicities_below result.0 ++ multiplicities_below result.1 }
    ensures height { node_height node ≡ max (node_height result.0) (node_height result.1) + 1 }
    ensures split { result.2.value.right_ends.first ≡ first_in (points_below result.1) }
    ensures ends { HasEnds result.0 result.1 result.2.value }
    ensures stored { (side : Side) → IsBridgeBetween side result.0 result.1 (edge_on side result.2.value) }
{
    let Node::Fork(_, mut fork) = node else {
        unreachable!()
    };
    let left = mem::replace(&mut fork.left, Node::Taken);
    let right = mem::replace(&mut fork.right, Node::Taken);
    (left, right, fork)
}
