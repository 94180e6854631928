//! Joining two halves into a fork, and separating a fork into its halves.
ghost use Rattle.std.specs.Prelude.{◌≡◌, Some, ◌≤◌, ◌+◌, ◌*◌, ◌++◌, max};
ghost use Rattle.lattice.specs.Plane.{Pair};
ghost use Rattle.bridge_search.specs.Trees.{IsFork, left_of, right_of, first_of as first_in, last_of as last_in};
ghost use Rattle.leaf_trees.specs.Heights.{greatest_height};
ghost use Rattle.hull_tree.specs.Nodes.{tree_of, halves_of, left_half, right_half, before_split, after_split};
ghost use Rattle.hull_tree.specs.Nodes.{multiplicity_below, IsWellBuilt, DifferByAtMost};
ghost use Rattle.hull_tree.specs.Changes.{points_below, height_at, left_height, right_height, IsSeparated, IsSeparatedAt};
ghost use Rattle.hull_tree.specs.Turns.{IsDearerByAtMost, turns_a_fork};

use super::bridges::search_both;
use super::keeping::keep;
use super::node::{Halves, Node};
use heap::Heap;
use lattice::Point;
use std::mem;

/// Returns two halves that represent nothing yet.
pub(crate) fn blank(point: Point) -> Halves {
    Halves {
        left: Node::leaf(point, 1),
        right: Node::leaf(point, 1),
        last_left: point,
        right_first: point,
    }
}

/// Takes out the left and the right half, and leaves a point in the place of each.
pub(crate) fn take_halves(halves: &mut Halves) -> (Node, Node)
    ensures left { result.0 ≡ left_half halves.old }
    ensures right { result.1 ≡ right_half halves.old }
    ensures last { before_split halves.new ≡ before_split halves.old }
    ensures first { after_split halves.new ≡ after_split halves.old }
{
    let point = halves.last_left;
    let left = mem::replace(&mut halves.left, Node::leaf(point, 1));
    let right = mem::replace(&mut halves.right, Node::leaf(point, 1));
    (left, right)
}

/// Separates a fork into its left half, its right half and their box, which keeps the points at their split.
pub(crate) fn take_apart(node: Node) -> (Node, Node, Box<Halves, Heap>)
    requires built { IsWellBuilt node }
    requires fork { IsFork (tree_of node) }
    ensures halves { halves_of node ≡ Some (result.0, result.1) }
    ensures separated { IsSeparatedAt result.0 result.1 (before_split result.2.value) (after_split result.2.value) }
    ensures points { points_below node ≡ points_below result.0 ++ points_below result.1 }
    ensures multiplicities { (q : Pair) → multiplicity_below node q ≡ multiplicity_below result.0 q + multiplicity_below result.1 q }
    ensures first { first_in (tree_of node) ≡ first_in (tree_of result.0) }
    ensures last { last_in (tree_of node) ≡ last_in (tree_of result.1) }
    ensures height { height_at node ≡ max (height_at result.0) (height_at result.1) + 1 }
    ensures near { DifferByAtMost 1 (height_at result.0) (height_at result.1) }
{
    let Node { below, .. } = node;
    let Some(mut halves) = below else {
        unreachable!()
    };
    let (left, right) = take_halves(&mut halves);
    (left, right, halves)
}

/// Searches both bridges of a fork, stores them and its height, and returns how many turns the two searches took. Every bridge of the tree is stored
/// here.
pub(crate) fn renew(node: &mut Node) -> u32
    requires separated { IsSeparated node.old }
    requires balanced { DifferByAtMost 1 (left_height node.old) (right_height node.old) }
    requires low { max (left_height node.old) (right_height node.old) ≤ greatest_height }
    ensures built { IsWellBuilt node.new }
    ensures points { points_below node.new ≡ points_below node.old }
    ensures multiplicities { (q : Pair) → multiplicity_below node.new q ≡ multiplicity_below node.old q }
    ensures first { first_in (tree_of node.new) ≡ first_in (left_of (tree_of node.old)) }
    ensures last { last_in (tree_of node.new) ≡ last_in (right_of (tree_of node.old)) }
    ensures height { height_at node.new ≡ height_at node.old }
    ensures within { result ≤ 2 * (left_height node.old + right_height node.old) }
    ensures few { result ≤ turns_a_fork }
    ensures cost_left { IsDearerByAtMost (left_of (tree_of node.old)) (tree_of node.new) result }
    ensures cost_right { IsDearerByAtMost (right_of (tree_of node.old)) (tree_of node.new) result }
{
    let Some(halves) = &node.below else {
        unreachable!()
    };
    let found = search_both(halves);
    let turns = found.turns;
    keep(node, found);
    turns
}

/// Makes the fork over two halves, in a box that keeps the points at their split. Returns it and how many turns the searches for its bridges took.
pub(crate) fn join(mut spare: Box<Halves, Heap>, left: Node, right: Node) -> (Node, u32)
    requires separated { IsSeparatedAt left right (before_split spare.value) (after_split spare.value) }
    requires balanced { DifferByAtMost 1 (height_at left) (height_at right) }
    requires low { max (height_at left) (height_at right) ≤ greatest_height }
    ensures built { IsWellBuilt result.0 }
    ensures points { points_below result.0 ≡ points_below left ++ points_below right }
    ensures multiplicities { (q : Pair) → multiplicity_below result.0 q ≡ multiplicity_below left q + multiplicity_below right q }
    ensures first { first_in (tree_of result.0) ≡ first_in (tree_of left) }
    ensures last { last_in (tree_of result.0) ≡ last_in (tree_of right) }
    ensures height { height_at result.0 ≡ max (height_at left) (height_at right) + 1 }
    ensures within { result.1 ≤ 2 * (height_at left + height_at right) }
    ensures few { result.1 ≤ turns_a_fork }
    ensures cost_left { IsDearerByAtMost (tree_of left) (tree_of result.0) result.1 }
    ensures cost_right { IsDearerByAtMost (tree_of right) (tree_of result.0) result.1 }
{
    let point = spare.last_left;
    spare.left = left;
    spare.right = right;
    let mut node = Node {
        upper: (point, point),
        lower: (point, point),
        height: 0,
        near: false,
        multiplicity: 0,
        below: Some(spare),
    };
    let turns = renew(&mut node);
    (node, turns)
}
