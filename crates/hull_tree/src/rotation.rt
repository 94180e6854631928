//! Rotations: of forks whose halves differ in height by two.
ghost use Rattle.std.specs.Prelude.{◌≡◌, ◌≤◌, ◌+◌, ◌++◌, max};
ghost use Rattle.lattice.specs.Plane.{Pair};
ghost use Rattle.bridge_search.specs.Trees.{left_of, right_of};
ghost use Rattle.leaf_trees.specs.Heights.{greatest_height};
ghost use Rattle.hull_tree.specs.Nodes.{tree_of, before_split, after_split, multiplicity_below, IsWellBuilt, DifferByAtMost};
ghost use Rattle.hull_tree.specs.Changes.{points_below, height_at, left_height, right_height, IsSeparated, IsSeparatedAt};
ghost use Rattle.hull_tree.specs.Changes.{IsAtMostOneMore, IsHeightOver};
ghost use Rattle.hull_tree.specs.Turns.{IsDearerByAtMost, turns_a_level};

use super::joining::{join, renew, take_apart, take_halves};
use super::node::{Halves, Node, height_of};
use heap::Heap;

/// Makes the fork over two halves of which the left one is two higher, after a rotation to the right, which is double if the left half leans to the
/// right.
fn rotate_right(spare: Box<Halves, Heap>, left: Node, right: Node) -> (Node, u32)
    requires separated { IsSeparatedAt left right (before_split spare.value) (after_split spare.value) }
    requires two_higher { height_at left ≡ height_at right + 2 }
    requires low { height_at left ≤ greatest_height }
    ensures built { IsWellBuilt result.0 }
    ensures points { points_below result.0 ≡ points_below left ++ points_below right }
    ensures multiplicities { (q : Pair) → multiplicity_below result.0 q ≡ multiplicity_below left q + multiplicity_below right q }
    ensures height { IsAtMostOneMore (height_at left) (height_at result.0) }
    ensures few { result.1 ≤ turns_a_level }
    ensures cost_left { IsDearerByAtMost (tree_of left) (tree_of result.0) result.1 }
    ensures cost_right { IsDearerByAtMost (tree_of right) (tree_of result.0) result.1 }
{
    let (outer, inner, below) = take_apart(left);
    if height_of(&outer) >= height_of(&inner) {
        let (second, second_turns) = join(spare, inner, right);
        let (whole, turns) = join(below, outer, second);
        return (whole, turns + second_turns);
    }
    let (middle_left, middle_right, middle) = take_apart(inner);
    let (first, first_turns) = join(below, outer, middle_left);
    let (second, second_turns) = join(spare, middle_right, right);
    let (whole, turns) = join(middle, first, second);
    (whole, turns + first_turns + second_turns)
}

/// Makes the fork over two halves of which the right one is two higher, after a rotation to the left, which is double if the right half leans to the
/// left.
fn rotate_left(spare: Box<Halves, Heap>, left: Node, right: Node) -> (Node, u32)
    requires separated { IsSeparatedAt left right (before_split spare.value) (after_split spare.value) }
    requires two_higher { height_at right ≡ height_at left + 2 }
    requires low { height_at right ≤ greatest_height }
    ensures built { IsWellBuilt result.0 }
    ensures points { points_below result.0 ≡ points_below left ++ points_below right }
    ensures multiplicities { (q : Pair) → multiplicity_below result.0 q ≡ multiplicity_below left q + multiplicity_below right q }
    ensures height { IsAtMostOneMore (height_at right) (height_at result.0) }
    ensures few { result.1 ≤ turns_a_level }
    ensures cost_left { IsDearerByAtMost (tree_of left) (tree_of result.0) result.1 }
    ensures cost_right { IsDearerByAtMost (tree_of right) (tree_of result.0) result.1 }
{
    let (inner, outer, below) = take_apart(right);
    if height_of(&outer) >= height_of(&inner) {
        let (first, first_turns) = join(spare, left, inner);
        let (whole, turns) = join(below, first, outer);
        return (whole, turns + first_turns);
    }
    let (middle_left, middle_right, middle) = take_apart(inner);
    let (first, first_turns) = join(spare, left, middle_left);
    let (second, second_turns) = join(below, middle_right, outer);
    let (whole, turns) = join(middle, first, second);
    (whole, turns + first_turns + second_turns)
}

/// Renews a fork whose halves differ in height by at most two: rotates it if they differ by two. Returns how many turns its searches took: at most
/// three forks are renewed, with two bridges each, and a bridge between halves of at most 28 forks each takes at most 56 turns.
pub(crate) fn rebalance(node: &mut Node) -> u32
    requires separated { IsSeparated node.old }
    requires near { DifferByAtMost 2 (left_height node.old) (right_height node.old) }
    requires low { max (left_height node.old) (right_height node.old) ≤ greatest_height }
    ensures built { IsWellBuilt node.new }
    ensures points { points_below node.new ≡ points_below node.old }
    ensures multiplicities { (q : Pair) → multiplicity_below node.new q ≡ multiplicity_below node.old q }
    ensures height { IsHeightOver (left_height node.old) (right_height node.old) (height_at node.new) }
    ensures few { result ≤ turns_a_level }
    ensures cost_left { IsDearerByAtMost (left_of (tree_of node.old)) (tree_of node.new) result }
    ensures cost_right { IsDearerByAtMost (right_of (tree_of node.old)) (tree_of node.new) result }
{
    let Some(halves) = &node.below else {
        unreachable!()
    };
    let (on_left, on_right) = (height_of(&halves.left), height_of(&halves.right));
    if on_left <= on_right + 1 && on_right <= on_left + 1 {
        return renew(node);
    }
    let Some(mut spare) = node.below.take() else {
        unreachable!()
    };
    let (left, right) = take_halves(&mut spare);
    let (whole, turns) = if on_left > on_right {
        rotate_right(spare, left, right)
    } else {
        rotate_left(spare, left, right)
    };
    *node = whole;
    turns
}
