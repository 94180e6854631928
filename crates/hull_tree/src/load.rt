//! Builds a whole tree at once from points in order: each fork over its two halves, and no fork twice.
ghost use Rattle.std.specs.Prelude.{◌≡◌, ◌≤◌, ◌+◌, IfOk, length, vec_len, vec_capacity, ◌++◌};
ghost use Rattle.hull_tree.specs.Changes.{points_below};
ghost use Rattle.hull_tree.specs.Loaded.{IsOver, entries_below};
ghost use Rattle.leaf_trees.specs.Entries.{AreEntries};

use super::joining::join;
use super::node::{Halves, Node, first_of, last_of};
use heap::Heap;
use hull_set::NoMemory;
use lattice::Point;

/// Makes the node over some points in order, each with its multiplicity: a leaf for one, otherwise the fork over its two halves, of which the right
/// one has at most one point more.
pub(crate) fn node_over(alloc: Heap, entries: &[(Point, u32)]) -> Result<Node, NoMemory>
    requires entries { AreEntries entries.now }
    requires some { 1 ≤ length entries.now }
    requires few { length entries.now ≤ 1048576 }
    ensures { IfOk result (λ node. IsOver entries.now node) }
{
    if entries.len() == 1 {
        return Ok(Node::leaf(entries[0].0, entries[0].1));
    }
    let (front, back) = entries.split_at(entries.len() / 2);
    let left = node_over(alloc, front)?;
    let right = node_over(alloc, back)?;
    let (last_left, right_first) = (last_of(&left), first_of(&right));
    let split = Halves {
        left: Node::leaf(last_left, 1),
        right: Node::leaf(right_first, 1),
        last_left,
        right_first,
    };
    let Ok(spare) = Box::new(alloc, split) else {
        return Err(NoMemory);
    };
    Ok(join(spare, left, right).0)
}

/// Appends the points below a node in order, each with its multiplicity, to entries with capacity for them.
pub(crate) fn push_entries(node: &Node, entries: &mut Vec<(Point, u32), Heap>)
    requires { vec_len entries.old + length (points_below node.now) ≤ vec_capacity entries.old }
    ensures entries { entries.new.items ≡ entries.old.items ++ entries_below node.now }
    ensures capacity { vec_capacity entries.new ≡ vec_capacity entries.old }
{
    match &node.below {
        None => {
            entries.push_reserved((node.upper.0, node.multiplicity));
        }
        Some(halves) => {
            push_entries(&halves.left, entries);
            push_entries(&halves.right, entries);
        }
    }
}
