//! A range of the points below a node.
ghost use Rattle.std.specs.Prelude.{◌≡◌, ◌≤◌, ◌++◌, take, vec_len, vec_capacity};
ghost use Rattle.hull_tree.specs.Nodes.{IsWellBuilt};
ghost use Rattle.hull_tree.specs.Loaded.{entries_below};
ghost use Rattle.leaf_trees.specs.ChainRanges.{entries_from};

use super::node::Node;
use heap::Heap;
use lattice::{Point, before};

/// Appends the points below a node that are not before `start`, in order, each with its multiplicity, until there are `most` entries. Halves that end
/// before `start` are skipped.
pub(crate) fn push_from(
    node: &Node,
    start: Point,
    most: usize,
    entries: &mut Vec<(Point, u32), Heap>,
)
    requires built { IsWellBuilt node.now }
    requires few { vec_len entries.old ≤ most }
    requires space { most ≤ vec_capacity entries.old }
    ensures entries { entries.new.items ≡ take most (entries.old.items ++ entries_from start (entries_below node.now)) }
    ensures capacity { vec_capacity entries.new ≡ vec_capacity entries.old }
{
    if entries.len() == most {
        return;
    }
    match &node.below {
        None => {
            if !before(node.upper.0, start) {
                entries.push_reserved((node.upper.0, node.multiplicity));
            }
        }
        Some(halves) => {
            if !before(halves.last_left, start) {
                push_from(&halves.left, start, most, entries);
            }
            push_from(&halves.right, start, most, entries);
        }
    }
}
