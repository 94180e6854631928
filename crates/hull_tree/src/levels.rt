//! The stored bridges of a tree, a level at a time.
ghost use Rattle.std.specs.Prelude.{◌≡◌, ◌≤◌, ◌++◌, OnOk};
ghost use Rattle.hull_tree.specs.Nodes.{tree_of};
ghost use Rattle.hull_tree.specs.Levels.{level_of};

use super::node::Node;
use heap::Heap;
use leaf_trees::Bridge;
use std::alloc::AllocError;

/// Appends what the forks of a level store, from left to right; the node is on level `here`.
#[tactic(auto, unfolding(crate::specs::Levels::level_of))]
pub fn push_level(
    node: &Node,
    wanted: u32,
    here: u32,
    bridges: &mut Vec<Bridge, Heap>,
) -> Result<(), AllocError>
    requires { here ≤ wanted }
    ensures { OnOk result (bridges.new.items ≡ bridges.old.items ++ level_of wanted here (tree_of node.now)) }
{
    let Some((left, right)) = node.halves() else {
        return Ok(());
    };
    if here < wanted {
        push_level(left, wanted, here + 1, bridges)?;
        return push_level(right, wanted, here + 1, bridges);
    }
    if let (Some(upper), Some(lower)) = (node.upper(), node.lower()) {
        bridges.push(Bridge {
            level: wanted,
            upper: *upper,
            lower: *lower,
        })?;
    }
    Ok(())
}
