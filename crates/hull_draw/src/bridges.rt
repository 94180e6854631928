ghost use Rattle.std.specs.Prelude.{◌≡◌, IfOk};
ghost use Rattle.hull_draw.specs.Bridges.{bridges_of};

use hull_tree::{HullTree, push_level};
use leaf_trees::Bridge;
use std::alloc::{AllocError, Global};

/// How many levels of a tree are drawn at most: deeper bridges are shorter than the dots at their ends.
pub const LEVEL_LIMIT: u32 = 8;

/// Returns the stored bridges of the first levels of a tree, the root's first.
pub(crate) fn bridges(alloc: Global, set: &HullTree) -> Result<Vec<Bridge>, AllocError>
    ensures { IfOk result (λ bridges. bridges.items ≡ bridges_of set.now.root) }
{
    let mut bridges = Vec::new(alloc);
    if let Some(root) = set.root() {
        for level in 0..LEVEL_LIMIT {
            push_level(root, level, 0, &mut bridges)?;
        }
    }
    Ok(bridges)
}
