//! A caller of `hull_tree`.
ghost use Rattle.std.specs.Prelude.{IfOk};
ghost use Rattle.hull_set.specs.Held.{nothing_held};
ghost use Rattle.hull_set.specs.Replies.{Answers};
ghost use Rattle.leaf_trees.specs.Entries.{held_after_adds};

use heap::Heap;
use hull_set::{Call, HullSet, POINT_LIMIT, Place, Reply, Rules};
use hull_tree::HullTree;
use lattice::Point;
use leaf_trees::{Listed, LoadFault};

/// Returns where `p` is, relative to the hull of points in any order.
pub fn place_among(alloc: Heap, points: &[Point], p: Point) -> Result<Place, LoadFault>
    ensures { IfOk result (λ place. Answers Rules.Counted (held_after_adds nothing_held points.now) POINT_LIMIT
        (Call.Place p) (Reply.Lies place)) }
{
    let tree = HullTree::from_points(alloc, POINT_LIMIT, points)?;
    Ok(tree.place(p))
}
