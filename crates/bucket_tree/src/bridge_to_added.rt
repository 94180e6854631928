//! The bridge that ends at a point which was added to one half of a fork.
ghost use Rattle.std.specs.Prelude.{◌≤◌, ◌+◌, true, not};
ghost use Rattle.bucket_tree.specs.Changes.{IsBridgeBetween, IsEndOf, change_of, edge_on};
ghost use Rattle.bucket_tree.specs.Halves.{half_of};
ghost use Rattle.bucket_tree.specs.Nodes.{node_height};
ghost use Rattle.bucket_tree.specs.TopDown.{HasSubstitute};

use crate::node::Fork;
use crate::other_end::{BridgeEnd, other_end};
use lattice::{Point, Side};

/// Searches the bridge on a side between the halves of a fork that ends at a point which was added to one of them, the left one or else the right
/// one; the forks of that half need not be renewed. Returns the bridge and the turns of the search.
#[inline(always)]
pub(crate) fn search_to_added(
    side: Side,
    fork: &Fork,
    is_left: bool,
    p: Point,
) -> ((Point, Point), u32)
    requires half { HasSubstitute is_left fork.now }
    requires end { IsEndOf (change_of is_left true) side p fork.now.left fork.now.right (edge_on side fork.now) }
    ensures bridge { IsBridgeBetween side fork.now.left fork.now.right result.0 }
    ensures turns { result.1 ≤ node_height (half_of (not is_left) fork.now) + 6 }
{
    if is_left {
        let (end, turns) = other_end(
            BridgeEnd::End,
            side,
            p,
            &fork.right,
            fork.edge(side).1,
            fork.right_ends.last,
        );
        ((p, end), turns)
    } else {
        let (start, turns) = other_end(
            BridgeEnd::Start,
            side,
            p,
            &fork.left,
            fork.left_ends.first,
            fork.edge(side).0,
        );
        ((start, p), turns)
    }
}
