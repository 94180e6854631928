//! The bridges between two halves.
ghost use Rattle.std.specs.Prelude.{◌≡◌, ◌&&◌, ◌≤◌, ◌+◌, ◌*◌};
ghost use Rattle.lattice.specs.declared.side.Side.TheVariants.{Lower, Upper};
ghost use Rattle.bridge_search.specs.Near.{are_near};
ghost use Rattle.bridge_search.specs.Search.{IsDepthSum};
ghost use Rattle.leaf_trees.specs.Heights.{greatest_height};
ghost use Rattle.hull_tree.specs.Nodes.{tree_of, left_half, right_half};
ghost use Rattle.hull_tree.specs.Changes.{height_at, height_within, IsBridgeOf, AreSeparated};
ghost use Rattle.hull_tree.specs.Turns.{IsForkCost};

use super::keeping::Found;
use super::node::{Halves, height_of, near_of};
use super::node_ref::NodeRef;
use bridge_search::{Counted, Near, both_bridges_between};

/// Whether all points of two halves are near.
fn both_near(halves: &Halves) -> bool
    requires { AreSeparated halves.now }
    ensures { result ≡ (are_near (tree_of (left_half halves.now)) && are_near (tree_of (right_half halves.now))) }
{
    near_of(&halves.left) && near_of(&halves.right)
}

/// Searches both bridges between two halves: in 64 bits if all their points are near, which is tested once for both searches and not at each of their
/// turns.
fn both_bridges_of(halves: &Halves) -> (Counted, Counted)
    requires separated { AreSeparated halves.now }
    requires low { height_within halves.now ≤ greatest_height }
    ensures upper { IsBridgeOf Upper halves.now result.0.0 }
    ensures lower { IsBridgeOf Lower halves.now result.1.0 }
    ensures upper_depths { IsDepthSum (tree_of (left_half halves.now))
        (tree_of (right_half halves.now)) result.0.0.0 result.0.0.1 result.0.1 }
    ensures lower_depths { IsDepthSum (tree_of (left_half halves.now))
        (tree_of (right_half halves.now)) result.1.0.0 result.1.0.1 result.1.1 }
    ensures upper_few { result.0.1 ≤ height_at (left_half halves.now) + height_at (right_half halves.now) }
    ensures lower_few { result.1.1 ≤ height_at (left_half halves.now) + height_at (right_half halves.now) }
{
    let (u, w) = (NodeRef::new(&halves.left), NodeRef::new(&halves.right));
    let (last, first) = (halves.last_left, halves.right_first);
    if both_near(halves) {
        both_bridges_between(Near::new(u), Near::new(w), last, first)
    } else {
        both_bridges_between(u, w, last, first)
    }
}

/// Searches both bridges between two halves.
pub(crate) fn search_both(halves: &Halves) -> Found
    requires separated { AreSeparated halves.now }
    requires low { height_within halves.now ≤ greatest_height }
    ensures upper { IsBridgeOf Upper halves.now result.upper }
    ensures lower { IsBridgeOf Lower halves.now result.lower }
    ensures height { result.height ≡ height_within halves.now + 1 }
    ensures near { result.near
        ≡ (are_near (tree_of (left_half halves.now)) && are_near (tree_of (right_half halves.now))) }
    ensures cost { IsForkCost result.upper result.lower (tree_of (left_half halves.now))
        (tree_of (right_half halves.now)) result.turns }
    ensures within { result.turns ≤ 2 * (height_at (left_half halves.now) + height_at (right_half halves.now)) }
{
    let ((upper, upper_turns), (lower, lower_turns)) = both_bridges_of(halves);
    Found {
        upper,
        lower,
        height: height_of(&halves.left).max(height_of(&halves.right)) + 1,
        near: both_near(halves),
        turns: upper_turns + lower_turns,
    }
}
