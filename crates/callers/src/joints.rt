//! A caller of `bridge_search`.
ghost use Rattle.lattice.specs.Bridges.{IsAllBefore, IsLowerBridge, IsUpperBridge};
ghost use Rattle.bridge_search.specs.Trees.{On};

use bridge_search::{Half, both_bridges};
use lattice::Point;

/// Returns the two edges that join the hulls of two halves into one, the upper one first, each from its end in the left half to its end in the right
/// one. All of the left half must be before all of the right one.
pub fn joined<H: Half>(left: H, right: H) -> ((Point, Point), (Point, Point))
    requires { IsAllBefore (On (H.tree left)) (On (H.tree right)) }
    ensures upper { IsUpperBridge (On (H.tree left)) (On (H.tree right)) result.0.0 result.0.1 }
    ensures lower { IsLowerBridge (On (H.tree left)) (On (H.tree right)) result.1.0 result.1.1 }
{
    let ((upper, _turns), (lower, _other_turns)) = both_bridges(left, right);
    (upper, lower)
}
