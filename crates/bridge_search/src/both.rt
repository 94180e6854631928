ghost use Rattle.std.specs.Prelude.{◌≡◌, ◌≤◌, ◌+◌};
ghost use Rattle.lattice.specs.Bridges.{IsAllBefore, IsUpperBridge, IsLowerBridge};
ghost use Rattle.bridge_search.specs.Trees.{On, first_of, last_of, height_of};
ghost use Rattle.bridge_search.specs.Search.{IsDepthSum};

use super::half::Half;
use super::search::Search;
use super::turned::Turned;
use lattice::Point;

/// A bridge, from its end in the left half to its end in the right one, and the number of turns of its search.
pub type Counted = ((Point, Point), u32);

/// Returns the upper and the lower bridge of `u` and `w`, as [`upper_bridge_counted`](crate::upper_bridge_counted)
/// finds them, each with the turns of its own search. All of `u` must be before all of `w`.
pub fn both_bridges<H: Half>(u: H, w: H) -> (Counted, Counted)
    requires { IsAllBefore (On (H.tree u)) (On (H.tree w)) }
    ensures upper { IsUpperBridge (On (H.tree u)) (On (H.tree w)) result.0.0.0 result.0.0.1 }
    ensures lower { IsLowerBridge (On (H.tree u)) (On (H.tree w)) result.1.0.0 result.1.0.1 }
    ensures upper_depths { IsDepthSum (H.tree u) (H.tree w) result.0.0.0 result.0.0.1 result.0.1 }
    ensures lower_depths { IsDepthSum (H.tree u) (H.tree w) result.1.0.0 result.1.0.1 result.1.1 }
    ensures upper_few { result.0.1 ≤ height_of (H.tree u) + height_of (H.tree w) }
    ensures lower_few { result.1.1 ≤ height_of (H.tree u) + height_of (H.tree w) }
{
    both_bridges_between(u, w, u.last(), w.first())
}

/// Returns the same, for callers that already have the last point of `u` and the first one of `w`. The two searches
/// alternate turn by turn, so that neither has to wait for what the other reads.
pub fn both_bridges_between<H: Half>(u: H, w: H, last: Point, first: Point) -> (Counted, Counted)
    requires in_order { IsAllBefore (On (H.tree u)) (On (H.tree w)) }
    requires last { last ≡ last_of (H.tree u) }
    requires first { first ≡ first_of (H.tree w) }
    ensures upper { IsUpperBridge (On (H.tree u)) (On (H.tree w)) result.0.0.0 result.0.0.1 }
    ensures lower { IsLowerBridge (On (H.tree u)) (On (H.tree w)) result.1.0.0 result.1.0.1 }
    ensures upper_depths { IsDepthSum (H.tree u) (H.tree w) result.0.0.0 result.0.0.1 result.0.1 }
    ensures lower_depths { IsDepthSum (H.tree u) (H.tree w) result.1.0.0 result.1.0.1 result.1.1 }
    ensures upper_few { result.0.1 ≤ height_of (H.tree u) + height_of (H.tree w) }
    ensures lower_few { result.1.1 ≤ height_of (H.tree u) + height_of (H.tree w) }
{
    let mut upper = Search::new(u, w, first);
    let mut lower = Search::new(Turned::new(w), Turned::new(u), last.turned());
    while upper.advance() | lower.advance() {}
    let (first_end, last_end) = lower.ends();
    let lower_ends = (last_end.turned(), first_end.turned());
    ((upper.ends(), upper.turns), (lower_ends, lower.turns))
}
