//! A caller of `hull_questions`.
ghost use Rattle.bridge_search.specs.Leaves.{points_of};
ghost use Rattle.hull_geometry.specs.Tangents.{IsFirstFarthest};
ghost use Rattle.hull_set.specs.Replies.{LiesAt};

use bridge_search::Half;
use hull_questions::{extreme, place};
use hull_set::Place;
use lattice::{Direction, Point};

/// Returns where `q` is, relative to the hull of a half's points, and the first of the points that are farthest in the direction `d`. The half can be
/// of any tree whose forks store their bridges, for example the one that `HullTree::half` returns.
pub fn seen_from<H: Half>(half: H, q: Point, d: Direction) -> (Place, Point)
    ensures place { LiesAt (points_of (H.tree half)) q result.0 }
    ensures farthest { IsFirstFarthest (points_of (H.tree half)) d result.1 }
{
    (place(half, q), extreme(half, d))
}
