//! The first of the points that lie farthest in a direction.
ghost use Rattle.std.specs.Prelude.{◌↔◌, ◌<◌, List, IsTrue, length, ◌<ℤ◌};
ghost use Rattle.std.specs.List.{Contains};
ghost use Rattle.lattice.specs.Plane as plane;
ghost use Rattle.lattice.specs.Plane.{Pair};
ghost use Rattle.hull_geometry.specs.Monotone.{IsChainOf};
ghost use Rattle.hull_set.specs.Replies.{AnswersExtreme, reply_to_extreme};
ghost use Rattle.hull_geometry.specs.Tangents.{IsFirstFarthest, Faces};

use super::bisection::first_failing;
use lattice::{Direction, Point, Side, product};
use tiered_list::TieredList;

/// Whether `p` lies less far than `q` in the direction `d`.
fn is_nearer(d: Direction, p: Point, q: Point) -> bool
    ensures { IsTrue result ↔ (plane.product d p <ℤ plane.product d q) }
{
    product(d, p) < product(d, q)
}

/// Returns the first of the farthest points in a direction that faces this chain: the vertex up to which the chain
/// rises.
pub(crate) fn farthest(chain: &TieredList, d: Direction) -> Point
    requires { 0 < length chain.now.items }
    ensures first { (side : Side) (S : List Pair) → Faces side d → IsChainOf side S chain.now.items → IsFirstFarthest S d result }
    ensures among { Contains chain.now.items result }
{
    chain.get(first_failing(chain, &|p, q| is_nearer(d, p, q)))
}

/// Returns the same point, or `None` if there is no point.
pub(crate) fn extreme_of(chain: &TieredList, d: Direction) -> Option<Point>
    ensures { (side : Side) (S : List Pair) → Faces side d → IsChainOf side S chain.now.items
        → AnswersExtreme S d (reply_to_extreme result) }
{
    if chain.is_empty() {
        None
    } else {
        Some(farthest(chain, d))
    }
}
