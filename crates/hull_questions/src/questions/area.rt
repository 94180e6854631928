//! The doubled area of a hull.
ghost use Rattle.std.specs.Prelude.{◌≤◌, ◌*◌, ◌-◌, pos};
ghost use Rattle.lattice.specs.Plane.{IsWithin, widest_side};
ghost use Rattle.lattice.specs.Vertices.{IsDoubledArea};
ghost use Rattle.bridge_search.specs.Trees.{first_of, last_of, size_of};
ghost use Rattle.bridge_search.specs.Leaves.{points_of};
ghost use Rattle.hull_set.specs.declared.TheConstants.{POINT_LIMIT};
ghost use Rattle.hull_questions.specs.ChainRanges.{IsChainRange};
ghost use Rattle.hull_questions.specs.Walks.{IsFan};

use crate::chain_ranges::{RangeShape, range_shape_of};
use bridge_search::{Half, Turned};
use lattice::{Point, orient};

/// Returns the doubled areas of the triangles between an apex and the edges of the lower chain of a half from one
/// vertex to another.
fn fan_of_chain_range<H: Half>(half: H, apex: Point, from: Point, to: Point) -> i128
    requires chain_range { IsChainRange (H.tree half) from to }
    requires few { size_of (H.tree half) ≤ POINT_LIMIT }
    ensures fan { IsFan (H.tree half) apex from to result }
    ensures size { IsWithin ((size_of (H.tree half) - 1) * widest_side) result }
{
    match range_shape_of(half, from, to) {
        RangeShape::Nowhere => 0,
        RangeShape::Left => fan_of_chain_range(half.left(), apex, from, to),
        RangeShape::Right => fan_of_chain_range(half.right(), apex, from, to),
        RangeShape::Across(bridge) => {
            fan_of_chain_range(half.left(), apex, from, bridge.0)
                + orient(apex, bridge.0, bridge.1)
                + fan_of_chain_range(half.right(), apex, bridge.1, to)
        }
    }
}

/// Returns the doubled areas of the triangles between an apex and the edges of the lower chain of a half.
fn fan_of_chain<H: Half>(half: H, apex: Point) -> i128
    requires { size_of (H.tree half) ≤ POINT_LIMIT }
    ensures fan { IsFan (H.tree half) apex (first_of (H.tree half)) (last_of (H.tree half)) result }
    ensures size { IsWithin ((size_of (H.tree half) - 1) * widest_side) result }
{
    fan_of_chain_range(half, apex, half.first(), half.last())
}

/// Returns the doubled area of the hull of a half with at most [`POINT_LIMIT`](hull_set::POINT_LIMIT) points: the
/// triangles between the first point and each edge. It visits the forks that [`vertices`](crate::vertices) visits, and
/// does not allocate.
pub fn area2<H: Half>(half: H) -> u128
    requires { size_of (H.tree half) ≤ POINT_LIMIT }
    ensures { IsDoubledArea (points_of (H.tree half)) (pos result) }
{
    let first = half.first();
    let doubled = fan_of_chain(half, first) + fan_of_chain(Turned::new(half), first.turned());
    doubled as u128
}
