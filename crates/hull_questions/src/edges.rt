//! The edges of the lower and of the upper chain, each found on one path down the stored bridges.
ghost use Rattle.std.specs.Prelude.{◌≡◌};
ghost use Rattle.bridge_search.specs.Leaves.{points_of};
ghost use Rattle.hull_geometry.specs.Locations.{IsLowerEdgeAt, IsUpperEdgeAt};
ghost use Rattle.hull_questions.specs.Chains.{IsBeforeEnd, IsAfterStart};

use crate::slabs::{Slab, slab_of};
use bridge_search::{Half, Turned};
use lattice::Point;

/// Returns the lower edge that begins at `v`, or the one that begins before `v` and ends after it.
pub(crate) fn lower_after<H: Half>(half: H, v: Point) -> (Point, Point)
    requires { IsBeforeEnd (H.tree half) v }
    ensures { IsLowerEdgeAt (points_of (H.tree half)) v result }
{
    let Slab::Edge(edge) = slab_of(half, v) else {
        unreachable!()
    };
    edge
}

/// Returns the upper edge that goes back from `v`, or the one that goes back from a point after `v` to one before it:
/// the lower one after a rotation by 180 degrees.
pub(crate) fn upper_before<H: Half>(half: H, v: Point) -> (Point, Point)
    requires { IsAfterStart (H.tree half) v }
    ensures { IsUpperEdgeAt (points_of (H.tree half)) v result }
{
    let edge = lower_after(Turned::new(half), v.turned());
    (edge.0.turned(), edge.1.turned())
}
