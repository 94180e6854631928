//! The location of a point relative to a hull.
ghost use Rattle.bridge_search.specs.Leaves.{points_of};
ghost use Rattle.hull_geometry.specs.Locations.{IsLowerEdgeAt};
ghost use Rattle.hull_questions.specs.Locations.{IsSeen};

use crate::edges::upper_before;
use crate::slabs::{Slab, slab_of};
use bridge_search::Half;
use hull_geometry::{Location, location_by};
use lattice::{Point, before, orient};

/// Returns the location of `q`, whose lower edge is `edge`.
fn look_at<H: Half>(half: H, q: Point, edge: (Point, Point)) -> Location
    requires { IsLowerEdgeAt (points_of (H.tree half)) q edge }
    ensures { IsSeen (H.tree half) q result }
{
    if !before(edge.0, q) {
        return Location::Touching;
    }
    let lower = orient(edge.0, edge.1, q);
    if lower < 0 {
        return Location::Below;
    }
    let upper = upper_before(half, q);
    location_by(lower, orient(upper.0, upper.1, q))
}

/// Returns the location of `q` relative to the hull of a half.
pub(crate) fn look<H: Half>(half: H, q: Point) -> Location
    ensures { IsSeen (H.tree half) q result }
{
    match slab_of(half, q) {
        Slab::Before => Location::Before,
        Slab::After => Location::After,
        Slab::Last => Location::Touching,
        Slab::Edge(edge) => look_at(half, q, edge),
    }
}
