//! The place of a point.
ghost use Rattle.bridge_search.specs.Leaves.{points_of};
ghost use Rattle.hull_set.specs.Replies.{LiesAt};

use crate::locations::look;
use bridge_search::Half;
use hull_set::Place;
use lattice::Point;

/// Returns the place of `q` relative to the points of a half, by its sides of the lower and the upper edge between
/// whose ends it is, each found on one path down the bridges (Overmars and van Leeuwen, 1981).
pub fn place<H: Half>(half: H, q: Point) -> Place
    ensures { LiesAt (points_of (H.tree half)) q result }
{
    Place::of_location(look(half, q))
}
