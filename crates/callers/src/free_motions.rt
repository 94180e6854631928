//! A caller of `first_meeting`.
ghost use Rattle.std.specs.Prelude.{IsTrue};
ghost use Rattle.hull_polygon.specs.Lent.{vertices_of};
ghost use Rattle.hull_polygon.specs.Meetings.{AreDisjoint};
ghost use Rattle.hull_polygon.specs.Polygons.{HoldsOfBoth};
ghost use Rattle.first_meeting.specs.FirstMeetings.{NeverMeet};

use first_meeting::first_meeting;
use hull_polygon::Polygon;
use lattice::Point;

/// Whether a convex polygon that moves straight, by the vector from the origin to `motion`, never intersects another one, before or as it moves.
pub fn moves_freely(moving: &Polygon, other: &Polygon, motion: Point) -> bool
    ensures { IsTrue result → HoldsOfBoth (vertices_of moving.now) (vertices_of other.now)
        (λ S T. AreDisjoint S T × NeverMeet S T motion) }
{
    match first_meeting(moving, other, motion) {
        Some(_) => false,
        None => true,
    }
}
