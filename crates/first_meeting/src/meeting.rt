//! The first moment at which a polygon that moves intersects another.
ghost use Rattle.std.specs.Prelude.{◌≡◌, ◌≤ℤ◌, IfSome, IsTrue, MatchOption};
ghost use Rattle.std.specs.List.{All};
ghost use Rattle.lattice.specs.Plane as plane;
ghost use Rattle.lattice.specs.Plane.{IsZero};
ghost use Rattle.hull_polygon.specs.Lent.{vertices_of};
ghost use Rattle.hull_polygon.specs.Meetings.{AreDisjoint};
ghost use Rattle.hull_polygon.specs.Polygons.{HoldsOfBoth, HoldsOfSetsOf};
ghost use Rattle.hull_polygon.specs.Steps.{backward, left_of};
ghost use Rattle.first_meeting.specs.FirstMeetings.{Leads, ReturnsArrival, ReturnsFirstMeeting};

use super::arrivals::{Arrival, first_arrival, is_no_nearer, sooner};
use hull_polygon::{Entry, Polygon};
use lattice::{Direction, Point, difference};

/// When a polygon that moves first intersects another.
#[derive(Clone, Copy, PartialEq, Eq, Debug)]
pub enum FirstMeeting {
    /// Before it moves.
    AtStart,
    /// When this vertex arrives.
    Later(Arrival),
}

/// Returns the direction of a vector, unless the vector is zero.
fn direction_of(vector: Point) -> Option<Direction>
    ensures { MatchOption result (IsZero vector) (λ direction. direction ≡ vector) }
{
    match Direction::new(vector.x(), vector.y()) {
        Ok(direction) => Some(direction),
        Err(_) => None,
    }
}

/// Returns the direction to the left of the line from `p` to `q`, if its components are no larger than coordinates.
fn to_the_left_of(p: Point, q: Point) -> Option<Direction>
    ensures { IfSome result (λ left. left ≡ left_of p q) }
{
    match Direction::new(difference(p.y(), q.y()), difference(q.x(), p.x())) {
        Ok(left) => Some(left),
        Err(_) => None,
    }
}

/// Whether no point of a polygon is found to lie farther to the left of the line from `p` to `q` than this one.
fn is_leftmost(polygon: &Polygon, p: Point, q: Point, point: Point) -> bool
    ensures { HoldsOfSetsOf (vertices_of polygon.now)
        (λ S. IsTrue result → All (λ s. plane.orient p q s ≤ℤ plane.orient p q point) S) }
{
    match to_the_left_of(p, q) {
        Some(left) => match polygon.extreme(left) {
            Some(farthest) => is_no_nearer(p, q, farthest, point),
            None => false,
        },
        None => false,
    }
}

impl Arrival {
    /// Whether this vertex leads its polygon, which moves: it enters across an edge, and no point of its polygon is found to lie
    /// nearer to the edge's line, so that the two do not meet before.
    fn leads(&self, moving: &Polygon) -> bool
        ensures { HoldsOfSetsOf (vertices_of moving.now) (λ S. IsTrue result → Leads S self.now) }
    {
        match self.hit.place {
            Entry::Edge(p, q) => is_leftmost(moving, p, q, self.vertex),
            Entry::Start => false,
            Entry::Vertex(_) => false,
        }
    }
}

/// Whether there is an arrival, whose vertex leads the polygon that moves.
fn is_led(found: &Option<Arrival>, moving: &Polygon) -> bool
    ensures { HoldsOfSetsOf (vertices_of moving.now) (λ S. IsTrue result → MatchOption found.now ⊥ (λ r. Leads S r)) }
{
    match *found {
        Some(first) => first.leads(moving),
        None => false,
    }
}

/// Returns the first meeting of two polygons that are disjoint before the one moves along a direction.
fn first_along(
    moving: &Polygon,
    other: &Polygon,
    forward: Direction,
    back: Direction,
) -> Option<Arrival>
    requires { back ≡ backward forward }
    ensures { HoldsOfBoth (vertices_of moving.now) (vertices_of other.now)
        (λ S T. AreDisjoint S T → ReturnsArrival S T forward result) }
{
    // These two calls do nothing when it runs: what they promise says how the vertices lie.
    let _last = moving.last();
    let _other_last = other.last();
    let ahead = first_arrival(moving.vertices(), other, forward, true);
    if is_led(&ahead, moving) {
        return ahead;
    }
    let against = first_arrival(other.vertices(), moving, back, false);
    sooner(ahead, against)
}

/// Returns the first meeting of two polygons that are disjoint before the one moves by a vector.
fn first_later(moving: &Polygon, other: &Polygon, motion: Point) -> Option<Arrival>
    ensures { HoldsOfBoth (vertices_of moving.now) (vertices_of other.now)
        (λ S T. AreDisjoint S T → ReturnsArrival S T motion result) }
{
    match direction_of(motion) {
        Some(forward) => match direction_of(motion.turned()) {
            Some(back) => first_along(moving, other, forward, back),
            None => None,
        },
        None => None,
    }
}

/// Returns when a polygon, which moves straight by the vector from the origin to `motion`, first intersects another one;
/// boundaries count. `None` if it does not within the motion, or one of the two is empty. It takes at most a ray for each vertex of
/// both.
pub fn first_meeting(moving: &Polygon, other: &Polygon, motion: Point) -> Option<FirstMeeting>
    ensures { HoldsOfBoth (vertices_of moving.now) (vertices_of other.now) (λ S T. ReturnsFirstMeeting S T motion result) }
{
    if moving.is_found_apart_during(other, motion) {
        return None;
    }
    if moving.intersects(other) {
        return Some(FirstMeeting::AtStart);
    }
    match first_later(moving, other, motion) {
        Some(arrival) => Some(FirstMeeting::Later(arrival)),
        None => None,
    }
}
