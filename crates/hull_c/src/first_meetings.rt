//! The first meeting of two convex polygons, given as arrays of vertices, of which the second moves straight.
ghost use Rattle.std.specs.Prelude.{◌≡◌, Some};
ghost use Rattle.hull_geometry.specs.Positions.{origin};
ghost use Rattle.first_meeting.specs.declared.meeting.FirstMeeting.TheVariants as meeting;
ghost use Rattle.hull_polygon.specs.Polygons.{IsShortPolygon};
ghost use Rattle.hull_c.specs.FirstMeetings.{EncodesFirstMeeting, IsMeetingEncoded, IsMotionOf, IsNoMeeting};

use crate::raycasts::{self, HullHit};
use first_meeting::{Arrival, FirstMeeting, first_meeting};
use hull_polygon::{Entry, Hit, Polygon};
use hull_reply::{Code, HullPoint, point_of};
use lattice::Point;

/// The first meeting of two convex polygons, of which the second moves: the entry of a vertex into the other polygon, and
/// that vertex; all else is 0.
#[repr(C)]
#[derive(Clone, Copy)]
pub struct HullMotion {
    /// The entry, and how far along the motion it is; or a code.
    pub hit: HullHit,
    /// The vertex.
    pub vertex: HullPoint,
    /// 1 for a vertex of the polygon that moves, else 0.
    pub moves: u32,
}

/// Makes a reply without a vertex.
fn without_vertex(hit: HullHit) -> HullMotion
    ensures { result ≡ record { hit = hit; vertex = origin; moves = 0 } }
{
    HullMotion {
        hit,
        vertex: HullPoint { x: 0, y: 0 },
        moves: 0,
    }
}

/// Makes a reply with only a code.
fn bare(code: Code) -> HullMotion
    ensures { IsNoMeeting code result }
{
    without_vertex(raycasts::bare(code))
}

/// Makes the reply for two polygons that intersect before one moves.
fn at_start() -> HullMotion
    ensures { IsMeetingEncoded (Some meeting.AtStart) result }
{
    without_vertex(raycasts::way_in(Hit {
        place: Entry::Start,
        numerator: 0,
        denominator: 1,
    }))
}

/// Makes the reply for a vertex that arrives.
fn arrived(arrival: Arrival) -> HullMotion
    ensures { IsMeetingEncoded (Some (meeting.Later arrival)) result }
{
    HullMotion {
        hit: raycasts::way_in(arrival.hit),
        vertex: HullPoint::of(arrival.vertex),
        moves: u32::from(arrival.moves),
    }
}

/// Makes the reply for a first meeting, or that there is none.
fn encoded(found: Option<FirstMeeting>) -> HullMotion
    ensures { IsMeetingEncoded found result }
{
    match found {
        None => bare(Code::Disjoint),
        Some(FirstMeeting::AtStart) => at_start(),
        Some(FirstMeeting::Later(arrival)) => arrived(arrival),
    }
}

/// Finds the first meeting of two convex polygons, of which the second moves by a vector.
fn meeting_by(vertices: &[Point], others: &[Point], motion: Point) -> HullMotion
    requires this { IsShortPolygon vertices.now }
    requires that { IsShortPolygon others.now }
    ensures { EncodesFirstMeeting vertices.now others.now motion result }
{
    if vertices.is_empty() {
        return bare(Code::Empty);
    }
    if others.is_empty() {
        return bare(Code::Empty);
    }
    encoded(first_meeting(
        &Polygon::of_vertices(others),
        &Polygon::of_vertices(vertices),
        motion,
    ))
}

/// Finds the first meeting of two convex polygons, of which the second moves by two numbers.
pub(crate) fn meeting(vertices: &[Point], others: &[Point], dx: i64, dy: i64) -> HullMotion
    requires this { IsShortPolygon vertices.now }
    requires that { IsShortPolygon others.now }
    ensures { IsMotionOf dx dy (EncodesFirstMeeting vertices.now others.now) result }
{
    match point_of(dx, dy) {
        Ok(motion) => meeting_by(vertices, others, motion),
        Err(fault) => bare(fault),
    }
}
