//! The relation of a hull to a segment: they intersect, or the hull lies beside its line, behind its start or beyond
//! its end.
ghost use Rattle.std.specs.Prelude.{◌≡◌, ◌↔◌, IsTrue, ◌<◌, length, pos, ◌<ℤ◌, ◌≤ℤ◌, List, MatchOption};
ghost use Rattle.std.specs.List.{Contains};
ghost use Rattle.lattice.specs.Plane.{Pair, orient};
ghost use Rattle.lattice.specs.Covers.{Covers};
ghost use Rattle.hull_polygon.specs.Encounters.{IsAmong, IsEncounter, IsFlanked};
ghost use Rattle.hull_polygon.specs.Meetings.{AreDisjoint, ReturnsMeeting, segment};
ghost use Rattle.hull_polygon.specs.Witnesses.{IsMeeting};
ghost use Rattle.hull_polygon.specs.Polygons.{HoldsOfSetsOf};
ghost use Rattle.hull_polygon.specs.Lent.{vertices_of};

use super::extreme::farthest;
use super::meetings::Meeting;
use super::polygon::Polygon;
use super::rounds::is_left;
use super::vector::Vector;
use lattice::{Point, before};

/// The relation of a hull to a segment.
#[derive(Clone, Copy)]
pub(crate) enum Encounter {
    /// They share a point.
    Met(Meeting),
    /// The hull lies right of the segment's line; this is one of its points nearest to the line.
    OnRight(Point),
    /// The hull lies left of the line.
    OnLeft(Point),
    /// The hull lies behind the start of the segment.
    Behind,
    /// The hull lies beyond its end.
    Beyond,
}

/// Whether `q` is between `p` and `r` in the order of points, or is one of them.
fn is_among(p: Point, q: Point, r: Point) -> bool
    ensures { IsTrue result ↔ IsAmong p q r }
{
    !before(q, p) && !before(r, q) || !before(q, r) && !before(p, q)
}

/// Returns the relation of a hull to the segment from `a` to `b`, neither of which it covers, by a point of it on their
/// line.
fn encounter_in_line(a: Point, b: Point, u: Point) -> Encounter
    ensures { (S : List Pair) → Contains S u → ¬ Covers S a → ¬ Covers S b → orient a b u ≡ pos 0
        → IsEncounter S a b result }
{
    if is_among(a, u, b) {
        Encounter::Met(Meeting::OfThis(u))
    } else if is_among(u, a, b) {
        Encounter::Behind
    } else {
        Encounter::Beyond
    }
}

/// Returns the intersection of the segment from `a` to `b`, which goes between `left` and `right`, with the segment of
/// those.
fn meeting_between(a: Point, b: Point, left: Point, right: Point) -> Meeting
    requires left_of_it { pos 0 <ℤ orient a b left }
    requires right_of_it { pos 0 <ℤ orient b a right }
    requires start { orient left right a ≤ℤ pos 0 }
    requires end { orient right left b ≤ℤ pos 0 }
    ensures { (S : List Pair) → Contains S left → Contains S right → IsMeeting S (segment a b) result }
{
    if !is_left(right, left, a) {
        Meeting::OfOther(a)
    } else if !is_left(left, right, b) {
        Meeting::OfOther(b)
    } else {
        Meeting::Crossing(left, right, a, b)
    }
}

/// Returns the relation of a hull to the segment from `a` to `b`, neither of which it covers, by its points farthest to
/// the left and to the right of their line.
fn encounter_between(a: Point, b: Point, left: Point, right: Point) -> Encounter
    ensures { (S : List Pair) → IsFlanked S a b left right → IsEncounter S a b result }
{
    if is_left(b, a, left) {
        Encounter::OnRight(left)
    } else if is_left(a, b, right) {
        Encounter::OnLeft(right)
    } else if !is_left(a, b, left) {
        encounter_in_line(a, b, left)
    } else if !is_left(b, a, right) {
        encounter_in_line(a, b, right)
    } else if is_left(right, left, b) {
        Encounter::Beyond
    } else if is_left(left, right, a) {
        Encounter::Behind
    } else {
        Encounter::Met(meeting_between(a, b, left, right))
    }
}

impl<'a> Polygon<'a> {
    /// Returns the relation of the hull, which has at least one vertex, to the segment from `a` to `b`.
    pub(crate) fn encounter(&self, a: Point, b: Point) -> Encounter
        requires { 0 < length (vertices_of self.now) }
        ensures { HoldsOfSetsOf (vertices_of self.now) (λ S. IsEncounter S a b result) }
    {
        if self.covers(a) {
            return Encounter::Met(Meeting::OfOther(a));
        }
        if self.covers(b) {
            return Encounter::Met(Meeting::OfOther(b));
        }
        let left = farthest(self.vertices, self.last, Vector::left_of(a, b));
        let right = farthest(self.vertices, self.last, Vector::left_of(b, a));
        encounter_between(a, b, left, right)
    }

    /// Returns the intersection of the hull, which has at least one vertex, with the segment from `a` to `b`, if there
    /// is one.
    pub(crate) fn meeting_with_segment(&self, a: Point, b: Point) -> Option<Meeting>
        requires { 0 < length (vertices_of self.now) }
        ensures { HoldsOfSetsOf (vertices_of self.now)
            (λ S. MatchOption result (AreDisjoint S (segment a b)) (λ m. IsMeeting S (segment a b) m)) }
    {
        match self.encounter(a, b) {
            Encounter::Met(meeting) => Some(meeting),
            Encounter::OnRight(_) => None,
            Encounter::OnLeft(_) => None,
            Encounter::Behind => None,
            Encounter::Beyond => None,
        }
    }

    /// Whether the hull and the segment from `a` to `b` share a point, ends and boundary included; `a` and `b` may be
    /// one point. A bisection for the place of each end, and one for each side of the segment.
    pub fn intersects_segment(&self, a: Point, b: Point) -> bool
        ensures { HoldsOfSetsOf (vertices_of self.now) (λ S. ReturnsMeeting result S (segment a b)) }
    {
        if self.vertices.is_empty() {
            return false;
        }
        match self.encounter(a, b) {
            Encounter::Met(_) => true,
            Encounter::OnRight(_) => false,
            Encounter::OnLeft(_) => false,
            Encounter::Behind => false,
            Encounter::Beyond => false,
        }
    }
}
