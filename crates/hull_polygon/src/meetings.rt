//! Whether two hulls intersect, and a common point.
ghost use Rattle.std.specs.Prelude.{◌↔◌, IsTrue, IfSome, ◌<◌, ◌≤◌, length, List, MatchOption};
ghost use Rattle.std.specs.List.{Contains};
ghost use Rattle.lattice.specs.Plane.{Pair};
ghost use Rattle.lattice.specs.Covers.{Covers};
ghost use Rattle.hull_polygon.specs.Meetings.{AreDisjoint, IsCrossing, ReturnsMeeting};
ghost use Rattle.hull_polygon.specs.Polygons.{HoldsOfBoth, HoldsOfSetsOf};
ghost use Rattle.hull_polygon.specs.Witnesses.{IsMeeting, IsWitness};
ghost use Rattle.hull_polygon.specs.Lent.{vertices_of};

use super::nearest::is_right;
use super::offsets::index_round;
use super::polygon::Polygon;
use super::rounds::{is_left, vertex_at};
use super::walks::Few;
use super::witnesses::Witness;
use lattice::Point;

/// A common point of two hulls, in a form that a caller can test.
#[derive(Clone, Copy, PartialEq, Eq, Debug)]
pub enum Meeting {
    /// This vertex of the other hull, which this one covers.
    OfOther(Point),
    /// This vertex of this hull, which the other one covers.
    OfThis(Point),
    /// The crossing of two segments: the one from the first point to the second, vertices of this hull, and the one
    /// from the third to the fourth, vertices of the other.
    Crossing(Point, Point, Point, Point),
}

/// Whether `c` lies right of the segment from `a` to `b` and `d` left of it, and the segments cross between their ends.
fn is_crossing(a: Point, b: Point, c: Point, d: Point) -> bool
    ensures { IsTrue result ↔ IsCrossing a b c d }
{
    is_right(a, b, c) && is_left(a, b, d) && is_left(c, d, a) && is_right(c, d, b)
}

/// Returns the crossing of the segment from `a` to `b` with the one between `c` and `d`, if they cross.
fn crossing_of(a: Point, b: Point, c: Point, d: Point) -> Option<Meeting>
    ensures { (S T : List Pair) → Contains S a → Contains S b → Contains T c → Contains T d
        → IfSome result (λ m. IsMeeting S T m) }
{
    if is_crossing(a, b, c, d) {
        Some(Meeting::Crossing(a, b, c, d))
    } else if is_crossing(a, b, d, c) {
        Some(Meeting::Crossing(a, b, d, c))
    } else {
        None
    }
}

/// Returns the common point that a witness shows, if it shows one.
fn meeting_of(witness: Witness) -> Option<Meeting>
    ensures { (S T : List Pair) → IsWitness S T witness
        → MatchOption result (AreDisjoint S T) (λ m. IsMeeting S T m) }
{
    match witness {
        Witness::Intersects(meeting) => Some(meeting),
        Witness::Disjoint(_) => None,
    }
}

impl<'a> Polygon<'a> {
    /// Returns the vertex at an index that may be counted on into a second round.
    pub(crate) fn vertex_of(&self, i: usize) -> Point
        requires { 0 < length (vertices_of self.now) }
        ensures { HoldsOfSetsOf (vertices_of self.now) (λ S. Contains S result) }
    {
        vertex_at(self.vertices, index_round(self.vertices, i))
    }

    /// Returns the first vertex of this hull if `other` covers it, or that of `other` if this hull does: of hulls that
    /// overlap much mostly one does.
    pub(crate) fn meeting_at_first(&self, other: &Polygon) -> Option<Meeting>
        requires this { 0 < length (vertices_of self.now) }
        requires that { 0 < length (vertices_of other.now) }
        ensures { HoldsOfBoth (vertices_of self.now) (vertices_of other.now)
            (λ S T. IfSome result (λ m. IsMeeting S T m)) }
    {
        let first = self.vertex_of(0);
        if other.covers(first) {
            return Some(Meeting::OfThis(first));
        }
        let opposite = other.vertex_of(0);
        if self.covers(opposite) {
            return Some(Meeting::OfOther(opposite));
        }
        None
    }

    /// Returns the first of three vertices of this hull, by their indices, that `other` covers.
    fn covered_of(&self, other: &Polygon, few: [usize; 3]) -> Option<Point>
        requires { 0 < length (vertices_of self.now) }
        ensures { HoldsOfBoth (vertices_of self.now) (vertices_of other.now)
            (λ S T. IfSome result (λ p. Contains S p × Covers T p)) }
    {
        for k in 0..3usize {
            let vertex = self.vertex_of(few[k]);
            if other.covers(vertex) {
                return Some(vertex);
            }
        }
        None
    }

    /// Returns a crossing of a segment between two of three vertices of this hull and one between two of `other`.
    fn crossing_of_few(&self, other: &Polygon, few: Few) -> Option<Meeting>
        requires this { 0 < length (vertices_of self.now) }
        requires that { 0 < length (vertices_of other.now) }
        ensures { HoldsOfBoth (vertices_of self.now) (vertices_of other.now)
            (λ S T. IfSome result (λ m. IsMeeting S T m)) }
    {
        for k in 0..9usize {
            let (i, j) = (k / 3, k % 3);
            let (a, b) = (
                self.vertex_of(few.this[i]),
                self.vertex_of(few.this[(i + 1) % 3]),
            );
            let (c, d) = (
                other.vertex_of(few.other[j]),
                other.vertex_of(few.other[(j + 1) % 3]),
            );
            if let Some(crossing) = crossing_of(a, b, c, d) {
                return Some(crossing);
            }
        }
        None
    }

    /// Returns a common point of this hull and `other`, if the hulls of three vertices of each show one.
    pub(crate) fn meeting_of_few(&self, other: &Polygon, few: Few) -> Option<Meeting>
        requires this { 0 < length (vertices_of self.now) }
        requires that { 0 < length (vertices_of other.now) }
        ensures { HoldsOfBoth (vertices_of self.now) (vertices_of other.now)
            (λ S T. IfSome result (λ m. IsMeeting S T m)) }
    {
        if let Some(vertex) = self.covered_of(other, few.this) {
            return Some(Meeting::OfThis(vertex));
        }
        if let Some(vertex) = other.covered_of(self, few.other) {
            return Some(Meeting::OfOther(vertex));
        }
        self.crossing_of_few(other, few)
    }

    /// Returns a common point of this hull and `other`, if there is one; both have at least one vertex. A question of a
    /// segment for each edge of `other`.
    pub(crate) fn meeting_by_edges(&self, other: &Polygon) -> Option<Meeting>
        requires this { 0 < length (vertices_of self.now) }
        requires that { 0 < length (vertices_of other.now) }
        ensures { HoldsOfBoth (vertices_of self.now) (vertices_of other.now)
            (λ S T. MatchOption result (AreDisjoint S T) (λ m. IsMeeting S T m)) }
    {
        let first = vertex_at(self.vertices, 0);
        if other.covers(first) {
            return Some(Meeting::OfThis(first));
        }
        for i in 0..other.vertices.len() {
            let found = self.meeting_with_segment(
                vertex_at(other.vertices, i),
                vertex_at(other.vertices, i + 1),
            );
            if let Some(meeting) = found {
                return Some(meeting);
            }
        }
        None
    }

    /// Returns a common point of this hull and `other`, which is a point or a segment, if there is one. A question of a
    /// segment.
    fn meeting_with_few(&self, other: &Polygon) -> Option<Meeting>
        requires this { 0 < length (vertices_of self.now) }
        requires that { 0 < length (vertices_of other.now) }
        requires few { length (vertices_of other.now) ≤ 2 }
        ensures { HoldsOfBoth (vertices_of self.now) (vertices_of other.now)
            (λ S T. MatchOption result (AreDisjoint S T) (λ m. IsMeeting S T m)) }
    {
        let start = vertex_at(other.vertices, 0);
        let end = vertex_at(other.vertices, 1);
        self.meeting_with_segment(start, end)
    }

    /// Returns a common point of this hull and `other`, if there is one; both have at least one vertex.
    pub(crate) fn meeting(&self, other: &Polygon) -> Option<Meeting>
        requires this { 0 < length (vertices_of self.now) }
        requires that { 0 < length (vertices_of other.now) }
        ensures { HoldsOfBoth (vertices_of self.now) (vertices_of other.now)
            (λ S T. MatchOption result (AreDisjoint S T) (λ m. IsMeeting S T m)) }
    {
        if other.vertices.len() < 3 {
            return self.meeting_with_few(other);
        }
        if self.is_parted(other) {
            return None;
        }
        match self.witness_by_walk(other) {
            Some((found, _)) => meeting_of(found),
            None => self.meeting_by_edges(other),
        }
    }

    /// Whether this hull and `other` share a point, boundaries included. A walk over their Minkowski difference guesses: of
    /// at most 64 steps, each of which asks for a support point of both, as that of Gilbert, Johnson and Keerthi (1988),
    /// here between two indices. A few bisections confirm the guess. If they did not, a question of a segment for each edge
    /// of `other` would decide, which tests have not seen. If `other` is a point or a segment, such a question decides.
    pub fn intersects(&self, other: &Polygon) -> bool
        ensures { HoldsOfBoth (vertices_of self.now) (vertices_of other.now) (λ S T. ReturnsMeeting result S T) }
    {
        if self.vertices.is_empty() {
            return false;
        }
        if other.vertices.is_empty() {
            return false;
        }
        match self.meeting(other) {
            Some(_) => true,
            None => false,
        }
    }
}
