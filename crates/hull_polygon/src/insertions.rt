//! What becomes of the vertices of a set when a point is added to it.
ghost use Rattle.std.specs.Prelude.{◌<◌, ◌≤◌, length};
ghost use Rattle.hull_geometry.specs.Locations.{IsBetweenEnds, IsRightOfEdge};
ghost use Rattle.hull_polygon.specs.Insertions.{IsGap, IsInsertion};
ghost use Rattle.hull_polygon.specs.Lent.{vertices_of};
ghost use Rattle.hull_polygon.specs.Polygons.{HoldsOfSetsOf};
ghost use Rattle.hull_polygon.specs.Rounds.{vertex, IsSeparated};

use super::bisection::first_failing_on;
use super::locations::look;
use super::polygon::Polygon;
use super::rounds::vertex_at;
use super::tangents::{is_passed, is_to_come};
use hull_geometry::Location;
use lattice::{Point, Side};

/// What becomes of the vertices of a set when a point is added to it.
#[derive(Clone, Copy, PartialEq, Eq, Debug)]
pub enum Insertion {
    /// They stay: the hull covers the point.
    Covered,
    /// The point takes the place of the vertices between the ones at these two indices. After the last index is that of
    /// the first vertex again, as many as there are vertices.
    Between(usize, usize),
    /// The point comes before all others by x and then y, or after all; or there are no others.
    Beyond,
}

/// Returns the indices of the vertices that the tangents from `p` touch, which lies right of an edge of the chain on
/// this side: `p` takes the place of those between them.
fn gap_on(side: Side, vertices: &[Point], last: usize, p: Point) -> Insertion
    requires some { 0 < length vertices.now }
    requires separated { IsSeparated vertices.now last }
    requires amid { IsBetweenEnds (vertex vertices.now 0) (vertex vertices.now last) p }
    requires outwards { HoldsOfSetsOf vertices.now (λ S. IsRightOfEdge side S p) }
    ensures gap { IsGap vertices.now result }
    ensures insertion { HoldsOfSetsOf vertices.now (IsInsertion vertices.now p result) }
{
    let passed = |start, end| is_passed(side, start, end, p);
    let not_to_come = |start, end| !is_to_come(side, start, end, p);
    Insertion::Between(
        first_failing_on(side, vertices, last, &passed),
        first_failing_on(side, vertices, last, &not_to_come),
    )
}

impl<'a> Polygon<'a> {
    /// Returns what becomes of the vertices when `p` is added to the set. At most two bisections to locate it, and two
    /// of a chain if it lies outside and between the ends (Preparata and Shamos, 1985).
    pub fn insertion(&self, p: Point) -> Insertion
        ensures gap { IsGap (vertices_of self.now) result }
        ensures insertion { HoldsOfSetsOf (vertices_of self.now) (IsInsertion (vertices_of self.now) p result) }
    {
        if self.vertices.is_empty() {
            return Insertion::Beyond;
        }
        match look(self.vertices, self.last, p) {
            Location::Below => gap_on(Side::Lower, self.vertices, self.last, p),
            Location::Above => gap_on(Side::Upper, self.vertices, self.last, p),
            Location::Touching | Location::Within => Insertion::Covered,
            Location::Before | Location::After => Insertion::Beyond,
        }
    }
}
