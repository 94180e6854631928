//! The vertices of a set.
ghost use Rattle.std.specs.Prelude.{◌≡◌, ◌↔◌, ◌≤◌, IsTrue, length};
ghost use Rattle.hull_polygon.specs.OneWay.{IsSeparated-prop};
ghost use Rattle.hull_polygon.specs.Polygons.{HoldsOfSetsOf, IsShortPolygon};
ghost use Rattle.hull_polygon.specs.Rounds.{IsSeparated};
ghost use Rattle.hull_set.specs.declared.TheConstants.{POINT_LIMIT};

use super::change::Change;
use heap::Heap;
use hull_polygon::Polygon;
use lattice::Point;

/// The vertices of a set, counterclockwise from the first by x and then y.
#[derive(Drop)]
pub struct VertexList {
    points: Vec<Point, Heap>,
    last: usize,
    ghost separated: { IsSeparated points.items last } by { IsSeparated-prop points.items last },
    ghost few: { length points.items ≤ POINT_LIMIT },
}

impl VertexList {
    ghost use Rattle.hull_snapshots.specs.Lists.{IsWithin, StayThrough, vertices_in};

    /// Makes the list of these points, which must be the vertices of a set.
    pub fn new(points: Vec<Point, Heap>) -> VertexList
        requires { IsShortPolygon points.items }
        ensures { vertices_in result ≡ points.items }
    {
        let last = Polygon::of_vertices(&points).last();
        VertexList { points, last }
    }

    /// Returns the vertices.
    pub fn points(&self) -> &[Point]
        ensures { result.now ≡ vertices_in self.now }
    {
        &self.points
    }

    /// Whether a set with these vertices has the same vertices after the change. Decided from the vertices only, by
    /// binary searches.
    pub fn stay(&self, change: &Change) -> bool
        ensures stay { IsTrue result → StayThrough (vertices_in self.now) change.now }
        ensures within { HoldsOfSetsOf (vertices_in self.now)
            (λ S. IsTrue result ↔ IsWithin S (vertices_in self.now) change.now) }
    {
        let polygon = Polygon::of_separated(&self.points, self.last);
        match change {
            Change::Nothing | Change::CameAgain(_) | Change::WentOnce(_) => true,
            Change::Came(p) => polygon.stays_with(*p),
            Change::Went(p) => polygon.stays_without(*p),
        }
    }
}
