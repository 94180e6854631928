//! The two points of a hull that are farthest from each other.
ghost use Rattle.std.specs.Prelude.{◌≡◌, ◌<◌, ◌+◌, length, [], MatchOption};
ghost use Rattle.hull_geometry.specs.Tangents.{IsFirstFarthest};
ghost use Rattle.hull_polygon.specs.Extents.{IsDiameter, IsFarther};
ghost use Rattle.hull_polygon.specs.Polygons.{HoldsOfSetsOf};
ghost use Rattle.hull_polygon.specs.Rounds.{vertex, IsSeparated};
ghost use Rattle.hull_polygon.specs.Steps.{left_of};
ghost use Rattle.hull_polygon.specs.Lent.{vertices_of};

use super::extreme::farthest;
use super::polygon::Polygon;
use super::rounds::vertex_at;
use super::vector::Vector;
use lattice::{Point, distance_squared};

/// Returns the first of the points farthest to the left of the edge from the vertex at `i`.
pub(crate) fn opposite(vertices: &[Point], last: usize, i: usize) -> Point
    requires separated { IsSeparated vertices.now last }
    requires within { i < length vertices.now }
    ensures { HoldsOfSetsOf vertices.now
        (λ S. IsFirstFarthest S (left_of (vertex vertices.now i) (vertex vertices.now (i + 1))) result) }
{
    let edge = Vector::left_of(vertex_at(vertices, i), vertex_at(vertices, i + 1));
    farthest(vertices, last, edge)
}

/// Returns the pair of points with the greater distance, of two pairs; the first if both have the same.
fn farther(p: (Point, Point), q: (Point, Point)) -> (Point, Point)
    ensures { IsFarther p q result }
{
    if distance_squared(p.0, p.1) < distance_squared(q.0, q.1) {
        q
    } else {
        p
    }
}

/// Returns the two points of these vertices that are farthest from each other.
fn farthest_two(vertices: &[Point], last: usize) -> (Point, Point)
    requires some { 0 < length vertices.now }
    requires separated { IsSeparated vertices.now last }
    ensures { HoldsOfSetsOf vertices.now (λ S. IsDiameter S result.0 result.1) }
{
    let mut best = (vertex_at(vertices, 0), vertex_at(vertices, 0));
    for i in 0..vertices.len() {
        best = farther(best, (vertex_at(vertices, i), opposite(vertices, last, i)));
    }
    best
}

impl<'a> Polygon<'a> {
    /// Returns the two points that are farthest from each other, which are equal if the set has only one point, or
    /// `None` if it is empty. [`distance_squared`](lattice::distance_squared) of them is the squared diameter.
    ///
    /// In one order or the other, two such points are a vertex and a point farthest from the edge that begins there
    /// (Shamos, 1978; Toussaint, 1983), which a bisection finds: one for each vertex.
    pub fn diameter(&self) -> Option<(Point, Point)>
        ensures { HoldsOfSetsOf (vertices_of self.now)
            (λ S. MatchOption result (S ≡ []) (λ ends. IsDiameter S ends.0 ends.1)) }
    {
        if self.vertices.is_empty() {
            None
        } else {
            Some(farthest_two(self.vertices, self.last))
        }
    }
}
