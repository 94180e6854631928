//! The index of a vertex.
ghost use Rattle.std.specs.Prelude.{◌≡◌, ◌<◌, length, IfNone, MatchOption};
ghost use Rattle.std.specs.List.{Contains};
ghost use Rattle.lattice.specs.Covers.{without_point};
ghost use Rattle.lattice.specs.Vertices.{IsVertexList};
ghost use Rattle.hull_polygon.specs.Lent.{vertices_of};
ghost use Rattle.hull_polygon.specs.Polygons.{HoldsOfSetsOf};
ghost use Rattle.hull_polygon.specs.Rounds.{vertex, IsSeparated};
ghost use Rattle.hull_polygon.specs.Touches.{StandsOn};

use super::bisection::{first_failing_on, is_along};
use super::polygon::Polygon;
use super::rounds::vertex_at;
use lattice::{Point, Side};

/// Returns the index of the vertex at `place`: after the last index is that of the first vertex again.
fn wrapped(vertices: &[Point], place: usize) -> usize
    requires some { 0 < length vertices.now }
    ensures within { result < length vertices.now }
    ensures same { vertex vertices.now result ≡ vertex vertices.now place }
{
    if place < vertices.len() { place } else { 0 }
}

/// Returns the index of `p`, or `None` if it is not a vertex of the chain on this side.
fn index_on(side: Side, vertices: &[Point], last: usize, p: Point) -> Option<usize>
    requires some { 0 < length vertices.now }
    requires separated { IsSeparated vertices.now last }
    ensures { MatchOption result (¬ StandsOn side vertices.now last p)
        (λ i. (i < length vertices.now) × (vertex vertices.now i ≡ p)) }
{
    let ahead = |vertex, _| is_along(side, vertex, p);
    let place = first_failing_on(side, vertices, last, &ahead);
    if vertex_at(vertices, place) == p {
        Some(wrapped(vertices, place))
    } else {
        None
    }
}

impl<'a> Polygon<'a> {
    /// Returns the index of `p`, or `None` if it is not a vertex: then the vertices stay when it is removed. A bisection of
    /// each chain.
    pub fn index_of(&self, p: Point) -> Option<usize>
        ensures index { MatchOption result (¬ Contains (vertices_of self.now) p)
            (λ i. (i < length (vertices_of self.now)) × (vertex (vertices_of self.now) i ≡ p)) }
        ensures stays { IfNone result (HoldsOfSetsOf (vertices_of self.now)
            (λ S. IsVertexList (without_point p S) (vertices_of self.now))) }
    {
        if self.vertices.is_empty() {
            return None;
        }
        match index_on(Side::Lower, self.vertices, self.last, p) {
            Some(index) => Some(index),
            None => index_on(Side::Upper, self.vertices, self.last, p),
        }
    }
}
