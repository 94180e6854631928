//! Whether a set keeps its vertices when a point is added or removed.
ghost use Rattle.std.specs.Prelude.{◌↔◌, ◌<◌, IsTrue, length};
ghost use Rattle.std.specs.List.{Contains};
ghost use Rattle.lattice.specs.Covers.{Covers, with_point, without_point};
ghost use Rattle.lattice.specs.Vertices.{IsVertexList};
ghost use Rattle.hull_polygon.specs.Polygons.{HoldsOfSetsOf};
ghost use Rattle.hull_polygon.specs.Rounds.{IsSeparated};
ghost use Rattle.hull_polygon.specs.Touches.{StandsOn};
ghost use Rattle.hull_polygon.specs.Lent.{vertices_of};

use super::bisection::{first_failing_on, is_along};
use super::polygon::Polygon;
use super::rounds::vertex_at;
use lattice::{Point, Side};

/// Whether `p` is a vertex of the chain on this side.
fn stands_on(side: Side, vertices: &[Point], last: usize, p: Point) -> bool
    requires some { 0 < length vertices.now }
    requires separated { IsSeparated vertices.now last }
    ensures { IsTrue result ↔ StandsOn side vertices.now last p }
{
    let ahead = |vertex, _| is_along(side, vertex, p);
    vertex_at(vertices, first_failing_on(side, vertices, last, &ahead)) == p
}

impl<'a> Polygon<'a> {
    /// Whether `p` is a vertex. A bisection of each chain.
    pub fn has_vertex(&self, p: Point) -> bool
        ensures { IsTrue result ↔ Contains (vertices_of self.now) p }
    {
        if self.vertices.is_empty() {
            return false;
        }
        stands_on(Side::Lower, self.vertices, self.last, p)
            || stands_on(Side::Upper, self.vertices, self.last, p)
    }

    /// Whether the vertices stay when `p` is added to the set, or is in it: if and only if the hull covers it.
    pub fn stays_with(&self, p: Point) -> bool
        ensures covered { HoldsOfSetsOf (vertices_of self.now) (λ S. IsTrue result ↔ Covers S p) }
        ensures stays { IsTrue result → HoldsOfSetsOf (vertices_of self.now)
            (λ S. IsVertexList (with_point p S) (vertices_of self.now)) }
    {
        self.covers(p)
    }

    /// Whether the vertices stay when `p` is removed from the set, or is not in it: if and only if it is not one of
    /// them.
    pub fn stays_without(&self, p: Point) -> bool
        ensures other { IsTrue result ↔ ¬ Contains (vertices_of self.now) p }
        ensures stays { IsTrue result → HoldsOfSetsOf (vertices_of self.now)
            (λ S. IsVertexList (without_point p S) (vertices_of self.now)) }
    {
        !self.has_vertex(p)
    }
}
