//! The relation of two hulls: disjoint, touching, overlapping, one inside the other, or equal.
ghost use Rattle.std.specs.Prelude.{◌↔◌, IsTrue, ◌<◌, length, pos, ◌<ℤ◌};
ghost use Rattle.lattice.specs.Plane as plane;
ghost use Rattle.hull_polygon.specs.Polygons.{HoldsOfBoth, HoldsOfSetsOf};
ghost use Rattle.lattice.specs.Places.{IsInside};
ghost use Rattle.hull_polygon.specs.Relations.{AreDivided, HoldsInside, HoldsNeither, IsRelation, ReturnsEdge};
ghost use Rattle.hull_polygon.specs.Lent.{vertices_of};

use super::extreme::farthest;
use super::polygon::Polygon;
use super::rounds::vertex_at;
use super::vector::Vector;
use hull_set::Place;
use lattice::{Point, orient};

/// The relation of one hull to another: the last of these that holds.
#[derive(Clone, Copy, PartialEq, Eq, Debug)]
pub enum Relation {
    /// They share no point.
    Disjoint,
    /// They share a point, and a line divides them: no point inside the one is covered by the other.
    Touching,
    /// They share a point, and no line divides them.
    Overlapping,
    /// The other hull contains this one, which does not contain the other.
    Within,
    /// This hull contains the other one, which does not contain this one.
    Covers,
    /// Each contains the other.
    Equal,
}

/// Whether `t` lies left of the line from `a` to `b`.
fn is_left(a: Point, b: Point, t: Point) -> bool
    ensures { IsTrue result ↔ (pos 0 <ℤ plane.orient a b t) }
{
    orient(a, b, t) > 0
}

impl<'a> Polygon<'a> {
    /// Whether an edge of this hull, which has at least two vertices, has all of `other` on its right or on its line. A
    /// bisection for each edge.
    fn has_dividing_edge(&self, other: &Polygon) -> bool
        requires this { 1 < length (vertices_of self.now) }
        requires that { 0 < length (vertices_of other.now) }
        ensures { HoldsOfBoth (vertices_of self.now) (vertices_of other.now)
            (λ S T. ReturnsEdge result S (vertices_of self.now) T) }
    {
        for i in 0..self.vertices.len() {
            let (a, b) = (vertex_at(self.vertices, i), vertex_at(self.vertices, i + 1));
            let nearest = farthest(other.vertices, other.last, Vector::left_of(a, b));
            if !is_left(a, b, nearest) {
                return true;
            }
        }
        false
    }

    /// Whether a line divides this hull from `other`; both have at least two vertices.
    ///
    /// If one does, the line of an edge of one of them does: a line that is rotated about the point that both touch
    /// comes to an edge first.
    fn is_divided(&self, other: &Polygon) -> bool
        requires this { 1 < length (vertices_of self.now) }
        requires that { 1 < length (vertices_of other.now) }
        ensures { HoldsOfBoth (vertices_of self.now) (vertices_of other.now) (λ S T. IsTrue result ↔ AreDivided S T) }
    {
        self.has_dividing_edge(other) || other.has_dividing_edge(self)
    }

    /// Returns the relation of this hull to `other`, if neither contains the other.
    fn relation_of_neither(&self, other: &Polygon) -> Relation
        requires neither { HoldsOfBoth (vertices_of self.now) (vertices_of other.now) (λ S T. HoldsNeither S T) }
        ensures { HoldsOfBoth (vertices_of self.now) (vertices_of other.now) (λ S T. IsRelation S T result) }
    {
        if !self.intersects(other) {
            Relation::Disjoint
        } else if self.is_divided(other) {
            Relation::Touching
        } else {
            Relation::Overlapping
        }
    }

    /// Returns the relation of this hull to `other`. A bisection for each vertex of both, a question of a segment for
    /// each edge of `other`, and if they intersect a bisection for each edge of both. Every other hull contains the
    /// empty hull.
    pub fn relation(&self, other: &Polygon) -> Relation
        ensures { HoldsOfBoth (vertices_of self.now) (vertices_of other.now) (λ S T. IsRelation S T result) }
    {
        match (self.contains(other), other.contains(self)) {
            (true, true) => Relation::Equal,
            (true, false) => Relation::Covers,
            (false, true) => Relation::Within,
            (false, false) => self.relation_of_neither(other),
        }
    }

    /// Whether `q` lies inside.
    fn lies_inside(&self, q: Point) -> bool
        ensures { HoldsOfSetsOf (vertices_of self.now) (λ S. IsTrue result ↔ IsInside S q) }
    {
        match self.place(q) {
            Place::Inside => true,
            Place::On => false,
            Place::Outside => false,
        }
    }

    /// Whether all of `other` lies inside this hull, with no point of it on the boundary. A bisection for each vertex
    /// of `other`.
    pub fn contains_inside(&self, other: &Polygon) -> bool
        ensures { HoldsOfBoth (vertices_of self.now) (vertices_of other.now) (λ S T. IsTrue result ↔ HoldsInside S T) }
    {
        for i in 0..other.vertices.len() {
            let vertex = other.vertices[i];
            if !self.lies_inside(vertex) {
                return false;
            }
        }
        true
    }
}
