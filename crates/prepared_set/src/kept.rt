//! The vertices of a set in an array.
ghost use Rattle.std.specs.Prelude.{◌≡◌, ◌+◌, ◌-◌, ◌<◌, ◌≤◌, List, length, IfOk, MatchOption, OnErr, OnOk};
ghost use Rattle.std.specs.List.{remove};
ghost use Rattle.lattice.specs.Covers.{without_point};
ghost use Rattle.lattice.specs.Plane.{Pair};
ghost use Rattle.lattice.specs.Vertices.{IsLeftOf, IsVertexList};
ghost use Rattle.hull_polygon.specs.Insertions.{IsAmid, IsGap, IsInsertion, put_between};
ghost use Rattle.hull_polygon.specs.Lent.{vertices_of};
ghost use Rattle.hull_polygon.specs.Polygons.{HoldsOfSetsOf, IsPolygonOf, IsShortPolygon};
ghost use Rattle.hull_polygon.specs.Rounds.{vertex};
ghost use Rattle.hull_polygon.specs.declared.insertions.Insertion.TheVariants.{Between};
ghost use Rattle.hull_set.specs.declared.TheConstants.{POINT_LIMIT};

use super::splicing::put;
use heap::Heap;
use hull_polygon::Polygon;
use lattice::Point;
use std::alloc::AllocError;
use std::marker::Model;

/// The vertices of a set in an array of its own, with the index of the last of them. Contracts see the vertices.
#[derive(Drop)]
pub(crate) struct Kept {
    vertices: Vec<Point, Heap>,
    last: usize,
}

impl Model for Kept {
    ghost use Rattle.std.specs.Prelude.{List, length, ◌≤◌};
    ghost use Rattle.lattice.specs.Plane.{Pair};
    ghost use Rattle.hull_polygon.specs.Rounds.{IsSeparated};
    ghost use Rattle.hull_set.specs.declared.TheConstants.{POINT_LIMIT};

    ghost Value = { List Pair };

    ghost view = { λ k. k.vertices.items };

    ghost invariant = { λ k. IsSeparated k.vertices.items k.last × (length k.vertices.items ≤ POINT_LIMIT) };
}

/// Returns the vertex after the one at `i`: after the last index that is the first vertex.
fn vertex_after(vertices: &[Point], i: usize) -> Point
    requires { i < length vertices.now }
    ensures { result ≡ vertex vertices.now (i + 1) }
{
    if i + 1 < vertices.len() {
        vertices[i + 1]
    } else {
        vertices[0]
    }
}

impl Kept {
    /// Returns these vertices, with the index of the last, which a bisection finds.
    pub(crate) fn new(vertices: Vec<Point, Heap>) -> Kept
        requires { IsShortPolygon vertices.items }
        ensures { result ≡ vertices.items }
    {
        let last = Polygon::of_vertices(&vertices).last();
        Kept { vertices, last }
    }

    /// Returns the convex polygon of the vertices.
    pub(crate) fn polygon(&self) -> Polygon<'_>
        ensures vertices { vertices_of result ≡ self.now }
        ensures polygon { IsShortPolygon self.now }
    {
        Polygon::of_separated(&self.vertices, self.last)
    }

    /// Returns how many vertices there are.
    pub(crate) fn count(&self) -> usize
        ensures count { result ≡ length self.now }
        ensures few { result ≤ POINT_LIMIT }
    {
        self.vertices.len()
    }

    /// Returns a copy of the vertices.
    pub(crate) fn copy(&self) -> Result<Vec<Point, Heap>, AllocError>
        ensures { IfOk result (λ copy. copy.items ≡ self.now) }
    {
        self.vertices.clone()
    }

    /// Returns the vertices beside the one at `i`, or `None` if it is the first or the last.
    pub(crate) fn neighbours(&self, i: usize) -> Option<(Point, Point)>
        requires { i < length self.now }
        ensures { MatchOption result (¬ IsAmid self.now (vertex self.now i)) (λ beside. IsAmid self.now (vertex self.now i)
            × (beside.0 ≡ vertex self.now (i - 1)) × (beside.1 ≡ vertex self.now (i + 1))) }
    {
        if i == self.last {
            return None;
        }
        if i == 0 {
            return None;
        }
        Some((self.vertices[i - 1], vertex_after(&self.vertices, i)))
    }

    /// Removes the vertex at `i`, which is neither the first nor the last. Moves those after it.
    pub(crate) fn remove(&mut self, i: usize)
        requires within { i < length self.old }
        requires amid { IsAmid self.old (vertex self.old i) }
        ensures others { self.new ≡ remove self.old i }
        ensures vertices { (S : List Pair) → IsPolygonOf S self.old
            → IsLeftOf (without_point (vertex self.old i) S) (vertex self.old (i - 1)) (vertex self.old (i + 1))
            → IsVertexList (without_point (vertex self.old i) S) self.new }
    {
        let _gone = self.vertices.remove(i);
        self.last = Polygon::of_vertices(&self.vertices).last();
    }

    /// Puts `p` in place of the vertices between the ones at `after` and at `before`. Moves those from there on. Fails only
    /// if none is between, and then nothing changes.
    pub(crate) fn put_between(
        &mut self,
        after: usize,
        before: usize,
        p: Point,
    ) -> Result<(), AllocError>
        requires gap { IsGap self.old (Between after before) }
        requires insertion { HoldsOfSetsOf self.old (IsInsertion self.old p (Between after before)) }
        requires few { length self.old < POINT_LIMIT }
        ensures put { OnOk result (self.new ≡ put_between self.old after before p) }
        ensures refused { OnErr result ((self.new ≡ self.old) × (before ≡ after + 1)) }
    {
        put(&mut self.vertices, after, before, p)?;
        self.last = Polygon::of_vertices(&self.vertices).last();
        Ok(())
    }
}
