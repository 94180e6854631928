//! The vertices of any points, in an array of the caller's.
ghost use Rattle.std.specs.Prelude.{ℕ, ◌≡◌, ◌<◌, ◌⊎◌, IfNone, MatchOption, length, true};
ghost use Rattle.lattice.specs.Plane.{IsBefore};
ghost use Rattle.hull_geometry.specs.Positions.{point_at};
ghost use Rattle.hull_polygon.specs.Polygons.{IsOwnPolygon, IsShortPolygon};
ghost use Rattle.hull_c.specs.VerticesOf.{AreVerticesOf, AreTooManyOrRefused, HaveSamePoints, IsPolygonRing};
ghost use Rattle.hull_c.specs.VerticesOf.{EncodesVerticesOf, WritesVerticesOf};

use super::load::points_of;
use bucket_tree::BucketTree;
use heap::Heap;
use hull_polygon::Polygon;
use hull_reply::{Code, HullPoint, HullReply, put_vertices};
use hull_set::{HullSet, POINT_LIMIT};
use lattice::{Point, before};
use leaf_trees::{Listed, LoadFault};
use outer_points::{are_many_inner, drop_inner};

/// Returns the index of a point before which there is no other, by x and then y.
fn first_place(points: &[Point]) -> usize
    requires { 0 < length points.now }
    ensures within { result < length points.now }
    ensures first { (i : ℕ) → i < length points.now → ¬ IsBefore (point_at points.now i) (point_at points.now result) }
{
    let mut first = 0;
    for i in 1..points.len() {
        if before(points[i], points[first]) {
            first = i;
        }
    }
    first
}

/// Whether the points are a convex polygon.
fn are_polygon(points: &[Point]) -> bool
    ensures own { result ≡ true → IsOwnPolygon points.now }
    ensures each { IsShortPolygon points.now → result ≡ true }
{
    if let Some(_polygon) = Polygon::new(points) {
        true
    } else {
        false
    }
}

/// Rotates a ring of points so that it begins with its first one, and goes counterclockwise if it is convex. Returns
/// whether it is a convex polygon then.
fn turn_to_polygon(points: &mut Vec<Point, Heap>) -> bool
    requires { 0 < length points.old.items }
    ensures same { HaveSamePoints points.new.items points.old.items }
    ensures vertices { result ≡ true → AreVerticesOf points.old.items points.new.items }
    ensures rings { IsPolygonRing points.old.items → result ≡ true }
{
    let first = first_place(points);
    points.rotate_left(first);
    if are_polygon(points) {
        return true;
    }
    points.rotate_left(1);
    points.reverse();
    are_polygon(points)
}

/// Writes the vertices of points by building a set of them.
fn by_a_hull(alloc: Heap, points: &[Point], out: &mut [HullPoint]) -> HullReply
    requires { 0 < length points.now }
    ensures { WritesVerticesOf points.now out.old out.new result
        ⊎ AreTooManyOrRefused points.now out.old out.new result }
{
    let hull = match BucketTree::from_points(alloc, POINT_LIMIT, points) {
        Ok(hull) => hull,
        Err(LoadFault::TooMany) => return HullReply::bare(Code::TooMany),
        Err(LoadFault::NoMemory) => return HullReply::bare(Code::NoMemory),
    };
    let Ok(vertices) = hull.vertices() else {
        return HullReply::bare(Code::NoMemory);
    };
    put_vertices(&vertices, out)
}

/// Writes the vertices of points by building a set of those of them that may be vertices.
fn by_outer_points(alloc: Heap, points: &mut Vec<Point, Heap>, out: &mut [HullPoint]) -> HullReply
    requires { 0 < length points.old.items }
    ensures { WritesVerticesOf points.old.items out.old out.new result
        ⊎ AreTooManyOrRefused points.old.items out.old out.new result }
{
    drop_inner(points);
    by_a_hull(alloc, points, out)
}

/// Writes the vertices if the points are a ring of a convex polygon; else returns `None`.
fn by_their_ring(ring: &mut Vec<Point, Heap>, out: &mut [HullPoint]) -> Option<HullReply>
    requires { 0 < length ring.old.items }
    ensures encoded { MatchOption result (out.new ≡ out.old) (λ encoded. WritesVerticesOf ring.old.items out.old out.new encoded) }
    ensures rings { IfNone result (¬ IsPolygonRing ring.old.items) }
{
    if turn_to_polygon(ring) {
        Some(put_vertices(ring, out))
    } else {
        None
    }
}

/// Writes the vertices of the points to the front of the array, if all of them fit. If many points lie inside, which a
/// sample of them shows, these are dropped by two passes and the others sorted: O(n + k log k) for k points that are left.
/// Else, if the points are a ring of a convex polygon, from any vertex on and in either direction, this takes a few
/// passes; and else it sorts all of them, in O(n log n).
pub(crate) fn vertices_of(alloc: Heap, array: &[HullPoint], out: &mut [HullPoint]) -> HullReply
    ensures { EncodesVerticesOf array.now out.old out.new result }
{
    if array.is_empty() {
        return put_vertices(&[], out);
    }
    let mut points = match points_of(alloc, array) {
        Ok(points) => points,
        Err(fault) => return HullReply::bare(fault),
    };
    if are_many_inner(&points) {
        return by_outer_points(alloc, &mut points, out);
    }
    if let Some(encoded) = by_their_ring(&mut points, out) {
        return encoded;
    }
    match points_of(alloc, array) {
        Ok(points) => by_a_hull(alloc, &points, out),
        Err(fault) => HullReply::bare(fault),
    }
}
