//! Which points of a list the vertices of a polygon are.
ghost use Rattle.std.specs.Prelude.{◌≡◌, ◌≢◌, ◌↔◌, ℕ, ◌<◌, ◌≤◌, IsTrue, MatchOption, length, slice_index};
ghost use Rattle.lattice.specs.Plane.{IsBefore};
ghost use Rattle.hull_geometry.specs.Edges.{IsAlong};
ghost use Rattle.hull_geometry.specs.Positions.{point_at};
ghost use Rattle.hull_polygon.specs.Lent.{vertices_of};
ghost use Rattle.hull_polygon.specs.Polygons.{IsShortPolygon};
ghost use Rattle.polygon_arrays.specs.Indices.{AreIndices, GoesAlong};

use hull_polygon::Polygon;
use hull_reply::HullPoint;
use lattice::{Point, Side};

/// Whether `p` is before `q`: by x, and by y if x is the same.
fn is_before(p: HullPoint, q: HullPoint) -> bool
    ensures { IsTrue result ↔ IsBefore p q }
{
    p.x < q.x || p.x == q.x && p.y < q.y
}

/// Whether two points are equal.
fn is_same(p: HullPoint, q: HullPoint) -> bool
    ensures { IsTrue result ↔ (p ≡ q) }
{
    p.x == q.x && p.y == q.y
}

/// Whether `p` is before `q` along the chain on this side, which goes back on the upper one.
fn is_along(side: Side, p: HullPoint, q: HullPoint) -> bool
    ensures { IsTrue result ↔ IsAlong side p q }
{
    match side {
        Side::Lower => is_before(p, q),
        Side::Upper => is_before(q, p),
    }
}

/// Returns the first index of a part of a chain whose vertex does not come before `p` along it, or the end of that part.
fn first_not_before(side: Side, vertices: &[Point], from: usize, to: usize, p: HullPoint) -> usize
    requires ordered { from ≤ to }
    requires within { to ≤ length vertices.now }
    requires chain { GoesAlong side vertices.now from to }
    ensures within { (from ≤ result) × (result ≤ to) }
    ensures before { (i : ℕ) → from ≤ i → i < result → IsAlong side (point_at vertices.now i) p }
    ensures rest { result < to → ¬ IsAlong side (point_at vertices.now result) p }
{
    let mut low = from;
    let mut high = to;
    while low < high {
        let middle = low + (high - low) / 2;
        if is_along(side, HullPoint::of(vertices[middle]), p) {
            low = middle + 1;
        } else {
            high = middle;
        }
    }
    low
}

/// Returns the index of `p` in a part of a chain, if it is there.
fn index_on(side: Side, vertices: &[Point], from: usize, to: usize, p: HullPoint) -> Option<usize>
    requires ordered { from ≤ to }
    requires within { to ≤ length vertices.now }
    requires chain { GoesAlong side vertices.now from to }
    ensures { MatchOption result ((i : ℕ) → from ≤ i → i < to → point_at vertices.now i ≢ p)
        (λ k. (k < length vertices.now) × (point_at vertices.now k ≡ p)) }
{
    let place = first_not_before(side, vertices, from, to, p);
    if place < to && is_same(HullPoint::of(vertices[place]), p) {
        Some(place)
    } else {
        None
    }
}

/// Returns the index of the vertex that is equal to `p`, if there is one.
fn index_of(polygon: &Polygon, p: HullPoint) -> Option<usize>
    ensures { MatchOption result ((i : ℕ) → i < length (vertices_of polygon.now) → point_at (vertices_of polygon.now) i ≢ p)
        (λ k. (k < length (vertices_of polygon.now)) × (point_at (vertices_of polygon.now) k ≡ p)) }
{
    let vertices = polygon.vertices();
    if vertices.is_empty() {
        return None;
    }
    let last = polygon.last();
    match index_on(Side::Lower, vertices, 0, last + 1, p) {
        Some(place) => Some(place),
        None => index_on(Side::Upper, vertices, last, vertices.len(), p),
    }
}

/// Writes a number to all places of an array.
fn write_all(out: &mut [usize], number: usize)
    ensures long { length out.new ≡ length out.old }
    ensures each { (k : ℕ) → k < length out.new → slice_index out.new k ≡ number }
{
    for place in out.iter_mut() {
        *place = number;
    }
}

/// Writes for each vertex the index of the first of the points that is equal to it, or the number of points if none is, and
/// returns how many vertices are among the points. Two bisections for each point.
pub fn vertex_indices(vertices: &[Point], points: &[HullPoint], out: &mut [usize]) -> usize
    requires polygon { IsShortPolygon vertices.now }
    requires long { length out.old ≡ length vertices.now }
    ensures { AreIndices vertices.now points.now out.new result }
{
    let polygon = Polygon::of_vertices(vertices);
    write_all(out, points.len());
    for i in (0..points.len()).rev() {
        if let Some(place) = index_of(&polygon, points[i]) {
            out[place] = i;
        }
    }
    out.iter().filter(|k| **k < points.len()).count()
}
