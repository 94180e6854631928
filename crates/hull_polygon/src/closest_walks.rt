//! A guess at the closest vertex of two disjoint polygons, by a walk over the boundary of their Minkowski difference.
ghost use Rattle.std.specs.Prelude.{◌<◌, length};
ghost use Rattle.hull_polygon.specs.Lent.{vertices_of};

use super::offsets::{
    Bracket, Closest, DifferenceVertex, Feature, Offset, edge_from, farthest_across, first_turned,
    index_round, offset_at, offset_of, vertex_round,
};
use super::polygon::Polygon;
use super::walks::STEPS;
use lattice::Point;

/// Returns the index of a vertex that lies farthest in a direction: of two the first counterclockwise, or the last.
fn farthest_round(vertices: &[Point], last: usize, d: Offset, is_late: bool) -> usize
    requires { 0 < length vertices.now }
{
    let is_up = d.y > 0 || d.y == 0 && d.x < 0;
    let (low, high, next) = if is_up {
        (last, vertices.len(), 0)
    } else {
        (0, last, last)
    };
    let bound = if is_late { 1 } else { 0 };
    let place = first_turned(vertices, low, high, d.turned_left(), bound);
    if is_late && place == high {
        let is_level = d.dot(edge_from(vertices, next)) == 0;
        return index_round(vertices, if is_level { next.wrapping_add(1) } else { next });
    }
    index_round(vertices, place)
}

/// Returns an index of the same vertex that is not below another index.
fn index_from(vertices: &[Point], i: usize, from: usize) -> usize {
    if i < from {
        i.wrapping_add(vertices.len())
    } else {
        i
    }
}

/// Returns the vertices of the difference on the side of a line along `way` that is right of it.
fn bracket_beside(this: &Polygon, other: &Polygon, way: Offset) -> Bracket
    requires this { 0 < length (vertices_of this.now) }
    requires that { 0 < length (vertices_of other.now) }
{
    let start = DifferenceVertex {
        this: farthest_round(this.vertices, this.last, way.back(), true),
        other: farthest_round(other.vertices, other.last, way, true),
    };
    let end = DifferenceVertex {
        this: farthest_round(this.vertices, this.last, way, false),
        other: farthest_round(other.vertices, other.last, way.back(), false),
    };
    Bracket {
        start,
        end: DifferenceVertex {
            this: index_from(this.vertices, end.this, start.this),
            other: index_from(other.vertices, end.other, start.other),
        },
    }
}

/// Returns the vertex of the difference in a bracket that lies farthest to the right of `way`.
fn vertex_beside(this: &Polygon, other: &Polygon, bracket: Bracket, way: Offset) -> DifferenceVertex
    requires this { 0 < length (vertices_of this.now) }
    requires that { 0 < length (vertices_of other.now) }
{
    let left = way.turned_left();
    let ours = farthest_round(this.vertices, this.last, left.back(), false);
    let theirs = farthest_round(other.vertices, other.last, left, false);
    DifferenceVertex {
        this: index_from(this.vertices, ours, bracket.start.this).min(bracket.end.this),
        other: index_from(other.vertices, theirs, bracket.start.other).min(bracket.end.other),
    }
}

/// Whether the distance from the origin falls along the edge of the difference from a vertex of a bracket to the next.
fn is_falling_after(this: &Polygon, other: &Polygon, bracket: Bracket, at: DifferenceVertex) -> bool
    requires this { 0 < length (vertices_of this.now) }
    requires that { 0 < length (vertices_of other.now) }
{
    let (ours, theirs) = (at.this < bracket.end.this, at.other < bracket.end.other);
    if !ours && !theirs {
        return false;
    }
    let edge = edge_from(this.vertices, at.this);
    let back = edge_from(other.vertices, at.other).back();
    let is_ours = ours && (!theirs || edge.cross(back) >= 0);
    let way = if is_ours { edge } else { back };
    way.dot(offset_at(this, other, at)) < 0
}

/// Whether it rises along the edge of the difference to that vertex.
fn is_rising_before(this: &Polygon, other: &Polygon, bracket: Bracket, at: DifferenceVertex) -> bool
    requires this { 0 < length (vertices_of this.now) }
    requires that { 0 < length (vertices_of other.now) }
{
    let (ours, theirs) = (at.this > bracket.start.this, at.other > bracket.start.other);
    if !ours && !theirs {
        return false;
    }
    let edge = edge_from(this.vertices, at.this.wrapping_sub(1));
    let back = edge_from(other.vertices, at.other.wrapping_sub(1)).back();
    let is_ours = ours && (!theirs || back.cross(edge) >= 0);
    let way = if is_ours { edge } else { back };
    way.dot(offset_at(this, other, at)) > 0
}

/// Whether the foot of `q` on the line from `a` to `b` is between the two, or, if `is_end` is true, is one of them.
fn has_foot(a: Point, b: Point, q: Point, is_end: bool) -> bool {
    let edge = offset_of(b, a);
    let (along, all) = (offset_of(q, a).dot(edge), edge.dot(edge));
    if is_end {
        along >= 0 && along <= all
    } else {
        along > 0 && along < all
    }
}

/// Returns two indices in the order of the list.
fn in_order(vertices: &[Point], i: usize, k: usize) -> (usize, usize)
    requires { 0 < length vertices.now }
{
    let (first, second) = (index_round(vertices, i), index_round(vertices, k));
    if second < first {
        (second, first)
    } else {
        (first, second)
    }
}

/// Returns the closest vertex of two parallel edges that face each other: the first of the other polygon, if its foot is
/// on the edge of this one, or the second, or else the first of this one, or the second.
fn closest_of_edges(this: &Polygon, other: &Polygon, edges: Bracket) -> Feature
    requires this { 0 < length (vertices_of this.now) }
    requires that { 0 < length (vertices_of other.now) }
{
    let (first, second) = in_order(other.vertices, edges.start.other, edges.end.other);
    let a = vertex_round(this.vertices, edges.start.this);
    let b = vertex_round(this.vertices, edges.end.this);
    if has_foot(a, b, vertex_round(other.vertices, first), true) {
        return Feature::OfOther(first);
    }
    if has_foot(a, b, vertex_round(other.vertices, second), true) {
        return Feature::OfOther(second);
    }
    let (one, two) = in_order(this.vertices, edges.start.this, edges.end.this);
    let c = vertex_round(other.vertices, edges.start.other);
    let d = vertex_round(other.vertices, edges.end.other);
    if has_foot(c, d, vertex_round(this.vertices, one), false) {
        Feature::OfThis(one)
    } else {
        Feature::OfThis(two)
    }
}

/// Returns the closest vertex, if the point of the difference nearest to the origin is this vertex of it.
pub(crate) fn closest_at(at: DifferenceVertex) -> Closest {
    Closest {
        vertex: Feature::OfOther(at.other),
        place: at.this,
    }
}

/// Returns the closest vertex, if the point of the difference nearest to the origin is between the ends of this edge of it.
pub(crate) fn closest_within(this: &Polygon, other: &Polygon, edge: Bracket) -> Closest
    requires this { 0 < length (vertices_of this.now) }
    requires that { 0 < length (vertices_of other.now) }
{
    let ours = edge.start.this < edge.end.this;
    let theirs = edge.start.other < edge.end.other;
    let vertex = if ours && theirs {
        closest_of_edges(this, other, edge)
    } else if ours {
        Feature::OfOther(edge.start.other)
    } else {
        Feature::OfThis(edge.start.this)
    };
    let place = match vertex {
        Feature::OfOther(_) => edge.start.this,
        Feature::OfThis(_) => edge.start.other,
    };
    Closest { vertex, place }
}

/// Returns the closest vertex, if the point of the difference nearest to the origin is on this edge of it.
fn closest_of_edge(this: &Polygon, other: &Polygon, edge: Bracket) -> Closest
    requires this { 0 < length (vertices_of this.now) }
    requires that { 0 < length (vertices_of other.now) }
{
    let start = offset_at(this, other, edge.start);
    let way = offset_at(this, other, edge.end).minus(start);
    let along = start.back().dot(way);
    if along <= 0 {
        closest_at(edge.start)
    } else if along >= way.dot(way) {
        closest_at(edge.end)
    } else {
        closest_within(this, other, edge)
    }
}

/// Returns a guess at the closest vertex, from the direction of a line that has the difference on its left and the origin
/// on its right, or `None` if the walk takes too many steps.
///
/// The bracket begins with all vertices of the difference on the line's side. At the one farthest across its chord the
/// two adjacent edges tell on which side of it the distance from the origin falls.
pub(crate) fn guess_closest(this: &Polygon, other: &Polygon, way: Offset) -> Option<Closest>
    requires this { 0 < length (vertices_of this.now) }
    requires that { 0 < length (vertices_of other.now) }
{
    let mut bracket = bracket_beside(this, other, way);
    let mut vertex = vertex_beside(this, other, bracket, way);
    for _step in 0..STEPS {
        if is_falling_after(this, other, bracket, vertex) {
            bracket.start = vertex;
        } else if is_rising_before(this, other, bracket, vertex) {
            bracket.end = vertex;
        } else {
            return Some(closest_at(vertex));
        }
        let start = offset_at(this, other, bracket.start);
        let chord = offset_at(this, other, bracket.end).minus(start);
        vertex = farthest_across(this, other, bracket, chord);
        if chord.cross(offset_at(this, other, vertex).minus(start)) == 0 {
            return Some(closest_of_edge(this, other, bracket));
        }
    }
    None
}
