//! A guess at the nearest features of two polygons of few vertices, by steps along the boundary of their Minkowski
//! difference.
ghost use Rattle.std.specs.Prelude.{◌<◌, length};
ghost use Rattle.hull_polygon.specs.Lent.{vertices_of};

use super::closest_walks::{closest_at, closest_within};
use super::offsets::{
    Bracket, Closest, DifferenceVertex, Offset, edge_from, index_round, offset_at,
};
use super::polygon::Polygon;
use super::vector::Vector;
use lattice::Point;

/// How many vertices two polygons have together at most for such steps.
const FEW: usize = 48;

/// How many steps are taken at most.
const STEPS: u32 = 24;

/// How many bits a component of a direction keeps: a product with a point then fits in 64 bits.
const BITS: u32 = 20;

/// Returns a vector divided by a power of two, with components of so few bits.
fn shortened(way: Offset) -> Offset {
    let size = way.x.unsigned_abs() | way.y.unsigned_abs();
    let shift = (64 - BITS).saturating_sub(size.leading_zeros());
    Offset {
        x: way.x.wrapping_shr(shift),
        y: way.y.wrapping_shr(shift),
    }
}

/// Returns the vector from the middle of the first and the last vertex of this polygon to that of the other, up to a
/// factor, with few bits.
pub(crate) fn way_between(this: &Polygon, other: &Polygon) -> Offset
    requires this { 0 < length (vertices_of this.now) }
    requires that { 0 < length (vertices_of other.now) }
{
    let first = DifferenceVertex { this: 0, other: 0 };
    let last = DifferenceVertex {
        this: this.last,
        other: other.last,
    };
    let way = offset_at(this, other, first).plus(offset_at(this, other, last));
    shortened(way.back())
}

/// Returns the direction across a motion, with few bits, on the side of it on which `way` goes.
pub(crate) fn way_beside(motion: Vector, way: Offset) -> Offset {
    let forward = Offset {
        x: motion.x(),
        y: motion.y(),
    };
    let left = shortened(forward.turned_left());
    if left.dot(way) < 0 { left.back() } else { left }
}

/// Returns the index of a vertex that lies farthest in a direction of few bits.
fn farthest_of_few(vertices: &[Point], way: Offset) -> usize {
    let mut at = 0;
    let mut most = i64::MIN;
    for i in 0..vertices.len() {
        let vertex = vertices[i];
        let across = way.x.wrapping_mul(vertex.x());
        let reach = across.wrapping_add(way.y.wrapping_mul(vertex.y()));
        if reach > most {
            most = reach;
            at = i;
        }
    }
    at
}

/// Whether two polygons have so few vertices that one pass over them takes less time than a bisection.
pub(crate) fn are_few(this: &Polygon, other: &Polygon) -> bool {
    this.vertices.len().wrapping_add(other.vertices.len()) <= FEW
}

/// Returns the next index if that vertex lies as far in a direction as the one at an index, and is the second of the two
/// counterclockwise.
fn second_of_farthest(vertices: &[Point], i: usize, way: Offset) -> usize
    requires { 0 < length vertices.now }
{
    let edge = edge_from(vertices, i);
    let is_second = way.dot(edge) == 0 && edge.cross(way) < 0;
    index_round(vertices, if is_second { i.wrapping_add(1) } else { i })
}

/// Returns vertices of the polygons that lie farthest towards one another in a direction of few bits.
pub(crate) fn vertex_facing(this: &Polygon, other: &Polygon, way: Offset) -> DifferenceVertex {
    DifferenceVertex {
        this: farthest_of_few(this.vertices, way),
        other: farthest_of_few(other.vertices, way.back()),
    }
}

/// An edge of the difference, and the step along it.
#[derive(Clone, Copy)]
struct DifferenceEdge {
    ends: Bracket,
    way: Offset,
}

/// Returns the edge of the difference from a vertex of it along an edge of this polygon or one of the other, reversed; along
/// both if they are parallel.
fn edge_of(start: DifferenceVertex, ours: Offset, theirs: Offset, turn: i128) -> DifferenceEdge {
    let end = DifferenceVertex {
        this: start.this.wrapping_add(if turn >= 0 { 1 } else { 0 }),
        other: start.other.wrapping_add(if turn <= 0 { 1 } else { 0 }),
    };
    let way = if turn > 0 {
        ours
    } else if turn < 0 {
        theirs
    } else {
        ours.plus(theirs)
    };
    DifferenceEdge {
        ends: Bracket { start, end },
        way,
    }
}

/// Returns the edge of the difference from a vertex of it.
fn edge_after(this: &Polygon, other: &Polygon, at: DifferenceVertex) -> DifferenceEdge
    requires this { 0 < length (vertices_of this.now) }
    requires that { 0 < length (vertices_of other.now) }
{
    let ours = edge_from(this.vertices, at.this);
    let theirs = edge_from(other.vertices, at.other).back();
    edge_of(at, ours, theirs, ours.cross(theirs))
}

/// Returns the index of the vertex before one.
fn index_before(vertices: &[Point], i: usize) -> usize {
    let next = if i == 0 { vertices.len() } else { i };
    next.wrapping_sub(1)
}

/// Returns the edge of the difference to a vertex of it.
fn edge_before(this: &Polygon, other: &Polygon, at: DifferenceVertex) -> DifferenceEdge
    requires this { 0 < length (vertices_of this.now) }
    requires that { 0 < length (vertices_of other.now) }
{
    let before = DifferenceVertex {
        this: index_before(this.vertices, at.this),
        other: index_before(other.vertices, at.other),
    };
    let ours = edge_from(this.vertices, before.this);
    let theirs = edge_from(other.vertices, before.other).back();
    let turn = theirs.cross(ours);
    let start = DifferenceVertex {
        this: if turn >= 0 { before.this } else { at.this },
        other: if turn <= 0 { before.other } else { at.other },
    };
    edge_of(start, ours, theirs, turn)
}

/// The next step of a walk along the boundary of the difference, from a vertex.
enum Step {
    /// None: the distance from the origin does not fall on either side.
    Ends,
    /// To this vertex.
    To(DifferenceVertex),
    /// To a point between the ends of this edge, where the distance is least.
    Within(Bracket),
}

/// Returns the next step from a vertex along an edge of it, in the direction of `way`.
fn step_along(edge: DifferenceEdge, way: Offset, vertex: Offset, to: DifferenceVertex) -> Step {
    if way.dot(vertex) >= 0 {
        Step::Ends
    } else if way.dot(vertex.plus(way)) > 0 {
        Step::Within(edge.ends)
    } else {
        Step::To(to)
    }
}

/// Returns the next step from a vertex.
fn step_from(this: &Polygon, other: &Polygon, at: DifferenceVertex) -> Step
    requires this { 0 < length (vertices_of this.now) }
    requires that { 0 < length (vertices_of other.now) }
{
    let vertex = offset_at(this, other, at);
    let after = edge_after(this, other, at);
    match step_along(after, after.way, vertex, after.ends.end) {
        Step::Ends => {
            let before = edge_before(this, other, at);
            step_along(before, before.way.back(), vertex, before.ends.start)
        }
        step => step,
    }
}

/// Returns a guess at the closest vertex and the nearest feature of the other polygon, or `None` if the polygons have many
/// vertices, or the walk takes too many steps.
///
/// It begins at the vertex of the difference that lies farthest in the direction from the middle of the one polygon to that
/// of the other, and goes on along the boundary while the distance from the origin falls.
pub(crate) fn guess_by_steps(this: &Polygon, other: &Polygon) -> Option<Closest>
    requires this { 0 < length (vertices_of this.now) }
    requires that { 0 < length (vertices_of other.now) }
{
    if !are_few(this, other) {
        return None;
    }
    let way = way_between(this, other);
    let facing = vertex_facing(this, other, way);
    let mut at = DifferenceVertex {
        this: second_of_farthest(this.vertices, facing.this, way),
        other: second_of_farthest(other.vertices, facing.other, way.back()),
    };
    for _step in 0..STEPS {
        match step_from(this, other, at) {
            Step::Ends => return Some(closest_at(at)),
            Step::Within(edge) => return Some(closest_within(this, other, edge)),
            Step::To(next) => {
                at = DifferenceVertex {
                    this: index_round(this.vertices, next.this),
                    other: index_round(other.vertices, next.other),
                };
            }
        }
    }
    None
}
