//! Vertices of the Minkowski difference of two polygons, which is never made: the walks over it guess, so nothing is
//! proved of these numbers. They do not wrap, since coordinates are at most 2^40.
ghost use Rattle.std.specs.Prelude.{◌<◌, length};
ghost use Rattle.hull_polygon.specs.Lent.{vertices_of};

use super::polygon::Polygon;
use lattice::Point;

/// A difference of two points, or of two such differences.
#[derive(Clone, Copy)]
pub(crate) struct Offset {
    pub(crate) x: i64,
    pub(crate) y: i64,
}

/// Returns `a` minus `b`.
pub(crate) fn offset_of(a: Point, b: Point) -> Offset {
    Offset {
        x: a.x().wrapping_sub(b.x()),
        y: a.y().wrapping_sub(b.y()),
    }
}

impl Offset {
    /// Returns this minus another.
    pub(crate) fn minus(self, other: Offset) -> Offset {
        Offset {
            x: self.x.wrapping_sub(other.x),
            y: self.y.wrapping_sub(other.y),
        }
    }

    /// Returns the sum of this and another.
    pub(crate) fn plus(self, other: Offset) -> Offset {
        Offset {
            x: self.x.wrapping_add(other.x),
            y: self.y.wrapping_add(other.y),
        }
    }

    /// Returns the opposite.
    pub(crate) fn back(self) -> Offset {
        Offset {
            x: self.x.wrapping_neg(),
            y: self.y.wrapping_neg(),
        }
    }

    /// Returns this rotated to the left by 90 degrees.
    pub(crate) fn turned_left(self) -> Offset {
        Offset {
            x: self.y.wrapping_neg(),
            y: self.x,
        }
    }

    /// Returns the cross product with another, which is above 0 if the other turns left.
    pub(crate) fn cross(self, other: Offset) -> i128 {
        let left = i128::from(self.x).wrapping_mul(i128::from(other.y));
        left.wrapping_sub(i128::from(self.y).wrapping_mul(i128::from(other.x)))
    }

    /// Returns the inner product with another.
    pub(crate) fn dot(self, other: Offset) -> i128 {
        let across = i128::from(self.x).wrapping_mul(i128::from(other.x));
        across.wrapping_add(i128::from(self.y).wrapping_mul(i128::from(other.y)))
    }

    /// Whether the origin is before this in the order of points.
    pub(crate) fn is_forward(self) -> bool {
        self.x > 0 || self.x == 0 && self.y > 0
    }
}

/// Returns the index of a vertex in the list, of one that may be counted on into a second round.
pub(crate) fn index_round(vertices: &[Point], i: usize) -> usize
    requires { 0 < length vertices.now }
    ensures { result < length vertices.now }
{
    let count = vertices.len();
    if i < count {
        i
    } else if i - count < count {
        i - count
    } else {
        0
    }
}

/// Returns the vertex with an index that may be counted on into a second round.
pub(crate) fn vertex_round(vertices: &[Point], i: usize) -> Point
    requires { 0 < length vertices.now }
{
    vertices[index_round(vertices, i)]
}

/// Returns the step from the vertex at `i` to the next one.
pub(crate) fn edge_from(vertices: &[Point], i: usize) -> Offset
    requires { 0 < length vertices.now }
{
    offset_of(
        vertex_round(vertices, i.wrapping_add(1)),
        vertex_round(vertices, i),
    )
}

/// A vertex of the difference: the index of a vertex of this polygon minus that of one of the other.
#[derive(Clone, Copy)]
pub(crate) struct DifferenceVertex {
    pub(crate) this: usize,
    pub(crate) other: usize,
}

/// A vertex or an edge of one of the polygons, by the index of the vertex or of the one at which the edge begins.
#[derive(Clone, Copy)]
pub(crate) enum Feature {
    /// One of this polygon.
    OfThis(usize),
    /// One of the other.
    OfOther(usize),
}

/// A vertex of one polygon that is closest to the other, and the vertex of the other that is nearest to it or at which the
/// nearest edge begins.
#[derive(Clone, Copy)]
pub(crate) struct Closest {
    /// The vertex.
    pub(crate) vertex: Feature,
    /// The index of the other polygon's vertex.
    pub(crate) place: usize,
}

/// The vertices of the difference counterclockwise from one to another.
#[derive(Clone, Copy)]
pub(crate) struct Bracket {
    pub(crate) start: DifferenceVertex,
    pub(crate) end: DifferenceVertex,
}

/// Returns a vertex of the difference.
pub(crate) fn offset_at(this: &Polygon, other: &Polygon, at: DifferenceVertex) -> Offset
    requires this { 0 < length (vertices_of this.now) }
    requires that { 0 < length (vertices_of other.now) }
{
    offset_of(
        vertex_round(this.vertices, at.this),
        vertex_round(other.vertices, at.other),
    )
}

/// Returns the first index from `low` to `high` whose edge has a cross product with `way` that is not below the bound; if
/// there is none, `high`.
pub(crate) fn first_turned(
    vertices: &[Point],
    low: usize,
    high: usize,
    way: Offset,
    bound: i128,
) -> usize
    requires { 0 < length vertices.now }
{
    let mut low = low;
    let mut high = high;
    while low < high {
        let middle = low + (high - low) / 2;
        if way.cross(edge_from(vertices, middle)) < bound {
            low = middle + 1;
        } else {
            high = middle;
        }
    }
    low
}

/// Returns the vertex of the difference that lies farthest to the right of `way`, of those in a bracket.
pub(crate) fn farthest_across(
    this: &Polygon,
    other: &Polygon,
    bracket: Bracket,
    way: Offset,
) -> DifferenceVertex
    requires this { 0 < length (vertices_of this.now) }
    requires that { 0 < length (vertices_of other.now) }
{
    let (start, end) = (bracket.start, bracket.end);
    DifferenceVertex {
        this: first_turned(this.vertices, start.this, end.this, way, 0),
        other: first_turned(other.vertices, start.other, end.other, way.back(), 0),
    }
}
