//! A guess at the relation of two polygons, by a walk over the boundary of their Minkowski difference.
ghost use Rattle.std.specs.Prelude.{◌<◌, length};
ghost use Rattle.hull_polygon.specs.Lent.{vertices_of};

use super::offsets::{Bracket, DifferenceVertex, Offset, farthest_across, offset_at};
use super::polygon::Polygon;

/// How many steps a walk may take. Each step leaves at most a quarter of the area in which the origin may lie, of at most
/// 2^84, so that no walk takes more than 44.
pub(crate) const STEPS: u32 = 64;

/// More than a component of a vertex of the difference.
const BEYOND: i64 = 4398046511105;

/// The indices of three vertices of each of two polygons, which may be counted on into a second round.
#[derive(Clone, Copy)]
pub(crate) struct Few {
    pub(crate) this: [usize; 3],
    pub(crate) other: [usize; 3],
}

/// Returns the vertices of the polygons that make three vertices of the difference.
fn few_of(first: DifferenceVertex, middle: DifferenceVertex, last: DifferenceVertex) -> Few {
    Few {
        this: [first.this, middle.this, last.this],
        other: [first.other, middle.other, last.other],
    }
}

/// A guess at the relation of two polygons.
#[derive(Clone, Copy)]
pub(crate) enum Guess {
    /// They intersect, and so do the hulls of these vertices.
    Meeting(Few),
    /// They are disjoint: the difference is on the left of the line through this vertex of it in this direction, and the
    /// origin on the right.
    Apart(DifferenceVertex, Offset),
    /// The walk took too many steps.
    Unknown,
}

/// Returns the direction along the supporting line at the first or last vertex of the difference, if the origin lies
/// before or after it.
fn line_beside(vertex: Offset) -> Offset {
    let steep = if vertex.x == 0 {
        Offset { x: 1, y: -BEYOND }
    } else {
        Offset { x: 0, y: -1 }
    };
    if vertex.is_forward() {
        steep
    } else {
        steep.back()
    }
}

/// Returns the part of a bracket on one side of a vertex that lies farthest across its chord: the one in whose range of
/// the order of points the origin lies.
fn narrowed(bracket: Bracket, middle: DifferenceVertex, vertex: Offset, is_lower: bool) -> Bracket {
    if vertex.is_forward() == is_lower && (vertex.x != 0 || vertex.y != 0) {
        Bracket {
            start: bracket.start,
            end: middle,
        }
    } else {
        Bracket {
            start: middle,
            end: bracket.end,
        }
    }
}

/// Returns the guess at the relation by the chain of the difference from its first vertex to its last, or back, if the
/// origin lies on the chain's side of their line.
fn guess_by_chain(this: &Polygon, other: &Polygon, chain: Bracket, is_lower: bool) -> Guess
    requires this { 0 < length (vertices_of this.now) }
    requires that { 0 < length (vertices_of other.now) }
{
    let mut bracket = chain;
    for _step in 0..STEPS {
        let start = offset_at(this, other, bracket.start);
        let chord = offset_at(this, other, bracket.end).minus(start);
        let middle = farthest_across(this, other, bracket, chord);
        let vertex = offset_at(this, other, middle);
        if chord.cross(vertex) > 0 {
            return Guess::Apart(middle, chord);
        }
        let (first, last) = (bracket.start, bracket.end);
        bracket = narrowed(bracket, middle, vertex, is_lower);
        let from = offset_at(this, other, bracket.start);
        let to = offset_at(this, other, bracket.end);
        if to.minus(from).cross(from) <= 0 {
            return Guess::Meeting(few_of(first, middle, last));
        }
    }
    Guess::Unknown
}

/// Returns a guess at whether two polygons intersect: whether the origin lies in their difference.
///
/// The origin lies outside the chord of two vertices of the difference. The vertex farthest across that chord is found by
/// a bisection of each polygon, between the indices that the two vertices have there. If the origin lies beyond it, the
/// polygons are disjoint; else the walk goes on with the half that is before or after the origin, until its chord has
/// the origin on the inner side.
pub(crate) fn guess_relation(this: &Polygon, other: &Polygon) -> Guess
    requires this { 0 < length (vertices_of this.now) }
    requires that { 0 < length (vertices_of other.now) }
{
    let least = DifferenceVertex {
        this: 0,
        other: other.last,
    };
    let most = DifferenceVertex {
        this: this.last,
        other: 0,
    };
    let (first, last) = (offset_at(this, other, least), offset_at(this, other, most));
    if first.is_forward() {
        return Guess::Apart(least, line_beside(first));
    }
    if last.back().is_forward() {
        return Guess::Apart(most, line_beside(last));
    }
    let side = last.minus(first).cross(first);
    if side == 0 {
        return Guess::Meeting(few_of(least, most, least));
    }
    let (first_end, last_end) = (
        DifferenceVertex {
            this: this.vertices.len(),
            other: other.last,
        },
        DifferenceVertex {
            this: this.last,
            other: other.vertices.len(),
        },
    );
    if side > 0 {
        let chain = Bracket {
            start: least,
            end: last_end,
        };
        guess_by_chain(this, other, chain, true)
    } else {
        let chain = Bracket {
            start: most,
            end: first_end,
        };
        guess_by_chain(this, other, chain, false)
    }
}
