//! The nearest point of a hull: one of its vertices, or a point of one of its edges.
ghost use Rattle.std.specs.Prelude.{◌≡◌, ◌↔◌, IsTrue, ◌<◌, ◌+◌, length, pos, ◌<ℤ◌, MatchOption, IfSome, []};
ghost use Rattle.lattice.specs.Plane as plane;
ghost use Rattle.lattice.specs.Covers.{Covers};
ghost use Rattle.lattice.specs.Places.{IsFarthest};
ghost use Rattle.hull_polygon.specs.Nearest.{ComesNearer, IsNearest, IsPassedOver};
ghost use Rattle.hull_polygon.specs.Nearest.{IsOnward, IsBeside, IsTurnedFrom, previous};
ghost use Rattle.hull_polygon.specs.Polygons.{HoldsOfSetsOf};
ghost use Rattle.hull_polygon.specs.Rounds.{vertex, IsSeparated};
ghost use Rattle.hull_polygon.specs.Lent.{vertices_of};

use super::bisection::{first_failing_on, is_along};
use super::extreme::is_nearer;
use super::polygon::Polygon;
use super::rounds::vertex_at;
use super::vector::Vector;
use lattice::{Point, Side, orient};

/// The point of a hull that is nearest to a point `q`.
#[derive(Clone, Copy, PartialEq, Eq, Debug)]
pub enum Nearest {
    /// The hull covers `q`, which is its own nearest point.
    Covered,
    /// This vertex.
    Vertex(Point),
    /// A point of the edge from one vertex to the next, counterclockwise, strictly between them: the foot of `q` on
    /// their line.
    Edge(Point, Point),
}

/// Whether `t` lies right of the line from `a` to `b`.
pub(crate) fn is_right(a: Point, b: Point, t: Point) -> bool
    ensures { IsTrue result ↔ (plane.orient a b t <ℤ pos 0) }
{
    orient(a, b, t) < 0
}

/// Whether `q` lies farther than `a` in the direction from `a` to `b`.
fn is_onward(a: Point, b: Point, q: Point) -> bool
    ensures { IsTrue result ↔ IsOnward a b q }
{
    let way = Vector::step(a, b);
    way.product(a) < way.product(q)
}

/// Whether `q` lies right of the edge from `a` to `b`, with its foot strictly between them.
fn is_beside(a: Point, b: Point, q: Point) -> bool
    ensures { IsTrue result ↔ IsBeside a b q }
{
    is_right(a, b, q) && is_onward(a, b, q) && is_onward(b, a, q)
}

/// Whether `q`, seen from `c`, lies in the direction neither of `p` nor of `n`.
fn is_turned_from(p: Point, c: Point, n: Point, q: Point) -> bool
    ensures { IsTrue result ↔ IsTurnedFrom p c n q }
{
    !is_onward(c, p, q) && !is_onward(c, n, q)
}

/// Returns the vertex before the one at `i`, round the list.
fn vertex_before(vertices: &[Point], i: usize) -> Point
    requires { i < length vertices.now }
    ensures { result ≡ previous vertices.now i }
{
    if i == 0 {
        vertices[vertices.len() - 1]
    } else {
        vertices[i - 1]
    }
}

/// Whether the vertex at `i` is the nearest to `q`, which the hull does not cover.
fn is_nearest_at(vertices: &[Point], i: usize, q: Point) -> bool
    requires { i < length vertices.now }
    ensures { IsTrue result
        ↔ IsTurnedFrom (previous vertices.now i) (vertex vertices.now i) (vertex vertices.now (i + 1)) q }
{
    is_turned_from(
        vertex_before(vertices, i),
        vertex_at(vertices, i),
        vertex_at(vertices, i + 1),
        q,
    )
}

/// Whether `q` lies beside the edge from the vertex at `i`.
fn is_beside_at(vertices: &[Point], i: usize, q: Point) -> bool
    requires { i < length vertices.now }
    ensures { IsTrue result ↔ IsBeside (vertex vertices.now i) (vertex vertices.now (i + 1)) q }
{
    is_beside(vertex_at(vertices, i), vertex_at(vertices, i + 1), q)
}

/// Returns the vertex at `i` or the edge from it, whichever is the nearest to `q`, which the hull does not cover, or
/// `None` if neither is.
fn nearest_at(vertices: &[Point], last: usize, i: usize, q: Point) -> Option<Nearest>
    requires within { i < length vertices.now }
    requires separated { IsSeparated vertices.now last }
    requires outside { HoldsOfSetsOf vertices.now (λ S. ¬ Covers S q) }
    ensures { MatchOption result (IsPassedOver vertices.now i q)
        (λ found. HoldsOfSetsOf vertices.now (λ S. IsNearest S q found)) }
{
    if is_nearest_at(vertices, i, q) {
        return Some(Nearest::Vertex(vertex_at(vertices, i)));
    }
    if is_beside_at(vertices, i, q) {
        return Some(Nearest::Edge(vertex_at(vertices, i), vertex_at(vertices, i + 1)));
    }
    None
}

/// Returns the vertex at `i` or the edge from it, if it is the nearest to `q`; else `None`, also if `q` is that vertex.
pub(crate) fn nearest_there(vertices: &[Point], last: usize, i: usize, q: Point) -> Option<Nearest>
    requires within { i < length vertices.now }
    requires separated { IsSeparated vertices.now last }
    ensures { HoldsOfSetsOf vertices.now (λ S. IfSome result (λ found. IsNearest S q found)) }
{
    let c = vertex_at(vertices, i);
    if c == q {
        return None;
    }
    if is_nearest_at(vertices, i, q) {
        return Some(Nearest::Vertex(c));
    }
    if is_beside_at(vertices, i, q) {
        return Some(Nearest::Edge(c, vertex_at(vertices, i + 1)));
    }
    None
}

/// Whether no point of the hull lies farther in a direction than the vertex at `i`, since neither adjacent vertex does.
pub(crate) fn is_farthest_at(vertices: &[Point], last: usize, i: usize, d: Vector) -> bool
    requires within { i < length vertices.now }
    requires separated { IsSeparated vertices.now last }
    ensures { HoldsOfSetsOf vertices.now (λ S. IsTrue result → IsFarthest S d (vertex vertices.now i)) }
{
    let c = vertex_at(vertices, i);
    if is_nearer(d, c, vertex_before(vertices, i)) {
        return false;
    }
    if is_nearer(d, c, vertex_at(vertices, i + 1)) {
        return false;
    }
    true
}

/// Returns the vertex or the edge nearest to `q`, which the hull does not cover, in one pass.
fn nearest_of_all(vertices: &[Point], last: usize, q: Point) -> Nearest
    requires some { 0 < length vertices.now }
    requires separated { IsSeparated vertices.now last }
    requires outside { HoldsOfSetsOf vertices.now (λ S. ¬ Covers S q) }
    ensures { HoldsOfSetsOf vertices.now (λ S. IsNearest S q result) }
{
    for i in 0..vertices.len() {
        if let Some(found) = nearest_at(vertices, last, i, q) {
            return found;
        }
    }
    unreachable!()
}

/// Whether an edge of the chain on this side still comes nearer to `q` at its end; if `q` does not see the edge,
/// whether the edge ends before it.
fn comes_nearer(side: Side, start: Point, end: Point, q: Point) -> bool
    ensures { IsTrue result ↔ ComesNearer side start end q }
{
    if is_right(start, end, q) {
        !is_onward(end, start, q)
    } else {
        is_along(side, end, q)
    }
}

/// Returns the index of the vertex up to which the chain on this side comes nearer to `q`.
fn nearest_on(side: Side, vertices: &[Point], last: usize, q: Point) -> usize
    requires { last < length vertices.now }
    ensures { result < length vertices.now }
{
    let nearer = |start, end| comes_nearer(side, start, end, q);
    let place = first_failing_on(side, vertices, last, &nearer);
    if place < vertices.len() { place } else { 0 }
}

/// Returns the vertex or the edge nearest to `q`, which the hull does not cover.
///
/// Along the part of the boundary that `q` sees, the distance to `q` falls, and then rises: the distance from `q` to
/// the line of an edge, along a ray that goes round, is the distance from the line divided by the cosine of the ray's
/// angle, and the boundary is the greatest of these. So a bisection of each chain finds where it changes. It is not
/// proved that one of the two does: if neither did, one pass would search for it, which no test has seen.
pub(crate) fn nearest_outside(vertices: &[Point], last: usize, q: Point) -> Nearest
    requires some { 0 < length vertices.now }
    requires separated { IsSeparated vertices.now last }
    requires outside { HoldsOfSetsOf vertices.now (λ S. ¬ Covers S q) }
    ensures { HoldsOfSetsOf vertices.now (λ S. IsNearest S q result) }
{
    let below = nearest_on(Side::Lower, vertices, last, q);
    if let Some(found) = nearest_at(vertices, last, below, q) {
        return found;
    }
    let above = nearest_on(Side::Upper, vertices, last, q);
    if let Some(found) = nearest_at(vertices, last, above, q) {
        return found;
    }
    nearest_of_all(vertices, last, q)
}

impl<'a> Polygon<'a> {
    /// Returns the point of the hull that is nearest to `q`, or `None` if the set is empty. A bisection of both chains,
    /// and two for the place of `q`.
    ///
    /// For `Vertex(c)` the squared distance is [`distance_squared`](lattice::distance_squared) of `q` and `c`; for
    /// `Edge(a, b)` it is the square of [`orient`](lattice::orient) of `a`, `b` and `q`, divided by the squared
    /// distance of `a` and `b`.
    pub fn nearest(&self, q: Point) -> Option<Nearest>
        ensures { HoldsOfSetsOf (vertices_of self.now)
            (λ S. MatchOption result (S ≡ []) (λ place. IsNearest S q place)) }
    {
        if self.vertices.is_empty() {
            return None;
        }
        if self.covers(q) {
            return Some(Nearest::Covered);
        }
        Some(nearest_outside(self.vertices, self.last, q))
    }
}
