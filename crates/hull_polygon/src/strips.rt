//! The direction in which a hull is least wide.
ghost use Rattle.std.specs.Prelude.{◌≡◌, ◌↔◌, IsTrue, ◌<◌, ◌≤◌, length, pos, ◌≤ℤ◌, MatchOption};
ghost use Rattle.lattice.specs.Plane as plane;
ghost use Rattle.lattice.specs.Plane.{widest_side, IsWithin};
ghost use Rattle.hull_polygon.specs.Extents.{edge_squared, side_of, IsLeastWidth, IsOnePoint, IsStripAt};
ghost use Rattle.hull_polygon.specs.Extents.{IsThinner, IsThinnerOf};
ghost use Rattle.hull_polygon.specs.Polygons.{HoldsOfSetsOf};
ghost use Rattle.hull_polygon.specs.Rounds.{IsSeparated};
ghost use Rattle.hull_polygon.specs.Lent.{vertices_of};

use super::diameter::opposite;
use super::polygon::Polygon;
use super::ratios::is_less_ratio;
use super::rounds::vertex_at;
use lattice::{Point, distance_squared, orient};

/// The strip between the line of an edge and the parallel to it through the point farthest from it; it contains the
/// hull. Its width is [`orient`](lattice::orient) of the three points divided by the length of the edge. The squared
/// width is the square of that number divided by [`distance_squared`](lattice::distance_squared) of the edge's ends.
#[derive(Clone, Copy, PartialEq, Eq, Debug)]
pub struct Strip {
    /// The vertex at which the edge begins; the hull lies left of it.
    pub from: Point,
    /// The next vertex.
    pub to: Point,
    /// A vertex farthest from the edge.
    pub farthest: Point,
}

/// Returns a number that is not below 0, without a sign.
pub(crate) fn natural(number: i128) -> u128
    requires above { pos 0 ≤ℤ number }
    requires within { IsWithin widest_side number }
    ensures value { pos result ≡ number }
    ensures size { result ≤ widest_side }
{
    number as u128
}

/// Returns the square of the distance of two points.
pub(crate) fn length_of(a: Point, b: Point) -> u128
    ensures value { pos result ≡ plane.distance_squared a b }
    ensures size { result ≤ widest_side }
{
    natural(distance_squared(a, b))
}

/// Returns twice the area of the edge and the farthest point.
fn side(w: &Strip) -> u128
    requires { pos 0 ≤ℤ side_of w.now }
    ensures value { pos result ≡ side_of w.now }
    ensures size { result ≤ widest_side }
{
    natural(orient(w.from, w.to, w.farthest))
}

/// Returns the square of the length of the edge.
fn edge(w: &Strip) -> u128
    ensures value { pos result ≡ edge_squared w.now }
    ensures size { result ≤ widest_side }
{
    length_of(w.from, w.to)
}

/// Whether one strip is less wide than another: it compares the square of each side, divided by that of the edge.
fn is_thinner(p: &Strip, q: &Strip) -> bool
    requires first { pos 0 ≤ℤ side_of p.now }
    requires second { pos 0 ≤ℤ side_of q.now }
    ensures { IsTrue result ↔ IsThinner p.now q.now }
{
    is_less_ratio(side(p), edge(p), side(q), edge(q))
}

/// Returns the less wide of two strips; the first if both are as wide.
fn thinner(p: Strip, q: Strip) -> Strip
    requires first { pos 0 ≤ℤ side_of p }
    requires second { pos 0 ≤ℤ side_of q }
    ensures { IsThinnerOf p q result }
{
    let is_second = is_thinner(&q, &p);
    if is_second { q } else { p }
}

/// Returns the strip of the edge from the vertex at `i`.
fn strip_at(vertices: &[Point], last: usize, i: usize) -> Strip
    requires separated { IsSeparated vertices.now last }
    requires within { i < length vertices.now }
    ensures { HoldsOfSetsOf vertices.now (λ S. IsStripAt S vertices.now i result) }
{
    Strip {
        from: vertex_at(vertices, i),
        to: vertex_at(vertices, i + 1),
        farthest: opposite(vertices, last, i),
    }
}

/// Returns the strip of the edge for which the hull is least wide.
fn thinnest(vertices: &[Point], last: usize) -> Strip
    requires two { 1 < length vertices.now }
    requires separated { IsSeparated vertices.now last }
    ensures { HoldsOfSetsOf vertices.now (λ S. IsLeastWidth S result) }
{
    let mut best = strip_at(vertices, last, 0);
    for i in 1..vertices.len() {
        best = thinner(best, strip_at(vertices, last, i));
    }
    best
}

impl<'a> Polygon<'a> {
    /// Returns the strip of an edge in which the hull is least wide: no direction has a narrower one; or `None` if
    /// there are fewer than two vertices. A bisection for each vertex.
    ///
    /// Between the normals of two edges the width of a convex polygon is least at one of them (Toussaint, 1983).
    /// Widths are compared squared and exactly, by products of 252 bits.
    pub fn least_width(&self) -> Option<Strip>
        ensures { HoldsOfSetsOf (vertices_of self.now)
            (λ S. MatchOption result (IsOnePoint S) (λ strip. IsLeastWidth S strip)) }
    {
        if self.vertices.len() < 2 {
            None
        } else {
            Some(thinnest(self.vertices, self.last))
        }
    }
}
