//! Whether a list of points is the vertices of a convex polygon, in one pass.
ghost use Rattle.std.specs.Prelude.{◌≡◌, ◌↔◌, pos, ◌<ℤ◌, ◌+◌, ◌<◌, ◌≤◌, length, IsTrue, MatchOption};
ghost use Rattle.lattice.specs.Plane as plane;
ghost use Rattle.lattice.specs.Plane.{IsBefore};
ghost use Rattle.hull_polygon.specs.Polygons.{IsPolygon};
ghost use Rattle.hull_polygon.specs.Rounds.{vertex, GoesOn, BendsLeft, IsRound, IsSeparated};

use super::bisection::first_failing;
use lattice::{Point, before, orient};

/// Whether `t` lies left of the line from `a` to `b`.
pub(crate) fn is_left(a: Point, b: Point, t: Point) -> bool
    ensures { IsTrue result ↔ (pos 0 <ℤ plane.orient a b t) }
{
    orient(a, b, t) > 0
}

/// Returns the vertex at `i`; at the end of the list the first one again.
pub(crate) fn vertex_at(vertices: &[Point], i: usize) -> Point
    requires some { 0 < length vertices.now }
    requires within { i ≤ length vertices.now }
    ensures { result ≡ vertex vertices.now i }
{
    if i < vertices.len() {
        vertices[i]
    } else {
        vertices[0]
    }
}

/// Whether the vertex after the one at `i` lies forward.
fn is_forward(vertices: &[Point], i: usize) -> bool
    requires { i < length vertices.now }
    ensures { IsTrue result ↔ IsBefore (vertex vertices.now i) (vertex vertices.now (i + 1)) }
{
    before(vertex_at(vertices, i), vertex_at(vertices, i + 1))
}

/// Whether the vertex after the one at `i` lies back.
fn is_back(vertices: &[Point], i: usize) -> bool
    requires { i < length vertices.now }
    ensures { IsTrue result ↔ IsBefore (vertex vertices.now (i + 1)) (vertex vertices.now i) }
{
    before(vertex_at(vertices, i + 1), vertex_at(vertices, i))
}

/// Whether the list bends left after the vertex at `i`.
fn bends_left(vertices: &[Point], i: usize) -> bool
    requires { i + 1 < length vertices.now }
    ensures { IsTrue result
        ↔ (pos 0 <ℤ plane.orient (vertex vertices.now i) (vertex vertices.now (i + 1)) (vertex vertices.now (i + 2))) }
{
    is_left(
        vertex_at(vertices, i),
        vertex_at(vertices, i + 1),
        vertex_at(vertices, i + 2),
    )
}

/// Returns the index of the last vertex, if the vertices are those of a set.
pub(crate) fn summit(vertices: &[Point]) -> usize
    requires { 1 < length vertices.now }
    ensures within { result < length vertices.now }
    ensures parts { IsPolygon vertices.now → IsRound vertices.now result }
{
    first_failing(
        vertices,
        0,
        vertices.len() - 1,
        &|here, next| before(here, next),
    )
}

/// Whether the next vertex lies forward if `i` is before `last`, and back from `last` on.
fn goes_on(vertices: &[Point], last: usize, i: usize) -> bool
    requires { i < length vertices.now }
    ensures { IsTrue result ↔ GoesOn vertices.now last i }
{
    if i < last {
        is_forward(vertices, i)
    } else {
        is_back(vertices, i)
    }
}

/// Whether the list bends left after the vertex at `i`, if it goes on in the same direction.
fn bends(vertices: &[Point], last: usize, i: usize) -> bool
    requires { i < length vertices.now }
    ensures { IsTrue result ↔ BendsLeft vertices.now last i }
{
    if i + 1 == last || i + 1 == vertices.len() {
        true
    } else {
        bends_left(vertices, i)
    }
}

/// Whether the vertices go forward to the one at `last`, and then back, and bend left between.
fn is_round(vertices: &[Point], last: usize) -> bool
    requires starts { 0 < last }
    requires within { last < length vertices.now }
    ensures { IsTrue result ↔ IsRound vertices.now last }
{
    for i in 0..vertices.len() {
        if !goes_on(vertices, last, i) || !bends(vertices, last, i) {
            return false;
        }
    }
    true
}

/// Returns the index of the last vertex of a polygon, or `None` if the list is not a polygon; of fewer than two
/// vertices it is 0.
pub(crate) fn last_of(vertices: &[Point]) -> Option<usize>
    ensures { MatchOption result (¬ IsPolygon vertices.now)
        (λ last. IsPolygon vertices.now × IsSeparated vertices.now last) }
{
    if vertices.len() < 2 {
        return Some(0);
    }
    let last = summit(vertices);
    if last > 0 && is_round(vertices, last) {
        Some(last)
    } else {
        None
    }
}

/// Whether the points are the vertices of a set, counterclockwise from the first by x and then y, as
/// [`HullSet::vertices`](hull_set::HullSet::vertices) returns them.
///
/// One pass: a list of at least two points is a polygon if it goes forward to its last point and back from there to the
/// first, and bends left in between (the two chains of Andrew, 1979). Lists of one point and of none are polygons.
pub fn is_polygon(vertices: &[Point]) -> bool
    ensures { IsTrue result ↔ IsPolygon vertices.now }
{
    last_of(vertices).is_some()
}
