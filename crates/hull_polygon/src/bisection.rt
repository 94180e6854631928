//! Bisection of a chain: the one search that all questions share.
ghost use Rattle.std.specs.Prelude.{◌+◌, ◌-◌, ◌<◌, ◌≤◌, ◌↔◌, IsTrue, length, true, false};
ghost use Rattle.hull_polygon.specs.Rounds.{vertex};
ghost use Rattle.hull_geometry.specs.Edges.{IsAlong};
ghost use Rattle.hull_polygon.specs.Touches.{starts_at, ends_at};

use lattice::{Point, Side, before};

/// Returns an index from `low` to `high` such that `holds` is true of the edge that ends there and false of the edge
/// that begins there: of the vertices at that index and the adjacent ones. At the two ends the condition of the missing
/// edge counts as met. (Each step adds and subtracts, so that a test by a sign needs no branch.)
pub(crate) fn first_failing<F: Fn(Point, Point) -> bool>(
    vertices: &[Point],
    low: usize,
    high: usize,
    holds: &F,
) -> usize
    requires ordered { low ≤ high }
    requires within { high < length vertices.now }
    requires callable { F.IsAlwaysCallable holds.now }
    ensures from { low ≤ result }
    ensures to { result ≤ high }
    ensures held { low < result
        → F.post holds.now (vertex vertices.now (result - 1)) (vertex vertices.now (result - 1 + 1)) true }
    ensures fails { result < high
        → F.post holds.now (vertex vertices.now result) (vertex vertices.now (result + 1)) false }
{
    let mut low = low;
    let mut edges = high - low;
    while edges > 0 {
        let half = edges / 2;
        let middle = low + half;
        if holds(vertices[middle], vertices[middle + 1]) {
            low += half + 1;
            edges -= half + 1;
        } else {
            edges = half;
        }
    }
    low
}

/// Returns the same on the chain back, from the vertex at `last` to the end of the list, after which the first vertex
/// follows again.
pub(crate) fn first_failing_back<F: Fn(Point, Point) -> bool>(
    vertices: &[Point],
    last: usize,
    holds: &F,
) -> usize
    requires within { last < length vertices.now }
    requires callable { F.IsAlwaysCallable holds.now }
    ensures from { last ≤ result }
    ensures to { result ≤ length vertices.now }
    ensures held { last < result
        → F.post holds.now (vertex vertices.now (result - 1)) (vertex vertices.now (result - 1 + 1)) true }
    ensures fails { result < length vertices.now
        → F.post holds.now (vertex vertices.now result) (vertex vertices.now (result + 1)) false }
{
    let end = vertices.len() - 1;
    let place = first_failing(vertices, last, end, holds);
    if place == end && holds(vertices[end], vertices[0]) {
        vertices.len()
    } else {
        place
    }
}

/// Returns the same on the chain on this side.
pub(crate) fn first_failing_on<F: Fn(Point, Point) -> bool>(
    side: Side,
    vertices: &[Point],
    last: usize,
    holds: &F,
) -> usize
    requires within { last < length vertices.now }
    requires callable { F.IsAlwaysCallable holds.now }
    ensures from { starts_at side last ≤ result }
    ensures to { result ≤ ends_at side vertices.now last }
    ensures held { starts_at side last < result
        → F.post holds.now (vertex vertices.now (result - 1)) (vertex vertices.now (result - 1 + 1)) true }
    ensures fails { result < ends_at side vertices.now last
        → F.post holds.now (vertex vertices.now result) (vertex vertices.now (result + 1)) false }
{
    match side {
        Side::Lower => first_failing(vertices, 0, last, holds),
        Side::Upper => first_failing_back(vertices, last, holds),
    }
}

/// Whether `p` is before `q` along the chain on this side, which goes back on the upper one.
pub(crate) fn is_along(side: Side, p: Point, q: Point) -> bool
    ensures { IsTrue result ↔ IsAlong side p q }
{
    match side {
        Side::Lower => before(p, q),
        Side::Upper => before(q, p),
    }
}
