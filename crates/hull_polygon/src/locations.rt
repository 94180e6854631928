//! The location of a point relative to a hull.
ghost use Rattle.std.specs.Prelude.{◌<◌, length};
ghost use Rattle.lattice.specs.Plane.{IsBefore};
ghost use Rattle.hull_geometry.specs.Edges.{IsAlong};
ghost use Rattle.hull_geometry.specs.Locations.{IsEdgeOnAt};
ghost use Rattle.hull_polygon.specs.Polygons.{HoldsOfSetsOf};
ghost use Rattle.hull_polygon.specs.Rounds.{vertex, IsSeparated};
ghost use Rattle.hull_polygon.specs.Locations.{IsSeen};
ghost use Rattle.hull_polygon.specs.Touches.{starts_at, ends_at};

use super::bisection::{first_failing_on, is_along};
use super::rounds::vertex_at;
use hull_geometry::{Location, location_by};
use lattice::{Point, Side, before, orient};

/// Returns the edge on this side that begins at `q`, or the one that begins before `q` along the chain and ends after
/// it.
fn edge_at(side: Side, vertices: &[Point], last: usize, q: Point) -> (Point, Point)
    requires some { 0 < length vertices.now }
    requires separated { IsSeparated vertices.now last }
    requires from { ¬ IsAlong side q (vertex vertices.now (starts_at side last)) }
    requires to { IsAlong side q (vertex vertices.now (ends_at side vertices.now last)) }
    ensures { HoldsOfSetsOf vertices.now (λ S. IsEdgeOnAt side S q result) }
{
    let start = first_failing_on(side, vertices, last, &|_, end| !is_along(side, q, end));
    (vertex_at(vertices, start), vertex_at(vertices, start + 1))
}

/// Returns the location of `q`, which is not before the first vertex, and is before the last.
fn look_between(vertices: &[Point], last: usize, q: Point) -> Location
    requires some { 0 < length vertices.now }
    requires separated { IsSeparated vertices.now last }
    requires from { ¬ IsBefore q (vertex vertices.now 0) }
    requires to { IsBefore q (vertex vertices.now last) }
    ensures { HoldsOfSetsOf vertices.now (IsSeen vertices.now last q result) }
{
    let edge = edge_at(Side::Lower, vertices, last, q);
    if !before(edge.0, q) {
        return Location::Touching;
    }
    let lower = orient(edge.0, edge.1, q);
    if lower < 0 {
        return Location::Below;
    }
    let upper = edge_at(Side::Upper, vertices, last, q);
    location_by(lower, orient(upper.0, upper.1, q))
}

/// Returns the location of `q` relative to the hull of these vertices, of which there is at least one.
pub(crate) fn look(vertices: &[Point], last: usize, q: Point) -> Location
    requires some { 0 < length vertices.now }
    requires separated { IsSeparated vertices.now last }
    ensures { HoldsOfSetsOf vertices.now (IsSeen vertices.now last q result) }
{
    if before(q, vertex_at(vertices, 0)) {
        return Location::Before;
    }
    if before(vertex_at(vertices, last), q) {
        return Location::After;
    }
    if before(q, vertex_at(vertices, last)) {
        look_between(vertices, last, q)
    } else {
        Location::Touching
    }
}
