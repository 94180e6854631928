//! A caller of `hull_polygon`.
ghost use Rattle.std.specs.Prelude.{MatchOption, length, ◌≤◌};
ghost use Rattle.hull_polygon.specs.Polygons.{HoldsOfSetsOf, IsPolygon};
ghost use Rattle.hull_polygon.specs.Meetings.{ReturnsMeeting, segment};

use hull_polygon::{Polygon, is_polygon};
use hull_set::POINT_LIMIT;
use lattice::Point;

/// Whether the straight path from `a` to `b` intersects a hull, by the list of its vertices; `None` if the list, of no more points than a hull may
/// have, is not a convex polygon.
pub fn intersects_way(vertices: &[Point], a: Point, b: Point) -> Option<bool>
    ensures { MatchOption result (length vertices.now ≤ POINT_LIMIT → ¬ IsPolygon vertices.now)
        (λ intersects. HoldsOfSetsOf vertices.now (λ S. ReturnsMeeting intersects S (segment a b))) }
{
    if vertices.len() > POINT_LIMIT as usize || !is_polygon(vertices) {
        return None;
    }
    Some(Polygon::of_vertices(vertices).intersects_segment(a, b))
}
