//! The points that the tangents from a point touch.
ghost use Rattle.std.specs.Prelude.{◌↔◌, IsTrue, ◌<◌, length};
ghost use Rattle.hull_set.specs.Replies.{AnswersTangents, reply_to_tangents};
ghost use Rattle.hull_geometry.specs.Locations.{IsOnChain};
ghost use Rattle.hull_geometry.specs.Tangents.{IsTangent};
ghost use Rattle.hull_polygon.specs.Polygons.{HoldsOfSetsOf};
ghost use Rattle.hull_polygon.specs.Rounds.{vertex, IsSeparated};
ghost use Rattle.hull_polygon.specs.Touches.{IsPassed, IsToCome};
ghost use Rattle.hull_polygon.specs.Lent.{vertices_of};

use super::bisection::{first_failing_on, is_along};
use super::locations::look;
use super::polygon::Polygon;
use super::rounds::{is_left, vertex_at};
use hull_geometry::Hand;
use lattice::{Point, Side};

/// Whether an edge ends before `q` along the chain on this side, and has `q` on its left.
pub(crate) fn is_passed(side: Side, start: Point, end: Point, q: Point) -> bool
    ensures { IsTrue result ↔ IsPassed side q start end }
{
    is_along(side, end, q) && is_left(start, end, q)
}

/// Whether an edge begins after `q` along the chain on this side, and has `q` on its left.
pub(crate) fn is_to_come(side: Side, start: Point, end: Point, q: Point) -> bool
    ensures { IsTrue result ↔ IsToCome side q start end }
{
    is_along(side, q, start) && is_left(start, end, q)
}

/// Returns the tangent point on this hand seen from `q`, if the tangent touches the chain on this side: the vertex up
/// to which the edges are passed on the left hand, and the one from which they are to come on the right.
fn tangent_on(hand: Hand, side: Side, vertices: &[Point], last: usize, q: Point) -> Point
    requires some { 0 < length vertices.now }
    requires separated { IsSeparated vertices.now last }
    requires seen { HoldsOfSetsOf vertices.now
        (λ S. IsOnChain hand side (vertex vertices.now 0) (vertex vertices.now last) S q) }
    ensures { HoldsOfSetsOf vertices.now (λ S. IsTangent hand S q result) }
{
    match hand {
        Hand::Left => {
            let passed = |start, end| is_passed(side, start, end, q);
            vertex_at(vertices, first_failing_on(side, vertices, last, &passed))
        }
        Hand::Right => {
            let not_to_come = |start, end| !is_to_come(side, start, end, q);
            vertex_at(
                vertices,
                first_failing_on(side, vertices, last, &not_to_come),
            )
        }
    }
}

impl<'a> Polygon<'a> {
    /// Returns the left and the right tangent point seen from `q`, of points in line with `q` the farther one, or
    /// `None` if the set is empty or covers `q`. Each is found by a bisection of its chain (Preparata and Shamos,
    /// 1985).
    pub fn tangents(&self, q: Point) -> Option<(Point, Point)>
        ensures { HoldsOfSetsOf (vertices_of self.now) (λ S. AnswersTangents S q (reply_to_tangents result)) }
    {
        if self.vertices.is_empty() {
            return None;
        }
        let Some((left, right)) = look(self.vertices, self.last, q).tangent_chains() else {
            return None;
        };
        Some((
            tangent_on(Hand::Left, left, self.vertices, self.last, q),
            tangent_on(Hand::Right, right, self.vertices, self.last, q),
        ))
    }
}
