//! Tests of one direction or two that show most hulls of few vertices that are disjoint to be so, also while one moves.
ghost use Rattle.std.specs.Prelude.{◌↔◌, ◌<◌, ◌+ℤ◌, ◌<ℤ◌, length, IsTrue};
ghost use Rattle.lattice.specs.Plane as plane;
ghost use Rattle.hull_polygon.specs.Meetings.{AreDisjoint, StayApart};
ghost use Rattle.hull_polygon.specs.Polygons.{HoldsOfBoth};
ghost use Rattle.hull_polygon.specs.Lent.{vertices_of};

use super::extreme::is_nearer;
use super::nearest::is_farthest_at;
use super::offsets::{Offset, index_round};
use super::polygon::Polygon;
use super::rounds::vertex_at;
use super::steps::{are_few, vertex_facing, way_beside, way_between};
use super::vector::Vector;
use lattice::Point;

/// Whether one vector goes less far in a direction than another.
#[tactic(auto, unfolding(lattice::specs::Plane::product))]
fn goes_less_far(d: Vector, one: Vector, other: Vector) -> bool
    ensures { IsTrue result ↔ (plane.product d one <ℤ plane.product d other) }
{
    d.along_step(one) < d.along_step(other)
}

/// Whether `p`, before and after a step, lies less far than `q` in a direction.
fn stays_nearer(d: Vector, p: Point, motion: Vector, q: Point) -> bool
    ensures { IsTrue result → (plane.product d p <ℤ plane.product d q)
        × ((plane.product d p +ℤ plane.product d motion) <ℤ plane.product d q) }
{
    if !is_nearer(d, p, q) {
        return false;
    }
    goes_less_far(d, motion, Vector::step(p, q))
}

impl<'a> Polygon<'a> {
    /// Whether a direction separates this hull, which moves, from `other`, before and after: these vertices lie farthest
    /// towards one another in it.
    fn is_parted_at(&self, other: &Polygon, i: usize, k: usize, d: Vector, motion: Vector) -> bool
        requires this { i < length (vertices_of self.now) }
        requires that { k < length (vertices_of other.now) }
        ensures { HoldsOfBoth (vertices_of self.now) (vertices_of other.now) (λ S T. IsTrue result → StayApart S T motion) }
    {
        if !stays_nearer(
            d,
            vertex_at(self.vertices, i),
            motion,
            vertex_at(other.vertices, k),
        ) {
            return false;
        }
        if !is_farthest_at(self.vertices, self.last, i, d) {
            return false;
        }
        is_farthest_at(other.vertices, other.last, k, d.back())
    }

    /// The same of a direction of few bits and the vertices that lie farthest in it.
    fn is_parted_along(&self, other: &Polygon, way: Offset, motion: Vector) -> bool
        requires this { 0 < length (vertices_of self.now) }
        requires that { 0 < length (vertices_of other.now) }
        ensures { HoldsOfBoth (vertices_of self.now) (vertices_of other.now) (λ S T. IsTrue result → StayApart S T motion) }
    {
        let facing = vertex_facing(self, other, way);
        let i = index_round(self.vertices, facing.this);
        let k = index_round(other.vertices, facing.other);
        match Vector::of(way.x, way.y) {
            Some(d) => self.is_parted_at(other, i, k, d, motion),
            None => false,
        }
    }

    /// Whether the direction from the middle of this hull to that of `other` separates them, if they have few vertices.
    pub(crate) fn is_parted(&self, other: &Polygon) -> bool
        requires this { 0 < length (vertices_of self.now) }
        requires that { 0 < length (vertices_of other.now) }
        ensures { HoldsOfBoth (vertices_of self.now) (vertices_of other.now) (λ S T. IsTrue result → AreDisjoint S T) }
    {
        if !are_few(self, other) {
            return false;
        }
        self.is_parted_along(other, way_between(self, other), Vector::zero())
    }

    /// Whether this hull, which moves, is separated from `other` before and after, by the direction from its middle to that of
    /// `other` or by the one across the motion.
    fn is_parted_while(&self, other: &Polygon, motion: Vector) -> bool
        requires this { 0 < length (vertices_of self.now) }
        requires that { 0 < length (vertices_of other.now) }
        ensures { HoldsOfBoth (vertices_of self.now) (vertices_of other.now) (λ S T. IsTrue result → StayApart S T motion) }
    {
        let way = way_between(self, other);
        if self.is_parted_along(other, way, motion) {
            return true;
        }
        self.is_parted_along(other, way_beside(motion, way), motion)
    }

    /// Whether a direction is found that separates this hull, which moves straight by the vector from the origin to `motion`,
    /// from `other`, before and after and so at each moment of the motion. Two directions are tried, in one pass each, and none
    /// if the two have more than 48 vertices: `false` says nothing.
    pub fn is_found_apart_during(&self, other: &Polygon, motion: Point) -> bool
        ensures { HoldsOfBoth (vertices_of self.now) (vertices_of other.now) (λ S T. IsTrue result → StayApart S T motion) }
    {
        if self.vertices.is_empty() {
            return false;
        }
        if other.vertices.is_empty() {
            return false;
        }
        if !are_few(self, other) {
            return false;
        }
        match Vector::of(motion.x(), motion.y()) {
            Some(step) => self.is_parted_while(other, step),
            None => false,
        }
    }
}
