//! The first of the points that lie farthest in a direction.
ghost use Rattle.std.specs.Prelude.{◌↔◌, IsTrue, ◌<◌, ◌≤◌, length, pos, ◌<ℤ◌, ◌≤ℤ◌};
ghost use Rattle.lattice.specs.Plane as plane;
ghost use Rattle.hull_set.specs.Replies.{AnswersExtreme, reply_to_extreme};
ghost use Rattle.hull_geometry.specs.Tangents.{IsFirstFarthest};
ghost use Rattle.hull_polygon.specs.Polygons.{HoldsOfSetsOf};
ghost use Rattle.hull_polygon.specs.Rounds.{vertex, IsSeparated};
ghost use Rattle.hull_polygon.specs.Lent.{vertices_of};

use super::bisection::{first_failing, first_failing_back};
use super::polygon::Polygon;
use super::rounds::vertex_at;
use super::short_vector::ShortVector;
use super::vector::Vector;
use lattice::{Direction, Point};

/// Whether `p` lies less far than `q` in the direction `d`.
pub(crate) fn is_nearer(d: Vector, p: Point, q: Point) -> bool
    ensures { IsTrue result ↔ (plane.product d p <ℤ plane.product d q) }
{
    d.along_step(Vector::step(q, p)) < 0
}

/// Returns the index of the first of the farthest in a direction that does not go up: of the vertex up to which the
/// lower chain rises.
fn place_below(vertices: &[Point], last: usize, d: Vector) -> usize
    requires some { 0 < length vertices.now }
    requires separated { IsSeparated vertices.now last }
    requires down { d.y ≤ℤ pos 0 }
    ensures within { result < length vertices.now }
    ensures farthest { HoldsOfSetsOf vertices.now (λ S. IsFirstFarthest S d (vertex vertices.now result)) }
{
    match ShortVector::of(d) {
        Some(short) => first_failing(vertices, 0, last, &|p, q| short.is_nearer(p, q)),
        None => first_failing(vertices, 0, last, &|p, q| is_nearer(d, p, q)),
    }
}

/// Returns the same in a direction that goes up: the index of the vertex from which the upper chain falls.
fn place_above(vertices: &[Point], last: usize, d: Vector) -> usize
    requires some { 0 < length vertices.now }
    requires separated { IsSeparated vertices.now last }
    requires up { pos 0 <ℤ d.y }
    ensures within { result ≤ length vertices.now }
    ensures farthest { HoldsOfSetsOf vertices.now (λ S. IsFirstFarthest S d (vertex vertices.now result)) }
{
    match ShortVector::of(d) {
        Some(short) => first_failing_back(vertices, last, &|p, q| !short.is_nearer(q, p)),
        None => first_failing_back(vertices, last, &|p, q| !is_nearer(d, q, p)),
    }
}

/// Returns the index of the first of the points that lie farthest in a direction, which may be zero: then all lie as
/// far. For the first vertex the result may be the end of the list.
fn place_of_farthest(vertices: &[Point], last: usize, d: Vector) -> usize
    requires some { 0 < length vertices.now }
    requires separated { IsSeparated vertices.now last }
    ensures within { result ≤ length vertices.now }
    ensures farthest { HoldsOfSetsOf vertices.now (λ S. IsFirstFarthest S d (vertex vertices.now result)) }
{
    if d.y() > 0 {
        place_above(vertices, last, d)
    } else {
        place_below(vertices, last, d)
    }
}

/// Returns the first of the points that lie farthest in a direction.
pub(crate) fn farthest(vertices: &[Point], last: usize, d: Vector) -> Point
    requires some { 0 < length vertices.now }
    requires separated { IsSeparated vertices.now last }
    ensures { HoldsOfSetsOf vertices.now (λ S. IsFirstFarthest S d result) }
{
    vertex_at(vertices, place_of_farthest(vertices, last, d))
}

/// Returns its index in the list.
pub(crate) fn farthest_place(vertices: &[Point], last: usize, d: Vector) -> usize
    requires some { 0 < length vertices.now }
    requires separated { IsSeparated vertices.now last }
    ensures within { result < length vertices.now }
    ensures farthest { HoldsOfSetsOf vertices.now (λ S. IsFirstFarthest S d (vertex vertices.now result)) }
{
    let place = place_of_farthest(vertices, last, d);
    if place < vertices.len() { place } else { 0 }
}

impl<'a> Polygon<'a> {
    /// Returns the first, by x and then y, of the points with the greatest product with `d`, or `None` if the set is
    /// empty.
    ///
    /// A bisection of the chain that `d` faces, whose edges first rise in `d` and then fall.
    pub fn extreme(&self, d: Direction) -> Option<Point>
        ensures { HoldsOfSetsOf (vertices_of self.now) (λ S. AnswersExtreme S d (reply_to_extreme result)) }
    {
        if self.vertices.is_empty() {
            None
        } else {
            Some(farthest(self.vertices, self.last, Vector::along(d)))
        }
    }
}
