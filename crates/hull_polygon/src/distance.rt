//! The nearest points of two hulls.
ghost use Rattle.std.specs.Prelude.{◌≡◌, ◌⊎◌, ◌↔◌, IsTrue, ◌<◌, length, List, [], MatchOption, IfSome};
ghost use Rattle.lattice.specs.Plane.{Pair};
ghost use Rattle.lattice.specs.Covers.{IsExtreme};
ghost use Rattle.lattice.specs.Places.{IsFarthest};
ghost use Rattle.hull_polygon.specs.Closest.{HasNoClosest, IsClosest, IsDistance, IsPassedBy, way_to};
ghost use Rattle.hull_polygon.specs.Nearest.{IsNearest};
ghost use Rattle.hull_polygon.specs.Meetings.{AreDisjoint};
ghost use Rattle.hull_polygon.specs.Polygons.{HoldsOfBoth, HoldsOfSetsOf};
ghost use Rattle.hull_polygon.specs.Lent.{vertices_of};

use super::closest_walks::guess_closest;
use super::extreme::{farthest, is_nearer};
use super::nearest::{Nearest, is_farthest_at, nearest_outside, nearest_there};
use super::offsets::{Closest, Feature, index_round};
use super::polygon::Polygon;
use super::rounds::vertex_at;
use super::steps::guess_by_steps;
use super::vector::Vector;
use super::walks::{Guess, guess_relation};
use lattice::Point;

/// The nearest points of two hulls.
#[derive(Clone, Copy, PartialEq, Eq, Debug)]
pub enum Distance {
    /// They share a point.
    Zero,
    /// A vertex of this hull, the first point, and a vertex of the other.
    Vertices(Point, Point),
    /// A vertex of this hull, the first point, and its foot on the edge of the other hull from the second point to the
    /// third, counterclockwise, strictly between those.
    VertexAndEdge(Point, Point, Point),
    /// A vertex of the other hull, the third point, and its foot on the edge of this hull from the first point to the
    /// second, counterclockwise, strictly between those.
    EdgeAndVertex(Point, Point, Point),
}

/// Returns the vector from `c` to the nearest point.
fn way_to(c: Point, place: &Nearest) -> Vector
    ensures { result ≡ way_to c place.now }
{
    match *place {
        Nearest::Covered => Vector::step(c, c),
        Nearest::Vertex(d) => Vector::step(c, d),
        Nearest::Edge(a, b) => Vector::left_of(a, b),
    }
}

/// Returns the distance, by the closest vertex of this hull and the nearest feature of the other.
fn by_this(c: Point, place: Nearest) -> Distance
    ensures { (S T : List Pair) → IsClosest S T c place → IsDistance S T result }
{
    match place {
        Nearest::Covered => Distance::Zero,
        Nearest::Vertex(d) => Distance::Vertices(c, d),
        Nearest::Edge(a, b) => Distance::VertexAndEdge(c, a, b),
    }
}

/// Returns the distance, by the closest vertex of the other hull and the nearest feature of this one.
pub(crate) fn by_other(d: Point, place: Nearest) -> Distance
    ensures { (S T : List Pair) → IsClosest T S d place → IsDistance S T result }
{
    match place {
        Nearest::Covered => Distance::Zero,
        Nearest::Vertex(c) => Distance::Vertices(c, d),
        Nearest::Edge(a, b) => Distance::EdgeAndVertex(a, b, d),
    }
}

impl<'a> Polygon<'a> {
    /// Whether no point of this hull, which has at least one vertex, lies farther than `c` in the direction `d`.
    fn is_farthest(&self, d: Vector, c: Point) -> bool
        requires { 0 < length (vertices_of self.now) }
        ensures { HoldsOfSetsOf (vertices_of self.now) (λ S. IsTrue result ↔ IsFarthest S d c) }
    {
        !is_nearer(d, c, farthest(self.vertices, self.last, d))
    }

    /// Returns this vertex and the nearest feature of another hull, if no point of this hull lies farther in the
    /// direction to it.
    fn if_closest(&self, c: Point, place: Nearest) -> Option<(Point, Nearest)>
        requires { 0 < length (vertices_of self.now) }
        ensures { HoldsOfSetsOf (vertices_of self.now) (λ S. (T : List Pair) → IsExtreme S c → IsNearest T c place
            → MatchOption result (IsPassedBy S T c) (λ found. IsClosest S T found.0 found.1)) }
    {
        if self.is_farthest(way_to(c, &place), c) {
            Some((c, place))
        } else {
            None
        }
    }

    /// Returns the first vertex of this hull than which none of its points is closer to `other`, which is disjoint from
    /// it, and the nearest feature there.
    fn closest_vertex(&self, other: &Polygon) -> Option<(Point, Nearest)>
        requires that { 0 < length (vertices_of other.now) }
        requires apart { HoldsOfBoth (vertices_of self.now) (vertices_of other.now) (λ S T. AreDisjoint S T) }
        ensures { HoldsOfBoth (vertices_of self.now) (vertices_of other.now)
            (λ S T. MatchOption result (HasNoClosest (vertices_of self.now) S T) (λ found. IsClosest S T found.0 found.1)) }
    {
        for i in 0..self.vertices.len() {
            let c = vertex_at(self.vertices, i);
            let place = nearest_outside(other.vertices, other.last, c);
            if let Some(found) = self.if_closest(c, place) {
                return Some(found);
            }
        }
        None
    }

    /// Returns the vertex of this hull at `i` and the vertex of `other` at `k` or the edge from it, if no two points of the
    /// hulls are closer to one another: the adjacent vertices show that.
    fn closest_there(&self, other: &Polygon, i: usize, k: usize) -> Option<(Point, Nearest)>
        requires this { i < length (vertices_of self.now) }
        requires that { k < length (vertices_of other.now) }
        ensures { HoldsOfBoth (vertices_of self.now) (vertices_of other.now)
            (λ S T. IfSome result (λ found. IsClosest S T found.0 found.1)) }
    {
        let c = vertex_at(self.vertices, i);
        let place = nearest_there(other.vertices, other.last, k, c)?;
        if is_farthest_at(self.vertices, self.last, i, way_to(c, &place)) {
            Some((c, place))
        } else {
            None
        }
    }

    /// Returns the nearest points of this hull and `other` by the closest vertex and the nearest feature that a walk
    /// guesses, if they are those.
    fn distance_there(&self, other: &Polygon, closest: Closest) -> Option<Distance>
        requires this { 0 < length (vertices_of self.now) }
        requires that { 0 < length (vertices_of other.now) }
        ensures { HoldsOfBoth (vertices_of self.now) (vertices_of other.now)
            (λ S T. IfSome result (λ found. IsDistance S T found)) }
    {
        match closest.vertex {
            Feature::OfOther(i) => {
                let at = index_round(other.vertices, i);
                let found = other.closest_there(
                    self,
                    at,
                    index_round(self.vertices, closest.place),
                )?;
                Some(by_other(found.0, found.1))
            }
            Feature::OfThis(i) => {
                let at = index_round(self.vertices, i);
                let found = self.closest_there(
                    other,
                    at,
                    index_round(other.vertices, closest.place),
                )?;
                Some(by_this(found.0, found.1))
            }
        }
    }

    /// Returns the vertex of this hull at `i` and the nearest feature of `other`, if no point of this hull is closer to it.
    fn closest_at(&self, other: &Polygon, i: usize) -> Option<(Point, Nearest)>
        requires within { i < length (vertices_of self.now) }
        requires that { 0 < length (vertices_of other.now) }
        ensures { HoldsOfBoth (vertices_of self.now) (vertices_of other.now)
            (λ S T. IfSome result (λ found. IsClosest S T found.0 found.1)) }
    {
        let c = vertex_at(self.vertices, i);
        match other.nearest(c) {
            Some(place) => self.if_closest(c, place),
            None => None,
        }
    }

    /// Returns the nearest points of this hull and `other` by the closest vertex that a walk guesses, if it is that.
    fn distance_at(&self, other: &Polygon, closest: Feature) -> Option<Distance>
        requires this { 0 < length (vertices_of self.now) }
        requires that { 0 < length (vertices_of other.now) }
        ensures { HoldsOfBoth (vertices_of self.now) (vertices_of other.now)
            (λ S T. IfSome result (λ found. IsDistance S T found)) }
    {
        match closest {
            Feature::OfOther(i) => {
                match other.closest_at(self, index_round(other.vertices, i)) {
                    Some(found) => Some(by_other(found.0, found.1)),
                    None => None,
                }
            }
            Feature::OfThis(i) => match self.closest_at(other, index_round(self.vertices, i)) {
                Some(found) => Some(by_this(found.0, found.1)),
                None => None,
            },
        }
    }

    /// Returns the nearest points of this hull and `other`, both of few vertices, if the steps from a vertex of their
    /// difference to the nearest one find them.
    fn distance_by_steps(&self, other: &Polygon) -> Option<Distance>
        requires this { 0 < length (vertices_of self.now) }
        requires that { 0 < length (vertices_of other.now) }
        ensures { HoldsOfBoth (vertices_of self.now) (vertices_of other.now)
            (λ S T. IfSome result (λ found. IsDistance S T found)) }
    {
        let closest = guess_by_steps(self, other)?;
        self.distance_there(other, closest)
    }

    /// Returns the nearest points of this hull and `other` by a guess, if they are those.
    fn distance_of_guess(&self, other: &Polygon, guess: Option<Closest>) -> Option<Distance>
        requires this { 0 < length (vertices_of self.now) }
        requires that { 0 < length (vertices_of other.now) }
        ensures { HoldsOfBoth (vertices_of self.now) (vertices_of other.now)
            (λ S T. IfSome result (λ found. IsDistance S T found)) }
    {
        let closest = guess?;
        if let Some(found) = self.distance_there(other, closest) {
            return Some(found);
        }
        self.distance_at(other, closest.vertex)
    }

    /// Returns the nearest points of this hull and `other` by walks over their difference, if a few bisections confirm
    /// them.
    fn distance_by_walk(&self, other: &Polygon) -> Option<Distance>
        requires this { 0 < length (vertices_of self.now) }
        requires that { 0 < length (vertices_of other.now) }
        ensures { HoldsOfBoth (vertices_of self.now) (vertices_of other.now)
            (λ S T. IfSome result (λ found. IsDistance S T found)) }
    {
        if let Some(found) = self.distance_by_steps(other) {
            return Some(found);
        }
        if let Some(_first) = self.meeting_at_first(other) {
            return Some(Distance::Zero);
        }
        match guess_relation(self, other) {
            Guess::Meeting(few) => match self.meeting_of_few(other, few) {
                Some(_common) => Some(Distance::Zero),
                None => None,
            },
            Guess::Apart(_, way) => self.distance_of_guess(other, guess_closest(self, other, way)),
            Guess::Unknown => None,
        }
    }

    /// Returns the nearest points of this hull and `other`, which are disjoint and have at least one vertex each.
    fn distance_apart(&self, other: &Polygon) -> Distance
        requires this { 0 < length (vertices_of self.now) }
        requires that { 0 < length (vertices_of other.now) }
        requires apart { HoldsOfBoth (vertices_of self.now) (vertices_of other.now) (λ S T. AreDisjoint S T) }
        ensures { HoldsOfBoth (vertices_of self.now) (vertices_of other.now) (λ S T. IsDistance S T result) }
    {
        if let Some(found) = other.closest_vertex(self) {
            return by_other(found.0, found.1);
        }
        match self.closest_vertex(other) {
            Some(found) => by_this(found.0, found.1),
            None => unreachable!(),
        }
    }

    /// Returns the nearest points of this hull and `other`, or `None` if either is empty. The cost is that of
    /// [`Polygon::intersects`], and if they are disjoint of a second such walk and of [`Polygon::nearest`] for one vertex.
    ///
    /// For `Vertices(c, d)` the squared distance is [`distance_squared`](lattice::distance_squared) of the two; for a
    /// vertex `c` and an edge from `a` to `b` it is the square of [`orient`](lattice::orient) of `a`, `b` and `c`,
    /// divided by the squared distance of `a` and `b`.
    pub fn distance(&self, other: &Polygon) -> Option<Distance>
        ensures { HoldsOfBoth (vertices_of self.now) (vertices_of other.now)
            (λ S T. MatchOption result ((S ≡ []) ⊎ (T ≡ [])) (λ found. IsDistance S T found)) }
    {
        if self.vertices.is_empty() {
            return None;
        }
        if other.vertices.is_empty() {
            return None;
        }
        if let Some(found) = self.distance_by_walk(other) {
            return Some(found);
        }
        match self.meeting_by_edges(other) {
            Some(_) => Some(Distance::Zero),
            None => Some(self.distance_apart(other)),
        }
    }
}
