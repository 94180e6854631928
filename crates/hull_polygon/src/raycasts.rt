//! Raycasts: the first point of a hull on a ray or a segment, the last one on a ray, and how far along these are.
ghost use Rattle.std.specs.Prelude.{◌≡◌, ◌↔◌, IsTrue, ◌<◌, ◌≤◌, ◌+◌, ◌*◌, length, pos, ◌-ℤ◌, ◌≤ℤ◌, ◌<ℤ◌, MatchOption};
ghost use Rattle.lattice.specs.Covers.{Covers};
ghost use Rattle.lattice.specs.Plane.{orient, product, widest_side, IsWithin};
ghost use Rattle.lattice.specs.Vertices.{IsLeftOf};
ghost use Rattle.hull_polygon.specs.Raycasts.{IsCrossed, IsFarthestOn, IsHit, IsKept, IsLast, IsNearestBack, IsUncrossed, MissesRay};
ghost use Rattle.hull_polygon.specs.Raycasts.{ReturnsHit, ReturnsLast, moved};
ghost use Rattle.hull_polygon.specs.Meetings.{AreDisjoint, segment};
ghost use Rattle.hull_polygon.specs.Polygons.{HoldsOfSetsOf};
ghost use Rattle.hull_polygon.specs.Rounds.{vertex, IsSeparated};
ghost use Rattle.hull_polygon.specs.Steps.{backward};
ghost use Rattle.hull_polygon.specs.Lent.{vertices_of};
ghost use Rattle.hull_polygon.specs.declared.raycasts.Entry.TheVariants.{Start};

use super::extreme::{farthest_place, is_nearer};
use super::nearest::is_right;
use super::polygon::Polygon;
use super::rounds::vertex_at;
use super::vector::Vector;
use lattice::{Direction, Point, orient};

/// The kind of point at which a path first enters a hull. A path is a ray or a segment.
#[derive(Clone, Copy, PartialEq, Eq, Debug)]
pub enum Entry {
    /// The start of the path, which the hull covers.
    Start,
    /// Across the edge from one vertex to the next, counterclockwise, or at an end of it.
    Edge(Point, Point),
    /// At this vertex, of a hull that lies on the path's line.
    Vertex(Point),
}

/// The first point of a path in a hull, and how far along the path it is.
#[derive(Clone, Copy, PartialEq, Eq, Debug)]
pub struct Hit {
    /// The start, an edge or a vertex.
    pub place: Entry,
    /// The distance along the path, at most 2^85,
    pub numerator: u128,
    /// divided by this number, which is above 0 and at most 2^85. The step of the path has the length 1.
    pub denominator: u128,
}

/// A path from a point along a vector.
#[derive(Clone, Copy)]
pub(crate) struct Way {
    start: Point,
    along: Vector,
}

/// Returns how much greater one number is than another, which is not greater.
fn excess(a: i128, b: i128) -> u128
    requires order { b ≤ℤ a }
    requires first { IsWithin (2 * widest_side) a }
    requires second { IsWithin (2 * widest_side) b }
    ensures value { pos result ≡ a -ℤ b }
    ensures size { result ≤ 4 * widest_side }
{
    (a - b) as u128
}

/// Returns the entry of a path whose start the hull covers.
fn hit_at_start() -> Hit
    ensures { result ≡ record { place = Start; numerator = 0; denominator = 1 } }
{
    Hit {
        place: Entry::Start,
        numerator: 0,
        denominator: 1,
    }
}

impl Way {
    /// Returns on which side of the path's line a point lies: a number above 0 if it lies left of it.
    fn side(&self, t: Point) -> i128
        ensures value { result ≡ orient self.now.start (moved self.now.start self.now.along) t }
        ensures size { IsWithin (2 * widest_side) result }
    {
        let left = self.along.turned_left();
        left.product(t) - left.product(self.start)
    }

    /// Returns how far ahead of the start a point lies, times the length of the step.
    fn ahead(&self, t: Point) -> i128
        ensures value { result ≡ product self.now.along t -ℤ product self.now.along self.now.start }
        ensures size { IsWithin (2 * widest_side) result }
    {
        self.along.product(t) - self.along.product(self.start)
    }

    /// Whether a point lies beside the line.
    fn is_beside(&self, t: Point) -> bool
        ensures { IsTrue result ↔ ¬ (orient self.now.start (moved self.now.start self.now.along) t ≡ pos 0) }
    {
        self.side(t) != 0
    }

    /// Whether a point lies farther along the path than its start.
    fn is_ahead(&self, t: Point) -> bool
        ensures { IsTrue result ↔ (product self.now.along self.now.start <ℤ product self.now.along t) }
    {
        is_nearer(self.along, self.start, t)
    }

    /// Whether a point lies farther back than the start.
    fn is_behind(&self, t: Point) -> bool
        ensures { IsTrue result ↔ (product self.now.along t <ℤ product self.now.along self.now.start) }
    {
        is_nearer(self.along, t, self.start)
    }

    /// Whether a point lies left of the line, or on it if that counts.
    fn keeps(&self, touching: bool, t: Point) -> bool
        ensures { IsTrue result ↔ IsKept touching self.now.start (moved self.now.start self.now.along) t }
    {
        let side = self.side(t);
        if touching { side >= 0 } else { side > 0 }
    }
}

/// Returns an index from `low` to `high` whose vertex is kept, and whose next vertex is not.
fn last_kept(vertices: &[Point], low: usize, high: usize, way: &Way, touching: bool) -> usize
    requires ordered { low < high }
    requires within { high ≤ length vertices.now }
    requires held { IsKept touching way.now.start (moved way.now.start way.now.along) (vertex vertices.now low) }
    requires fails { ¬ IsKept touching way.now.start (moved way.now.start way.now.along) (vertex vertices.now high) }
    ensures to { result < high }
    ensures held { IsKept touching way.now.start (moved way.now.start way.now.along) (vertex vertices.now result) }
    ensures fails { ¬ IsKept touching way.now.start (moved way.now.start way.now.along) (vertex vertices.now (result + 1)) }
{
    let mut low = low;
    let mut high = high;
    while low + 1 < high {
        let middle = low + (high - low) / 2;
        if way.keeps(touching, vertices[middle]) {
            low = middle;
        } else {
            high = middle;
        }
    }
    low
}

/// Returns such an index on the way round the list, from a vertex that is kept to one that is not.
fn last_kept_round(vertices: &[Point], from: usize, to: usize, way: &Way, touching: bool) -> usize
    requires start { from < length vertices.now }
    requires end { to < length vertices.now }
    requires held { IsKept touching way.now.start (moved way.now.start way.now.along) (vertex vertices.now from) }
    requires fails { ¬ IsKept touching way.now.start (moved way.now.start way.now.along) (vertex vertices.now to) }
    ensures within { result < length vertices.now }
    ensures held { IsKept touching way.now.start (moved way.now.start way.now.along) (vertex vertices.now result) }
    ensures fails { ¬ IsKept touching way.now.start (moved way.now.start way.now.along) (vertex vertices.now (result + 1)) }
{
    if from < to {
        last_kept(vertices, from, to, way, touching)
    } else if way.keeps(touching, vertex_at(vertices, 0)) {
        last_kept(vertices, 0, to, way, touching)
    } else {
        last_kept(vertices, from, vertices.len(), way, touching)
    }
}

/// Returns the edge by which the hull crosses from the left of the path's line to its right, if there is one.
fn crossing(vertices: &[Point], last: usize, way: &Way) -> Option<(Point, Point)>
    requires some { 0 < length vertices.now }
    requires separated { IsSeparated vertices.now last }
    ensures { HoldsOfSetsOf vertices.now (λ S. MatchOption result (IsUncrossed S way.now.start (moved way.now.start way.now.along))
        (λ e. IsCrossed S way.now.start (moved way.now.start way.now.along) e.0 e.1)) }
{
    let normal = way.along.turned_left();
    let left = farthest_place(vertices, last, normal);
    let right = farthest_place(vertices, last, normal.back());
    let most_left = vertex_at(vertices, left);
    let is_left = way.keeps(false, most_left);
    let touching = !is_left;
    if !way.keeps(touching, most_left) {
        return None;
    }
    if way.keeps(touching, vertex_at(vertices, right)) {
        return None;
    }
    let place = last_kept_round(vertices, left, right, way, touching);
    Some((vertex_at(vertices, place), vertex_at(vertices, place + 1)))
}

impl Way {
    /// Returns the entry of the path across an edge that crosses its line, if the start lies right of that edge.
    fn across(&self, p: Point, q: Point) -> Option<Hit>
        requires { orient self.now.start (moved self.now.start self.now.along) q
            <ℤ orient self.now.start (moved self.now.start self.now.along) p }
        ensures { ReturnsHit self.now.start (moved self.now.start self.now.along)
            (λ S. IsCrossed S self.now.start (moved self.now.start self.now.along) p q) result }
    {
        if !is_right(p, q, self.start) {
            return None;
        }
        Some(Hit {
            place: Entry::Edge(p, q),
            numerator: excess(0, orient(p, q, self.start)),
            denominator: excess(self.side(p), self.side(q)),
        })
    }

    /// Returns the entry of the path into a hull that its line does not cross, whose farthest vertex back on it is `c`:
    /// the entry is `c` if the hull lies on the line and ahead.
    fn up_to(&self, c: Point) -> Option<Hit>
        ensures { ReturnsHit self.now.start (moved self.now.start self.now.along)
            (λ S. IsNearestBack S self.now.start (moved self.now.start self.now.along) c) result }
    {
        if self.is_beside(c) {
            return None;
        }
        if !self.is_ahead(c) {
            return None;
        }
        Some(Hit {
            place: Entry::Vertex(c),
            numerator: excess(self.ahead(c), 0),
            denominator: excess(self.along.squared_length(), 0),
        })
    }
}

impl Way {
    /// Returns the path back from the start.
    fn back(&self) -> Way
        ensures start { result.start ≡ self.now.start }
        ensures along { result.along ≡ backward self.now.along }
    {
        Way {
            start: self.start,
            along: self.along.back(),
        }
    }

    /// Returns the exit of the path across an edge that crosses its line, seen from the other side, if the start does
    /// not lie right of that edge.
    fn out_across(&self, p: Point, q: Point) -> Option<Hit>
        requires { orient self.now.start (moved self.now.start (backward self.now.along)) q
            <ℤ orient self.now.start (moved self.now.start (backward self.now.along)) p }
        ensures { ReturnsLast self.now.start self.now.along
            (λ S. IsCrossed S self.now.start (moved self.now.start (backward self.now.along)) p q) result }
    {
        if is_right(p, q, self.start) {
            return None;
        }
        let back = self.back();
        Some(Hit {
            place: Entry::Edge(p, q),
            numerator: excess(orient(p, q, self.start), 0),
            denominator: excess(back.side(p), back.side(q)),
        })
    }

    /// Returns the exit of the path from a hull that its line does not cross, whose farthest vertex along it is `e`:
    /// the exit is `e` if the hull lies on the line and not behind.
    fn out_at(&self, e: Point) -> Option<Hit>
        ensures { ReturnsLast self.now.start self.now.along (λ S. IsFarthestOn S self.now.start self.now.along e) result }
    {
        if self.is_beside(e) {
            return None;
        }
        if self.is_behind(e) {
            return None;
        }
        Some(Hit {
            place: Entry::Vertex(e),
            numerator: excess(self.ahead(e), 0),
            denominator: excess(self.along.squared_length(), 0),
        })
    }
}

impl<'a> Polygon<'a> {
    /// Whether the hull covers the start of a path, whose line crosses the edge from `p` to `q`: it does not if the start
    /// lies right of that edge.
    fn covers_start(&self, way: &Way, p: Point, q: Point) -> bool
        ensures { HoldsOfSetsOf (vertices_of self.now)
            (λ S. IsLeftOf S p q → (IsTrue result ↔ Covers S way.now.start)) }
    {
        if is_right(p, q, way.start) {
            return false;
        }
        self.covers(way.start)
    }

    /// Returns the entry of a path into the hull, which has at least one vertex.
    fn hit(&self, way: &Way) -> Option<Hit>
        requires { 0 < length (vertices_of self.now) }
        ensures { HoldsOfSetsOf (vertices_of self.now) (λ S. MatchOption result
            (MissesRay S way.now.start (moved way.now.start way.now.along))
            (λ found. IsHit S way.now.start (moved way.now.start way.now.along) found)) }
    {
        match crossing(self.vertices, self.last, way) {
            Some((p, q)) => {
                if self.covers_start(way, p, q) {
                    return Some(hit_at_start());
                }
                way.across(p, q)
            }
            None => {
                let first = vertex_at(self.vertices, 0);
                if way.is_beside(first) {
                    return None;
                }
                if self.covers(way.start) {
                    return Some(hit_at_start());
                }
                let place = farthest_place(self.vertices, self.last, way.along.back());
                way.up_to(vertex_at(self.vertices, place))
            }
        }
    }

    /// Returns the first point of the hull on the ray from `start` in a direction, and how far along the ray it is, in
    /// units of the direction, or `None` if the ray misses or the hull is empty. A ray that only touches enters at the
    /// first point that it touches. Two bisections for the place of the start, one for each of the farthest vertices on
    /// both sides of the ray, and one for the edge between them.
    pub fn raycast(&self, start: Point, direction: Direction) -> Option<Hit>
        ensures { HoldsOfSetsOf (vertices_of self.now) (λ S. MatchOption result (MissesRay S start (moved start direction))
            (λ found. IsHit S start (moved start direction) found)) }
    {
        if self.vertices.is_empty() {
            return None;
        }
        self.hit(&Way {
            start,
            along: Vector::along(direction),
        })
    }

    /// Returns the last point of the hull on the ray from `start` in a direction, and how far along the ray it is, or
    /// `None` if the ray misses or the hull is empty. If the ray only touches in one point, that is the first point,
    /// too.
    pub fn raycast_exit(&self, start: Point, direction: Direction) -> Option<Hit>
        ensures { HoldsOfSetsOf (vertices_of self.now) (λ S. MatchOption result (MissesRay S start (moved start direction))
            (λ found. IsLast S start (moved start (backward direction)) found)) }
    {
        if self.vertices.is_empty() {
            return None;
        }
        let way = Way {
            start,
            along: Vector::along(direction),
        };
        match crossing(self.vertices, self.last, &way.back()) {
            Some((p, q)) => way.out_across(p, q),
            None => {
                let vertex = vertex_at(self.vertices, 0);
                if way.is_beside(vertex) {
                    return None;
                }
                let place = farthest_place(self.vertices, self.last, way.along);
                way.out_at(vertex_at(self.vertices, place))
            }
        }
    }

    /// Returns the first point of the hull on the segment from `a` to `b`, which may be one point, and how far along
    /// the segment it is, in units of its length, or `None` if they share no point. The last point of the segment in
    /// the hull is the first point on the segment from `b` to `a`.
    pub fn raycast_segment(&self, a: Point, b: Point) -> Option<Hit>
        ensures { HoldsOfSetsOf (vertices_of self.now) (λ S. MatchOption result (AreDisjoint S (segment a b))
            (λ found. IsHit S a b found × (found.numerator ≤ found.denominator))) }
    {
        if self.vertices.is_empty() {
            return None;
        }
        let way = Way {
            start: a,
            along: Vector::step(a, b),
        };
        match self.hit(&way) {
            Some(found) => {
                if found.numerator <= found.denominator {
                    Some(found)
                } else {
                    None
                }
            }
            None => None,
        }
    }
}
