//! The first of some points, which all move straight along one vector, that comes into a polygon.
ghost use Rattle.std.specs.Prelude.{◌≡◌, ◌↔◌, ◌∷◌, ◌++◌, [], ◌*◌, ◌<◌, ◌≤ℤ◌, IsTrue, IfSome, List};
ghost use Rattle.lattice.specs.Plane as plane;
ghost use Rattle.lattice.specs.Plane.{Pair};
ghost use Rattle.hull_polygon.specs.Lent.{vertices_of};
ghost use Rattle.hull_polygon.specs.Polygons.{HoldsOfSetsOf};
ghost use Rattle.first_meeting.specs.Arrivals.{ArrivesFirst, ReturnsFirst, ReturnsSooner};
ghost use Rattle.first_meeting.specs.Lanes.{IsLane};

use super::lanes::{Lane, misses};
use super::products::is_product_less;
use hull_polygon::{Entry, Hit, Polygon};
use lattice::{Direction, Point, orient};

/// A vertex that comes to a polygon.
#[derive(Clone, Copy, PartialEq, Eq, Debug)]
pub struct Arrival {
    /// The vertex, as it was before anything moved.
    pub vertex: Point,
    /// Whether it is a vertex of the polygon that moves. Else that polygon comes to a vertex of the other.
    pub moves: bool,
    /// Where the vertex enters, and after how much of the motion.
    pub hit: Hit,
}

/// Whether a hit comes before another one.
fn is_sooner(hit: &Hit, other: &Hit) -> bool
    ensures { IsTrue result ↔ (hit.now.numerator * other.now.denominator < other.now.numerator * hit.now.denominator) }
{
    is_product_less(
        hit.numerator,
        other.denominator,
        other.numerator,
        hit.denominator,
    )
}

/// Returns the sooner of two arrivals, the first of them if they come at the same time.
pub(crate) fn sooner(found: Option<Arrival>, other: Option<Arrival>) -> Option<Arrival>
    ensures { ReturnsSooner found other result }
{
    match found {
        None => other,
        Some(first) => match other {
            None => Some(first),
            Some(second) => {
                if is_sooner(&second.hit, &first.hit) {
                    Some(second)
                } else {
                    Some(first)
                }
            }
        },
    }
}

/// Whether a point lies no farther to the left of the line from `p` to `q` than another.
pub(crate) fn is_no_nearer(p: Point, q: Point, point: Point, other: Point) -> bool
    ensures { IsTrue result ↔ (plane.orient p q point ≤ℤ plane.orient p q other) }
{
    orient(p, q, point) <= orient(p, q, other)
}

impl Arrival {
    /// Whether another vertex comes in no sooner: this one enters across an edge, and the other lies no nearer to the edge's
    /// line.
    fn precedes(&self, vertex: Point) -> bool
        ensures { IsTrue result → (T V : List Pair) (d : Pair) → ArrivesFirst T d V self.now
            → ArrivesFirst T d (V ++ (vertex ∷ [])) self.now }
    {
        match self.hit.place {
            Entry::Edge(p, q) => is_no_nearer(p, q, vertex, self.vertex),
            Entry::Start => false,
            Entry::Vertex(_) => false,
        }
    }
}

/// Whether a vertex comes in no sooner than the first of those before it.
fn comes_no_sooner(found: &Option<Arrival>, vertex: Point) -> bool
    ensures { IsTrue result → (T V : List Pair) (d : Pair) → ReturnsFirst T d V found.now
        → ReturnsFirst T d (V ++ (vertex ∷ [])) found.now }
{
    match *found {
        Some(first) => first.precedes(vertex),
        None => false,
    }
}

/// Returns when a vertex comes into a polygon along a direction, if it does within the motion.
fn arrival_of(
    vertex: Point,
    polygon: &Polygon,
    direction: Direction,
    lane: &Option<Lane>,
    moves: bool,
) -> Option<Arrival>
    requires { HoldsOfSetsOf (vertices_of polygon.now) (λ T. IfSome lane.now (λ known. IsLane T direction known)) }
    ensures first { HoldsOfSetsOf (vertices_of polygon.now) (λ T. ReturnsFirst T direction (vertex ∷ []) result) }
    ensures moves { IfSome result (λ found. found.moves ≡ moves) }
{
    if misses(lane, vertex) {
        return None;
    }
    match polygon.raycast(vertex, direction) {
        Some(hit) => {
            if hit.numerator <= hit.denominator {
                Some(Arrival { vertex, moves, hit })
            } else {
                None
            }
        }
        None => None,
    }
}

/// Returns the first of some vertices that comes into a polygon along a direction, if one does within the motion.
pub(crate) fn first_arrival(
    vertices: &[Point],
    polygon: &Polygon,
    direction: Direction,
    moves: bool,
) -> Option<Arrival>
    ensures first { HoldsOfSetsOf (vertices_of polygon.now) (λ T. ReturnsFirst T direction vertices.now result) }
    ensures moves { IfSome result (λ found. found.moves ≡ moves) }
{
    let lane = Lane::of(polygon, direction);
    let mut found: Option<Arrival> = None;
    for vertex in vertices {
        if comes_no_sooner(&found, *vertex) {
            continue;
        }
        if let Some(arrival) = arrival_of(*vertex, polygon, direction, &lane, moves) {
            found = sooner(found, Some(arrival));
        }
    }
    found
}
