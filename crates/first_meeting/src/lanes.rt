//! The lane of a polygon: where the rays along a direction come from that may meet it.
ghost use Rattle.std.specs.Prelude.{◌≡◌, ◌↔◌, ◌<ℤ◌, neg_ℤ, ◌∷◌, [], IfSome, IsTrue, List};
ghost use Rattle.lattice.specs.Plane as plane;
ghost use Rattle.lattice.specs.Plane.{IsCoordinate, Pair};
ghost use Rattle.hull_polygon.specs.Lent.{vertices_of};
ghost use Rattle.hull_polygon.specs.Polygons.{HoldsOfSetsOf};
ghost use Rattle.hull_polygon.specs.Steps.{backward, turned_left};
ghost use Rattle.first_meeting.specs.Arrivals.{NoneArrives};
ghost use Rattle.first_meeting.specs.Lanes.{IsLane};

use hull_polygon::Polygon;
use lattice::{Direction, Point, product};

/// How far a polygon lies to the left of a direction, at most and at least, by the product with the direction to the left.
#[derive(Clone, Copy)]
pub(crate) struct Lane {
    left: Direction,
    most: i128,
    least: i128,
}

/// Returns the negative of a component of a direction.
fn negative(component: i64) -> i64
    requires { IsCoordinate component }
    ensures value { result ≡ neg_ℤ component }
    ensures range { IsCoordinate result }
{
    -component
}

/// Returns the direction to the left. There always is one.
fn to_the_left(direction: Direction) -> Option<Direction>
    ensures { IfSome result (λ left. left ≡ turned_left direction) }
{
    match Direction::new(negative(direction.y()), direction.x()) {
        Ok(left) => Some(left),
        Err(_) => None,
    }
}

/// Returns the opposite direction. There always is one.
fn opposite(direction: Direction) -> Option<Direction>
    ensures { IfSome result (λ back. back ≡ backward direction) }
{
    match Direction::new(negative(direction.x()), negative(direction.y())) {
        Ok(back) => Some(back),
        Err(_) => None,
    }
}

/// Whether a point lies farther in a direction than this.
fn lies_farther(direction: Direction, point: Point, most: i128) -> bool
    ensures { IsTrue result ↔ (most <ℤ plane.product direction point) }
{
    most < product(direction, point)
}

/// Whether a point lies less far in a direction than this.
fn lies_less_far(direction: Direction, point: Point, least: i128) -> bool
    ensures { IsTrue result ↔ (plane.product direction point <ℤ least) }
{
    product(direction, point) < least
}

impl Lane {
    /// Returns the lane of a polygon along a direction, or `None` if it is empty.
    pub(crate) fn of(polygon: &Polygon, direction: Direction) -> Option<Lane>
        ensures { HoldsOfSetsOf (vertices_of polygon.now) (λ T. IfSome result (λ lane. IsLane T direction lane)) }
    {
        let left = to_the_left(direction)?;
        let right = opposite(left)?;
        let most_left = polygon.extreme(left)?;
        let most_right = polygon.extreme(right)?;
        let most = product(left, most_left);
        let least = product(left, most_right);
        Some(Lane { left, most, least })
    }

    /// Whether a point lies beside the lane, so that its ray misses the polygon.
    pub(crate) fn misses(self, point: Point) -> bool
        ensures { IsTrue result → (T : List Pair) (d : Pair) → IsLane T d self → NoneArrives T d (point ∷ []) }
    {
        if lies_farther(self.left, point, self.most) {
            return true;
        }
        lies_less_far(self.left, point, self.least)
    }
}

/// Whether the ray of a point misses the polygon of this lane, if it is known.
pub(crate) fn misses(lane: &Option<Lane>, point: Point) -> bool
    ensures { IsTrue result → (T : List Pair) (d : Pair) → IfSome lane.now (λ known. IsLane T d known) → NoneArrives T d (point ∷ []) }
{
    match *lane {
        Some(known) => known.misses(point),
        None => false,
    }
}
