//! The distance of two convex polygons, and of one from a segment, in numbers that a caller compares.
ghost use Rattle.std.specs.Prelude.{◌≡◌, Some};
ghost use Rattle.hull_polygon.specs.Polygons.{IsShortPolygon};
ghost use Rattle.hull_c.specs.DistanceBounds.{IsDistanceBoundsOf, IsDistanceBoundsEncoded, IsNoDistanceBounds, EncodesDistanceBounds, EncodesDistanceBoundsTo};
ghost use Rattle.hull_c.specs.DistanceBounds.{ComparesAs, EncodesRelationTo, EncodesWithinOf, order_number, square_of};
ghost use Rattle.hull_c.specs.Findings.{IsEncodedOf};

use super::pairs::number_of;
use hull_polygon::{Distance, Length, Polygon, SquaredDistance};
use hull_reply::{Code, HullReply, point_of};
use lattice::Point;
use std::cmp::Ordering;

/// The distance of two convex polygons: the number of a code, the two doubles next to the distance, and its square as
/// a fraction; all else is 0.
#[repr(C)]
#[derive(Clone, Copy)]
pub struct HullDistanceBounds {
    /// The number of the code.
    pub code: u32,
    /// The two doubles are these numbers divided by 2 to the power of this:
    pub shift: u32,
    /// the greatest that is not above the distance,
    pub lower: u64,
    /// and the least that is not below it.
    pub upper: u64,
    /// The numerator of the square in words of 64 bits, the highest,
    pub high: u64,
    /// the next one,
    pub middle: u64,
    /// and the lowest.
    pub low: u64,
    /// The denominator, its higher word
    pub divisor_high: u64,
    /// and its lower one.
    pub divisor_low: u64,
}

/// Makes a reply with only a code.
fn bare(code: Code) -> HullDistanceBounds
    ensures { IsNoDistanceBounds code result }
{
    HullDistanceBounds {
        code: code.number(),
        shift: 0,
        lower: 0,
        upper: 0,
        high: 0,
        middle: 0,
        low: 0,
        divisor_high: 0,
        divisor_low: 0,
    }
}

/// Returns a distance in numbers.
fn distance_bounds(found: Distance) -> HullDistanceBounds
    ensures { IsDistanceBoundsEncoded (Some found) result }
{
    let (rounded, square) = (found.rounded(), found.squared());
    HullDistanceBounds {
        code: Code::Number.number(),
        shift: rounded.shift,
        lower: rounded.lower,
        upper: rounded.upper,
        high: square.high,
        middle: square.middle,
        low: square.low,
        divisor_high: square.divisor_high,
        divisor_low: square.divisor_low,
    }
}

/// Returns a distance in numbers, if there is one.
fn distance_bounds_of(found: Option<Distance>) -> HullDistanceBounds
    ensures { IsDistanceBoundsEncoded found result }
{
    match found {
        None => bare(Code::Empty),
        Some(distance) => distance_bounds(distance),
    }
}

/// Returns the distance of two convex polygons.
pub(crate) fn between(vertices: &[Point], others: &[Point]) -> HullDistanceBounds
    requires this { IsShortPolygon vertices.now }
    requires that { IsShortPolygon others.now }
    ensures { EncodesDistanceBounds vertices.now others.now result }
{
    distance_bounds_of(Polygon::of_vertices(vertices).distance(&Polygon::of_vertices(others)))
}

/// Returns the distance of a convex polygon and the segment from `a` to `b`.
fn between_segment(vertices: &[Point], a: Point, b: Point) -> HullDistanceBounds
    requires { IsShortPolygon vertices.now }
    ensures { EncodesDistanceBoundsTo vertices.now a b result }
{
    distance_bounds_of(Polygon::of_vertices(vertices).distance_to_segment(a, b))
}

/// Returns the distance of a convex polygon and the segment from `a` to the point of two numbers.
fn between_segment_to(vertices: &[Point], a: Point, x: i64, y: i64) -> HullDistanceBounds
    requires { IsShortPolygon vertices.now }
    ensures { IsDistanceBoundsOf x y (EncodesDistanceBoundsTo vertices.now a) result }
{
    match point_of(x, y) {
        Ok(b) => between_segment(vertices, a, b),
        Err(fault) => bare(fault),
    }
}

/// Returns the distance of a convex polygon and the segment between the points of four numbers.
pub(crate) fn to_segment(
    vertices: &[Point],
    ax: i64,
    ay: i64,
    bx: i64,
    by: i64,
) -> HullDistanceBounds
    requires { IsShortPolygon vertices.now }
    ensures { IsDistanceBoundsOf ax ay (λ a. IsDistanceBoundsOf bx by (EncodesDistanceBoundsTo vertices.now a)) result }
{
    match point_of(ax, ay) {
        Ok(a) => between_segment_to(vertices, a, bx, by),
        Err(fault) => bare(fault),
    }
}

/// Returns the relation of a convex polygon to the segment from `a` to `b`.
fn relation(vertices: &[Point], a: Point, b: Point) -> HullReply
    requires { IsShortPolygon vertices.now }
    ensures { EncodesRelationTo vertices.now a b result }
{
    let found = Polygon::of_vertices(vertices).relation_to_segment(a, b);
    HullReply::numbered(Code::Number, number_of(found))
}

/// Returns the relation of a convex polygon to the segment from `a` to the point of two numbers.
fn relation_to(vertices: &[Point], a: Point, x: i64, y: i64) -> HullReply
    requires { IsShortPolygon vertices.now }
    ensures { IsEncodedOf x y (EncodesRelationTo vertices.now a) result }
{
    match point_of(x, y) {
        Ok(b) => relation(vertices, a, b),
        Err(fault) => HullReply::bare(fault),
    }
}

/// Returns the relation of a convex polygon to the segment between the points of four numbers.
pub(crate) fn relation_to_segment(
    vertices: &[Point],
    ax: i64,
    ay: i64,
    bx: i64,
    by: i64,
) -> HullReply
    requires { IsShortPolygon vertices.now }
    ensures { IsEncodedOf ax ay (λ a. IsEncodedOf bx by (EncodesRelationTo vertices.now a)) result }
{
    match point_of(ax, ay) {
        Ok(a) => relation_to(vertices, a, bx, by),
        Err(fault) => HullReply::bare(fault),
    }
}

/// Whether the distance of a convex polygon and the segment from `a` to `b` is at most a length.
fn is_within_distance(vertices: &[Point], a: Point, b: Point, length: Length) -> HullReply
    requires { IsShortPolygon vertices.now }
    ensures { EncodesWithinOf length vertices.now a b result }
{
    let is_within_distance = Polygon::of_vertices(vertices).is_within_distance_of_segment(
        a, b, length,
    );
    HullReply::numbered(Code::Number, u64::from(is_within_distance))
}

/// Whether the distance of a convex polygon and the segment from `a` to the point of two numbers is at most a length.
fn is_within_distance_to(vertices: &[Point], a: Point, x: i64, y: i64, length: Length) -> HullReply
    requires { IsShortPolygon vertices.now }
    ensures { IsEncodedOf x y (EncodesWithinOf length vertices.now a) result }
{
    match point_of(x, y) {
        Ok(b) => is_within_distance(vertices, a, b, length),
        Err(fault) => HullReply::bare(fault),
    }
}

/// Whether the distance of a convex polygon and the segment between the points of four numbers is at most a length.
pub(crate) fn is_within_distance_of_segment(
    vertices: &[Point],
    ax: i64,
    ay: i64,
    bx: i64,
    by: i64,
    length: Length,
) -> HullReply
    requires { IsShortPolygon vertices.now }
    ensures { IsEncodedOf ax ay (λ a. IsEncodedOf bx by (EncodesWithinOf length vertices.now a)) result }
{
    match point_of(ax, ay) {
        Ok(a) => is_within_distance_to(vertices, a, bx, by, length),
        Err(fault) => HullReply::bare(fault),
    }
}

/// Returns the fraction of a distance.
fn square(encoded: &HullDistanceBounds) -> SquaredDistance
    ensures { result ≡ square_of encoded.now }
{
    SquaredDistance {
        high: encoded.high,
        middle: encoded.middle,
        low: encoded.low,
        divisor_high: encoded.divisor_high,
        divisor_low: encoded.divisor_low,
    }
}

/// Returns the number of an order.
fn number_of_order(order: Ordering) -> i32
    ensures { result ≡ order_number order }
{
    match order {
        Ordering::Less => -1,
        Ordering::Equal => 0,
        Ordering::Greater => 1,
    }
}

/// Compares two distances by their fractions.
pub(crate) fn compare(this: &HullDistanceBounds, that: &HullDistanceBounds) -> i32
    ensures { ComparesAs (square_of this.now) (square_of that.now) result }
{
    number_of_order(square(this).compare(&square(that)))
}
