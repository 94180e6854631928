//! Exports about two convex polygons, or one and many others.
ghost use Rattle.std.specs.Prelude.{◌≡◌, length};
ghost use Rattle.hull_c.specs.DistanceBounds.{ComparesAs, EncodesDistanceBounds, square_of};
ghost use Rattle.hull_c.specs.FirstMeetings.{EncodesFirstMeeting, IsMotionOf};
ghost use Rattle.hull_c.specs.Pairs.{EncodesContains, EncodesContainsInside, EncodesDistance, EncodesIntersects};
ghost use Rattle.hull_c.specs.Pairs.{EncodesRelation, EncodesWhetherWithin, EncodesWitness};
ghost use Rattle.hull_c.specs.Many.{AreRelations};
ghost use Rattle.std.specs.List.{All};
ghost use Rattle.hull_polygon.specs.Polygons.{IsShortPolygon};
ghost use Rattle.polygon_pairs.specs.Pairs.{EncodesPairs};

use crate::distance_bounds::HullDistanceBounds;
use crate::first_meetings::HullMotion;
use crate::pairs::HullWitness;
use crate::{distance_bounds, first_meetings, many, pairs};
use heap::Heap;
use hull_polygon::Length;
use hull_reply::HullReply;
use lattice::Point;
use polygon_pairs::HullPair;

/// Returns 1 if the convex polygons of two arrays of vertices have a point in common, else 0.
#[unsafe(no_mangle)]
pub extern "C" fn hull_polygon_intersects(vertices: &[Point], others: &[Point]) -> HullReply
    requires this { IsShortPolygon vertices.now }
    requires that { IsShortPolygon others.now }
    ensures { EncodesIntersects vertices.now others.now result }
{
    pairs::intersects(vertices, others)
}

/// Returns 1 if the convex polygon of the first vertices contains that of the others, else 0.
#[unsafe(no_mangle)]
pub extern "C" fn hull_polygon_contains(vertices: &[Point], others: &[Point]) -> HullReply
    requires this { IsShortPolygon vertices.now }
    requires that { IsShortPolygon others.now }
    ensures { EncodesContains vertices.now others.now result }
{
    pairs::contains(vertices, others)
}

/// Returns 1 if all of the convex polygon of the second array of vertices is inside that of the first, with no point
/// of it on the boundary, else 0.
#[unsafe(no_mangle)]
pub extern "C" fn hull_polygon_contains_inside(vertices: &[Point], others: &[Point]) -> HullReply
    requires this { IsShortPolygon vertices.now }
    requires that { IsShortPolygon others.now }
    ensures { EncodesContainsInside vertices.now others.now result }
{
    pairs::contains_inside(vertices, others)
}

/// Returns the relation of the convex polygon of an array of vertices to that of another one: 0 if they are disjoint,
/// 1 if they touch, 2 if they overlap, 3 if the first is within the second, 4 if it covers the second, 5 if they are
/// equal.
#[unsafe(no_mangle)]
pub extern "C" fn hull_polygon_relation(vertices: &[Point], others: &[Point]) -> HullReply
    requires this { IsShortPolygon vertices.now }
    requires that { IsShortPolygon others.now }
    ensures { EncodesRelation vertices.now others.now result }
{
    pairs::relation(vertices, others)
}

/// Writes the number of the relation of the convex polygon of the first vertices to each of the others.
#[unsafe(no_mangle)]
pub extern "C" fn hull_polygon_relations(vertices: &[Point], others: &[&[Point]], out: &mut [u8])
    requires this { IsShortPolygon vertices.now }
    requires that { All (λ o. IsShortPolygon o.now) others.now }
    requires long { length out.old ≡ length others.now }
    ensures { AreRelations vertices.now others.now out.new }
{
    many::relations(vertices, others, out)
}

/// Finds where the convex polygons of two arrays of vertices intersect, or a direction that separates them.
#[unsafe(no_mangle)]
pub extern "C" fn hull_polygon_witness(vertices: &[Point], others: &[Point]) -> HullWitness
    requires this { IsShortPolygon vertices.now }
    requires that { IsShortPolygon others.now }
    ensures { EncodesWitness vertices.now others.now result }
{
    pairs::witness(vertices, others)
}

/// Returns 1 if the distance of the convex polygons of two arrays of vertices is at most `numerator / denominator`,
/// else 0, also if one is empty. With the denominator 0 the length is greater than any distance.
#[unsafe(no_mangle)]
pub extern "C" fn hull_polygon_within_distance(
    vertices: &[Point],
    others: &[Point],
    numerator: u64,
    denominator: u32,
) -> HullReply
    requires this { IsShortPolygon vertices.now }
    requires that { IsShortPolygon others.now }
    ensures { EncodesWhetherWithin vertices.now others.now (record { numerator = numerator; denominator = denominator }) result }
{
    let length = Length {
        numerator,
        denominator,
    };
    pairs::is_within_distance(vertices, others, length)
}

/// Returns the distance of the convex polygons of two arrays of vertices: where they are nearest to one another.
#[unsafe(no_mangle)]
pub extern "C" fn hull_polygon_distance(vertices: &[Point], others: &[Point]) -> HullWitness
    requires this { IsShortPolygon vertices.now }
    requires that { IsShortPolygon others.now }
    ensures { EncodesDistance vertices.now others.now result }
{
    pairs::distance(vertices, others)
}

/// Returns the distance of the convex polygons of two arrays of vertices: the doubles next to it, and its square as a
/// fraction.
#[unsafe(no_mangle)]
pub extern "C" fn hull_polygon_distance_bounds(
    vertices: &[Point],
    others: &[Point],
) -> HullDistanceBounds
    requires this { IsShortPolygon vertices.now }
    requires that { IsShortPolygon others.now }
    ensures { EncodesDistanceBounds vertices.now others.now result }
{
    distance_bounds::between(vertices, others)
}

/// Compares two distances by their fractions: -1 if the first is less, 0 if they are equal, 1 if it is greater.
#[unsafe(no_mangle)]
pub extern "C" fn hull_distance_bounds_compare(
    this: &HullDistanceBounds,
    that: &HullDistanceBounds,
) -> i32
    ensures { ComparesAs (square_of this.now) (square_of that.now) result }
{
    distance_bounds::compare(this, that)
}

/// Finds when the second of two convex polygons, which moves straight by (dx, dy), first intersects the first.
#[unsafe(no_mangle)]
pub extern "C" fn hull_polygon_first_meeting(
    vertices: &[Point],
    others: &[Point],
    dx: i64,
    dy: i64,
) -> HullMotion
    requires this { IsShortPolygon vertices.now }
    requires that { IsShortPolygon others.now }
    ensures { IsMotionOf dx dy (EncodesFirstMeeting vertices.now others.now) result }
{
    first_meetings::meeting(vertices, others, dx, dy)
}

/// Writes the pairs of convex polygons whose distance is at most `numerator / denominator` to the front of the array, in order, and
/// returns their number. With the denominator 0 the length is greater than any distance.
#[unsafe(no_mangle)]
pub extern "C" fn hull_pairs_within_distance(
    alloc: Heap,
    polygons: &[&[Point]],
    numerator: u64,
    denominator: u32,
    out: &mut [HullPair],
) -> HullReply
    requires { All (λ o. IsShortPolygon o.now) polygons.now }
    ensures { EncodesPairs (record { numerator = numerator; denominator = denominator }) polygons.now out.old out.new result }
{
    let reach = Length {
        numerator,
        denominator,
    };
    polygon_pairs::pairs_within_distance(alloc, polygons, reach, out)
}
