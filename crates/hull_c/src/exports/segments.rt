//! Exports about a convex polygon, and segments or rays.
ghost use Rattle.std.specs.Prelude.{◌≡◌, length};
ghost use Rattle.hull_c.specs.Raycasts.{IsHitAlong, IsHitOf, EncodesRaycastExit, EncodesRay, EncodesSegmentHit};
ghost use Rattle.hull_c.specs.DistanceBounds.{IsDistanceBoundsOf, EncodesDistanceBoundsTo, EncodesRelationTo, EncodesWithinOf};
ghost use Rattle.hull_c.specs.Findings.{IsEncodedOf, EncodesSplit, EncodesWhether};
ghost use Rattle.hull_c.specs.Many.{AreSegmentsAnswered};
ghost use Rattle.hull_polygon.specs.Polygons.{IsShortPolygon};

use crate::distance_bounds::HullDistanceBounds;
use crate::many::HullSegment;
use crate::raycasts::HullHit;
use crate::{distance_bounds, findings, many, raycasts};
use hull_polygon::Length;
use hull_reply::HullReply;
use lattice::Point;

/// Returns 1 if the convex polygon of these vertices and the segment from (ax, ay) to (bx, by) have a point in
/// common, else 0.
#[unsafe(no_mangle)]
pub extern "C" fn hull_polygon_intersects_segment(
    vertices: &[Point],
    ax: i64,
    ay: i64,
    bx: i64,
    by: i64,
) -> HullReply
    requires { IsShortPolygon vertices.now }
    ensures { IsEncodedOf ax ay (λ a. IsEncodedOf bx by (EncodesWhether vertices.now a)) result }
{
    findings::intersects_segment(vertices, ax, ay, bx, by)
}

/// Finds a direction that separates the convex polygon of these vertices from the segment from (ax, ay) to (bx, by),
/// with the farthest vertex in it; or finds that they intersect.
#[unsafe(no_mangle)]
pub extern "C" fn hull_polygon_separation(
    vertices: &[Point],
    ax: i64,
    ay: i64,
    bx: i64,
    by: i64,
) -> HullReply
    requires { IsShortPolygon vertices.now }
    ensures { IsEncodedOf ax ay (λ a. IsEncodedOf bx by (EncodesSplit vertices.now a)) result }
{
    findings::apart(vertices, ax, ay, bx, by)
}

/// Writes for each segment 1 if it and the convex polygon of these vertices intersect, else 0, up to the end or the first
/// segment with a coordinate out of range; returns how many it wrote.
#[unsafe(no_mangle)]
pub extern "C" fn hull_polygon_intersects_segments(
    vertices: &[Point],
    segments: &[HullSegment],
    out: &mut [u8],
) -> usize
    requires polygon { IsShortPolygon vertices.now }
    requires long { length out.old ≡ length segments.now }
    ensures { AreSegmentsAnswered vertices.now segments.now out.old out.new result }
{
    many::intersects_segments(vertices, segments, out)
}

/// Returns the distance of the convex polygon of these vertices from the segment from (ax, ay) to (bx, by), which may
/// be one point.
#[unsafe(no_mangle)]
pub extern "C" fn hull_polygon_distance_bounds_to_segment(
    vertices: &[Point],
    ax: i64,
    ay: i64,
    bx: i64,
    by: i64,
) -> HullDistanceBounds
    requires { IsShortPolygon vertices.now }
    ensures { IsDistanceBoundsOf ax ay (λ a. IsDistanceBoundsOf bx by (EncodesDistanceBoundsTo vertices.now a)) result }
{
    distance_bounds::to_segment(vertices, ax, ay, bx, by)
}

/// Returns 1 if the distance of the convex polygon of these vertices and the segment from (ax, ay) to (bx, by), which
/// may be one point, is at most `numerator / denominator`, else 0, also if there are no vertices.
#[unsafe(no_mangle)]
pub extern "C" fn hull_polygon_within_distance_of_segment(
    vertices: &[Point],
    ax: i64,
    ay: i64,
    bx: i64,
    by: i64,
    numerator: u64,
    denominator: u32,
) -> HullReply
    requires { IsShortPolygon vertices.now }
    ensures { IsEncodedOf ax ay (λ a. IsEncodedOf bx by
        (EncodesWithinOf (record { numerator = numerator; denominator = denominator }) vertices.now a)) result }
{
    let length = Length {
        numerator,
        denominator,
    };
    distance_bounds::is_within_distance_of_segment(vertices, ax, ay, bx, by, length)
}

/// Returns the relation of the convex polygon of these vertices to the segment from (ax, ay) to (bx, by), by the
/// numbers of [`hull_polygon_relation`].
#[unsafe(no_mangle)]
pub extern "C" fn hull_polygon_relation_to_segment(
    vertices: &[Point],
    ax: i64,
    ay: i64,
    bx: i64,
    by: i64,
) -> HullReply
    requires { IsShortPolygon vertices.now }
    ensures { IsEncodedOf ax ay (λ a. IsEncodedOf bx by (EncodesRelationTo vertices.now a)) result }
{
    distance_bounds::relation_to_segment(vertices, ax, ay, bx, by)
}

/// Finds the entry of the ray from (x, y) in the direction (dx, dy) into the convex polygon of these vertices, and
/// how far along the ray it is.
#[unsafe(no_mangle)]
pub extern "C" fn hull_polygon_raycast(
    vertices: &[Point],
    x: i64,
    y: i64,
    dx: i64,
    dy: i64,
) -> HullHit
    requires { IsShortPolygon vertices.now }
    ensures { IsHitOf x y (λ a. IsHitAlong dx dy (EncodesRay vertices.now a)) result }
{
    raycasts::raycast(vertices, x, y, dx, dy)
}

/// Finds the exit of the ray from (x, y) in the direction (dx, dy): its last point in the convex polygon of these
/// vertices, and how far along the ray it is.
#[unsafe(no_mangle)]
pub extern "C" fn hull_polygon_raycast_exit(
    vertices: &[Point],
    x: i64,
    y: i64,
    dx: i64,
    dy: i64,
) -> HullHit
    requires { IsShortPolygon vertices.now }
    ensures { IsHitOf x y (λ a. IsHitAlong dx dy (EncodesRaycastExit vertices.now a)) result }
{
    raycasts::raycast_exit(vertices, x, y, dx, dy)
}

/// Finds the entry of the segment from (ax, ay) to (bx, by) into the convex polygon of these vertices, and how far
/// along the segment it is.
#[unsafe(no_mangle)]
pub extern "C" fn hull_polygon_raycast_segment(
    vertices: &[Point],
    ax: i64,
    ay: i64,
    bx: i64,
    by: i64,
) -> HullHit
    requires { IsShortPolygon vertices.now }
    ensures { IsHitOf ax ay (λ a. IsHitOf bx by (EncodesSegmentHit vertices.now a)) result }
{
    raycasts::raycast_segment(vertices, ax, ay, bx, by)
}
