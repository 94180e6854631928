//! Segments, boxes, nearest points and extents of an array of vertices.
ghost use Rattle.std.specs.Prelude.{Some};
ghost use Rattle.hull_polygon.specs.Polygons.{IsShortPolygon};
ghost use Rattle.hull_reply.specs.Encoded.{ArePoints};
ghost use Rattle.hull_c.specs.Findings.{AreEndsEncoded, IsNearestEncoded, IsEncodedAlong, IsEncodedOf};
ghost use Rattle.hull_c.specs.Findings.{IsWidthEncoded};
ghost use Rattle.hull_c.specs.Findings.{EncodesBox, EncodesDiameter, EncodesNearest, EncodesSplit, EncodesWhether, EncodesWidth};

use hull_polygon::{Nearest, Polygon, Separation};
use hull_reply::{Code, HullReply, direction_of, point_of};
use lattice::{Direction, Point};

/// Returns the reply with a separating direction and the farthest point in it.
fn separated(found: Separation) -> HullReply
    ensures { ArePoints Code.Disjoint found.farthest found.direction result }
{
    let mut reply = HullReply::with_point(Code::Disjoint, found.farthest);
    reply.other_x = found.direction.x();
    reply.other_y = found.direction.y();
    reply
}

/// Whether the convex polygon and the segment from `a` to `b` intersect.
#[inline(always)]
fn whether(vertices: &[Point], a: Point, b: Point) -> HullReply
    requires { IsShortPolygon vertices.now }
    ensures { EncodesWhether vertices.now a b result }
{
    let intersects = Polygon::of_vertices(vertices).intersects_segment(a, b);
    HullReply::numbered(Code::Number, u64::from(intersects))
}

/// Separates the convex polygon from the segment from `a` to `b`.
fn split(vertices: &[Point], a: Point, b: Point) -> HullReply
    requires { IsShortPolygon vertices.now }
    ensures { EncodesSplit vertices.now a b result }
{
    if vertices.is_empty() {
        return HullReply::bare(Code::Empty);
    }
    match Polygon::of_vertices(vertices).separation_from_segment(a, b) {
        Some(found) => separated(found),
        None => HullReply::bare(Code::Intersecting),
    }
}

/// Whether the convex polygon and the segment from `a` to the point of two numbers intersect.
#[inline(always)]
fn whether_to(vertices: &[Point], a: Point, x: i64, y: i64) -> HullReply
    requires { IsShortPolygon vertices.now }
    ensures { IsEncodedOf x y (EncodesWhether vertices.now a) result }
{
    match point_of(x, y) {
        Ok(b) => whether(vertices, a, b),
        Err(fault) => HullReply::bare(fault),
    }
}

/// Separates the convex polygon from the segment from `a` to the point of two numbers.
fn split_to(vertices: &[Point], a: Point, x: i64, y: i64) -> HullReply
    requires { IsShortPolygon vertices.now }
    ensures { IsEncodedOf x y (EncodesSplit vertices.now a) result }
{
    match point_of(x, y) {
        Ok(b) => split(vertices, a, b),
        Err(fault) => HullReply::bare(fault),
    }
}

/// Whether the convex polygon and the segment between the points of four numbers intersect.
#[inline(always)]
pub(crate) fn intersects_segment(
    vertices: &[Point],
    ax: i64,
    ay: i64,
    bx: i64,
    by: i64,
) -> HullReply
    requires { IsShortPolygon vertices.now }
    ensures { IsEncodedOf ax ay (λ a. IsEncodedOf bx by (EncodesWhether vertices.now a)) result }
{
    match point_of(ax, ay) {
        Ok(a) => whether_to(vertices, a, bx, by),
        Err(fault) => HullReply::bare(fault),
    }
}

/// Separates the convex polygon from the segment between the points of four numbers.
pub(crate) fn apart(vertices: &[Point], ax: i64, ay: i64, bx: i64, by: i64) -> HullReply
    requires { IsShortPolygon vertices.now }
    ensures { IsEncodedOf ax ay (λ a. IsEncodedOf bx by (EncodesSplit vertices.now a)) result }
{
    match point_of(ax, ay) {
        Ok(a) => split_to(vertices, a, bx, by),
        Err(fault) => HullReply::bare(fault),
    }
}

/// Returns the location of a nearest point in numbers.
fn place_encoded(place: Nearest) -> HullReply
    ensures { IsNearestEncoded (Some place) result }
{
    match place {
        Nearest::Covered => HullReply::bare(Code::Covered),
        Nearest::Vertex(c) => HullReply::with_point(Code::Vertex, c),
        Nearest::Edge(a, b) => HullReply::with_points(Code::Edge, a, b),
    }
}

/// Returns the location of the nearest point, if there is one.
fn nearest_encoded(place: Option<Nearest>) -> HullReply
    ensures { IsNearestEncoded place result }
{
    match place {
        None => HullReply::bare(Code::Empty),
        Some(found) => place_encoded(found),
    }
}

/// Finds the location of the point that is nearest to `q`.
fn nearest_to(vertices: &[Point], q: Point) -> HullReply
    requires { IsShortPolygon vertices.now }
    ensures { EncodesNearest vertices.now q result }
{
    nearest_encoded(Polygon::of_vertices(vertices).nearest(q))
}

/// Finds the location of the point that is nearest to the point of two numbers.
pub(crate) fn nearest(vertices: &[Point], x: i64, y: i64) -> HullReply
    requires { IsShortPolygon vertices.now }
    ensures { IsEncodedOf x y (EncodesNearest vertices.now) result }
{
    match point_of(x, y) {
        Ok(q) => nearest_to(vertices, q),
        Err(fault) => HullReply::bare(fault),
    }
}

/// Returns the reply with two points, if there are any.
fn ends_encoded(code: Code, ends: Option<(Point, Point)>) -> HullReply
    ensures { AreEndsEncoded code ends result }
{
    match ends {
        None => HullReply::bare(Code::Empty),
        Some((p, q)) => HullReply::with_points(code, p, q),
    }
}

/// Returns the box of the vertices.
pub(crate) fn bounding_box(vertices: &[Point]) -> HullReply
    requires { IsShortPolygon vertices.now }
    ensures { EncodesBox vertices.now result }
{
    ends_encoded(Code::Box, Polygon::of_vertices(vertices).bounding_box())
}

/// Returns the two vertices that are farthest from one another.
pub(crate) fn diameter(vertices: &[Point]) -> HullReply
    requires { IsShortPolygon vertices.now }
    ensures { EncodesDiameter vertices.now result }
{
    ends_encoded(Code::Points, Polygon::of_vertices(vertices).diameter())
}

/// Returns the reply with an extent, if there are points.
fn width_encoded(width: Option<u128>) -> HullReply
    ensures { IsWidthEncoded width result }
{
    match width {
        None => HullReply::bare(Code::Empty),
        Some(number) => HullReply::wide(number),
    }
}

/// Returns the extent of the vertices in a direction.
fn width_along(vertices: &[Point], d: Direction) -> HullReply
    requires { IsShortPolygon vertices.now }
    ensures { EncodesWidth vertices.now d result }
{
    width_encoded(Polygon::of_vertices(vertices).width_along(d))
}

/// Returns the extent of the vertices in the direction of two numbers.
pub(crate) fn width(vertices: &[Point], x: i64, y: i64) -> HullReply
    requires { IsShortPolygon vertices.now }
    ensures { IsEncodedAlong x y (EncodesWidth vertices.now) result }
{
    match direction_of(x, y) {
        Ok(d) => width_along(vertices, d),
        Err(fault) => HullReply::bare(fault),
    }
}
