//! The entry of a ray or a segment into a convex polygon, given as an array of vertices, and its exit.
ghost use Rattle.std.specs.Prelude.{◌≡◌, ◌+◌, ◌*◌, ◌^◌};
ghost use Rattle.hull_geometry.specs.Positions.{origin};
ghost use Rattle.hull_polygon.specs.Polygons.{IsShortPolygon};
ghost use Rattle.hull_c.specs.Raycasts.{IsEntryEncoded, IsHitAlong, IsHitAt, IsHitOf, IsHitEncoded, IsNoHit, IsPart, EncodesRaycastExit};
ghost use Rattle.hull_c.specs.Raycasts.{EncodesRay, EncodesSegmentHit};

use hull_polygon::{Entry, Hit, Polygon};
use hull_reply::{Code, direction_of, point_of};
use lattice::{Direction, Point};

/// The base of words, 2^64.
const WORD: u128 = 18446744073709551616;

/// The entry of a ray or segment into a convex polygon: the number of a code, with an edge or a vertex, and how far
/// along the way it is; all else is 0.
#[repr(C)]
#[derive(Clone, Copy)]
pub struct HullHit {
    /// The number.
    pub code: u32,
    /// A vertex.
    pub x: i64,
    /// Its other coordinate.
    pub y: i64,
    /// The next vertex.
    pub other_x: i64,
    /// Its other coordinate.
    pub other_y: i64,
    /// How far along the way, the higher word
    pub high: u64,
    /// and the lower,
    pub low: u64,
    /// divided by this, the higher word
    pub divisor_high: u64,
    /// and the lower.
    pub divisor_low: u64,
}

/// Makes a reply with only a code.
pub(crate) fn bare(code: Code) -> HullHit
    ensures { IsNoHit code result }
{
    HullHit {
        code: code.number(),
        x: 0,
        y: 0,
        other_x: 0,
        other_y: 0,
        high: 0,
        low: 0,
        divisor_high: 0,
        divisor_low: 0,
    }
}

/// Makes a reply with a code and two points.
fn at(code: Code, p: Point, q: Point) -> HullHit
    ensures { IsHitAt code p q result }
{
    let mut hit = bare(code);
    hit.x = p.x();
    hit.y = p.y();
    hit.other_x = q.x();
    hit.other_y = q.y();
    hit
}

/// Makes a reply with a code and a vertex.
fn at_vertex(c: Point) -> HullHit
    ensures { IsHitAt Code.Vertex c origin result }
{
    let mut hit = bare(Code::Vertex);
    hit.x = c.x();
    hit.y = c.y();
    hit
}

/// Makes the reply for an entry.
fn place(entry: Entry) -> HullHit
    ensures { IsEntryEncoded entry result }
{
    match entry {
        Entry::Start => bare(Code::Covered),
        Entry::Edge(p, q) => at(Code::Edge, p, q),
        Entry::Vertex(c) => at_vertex(c),
    }
}

/// Returns the words of a number.
fn words(number: u128) -> (u64, u64)
    ensures { result.0 * 2 ^ 64 + result.1 ≡ number }
{
    ((number / WORD) as u64, (number % WORD) as u64)
}

/// Makes the reply for an entry, and how far along the way it is.
pub(crate) fn way_in(found: Hit) -> HullHit
    ensures place { IsEntryEncoded found.place result }
    ensures part { IsPart found.numerator found.denominator result }
{
    let mut hit = place(found.place);
    let (high, low) = words(found.numerator);
    let (divisor_high, divisor_low) = words(found.denominator);
    hit.high = high;
    hit.low = low;
    hit.divisor_high = divisor_high;
    hit.divisor_low = divisor_low;
    hit
}

/// Makes the reply for an entry, or a miss.
fn hit_of(found: Option<Hit>) -> HullHit
    ensures { IsHitEncoded found result }
{
    match found {
        None => bare(Code::Disjoint),
        Some(encoded) => way_in(encoded),
    }
}

/// Finds the entry of a ray.
fn ray(vertices: &[Point], start: Point, direction: Direction) -> HullHit
    requires { IsShortPolygon vertices.now }
    ensures { EncodesRay vertices.now start direction result }
{
    if vertices.is_empty() {
        return bare(Code::Empty);
    }
    hit_of(Polygon::of_vertices(vertices).raycast(start, direction))
}

/// Finds the exit of a ray.
fn last(vertices: &[Point], start: Point, direction: Direction) -> HullHit
    requires { IsShortPolygon vertices.now }
    ensures { EncodesRaycastExit vertices.now start direction result }
{
    if vertices.is_empty() {
        return bare(Code::Empty);
    }
    hit_of(Polygon::of_vertices(vertices).raycast_exit(start, direction))
}

/// Finds the entry of a segment.
fn segment(vertices: &[Point], a: Point, b: Point) -> HullHit
    requires { IsShortPolygon vertices.now }
    ensures { EncodesSegmentHit vertices.now a b result }
{
    if vertices.is_empty() {
        return bare(Code::Empty);
    }
    hit_of(Polygon::of_vertices(vertices).raycast_segment(a, b))
}

/// Finds the entry of a ray in the direction of two numbers.
fn ray_along(vertices: &[Point], start: Point, dx: i64, dy: i64) -> HullHit
    requires { IsShortPolygon vertices.now }
    ensures { IsHitAlong dx dy (EncodesRay vertices.now start) result }
{
    match direction_of(dx, dy) {
        Ok(direction) => ray(vertices, start, direction),
        Err(fault) => bare(fault),
    }
}

/// Finds the exit of a ray in the direction of two numbers.
fn last_along(vertices: &[Point], start: Point, dx: i64, dy: i64) -> HullHit
    requires { IsShortPolygon vertices.now }
    ensures { IsHitAlong dx dy (EncodesRaycastExit vertices.now start) result }
{
    match direction_of(dx, dy) {
        Ok(direction) => last(vertices, start, direction),
        Err(fault) => bare(fault),
    }
}

/// Finds the entry of a segment to the point of two numbers.
fn segment_to(vertices: &[Point], a: Point, x: i64, y: i64) -> HullHit
    requires { IsShortPolygon vertices.now }
    ensures { IsHitOf x y (EncodesSegmentHit vertices.now a) result }
{
    match point_of(x, y) {
        Ok(b) => segment(vertices, a, b),
        Err(fault) => bare(fault),
    }
}

/// Finds the entry of the ray of four numbers: a point and a direction.
pub(crate) fn raycast(vertices: &[Point], x: i64, y: i64, dx: i64, dy: i64) -> HullHit
    requires { IsShortPolygon vertices.now }
    ensures { IsHitOf x y (λ a. IsHitAlong dx dy (EncodesRay vertices.now a)) result }
{
    match point_of(x, y) {
        Ok(start) => ray_along(vertices, start, dx, dy),
        Err(fault) => bare(fault),
    }
}

/// Finds the exit of the ray of four numbers.
pub(crate) fn raycast_exit(vertices: &[Point], x: i64, y: i64, dx: i64, dy: i64) -> HullHit
    requires { IsShortPolygon vertices.now }
    ensures { IsHitOf x y (λ a. IsHitAlong dx dy (EncodesRaycastExit vertices.now a)) result }
{
    match point_of(x, y) {
        Ok(start) => last_along(vertices, start, dx, dy),
        Err(fault) => bare(fault),
    }
}

/// Finds the entry of the segment between the points of four numbers.
pub(crate) fn raycast_segment(vertices: &[Point], ax: i64, ay: i64, bx: i64, by: i64) -> HullHit
    requires { IsShortPolygon vertices.now }
    ensures { IsHitOf ax ay (λ a. IsHitOf bx by (EncodesSegmentHit vertices.now a)) result }
{
    match point_of(ax, ay) {
        Ok(a) => segment_to(vertices, a, bx, by),
        Err(fault) => bare(fault),
    }
}
