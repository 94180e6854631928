//! Exports about one array of vertices: what it answers, whether it is one, and where it is moved.
ghost use Rattle.std.specs.Prelude.{◌≡◌, length};
ghost use Rattle.hull_c.specs.VerticesOf.{EncodesVerticesOf};
ghost use Rattle.hull_c.specs.Findings.{IsEncodedAlong, IsEncodedOf, EncodesBox, EncodesDiameter, EncodesNearest, EncodesWidth};
ghost use Rattle.hull_c.specs.Pairs.{EncodesLeastWidth};
ghost use Rattle.hull_c.specs.Polygons.{ArePolygonAnswers, IsPolygonAnswer, EncodesPolygon};
ghost use Rattle.hull_polygon.specs.Polygons.{IsShortPolygon};
ghost use Rattle.polygon_arrays.specs.Indices.{AreIndices};
ghost use Rattle.polygon_arrays.specs.Moved.{EncodesRotated, EncodesTranslated};

use crate::pairs::HullWitness;
use crate::requests::HullRequest;
use crate::{findings, pairs, polygon, vertices_of};
use heap::Heap;
use hull_reply::{HullPoint, HullReply};
use lattice::Point;

/// Returns 1 if the points are the vertices of a set in the order in which [`hull_vertices`] writes them, else 0.
#[unsafe(no_mangle)]
pub extern "C" fn hull_is_polygon(alloc: Heap, points: &[HullPoint]) -> HullReply
    ensures { EncodesPolygon points.now result }
{
    polygon::judge(alloc, points)
}

/// Writes the vertices of any points to the front of the array, as [`hull_vertices`] does for a set of them.
#[unsafe(no_mangle)]
pub extern "C" fn hull_polygon_of(
    alloc: Heap,
    points: &[HullPoint],
    out: &mut [HullPoint],
) -> HullReply
    ensures { EncodesVerticesOf points.now out.old out.new result }
{
    vertices_of::vertices_of(alloc, points, out)
}

/// Asks an array of vertices, as [`hull_vertices`] writes them, what a kind and two numbers ask of the set that they
/// are of. Nothing is written, so any number of threads may ask one array at once.
#[unsafe(no_mangle)]
pub extern "C" fn hull_polygon_call(vertices: &[Point], kind: u32, x: i64, y: i64) -> HullReply
    requires { IsShortPolygon vertices.now }
    ensures { IsPolygonAnswer vertices.now kind x y result }
{
    polygon::ask(vertices, kind, x, y)
}

/// Asks an array of vertices each of the requests, up to the end of the shorter array, and returns how many replies
/// were written.
#[unsafe(no_mangle)]
pub extern "C" fn hull_polygon_calls(
    vertices: &[Point],
    requests: &[HullRequest],
    replies: &mut [HullReply],
) -> usize
    requires { IsShortPolygon vertices.now }
    ensures { ArePolygonAnswers vertices.now requests.now replies.old replies.new result }
{
    polygon::ask_all(vertices, requests, replies)
}

/// Finds the vertex or the edge of the convex polygon that is nearest to (x, y); or finds that it covers that point.
#[unsafe(no_mangle)]
pub extern "C" fn hull_polygon_nearest(vertices: &[Point], x: i64, y: i64) -> HullReply
    requires { IsShortPolygon vertices.now }
    ensures { IsEncodedOf x y (EncodesNearest vertices.now) result }
{
    findings::nearest(vertices, x, y)
}

/// Returns the least and the greatest point of the smallest box, with sides along the axes, that contains the
/// vertices.
#[unsafe(no_mangle)]
pub extern "C" fn hull_polygon_box(vertices: &[Point]) -> HullReply
    requires { IsShortPolygon vertices.now }
    ensures { EncodesBox vertices.now result }
{
    findings::bounding_box(vertices)
}

/// Returns the extent of the convex polygon in the direction (x, y): the greatest product minus the least.
#[unsafe(no_mangle)]
pub extern "C" fn hull_polygon_width(vertices: &[Point], x: i64, y: i64) -> HullReply
    requires { IsShortPolygon vertices.now }
    ensures { IsEncodedAlong x y (EncodesWidth vertices.now) result }
{
    findings::width(vertices, x, y)
}

/// Returns the two vertices that are farthest from one another.
#[unsafe(no_mangle)]
pub extern "C" fn hull_polygon_diameter(vertices: &[Point]) -> HullReply
    requires { IsShortPolygon vertices.now }
    ensures { EncodesDiameter vertices.now result }
{
    findings::diameter(vertices)
}

/// Returns the edge and the vertex between whose parallels the convex polygon has its least width.
#[unsafe(no_mangle)]
pub extern "C" fn hull_polygon_least_width(vertices: &[Point]) -> HullWitness
    requires { IsShortPolygon vertices.now }
    ensures { EncodesLeastWidth vertices.now result }
{
    pairs::least_width(vertices)
}

/// Writes for each vertex the index of the first of the points that is equal to it, or the number of points if none is; returns how
/// many vertices are among the points.
#[unsafe(no_mangle)]
pub extern "C" fn hull_polygon_indices(
    vertices: &[Point],
    points: &[HullPoint],
    out: &mut [usize],
) -> usize
    requires polygon { IsShortPolygon vertices.now }
    requires long { length out.old ≡ length vertices.now }
    ensures { AreIndices vertices.now points.now out.new result }
{
    polygon_arrays::vertex_indices(vertices, points, out)
}

/// Writes the vertices moved by (dx, dy) to another array for as many. Refuses, and leaves the array unchanged, if a
/// coordinate would be out of range.
#[unsafe(no_mangle)]
pub extern "C" fn hull_polygon_translate(
    vertices: &[HullPoint],
    dx: i64,
    dy: i64,
    out: &mut [HullPoint],
) -> HullReply
    requires { length out.old ≡ length vertices.now }
    ensures { EncodesTranslated vertices.now dx dy out.old out.new result }
{
    polygon_arrays::translate(vertices, dx, dy, out)
}

/// Moves the vertices by (dx, dy). Refuses, and leaves them unchanged, if a coordinate would be out of range.
#[unsafe(no_mangle)]
pub extern "C" fn hull_polygon_translate_in_place(
    vertices: &mut [HullPoint],
    dx: i64,
    dy: i64,
) -> HullReply
    ensures { EncodesTranslated vertices.old dx dy vertices.old vertices.new result }
{
    polygon_arrays::translate_in_place(vertices, dx, dy)
}

/// Writes the vertices rotated about the origin by the angle of (a, b), and scaled by its length, to another array for
/// as many, from the first one by x and then y. Refuses, and leaves the array unchanged, if (a, b) is no direction or a
/// coordinate would be out of range.
#[unsafe(no_mangle)]
pub extern "C" fn hull_polygon_rotate(
    vertices: &[Point],
    a: i64,
    b: i64,
    out: &mut [HullPoint],
) -> HullReply
    requires { length out.old ≡ length vertices.now }
    ensures { EncodesRotated vertices.now a b out.old out.new result }
{
    polygon_arrays::rotate(vertices, a, b, out)
}
