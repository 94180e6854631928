//! One array of vertices, and many segments or many other arrays.
ghost use Rattle.std.specs.Prelude.{◌≡◌, length};
ghost use Rattle.std.specs.List.{All};
ghost use Rattle.hull_polygon.specs.Polygons.{IsShortPolygon};
ghost use Rattle.hull_c.specs.Many.{AreRelations, AreSegmentsAnswered, IsRelationTo, EncodesSegment};

use super::{findings, pairs};
use hull_reply::{Code, HullPoint};
use lattice::Point;

/// A segment between two points with public coordinates.
#[repr(C)]
#[derive(Clone, Copy)]
pub struct HullSegment {
    /// Its first end.
    pub from: HullPoint,
    /// Its second end.
    pub to: HullPoint,
}

/// Whether the convex polygon and a segment intersect: 1 or 0, or `None` if a coordinate is out of range.
fn answer(vertices: &[Point], segment: HullSegment) -> Option<u8>
    requires { IsShortPolygon vertices.now }
    ensures { EncodesSegment vertices.now segment result }
{
    let (from, to) = (segment.from, segment.to);
    let reply = findings::intersects_segment(vertices, from.x, from.y, to.x, to.y);
    if reply.code != Code::Number as u32 {
        return None;
    }
    Some(u8::from(reply.number == 1))
}

/// Writes for each segment whether it and the convex polygon intersect, up to the first one with a coordinate out of
/// range, and returns how many were written.
pub(crate) fn intersects_segments(
    vertices: &[Point],
    segments: &[HullSegment],
    out: &mut [u8],
) -> usize
    requires polygon { IsShortPolygon vertices.now }
    requires long { length out.old ≡ length segments.now }
    ensures { AreSegmentsAnswered vertices.now segments.now out.old out.new result }
{
    for i in 0..segments.len() {
        match answer(vertices, segments[i]) {
            Some(intersects) => out[i] = intersects,
            None => return i,
        }
    }
    segments.len()
}

/// The number of the relation of the convex polygon to another.
fn relation_to(vertices: &[Point], others: &[Point]) -> u8
    requires this { IsShortPolygon vertices.now }
    requires that { IsShortPolygon others.now }
    ensures { IsRelationTo vertices.now others.now result }
{
    pairs::relation(vertices, others).number as u8
}

/// Writes for each of the other convex polygons the number of the relation to it.
pub(crate) fn relations(vertices: &[Point], others: &[&[Point]], out: &mut [u8])
    requires this { IsShortPolygon vertices.now }
    requires that { All (λ o. IsShortPolygon o.now) others.now }
    requires long { length out.old ≡ length others.now }
    ensures { AreRelations vertices.now others.now out.new }
{
    for i in 0..others.len() {
        out[i] = relation_to(vertices, others[i]);
    }
}
