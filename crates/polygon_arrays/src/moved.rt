//! Polygons that are rotated.
ghost use Rattle.std.specs.Prelude.{◌≡◌, ◌++◌, length, map};
ghost use Rattle.motions.specs.Motions.{moved, AllMoveInRange, IsFirstMoved};
ghost use Rattle.hull_reply.specs.Encoded.{IsNumber};
ghost use Rattle.polygon_arrays.specs.Moved.{EncodesRotated, IsFromFirst};

use hull_reply::{Code, HullPoint, HullReply, direction_of};
use lattice::Point;
use motions::Motion;

/// Writes the points after a motion to an array for as many.
fn write_moved(motion: &Motion, points: &[Point], out: &mut [HullPoint])
    requires kept { AllMoveInRange motion.now points.now }
    requires long { length out.old ≡ length points.now }
    ensures { out.new ≡ map (moved motion.now) points.now }
{
    for i in 0..points.len() {
        let (x, y) = motion.coordinates_in_range(points[i]);
        out[i] = HullPoint { x, y };
    }
}

/// Writes the points after a motion to an array for as many, from the first one on by x and then y, and round.
fn write_from_first(motion: &Motion, points: &[Point], first: usize, out: &mut [HullPoint])
    requires kept { AllMoveInRange motion.now points.now }
    requires first { IsFirstMoved motion.now points.now first }
    requires long { length out.old ≡ length points.now }
    ensures { IsFromFirst motion.now points.now out.new }
{
    if points.is_empty() {
        return;
    }
    let (front, rest) = out.split_at_mut(points.len() - first);
    write_moved(motion, &points[first..], front);
    write_moved(motion, &points[..first], rest);
}

/// Returns the reply with so many vertices.
pub(crate) fn written(count: usize) -> HullReply
    ensures { IsNumber Code.Vertices count result }
{
    HullReply::numbered(Code::Vertices, count as u64)
}

/// Writes the vertices rotated about the origin by the angle of (`a`, `b`), and scaled by its length, to an array for as
/// many, from the first one on. Fails with [`Code::OutOfRange`] or [`Code::ZeroDirection`] if (`a`, `b`) is no
/// direction, and with [`Code::OutOfRange`] if and only if a coordinate would be out of range; then the array is
/// unchanged. O(n).
pub fn rotate(vertices: &[Point], a: i64, b: i64, out: &mut [HullPoint]) -> HullReply
    requires { length out.old ≡ length vertices.now }
    ensures { EncodesRotated vertices.now a b out.old out.new result }
{
    let motion = match direction_of(a, b) {
        Ok(d) => Motion::Rotation(d),
        Err(fault) => return HullReply::bare(fault),
    };
    let Some(first) = motion.first_in_range(vertices) else {
        return HullReply::bare(Code::OutOfRange);
    };
    write_from_first(&motion, vertices, first, out);
    written(vertices.len())
}
