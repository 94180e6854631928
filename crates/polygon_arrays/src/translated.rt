//! Polygons that are translated.
ghost use Rattle.std.specs.Prelude.{◌≡◌, ℕ, ◌<◌, ◌≤◌, List, length, map, take};
ghost use Rattle.lattice.specs.Plane.{Pair, IsInRange};
ghost use Rattle.hull_geometry.specs.Positions.{point_at};
ghost use Rattle.motions.specs.Motions.{moved, translated, AllMoveInRange};
ghost use Rattle.motions.specs.declared.motion.Motion.TheVariants.{Translation};
ghost use Rattle.polygon_arrays.specs.Moved.{EncodesTranslated, IsTranslatedUpTo};

use super::moved::written;
use super::steps::{BLOCK, are_in_range_after};
use hull_reply::{Code, HullPoint, HullReply};

/// Returns a point after a translation, which is in range.
fn point_after(p: HullPoint, dx: i64, dy: i64) -> HullPoint
    requires { IsInRange (translated dx dy p) }
    ensures { result ≡ translated dx dy p }
{
    HullPoint {
        x: p.x + dx,
        y: p.y + dy,
    }
}

/// Writes the points from index `from` up to `to` after a translation, if those before `from` are written.
fn write_some(points: &[HullPoint], from: usize, to: usize, dx: i64, dy: i64, out: &mut [HullPoint])
    requires kept { AllMoveInRange (Translation dx dy) points.now }
    requires long { length out.old ≡ length points.now }
    requires ordered { from ≤ to }
    requires within { to ≤ length points.now }
    requires before { take from out.old ≡ map (moved (Translation dx dy)) (take from points.now) }
    ensures long { length out.new ≡ length points.now }
    ensures front { take to out.new ≡ map (moved (Translation dx dy)) (take to points.now) }
{
    for i in from..to {
        out[i] = point_after(points[i], dx, dy);
    }
}

/// Writes the points after a translation.
fn write_all(points: &[HullPoint], dx: i64, dy: i64, out: &mut [HullPoint])
    requires kept { AllMoveInRange (Translation dx dy) points.now }
    requires long { length out.old ≡ length points.now }
    ensures { out.new ≡ map (moved (Translation dx dy)) points.now }
{
    let blocks = points.len() / BLOCK;
    for i in 0..blocks {
        write_some(points, i * BLOCK, i * BLOCK + BLOCK, dx, dy, out);
    }
    write_some(points, blocks * BLOCK, points.len(), dx, dy, out);
}

/// Translates the points from index `from` up to `to`.
fn move_some(points: &mut [HullPoint], from: usize, to: usize, dx: i64, dy: i64)
    requires kept { (i : ℕ) → from ≤ i → i < to → IsInRange (translated dx dy (point_at points.old i)) }
    requires ordered { from ≤ to }
    requires within { to ≤ length points.old }
    ensures { (start : List Pair) → IsTranslatedUpTo dx dy from start points.old → IsTranslatedUpTo dx dy to start points.new }
{
    for i in from..to {
        points[i] = point_after(points[i], dx, dy);
    }
}

/// Translates the points.
fn move_all(points: &mut [HullPoint], dx: i64, dy: i64)
    requires { AllMoveInRange (Translation dx dy) points.old }
    ensures { points.new ≡ map (moved (Translation dx dy)) points.old }
{
    let blocks = points.len() / BLOCK;
    for i in 0..blocks {
        move_some(points, i * BLOCK, i * BLOCK + BLOCK, dx, dy);
    }
    let count = points.len();
    move_some(points, blocks * BLOCK, count, dx, dy);
}

/// Writes the vertices moved by (`dx`, `dy`) to an array for as many. Fails with [`Code::OutOfRange`], and leaves the
/// array unchanged, if and only if a coordinate would be out of range. O(n).
pub fn translate(vertices: &[HullPoint], dx: i64, dy: i64, out: &mut [HullPoint]) -> HullReply
    requires { length out.old ≡ length vertices.now }
    ensures { EncodesTranslated vertices.now dx dy out.old out.new result }
{
    if !are_in_range_after(vertices, dx, dy) {
        return HullReply::bare(Code::OutOfRange);
    }
    write_all(vertices, dx, dy, out);
    written(vertices.len())
}

/// Does the same in the array of the vertices.
pub fn translate_in_place(vertices: &mut [HullPoint], dx: i64, dy: i64) -> HullReply
    ensures { EncodesTranslated vertices.old dx dy vertices.old vertices.new result }
{
    if !are_in_range_after(vertices, dx, dy) {
        return HullReply::bare(Code::OutOfRange);
    }
    let count = vertices.len();
    move_all(vertices, dx, dy);
    written(count)
}
