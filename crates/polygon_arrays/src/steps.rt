//! Whether points stay in range after a translation: a quick test, by an addition for each coordinate, and an exact one.
ghost use Rattle.std.specs.Prelude.{◌↔◌, ◌*◌, ◌^◌, ◌<◌, ◌+ℤ◌, IsTrue};
ghost use Rattle.lattice.specs.Plane.{IsCoordinate, IsInRange, IsWithin, widest};
ghost use Rattle.motions.specs.Motions.{translated, AllMoveInRange};
ghost use Rattle.motions.specs.declared.motion.Motion.TheVariants.{Translation};

use hull_reply::HullPoint;
use lattice::COORDINATE_LIMIT;

/// How many points are taken at a time, so that a compiler adds to both coordinates of a point at once.
pub(crate) const BLOCK: usize = 8;

/// Whether both numbers are at most twice the limit of coordinates in size, as the difference of any two coordinates is.
fn are_steps(dx: i64, dy: i64) -> bool
    ensures { IsTrue result ↔ IsWithin (2 * widest) dx × IsWithin (2 * widest) dy }
{
    let most = 2 * COORDINATE_LIMIT;
    -most <= dx && dx <= most && -most <= dy && dy <= most
}

/// Returns the sum of a number, a step and the limit, modulo 2^64. If it is below 2^41, number and step add up to a
/// coordinate.
fn raised(number: i64, step: i64) -> u64
    requires { IsWithin (2 * widest) step }
    ensures { result < 2 ^ 41 → IsCoordinate (number +ℤ step) }
{
    let raise = (step + COORDINATE_LIMIT).cast_unsigned();
    number.cast_unsigned().wrapping_add(raise)
}

/// Whether all points are in range after a translation by two steps, with no coordinate at the limit itself.
fn are_below_limit(points: &[HullPoint], dx: i64, dy: i64) -> bool
    requires first { IsWithin (2 * widest) dx }
    requires second { IsWithin (2 * widest) dy }
    ensures { IsTrue result → AllMoveInRange (Translation dx dy) points.now }
{
    let mut x_bits = 0;
    let mut y_bits = 0;
    for p in points {
        x_bits |= raised(p.x, dx);
        y_bits |= raised(p.y, dy);
    }
    x_bits < 1 << 41 && y_bits < 1 << 41
}

/// Whether all points are in range so, one block of them after another.
fn are_blocks_below_limit(points: &[HullPoint], dx: i64, dy: i64) -> bool
    requires first { IsWithin (2 * widest) dx }
    requires second { IsWithin (2 * widest) dy }
    ensures { IsTrue result → AllMoveInRange (Translation dx dy) points.now }
{
    let blocks = points.len() / BLOCK;
    for i in 0..blocks {
        if !are_below_limit(&points[i * BLOCK..i * BLOCK + BLOCK], dx, dy) {
            return false;
        }
    }
    are_below_limit(&points[blocks * BLOCK..], dx, dy)
}

/// Whether number and step add up to a coordinate.
fn is_coordinate_after(number: i64, step: i64) -> bool
    ensures { IsTrue result ↔ IsCoordinate (number +ℤ step) }
{
    match number.checked_add(step) {
        Some(sum) => -COORDINATE_LIMIT <= sum && sum <= COORDINATE_LIMIT,
        None => false,
    }
}

/// Whether a point is in range after a translation.
fn is_in_range_after(p: HullPoint, dx: i64, dy: i64) -> bool
    ensures { IsTrue result ↔ IsInRange (translated dx dy p) }
{
    is_coordinate_after(p.x, dx) && is_coordinate_after(p.y, dy)
}

/// Whether all points are in range after a translation, one after another.
fn are_each_in_range_after(points: &[HullPoint], dx: i64, dy: i64) -> bool
    ensures { IsTrue result ↔ AllMoveInRange (Translation dx dy) points.now }
{
    for p in points {
        if !is_in_range_after(*p, dx, dy) {
            return false;
        }
    }
    true
}

/// Whether all points are in range after a translation. O(n).
pub(crate) fn are_in_range_after(points: &[HullPoint], dx: i64, dy: i64) -> bool
    ensures { IsTrue result ↔ AllMoveInRange (Translation dx dy) points.now }
{
    are_steps(dx, dy) && are_blocks_below_limit(points, dx, dy)
        || are_each_in_range_after(points, dx, dy)
}
