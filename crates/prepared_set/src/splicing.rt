//! Changes inside an array.
ghost use Rattle.std.specs.Prelude.{◌≡◌, ◌+◌, ◌<◌, ◌≤◌, vec_len, OnErr, OnOk};
ghost use Rattle.hull_polygon.specs.Insertions.{put_between};

use heap::Heap;
use lattice::Point;
use std::alloc::AllocError;

/// Puts `p` in place of the points between the ones at `after` and at `before`, of which there is at least one. Moves
/// those from `before` on if there are more. Does not allocate.
fn replace(points: &mut Vec<Point, Heap>, after: usize, before: usize, p: Point)
    requires some { after + 1 < before }
    requires within { before ≤ vec_len points.old }
    ensures { points.new.items ≡ put_between points.old.items after before p }
{
    points[after + 1] = p;
    let end = points.len();
    if after + 2 < before {
        points.copy_within(before..end, after + 2);
        points.truncate(end - (before - (after + 2)));
    }
}

/// Puts `p` in place of the points between the ones at `after` and at `before`. Fails only if there are none, and then
/// nothing changes.
pub(crate) fn put(
    points: &mut Vec<Point, Heap>,
    after: usize,
    before: usize,
    p: Point,
) -> Result<(), AllocError>
    requires ordered { after < before }
    requires within { before ≤ vec_len points.old }
    ensures put { OnOk result (points.new.items ≡ put_between points.old.items after before p) }
    ensures refused { OnErr result ((points.new.items ≡ points.old.items) × (before ≡ after + 1)) }
{
    if before == after + 1 {
        points.insert(before, p)?;
        return Ok(());
    }
    replace(points, after, before, p);
    Ok(())
}
