//! The index of a point among points in order.
ghost use Rattle.std.specs.Prelude.{◌≡◌, ◌≤◌, ◌+◌, ◌-◌, ◌%◌, length, take, drop};
ghost use Rattle.std.specs.List.{All};
ghost use Rattle.lattice.specs.Covers.{IsPointSet};
ghost use Rattle.lattice.specs.Plane.{IsBefore};
ghost use Rattle.hull_geometry.specs.Positions.{IsPositionOf};
ghost use Rattle.hull_buckets.specs.declared.TheConstants.{BUCKET_SIZE};
ghost use Rattle.hull_buckets.specs.declared.positions.TheConstants.{BLOCK_SIZE};

use lattice::{Point, before};

/// The points of a block: the search compares `p` with the last point of one block after another, and then with the points of one block. As many
/// blocks as a block has points make the two parts equally long, and a bucket has at most 64 points.
const BLOCK_SIZE: usize = 8;

/// Returns the first index of the first block that is not full, or whose last point is not before `p`.
#[inline(always)]
fn first_block(points: &[Point], p: Point) -> usize
    requires few { length points.now ≤ BUCKET_SIZE }
    requires ordered { IsPointSet points.now }
    ensures within { result ≤ length points.now }
    ensures whole { result % BLOCK_SIZE ≡ 0 }
    ensures below { All (λ t. IsBefore t p) (take result points.now) }
    ensures rest { All (λ t. ¬ (IsBefore t p)) (drop (result + BLOCK_SIZE - 1) points.now) }
{
    let mut start = 0;
    while start + BLOCK_SIZE <= points.len() && before(points[start + BLOCK_SIZE - 1], p) {
        start += BLOCK_SIZE;
    }
    start
}

/// Returns the first index whose point is not before `p`. Unlike in a binary search, no address depends on a comparison, so points that are not in
/// the cache are fetched at the same time.
fn first_not_before(points: &[Point], p: Point) -> usize
    requires few { length points.now ≤ BUCKET_SIZE }
    requires ordered { IsPointSet points.now }
    ensures within { result ≤ length points.now }
    ensures below { All (λ t. IsBefore t p) (take result points.now) }
    ensures rest { All (λ t. ¬ (IsBefore t p)) (drop result points.now) }
{
    let mut place = first_block(points, p);
    while place < points.len() && before(points[place], p) {
        place += 1;
    }
    place
}

/// Returns the index of `p`, or else the index at which it would be inserted.
pub(crate) fn position_of(points: &[Point], p: Point) -> Result<usize, usize>
    requires few { length points.now ≤ BUCKET_SIZE }
    requires ordered { IsPointSet points.now }
    ensures { IsPositionOf points.now p result }
{
    let i = first_not_before(points, p);
    if i == points.len() {
        return Err(i);
    }
    if before(p, points[i]) {
        return Err(i);
    }
    Ok(i)
}
