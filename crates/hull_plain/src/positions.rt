//! The position of a point in a sorted list of points.
ghost use Rattle.std.specs.Prelude.{◌+◌, ◌-◌, ◌<◌, ◌≤◌, IfOk, length, take, drop};
ghost use Rattle.std.specs.List.{All};
ghost use Rattle.lattice.specs.Plane.{IsBefore};
ghost use Rattle.lattice.specs.Covers.{IsPointSet};
ghost use Rattle.hull_geometry.specs.Positions.{IsPositionOf};

use lattice::{Point, before};
use tiered_list::TieredList;

/// Returns the first index, from one on, whose point is not before `p`: a binary search, with one comparison a step.
pub(crate) fn first_not_before(points: &TieredList, from: usize, p: Point) -> usize
    requires ordered { IsPointSet points.now.items }
    requires inside { from ≤ length points.now.items }
    ensures order { from ≤ result }
    ensures within { result ≤ length points.now.items }
    ensures below { All (λ t. IsBefore t p) (take (result - from) (drop from points.now.items)) }
    ensures rest { All (λ t. ¬ (IsBefore t p)) (drop result points.now.items) }
{
    let mut low = from;
    let mut high = points.len();
    while low < high {
        let middle = low + (high - low) / 2;
        if before(points.get(middle), p) {
            low = middle + 1;
        } else {
            high = middle;
        }
    }
    low
}

/// Returns the index of `p` in `points`, or else, as an error, the index at which it belongs.
pub(crate) fn position_of(points: &TieredList, p: Point) -> Result<usize, usize>
    requires { IsPointSet points.now.items }
    ensures position { IsPositionOf points.now.items p result }
    ensures few { IfOk result (λ i. i < usize.MAX) }
{
    let i = first_not_before(points, 0, p);
    if i == points.len() {
        return Err(i);
    }
    if before(p, points.get(i)) {
        return Err(i);
    }
    Ok(i)
}

/// Returns the number of points that are before `p` or are `p`.
pub(crate) fn count_up_to(points: &TieredList, p: Point) -> usize
    requires { IsPointSet points.now.items }
    ensures within { result ≤ length points.now.items }
    ensures below { All (λ t. ¬ (IsBefore p t)) (take result points.now.items) }
    ensures rest { All (IsBefore p) (drop result points.now.items) }
{
    match position_of(points, p) {
        Ok(i) => i + 1,
        Err(i) => i,
    }
}
