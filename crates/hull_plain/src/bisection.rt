//! Bisection of a chain: the one search that all questions share.
ghost use Rattle.std.specs.Prelude.{◌+◌, ◌-◌, ◌<◌, length, true, false};
ghost use Rattle.hull_geometry.specs.Positions.{point_at};

use lattice::Point;
use tiered_list::TieredList;

/// Returns an index such that `holds` is true of the edge that ends there and false of the edge that begins there: of
/// the points at that index and the adjacent ones. At the ends of the chain, where an edge is missing, its condition
/// counts as met.
pub(crate) fn first_failing<F: Fn(Point, Point) -> bool>(chain: &TieredList, holds: &F) -> usize
    requires some { 0 < length chain.now.items }
    requires callable { F.IsAlwaysCallable holds.now }
    ensures within { result < length chain.now.items }
    ensures held { 0 < result
        → F.post holds.now (point_at chain.now.items (result - 1)) (point_at chain.now.items (result - 1 + 1)) true }
    ensures fails { result + 1 < length chain.now.items
        → F.post holds.now (point_at chain.now.items result) (point_at chain.now.items (result + 1)) false }
{
    let mut low = 0;
    let mut high = chain.len() - 1;
    while low < high {
        let middle = low + (high - low) / 2;
        if holds(chain.get(middle), chain.get(middle + 1)) {
            low = middle + 1;
        } else {
            high = middle;
        }
    }
    low
}
