//! All pairs, in order.
ghost use Rattle.std.specs.Prelude.{length};
ghost use Rattle.std.specs.List.{All};
ghost use Rattle.std.specs.List.Sorted.{IsNonDecreasingBy, IsPermutation};
ghost use Rattle.hull_polygon.specs.Polygons.{IsShortPolygon};
ghost use Rattle.polygon_pairs.specs.Pairs.{EncodesPairs};
ghost use Rattle.polygon_pairs.specs.Sweeps.{key_of};

use crate::boxed::sorted_boxes;
use crate::pair::{HullPair, key};
use crate::sweep::sweep_all;
use heap::Heap;
use hull_polygon::Length;
use hull_reply::{Code, HullReply};
use lattice::Point;

/// Sorts pairs by their first and then their second index.
fn sort(pairs: &mut [HullPair])
    ensures permutation { IsPermutation pairs.old pairs.new }
    ensures sorted { IsNonDecreasingBy key_of pairs.new }
{
    pairs.sort_unstable_by_key(|pair| key(pair));
}

/// Finds the pairs of polygons whose distance is at most the length, of indices (i, j) with i < j, writes them to the front
/// of the array in order, and returns their number. Fails with [`Code::TooSmall`] and their number if the array is too small
/// for them, and then it contains some of them; with [`Code::NoMemory`] if memory is refused, and with [`Code::TooMany`] for
/// 2^32 polygons or more, and then it is unchanged. Polygons without vertices are in no pair. Allocates 40 bytes for each
/// polygon. O(n log n) for n polygons, a comparison for each two whose boxes are near along x, and the cost of
/// [`Polygon::is_within_distance`](hull_polygon::Polygon::is_within_distance) for those whose boxes are near.
pub fn pairs_within_distance(
    alloc: Heap,
    polygons: &[&[Point]],
    reach: Length,
    out: &mut [HullPair],
) -> HullReply
    requires { All (λ o. IsShortPolygon o.now) polygons.now }
    ensures { EncodesPairs reach polygons.now out.old out.new result }
{
    if polygons.len() > u32::MAX as usize {
        return HullReply::bare(Code::TooMany);
    }
    if polygons.is_empty() {
        return HullReply::numbered(Code::Number, 0);
    }
    let Ok(boxes) = sorted_boxes(alloc, polygons) else {
        return HullReply::bare(Code::NoMemory);
    };
    let count = sweep_all(polygons, &boxes, reach, out);
    if count > out.len() as u64 {
        return HullReply::numbered(Code::TooSmall, count);
    }
    let (front, _) = out.split_at_mut(count as usize);
    sort(front);
    HullReply::numbered(Code::Number, count)
}
