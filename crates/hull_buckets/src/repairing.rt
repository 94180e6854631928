//! The chain of a bucket's points after one was added or removed, or of all points.
ghost use Rattle.std.specs.Prelude.{◌≡◌, ◌↔◌, ◌<◌, ◌≤◌, ◌+◌, ◌%◌, ◌^◌, ◌++◌, ◌∷◌, [], IsTrue, length, take, drop};
ghost use Rattle.lattice.specs.Covers.{IsPointSet};
ghost use Rattle.hull_geometry.specs.Mending.{IsOverEdge};
ghost use Rattle.hull_geometry.specs.Monotone.{IsConvex, IsPassed};
ghost use Rattle.hull_geometry.specs.Positions.{point_at};
ghost use Rattle.hull_buckets.specs.Buckets.{AreEnds, IsMaskOf, WasMaskOf};
ghost use Rattle.hull_buckets.specs.Masks.{at_places, without_place};
ghost use Rattle.hull_buckets.specs.Outwards.{IsFront};
ghost use Rattle.hull_buckets.specs.declared.TheConstants.{BUCKET_SIZE};

use super::chain::{is_convex_at, passed_outwards, passed_over, pushed, taken_up};
use super::mask::{below, between, bit, first, has, highest, lowest, moved_down, moved_up};
use lattice::{Point, Side};

/// Whether the point at an index is between the last vertex before it and the first one after it, and not outwards of their segment.
#[inline(always)]
fn is_covered(side: Side, points: &[Point], low: u64, high: u64, place: usize) -> bool
    requires few { length points.now ≤ BUCKET_SIZE }
    requires within { place < length points.now }
    requires low_before { low < 2 ^ place }
    requires high_after { high % 2 ^ (place + 1) ≡ 0 }
    requires high_within { high < 2 ^ length points.now }
    ensures { IsTrue result ↔ IsOverEdge side (at_places low points.now ++ at_places high points.now)
        (length (at_places low points.now)) (point_at points.now place) }
{
    if low == 0 || high == 0 {
        return false;
    }
    let before = points[highest(low)];
    let after = points[lowest(high)];
    !is_convex_at(side, before, points[place], after)
}

/// Appends the point at an index, and then the vertices of `high`, to the chain of the vertices of `low`, and removes the vertices at which the chain
/// does not bend then.
#[inline(never)]
fn appended(side: Side, points: &[Point], low: u64, place: usize, high: u64) -> u64
    requires few { length points.now ≤ BUCKET_SIZE }
    requires ordered { IsPointSet points.now }
    requires within { place < length points.now }
    requires low_before { low < 2 ^ place }
    requires high_after { high % 2 ^ (place + 1) ≡ 0 }
    requires high_within { high < 2 ^ length points.now }
    requires low_convex { IsConvex side (at_places low points.now) }
    requires high_convex { IsConvex side (at_places high points.now) }
    ensures within { result < 2 ^ length points.now }
    ensures passed { IsPassed side (at_places low points.now ++ point_at points.now place ∷ [] ++ at_places high points.now)
        (at_places result points.now) }
{
    let front = pushed(side, points, low, place);
    taken_up(side, points, front, high)
}

/// Returns the mask of the chain of points of which the one at `place` is new; `old` is that of the others.
///
/// If the point is between two vertices of the old chain and not outwards of their segment, nothing changes. Otherwise the vertices are removed, on
/// either side, at which the chain to the point does not bend.
#[inline(always)]
pub(crate) fn with_vertex(side: Side, points: &[Point], old: u64, place: usize) -> u64
    requires few { length points.now ≤ BUCKET_SIZE }
    requires ordered { IsPointSet points.now }
    requires within { place < length points.now }
    requires mask { IsMaskOf side (without_place place points.now) old }
    ensures { IsMaskOf side points.now result }
{
    let low = below(old, place);
    let high = moved_up(old, place);
    if is_covered(side, points, low, high, place) {
        return low + high;
    }
    appended(side, points, low, place, high)
}

/// Returns the chain of the vertices of `low` and the points between them and the vertices of `high`. If there are
/// vertices on both sides, only the points that are outwards of the segment between the two nearest of them are passed
/// over: the others are no vertices.
fn front_between(side: Side, points: &[Point], low: u64, high: u64) -> u64
    requires few { length points.now ≤ BUCKET_SIZE }
    requires ordered { IsPointSet points.now }
    requires ends { AreEnds side points.now low high }
    ensures { IsFront side points.now low high result }
{
    let middle = between(low, high, points.len());
    if low == 0 || high == 0 {
        return passed_over(side, points, low, middle);
    }
    passed_outwards(
        side,
        points,
        low,
        middle,
        points[highest(low)],
        points[lowest(high)],
    )
}

/// Returns `low` with the first point, if neither mask has vertices at that end: the first point is a vertex.
fn with_first(points: &[Point], low: u64, high: u64) -> u64
    requires { length points.now ≤ BUCKET_SIZE }
    ensures { (side : Side) → IsPointSet points.now → AreEnds side points.now low high → AreEnds side points.now result high }
{
    if low == 0 && high % 2 == 0 && points.len() > 0 {
        1
    } else {
        low
    }
}

/// Returns `high` with the last point, if neither mask has vertices at that end: the last point is a vertex.
fn with_last(points: &[Point], low: u64, high: u64) -> u64
    requires { length points.now ≤ BUCKET_SIZE }
    ensures { (side : Side) → IsPointSet points.now → AreEnds side points.now low high → AreEnds side points.now low result }
{
    let count = points.len();
    if high != 0 || count == 0 {
        return high;
    }
    let last = bit(count - 1);
    if low < last { last } else { high }
}

/// Returns the mask of the chain of points, given vertices at its two ends: one pass goes over the points between these, and on over the vertices
/// after them until the chain bends as it did.
fn joined(side: Side, points: &[Point], low: u64, high: u64) -> u64
    requires few { length points.now ≤ BUCKET_SIZE }
    requires ordered { IsPointSet points.now }
    requires ends { AreEnds side points.now low high }
    ensures { IsMaskOf side points.now result }
{
    let low = with_first(points, low, high);
    let high = with_last(points, low, high);
    let front = front_between(side, points, low, high);
    taken_up(side, points, front, high)
}

/// Returns the mask of the chain of points after the one at `place` was removed; `old` is that of all of them.
///
/// If the point was no vertex, nothing changes. Otherwise its neighbours stay, and one pass goes over the points
/// between them that are outwards of their segment.
pub(crate) fn without_vertex(side: Side, points: &[Point], old: u64, place: usize) -> u64
    requires { WasMaskOf side points.now place old }
    ensures { IsMaskOf side points.now result }
{
    let low = below(old, place);
    let high = moved_down(old, place);
    if !has(old, place) {
        return low + high;
    }
    joined(side, points, low, high)
}

/// Returns the mask of the chain of the first `count` points, if `old` is that of all of them: its vertices stay, and a pass goes over the points
/// after the last of them.
pub(crate) fn vertices_before(side: Side, points: &[Point], old: u64, count: usize) -> u64
    requires few { length points.now ≤ BUCKET_SIZE }
    requires ordered { IsPointSet points.now }
    requires within { count < length points.now }
    requires mask { IsMaskOf side points.now old }
    ensures { IsMaskOf side (take count points.now) result }
{
    joined(side, &points[..count], below(old, count), 0)
}

/// Returns the mask of the chain of the points from an index on, if `old` is that of all of them.
pub(crate) fn vertices_from(side: Side, points: &[Point], old: u64, place: usize) -> u64
    requires few { length points.now ≤ BUCKET_SIZE }
    requires ordered { IsPointSet points.now }
    requires within { place < length points.now }
    requires mask { IsMaskOf side points.now old }
    ensures { IsMaskOf side (drop place points.now) result }
{
    joined(side, &points[place..], 0, old >> place)
}

/// Returns the mask of the chain of these points, in one pass.
pub(crate) fn all_vertices(side: Side, points: &[Point]) -> u64
    requires few { length points.now ≤ BUCKET_SIZE }
    requires ordered { IsPointSet points.now }
    ensures { IsMaskOf side points.now result }
{
    passed_over(side, points, 0, first(points.len()))
}
