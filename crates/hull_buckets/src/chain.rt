//! The chain of a hull on one side, as the indices of its vertices, by a pass over points in order (the monotone chain: Andrew, 1979).
ghost use Rattle.std.specs.Prelude.{◌≡◌, ℕ, ◌↔◌, ◌<◌, ◌≤◌, ◌+◌, ◌-◌, ◌^◌, ◌++◌, ◌∷◌, [], IfSome, IsTrue, None};
ghost use Rattle.std.specs.Prelude.{pos, ◌<ℤ◌, length, take};
ghost use Rattle.lattice.specs.Covers.{IsPointSet};
ghost use Rattle.lattice.specs.Orientations as orientations;
ghost use Rattle.hull_geometry.specs.Monotone.{EndsInwards, IsConvex, IsPassed};
ghost use Rattle.hull_geometry.specs.Positions.{point_at};
ghost use Rattle.hull_buckets.specs.Masks.{at_places, AreApart};
ghost use Rattle.hull_buckets.specs.Outwards.{IsPassedOutwards, IsPushedOutwards};
ghost use Rattle.hull_buckets.specs.declared.TheConstants.{BUCKET_SIZE};

use super::mask::{bit, highest, lowest};
use lattice::{Point, Side, orient_on};

/// Whether a chain bends at `b` on the way from `a` to `c`: whether `b` is outwards of the segment between them.
pub(crate) fn is_convex_at(side: Side, a: Point, b: Point, c: Point) -> bool
    ensures { IsTrue result ↔ (pos 0 <ℤ orientations.orient_on side a b c) }
{
    orient_on(side, a, b, c) > 0
}

/// Removes the last vertex of a chain, if it is not outwards of the segment from the one before it to the point at an index.
fn without_last(side: Side, points: &[Point], chain: u64, place: usize) -> Option<u64>
    requires few { length points.now ≤ BUCKET_SIZE }
    requires within { place < length points.now }
    requires before { chain < 2 ^ place }
    ensures fewer { IfSome result (λ front. front < chain) }
    ensures inwards { IfSome result (λ _. EndsInwards side (at_places chain points.now) (point_at points.now place)) }
    ensures front { IfSome result (λ front. at_places front points.now
        ≡ take (length (at_places chain points.now) - 1) (at_places chain points.now)) }
    ensures convex { result ≡ None → IsConvex side (at_places chain points.now)
        → IsConvex side (at_places chain points.now ++ point_at points.now place ∷ []) }
{
    if chain == 0 {
        return None;
    }
    let last = highest(chain);
    let front = chain - bit(last);
    if front == 0 {
        return None;
    }
    let ahead = highest(front);
    if is_convex_at(side, points[ahead], points[last], points[place]) {
        return None;
    }
    Some(front)
}

/// Appends the point at an index to the chain, and removes those of the chain's last vertices at which it does not bend then.
pub(crate) fn pushed(side: Side, points: &[Point], chain: u64, place: usize) -> u64
    requires few { length points.now ≤ BUCKET_SIZE }
    requires within { place < length points.now }
    requires ordered { IsPointSet points.now }
    requires before { chain < 2 ^ place }
    requires convex { IsConvex side (at_places chain points.now) }
    ensures within { result < 2 ^ (place + 1) }
    ensures passed { IsPassed side (at_places chain points.now ++ point_at points.now place ∷ [])
        (at_places result points.now) }
{
    let mut kept = chain;
    while let Some(front) = without_last(side, points, kept, place) {
        kept = front;
    }
    kept + bit(place)
}

/// Continues a chain over the points at the indices of `rest`, all after its own: one pass in order.
pub(crate) fn passed_over(side: Side, points: &[Point], chain: u64, rest: u64) -> u64
    requires few { length points.now ≤ BUCKET_SIZE }
    requires ordered { IsPointSet points.now }
    requires apart { AreApart chain rest }
    requires chain_within { chain < 2 ^ length points.now }
    requires rest_within { rest < 2 ^ length points.now }
    requires convex { IsConvex side (at_places chain points.now) }
    ensures within { (k : ℕ) → chain < 2 ^ k → rest < 2 ^ k → result < 2 ^ k }
    ensures passed { IsPassed side (at_places chain points.now ++ at_places rest points.now)
        (at_places result points.now) }
{
    let mut kept = chain;
    let mut left = rest;
    while left != 0 {
        let place = lowest(left);
        kept = pushed(side, points, kept, place);
        left -= bit(place);
    }
    kept
}

/// Appends the point at an index to the chain, as [`pushed`], if it is outwards of the segment from `a` to `b`;
/// otherwise leaves the chain as it is.
fn pushed_outwards(
    side: Side,
    points: &[Point],
    chain: u64,
    place: usize,
    a: Point,
    b: Point,
) -> u64
    requires few { length points.now ≤ BUCKET_SIZE }
    requires within { place < length points.now }
    requires ordered { IsPointSet points.now }
    requires before { chain < 2 ^ place }
    requires convex { IsConvex side (at_places chain points.now) }
    ensures within { result < 2 ^ (place + 1) }
    ensures pushed { IsPushedOutwards side points.now chain place a b result }
{
    if is_convex_at(side, a, points[place], b) {
        pushed(side, points, chain, place)
    } else {
        chain
    }
}

/// Continues a chain as [`passed_over`], but over those of the points only that are outwards of the segment from `a` to
/// `b`: one orientation for each of the others.
pub(crate) fn passed_outwards(
    side: Side,
    points: &[Point],
    chain: u64,
    rest: u64,
    a: Point,
    b: Point,
) -> u64
    requires few { length points.now ≤ BUCKET_SIZE }
    requires ordered { IsPointSet points.now }
    requires apart { AreApart chain rest }
    requires chain_within { chain < 2 ^ length points.now }
    requires rest_within { rest < 2 ^ length points.now }
    requires convex { IsConvex side (at_places chain points.now) }
    ensures within { (k : ℕ) → chain < 2 ^ k → rest < 2 ^ k → result < 2 ^ k }
    ensures passed { IsPassedOutwards side points.now chain rest a b result }
{
    let mut kept = chain;
    let mut left = rest;
    while left != 0 {
        let place = lowest(left);
        kept = pushed_outwards(side, points, kept, place, a, b);
        left -= bit(place);
    }
    kept
}

/// Continues a chain over vertices that bend, all after its own, at the indices of `rest`. It ends as soon as two of them in a row are on it: from
/// there on all bends are as they were.
pub(crate) fn taken_up(side: Side, points: &[Point], chain: u64, rest: u64) -> u64
    requires few { length points.now ≤ BUCKET_SIZE }
    requires ordered { IsPointSet points.now }
    requires apart { AreApart chain rest }
    requires chain_within { chain < 2 ^ length points.now }
    requires rest_within { rest < 2 ^ length points.now }
    requires convex { IsConvex side (at_places chain points.now) }
    requires rest_convex { IsConvex side (at_places rest points.now) }
    ensures within { (k : ℕ) → chain < 2 ^ k → rest < 2 ^ k → result < 2 ^ k }
    ensures passed { IsPassed side (at_places chain points.now ++ at_places rest points.now)
        (at_places result points.now) }
{
    let mut kept = chain;
    let mut left = rest;
    let mut is_first = true;
    while left != 0 {
        let place = lowest(left);
        let next = pushed(side, points, kept, place);
        left -= bit(place);
        if !is_first && next == kept + bit(place) {
            return next + left;
        }
        kept = next;
        is_first = false;
    }
    kept
}
