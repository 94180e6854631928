//! A bucket under random changes: its masks compared with the definition of a vertex, its slices with a plain set.
ghost use Rattle.std.specs.Prelude.{◌<◌, ◌≤◌, ◌+◌, length};
ghost use Rattle.std.specs.List.{Contains};
ghost use Rattle.lattice.specs.Bridges.{IsAllBefore};
ghost use Rattle.hull_buckets.specs.declared.TheConstants.{BUCKET_SIZE};

use crate::numbers::Numbers;
use crate::tree::turns::both_found;
use bridge_search::{Counted, Half};
use hull_buckets::{BUCKET_SIZE, Bucket, Slice, bridges_of};
use hull_plain::PlainSet;
use hull_questions::{area2, extreme, place, tangents, vertices};
use hull_set::{HullSet, POINT_LIMIT};
use lattice::{Direction, Point, Side, before, orient_on};
use std::alloc::{AllocError, Global};
use std::process::Abort;
use std::test::Fail;

fn at(rt: &impl Abort, x: i64, y: i64) -> Point {
    match Point::new(x, y) {
        Ok(point) => point,
        Err(_) => panic!(rt; "{x} {y} is no point"),
    }
}

/// Whether the point at an index is outwards of each segment from a point before it to one after it.
fn is_vertex(side: Side, points: &[Point], place: usize) -> bool
    requires { place < length points.now }
{
    for ahead in 0..place {
        for behind in place + 1..points.len() {
            if orient_on(side, points[ahead], points[place], points[behind]) <= 0 {
                return false;
            }
        }
    }
    true
}

/// Whether a mask has the vertices on a side, and no other index.
fn has_vertices(bucket: &Bucket, side: Side) -> bool {
    let points = bucket.points();
    let mut mask = bucket.vertices(side);
    for place in 0..points.len() {
        if (mask % 2 == 1) != is_vertex(side, points, place) {
            return false;
        }
        mask /= 2;
    }
    mask == 0
}

/// Whether points are in order, each has a multiplicity, and the masks are right.
fn is_right(bucket: &Bucket) -> bool {
    let points = bucket.points();
    let mut right = bucket.multiplicities().len() == points.len() && points.len() <= BUCKET_SIZE;
    for place in 1..points.len() {
        right = before(points[place - 1], points[place]) && right;
    }
    right && has_vertices(bucket, Side::Lower) && has_vertices(bucket, Side::Upper)
}

/// Adds a point, or, if it is there, removes it; a full bucket is split first, and one of its halves is used from then on.
fn change(bucket: Bucket, p: Point, keeps_first: bool) -> Bucket {
    let mut first = bucket;
    if first.is_full() {
        let second = first.split();
        if !keeps_first {
            first = second;
        }
    }
    match first.place_of(p) {
        Ok(place) if first.points().len() > 1 => first.remove(place),
        Ok(place) => first.set_multiplicity(place, 2),
        Err(place) => first.insert(place, p, 1),
    }
    first
}

/// Makes `changes` changes at points of a rectangle. Returns whether the bucket is right after each.
fn changes_stay_right(rt: &impl Abort, changes: u32, width: u16, height: u16) -> bool {
    let mut numbers = Numbers::new();
    let mut bucket = Bucket::new(at(rt, 0, 0), 1);
    let mut right = true;
    for _ in 0..changes {
        let p = at(rt, numbers.coordinate(width), numbers.coordinate(height));
        bucket = change(bucket, p, numbers.next() % 2 == 0);
        right = is_right(&bucket) && right;
    }
    right
}

#[test]
fn square_of_few(rt: HostRuntime) {
    let right = changes_stay_right(&rt, 2000, 1, 1);
    assert!(rt; right);
}

#[test]
fn three_columns(rt: HostRuntime) {
    let right = changes_stay_right(&rt, 1000, 1, 30);
    assert!(rt; right);
}

#[test]
fn two_rows(rt: HostRuntime) {
    let right = changes_stay_right(&rt, 1000, 40, 1);
    assert!(rt; right);
}

#[test]
fn wide_square(rt: HostRuntime) {
    let right = changes_stay_right(&rt, 1000, 15000, 15000);
    assert!(rt; right);
}

/// A bucket of the points of a parabola from one x to another.
fn parabola(rt: &impl Abort, from: i64, to: i64) -> Bucket {
    let mut bucket = Bucket::new(at(rt, from, from.wrapping_mul(from)), 1);
    for x in from.saturating_add(1)..to {
        let p = at(rt, x, x.wrapping_mul(x));
        if let Err(place) = bucket.place_of(p) {
            if bucket.points().len() < BUCKET_SIZE {
                bucket.insert(place, p, 2);
            }
        }
    }
    bucket
}

#[test]
fn all_vertices_separated_and_merged(rt: HostRuntime) {
    let mut first = parabola(&rt, -32, 32);
    assert!(rt; first.points().len() > 1);
    let full = (
        first.is_full(),
        first.vertices(Side::Lower),
        first.vertices(Side::Upper),
    );
    let second = separated(&mut first);
    let halves = (
        first.points().len(),
        second.vertices(Side::Upper),
        is_right(&first) && is_right(&second),
    );
    first.merge(&second);
    let last = first.multiplicities().get(63).copied();
    let whole = (first.points().len(), last, is_right(&first));
    assert!(rt; full == (true, u64::MAX, (1 << 63) + 1));
    assert!(rt; halves == (32, (1 << 31) + 1, true));
    assert!(rt; whole == (64, Some(2), true));
}

/// Whether no point is outwards of an edge on a side, and none in line with it beyond its ends.
fn is_edge_of(side: Side, points: &[Point], from: Point, to: Point) -> bool {
    for point in points {
        let beyond = before(*point, from) || before(to, *point);
        let inwards = orient_on(side, from, to, *point);
        if inwards < 0 || inwards == 0 && beyond {
            return false;
        }
    }
    true
}

/// Whether two bridges are those of all these points.
fn are_bridges_of(points: &[Point], upper: &Counted, lower: &Counted) -> bool {
    is_edge_of(Side::Upper, points, upper.0.0, upper.0.1)
        && is_edge_of(Side::Lower, points, lower.0.0, lower.0.1)
}

/// Whether two bridges are these, and their searches took few turns.
fn are_found(upper: &Counted, lower: &Counted, found: &((Point, Point), (Point, Point))) -> bool {
    upper.0 == found.0 && lower.0 == found.1 && upper.1 <= 12 && lower.1 <= 12
}

/// Whether a search over the slices of two buckets, all of the one before all of the other, finds the bridges of all their points.
fn bridges_are_right(first: &Bucket, second: &Bucket) -> bool
    requires { IsAllBefore (Contains first.now.points) (Contains second.now.points) }
{
    let Some((upper, lower)) = both_found(Slice::new(first), Slice::new(second)) else {
        return false;
    };
    let found = bridges_of(first, second);
    are_bridges_of(first.points(), &upper, &lower)
        && are_bridges_of(second.points(), &upper, &lower)
        && are_found(&upper, &lower, &found)
}

/// Splits a bucket of several points, and returns its second half.
fn separated(bucket: &mut Bucket) -> Bucket
    requires { 1 < length bucket.old.points }
    ensures order { IsAllBefore (Contains bucket.new.points) (Contains result.points) }
    ensures space { length bucket.new.points + length result.points ≤ BUCKET_SIZE }
{
    let _ = bucket.points();
    bucket.split()
}

/// A plain set of the points of a bucket.
fn plain_of(alloc: Global, bucket: &Bucket) -> PlainSet {
    let mut plain = PlainSet::new(alloc, POINT_LIMIT);
    for point in bucket.points() {
        let _added = plain.add(*point);
    }
    plain
}

/// The doubled area of a slice, which is at most 16 forks high.
#[tactic(auto, using(crate::proofs::Sizes::low_size))]
fn area_of(rt: &impl Abort, run: Slice<'_>) -> u128 {
    assert!(rt; run.height() <= 16);
    area2(run)
}

/// Whether the slice of all vertices answers as the plain set of all points: the farthest points, the hull and its area.
fn has_same_hull(
    rt: &impl Abort,
    alloc: Global,
    bucket: &Bucket,
    plain: &PlainSet,
) -> Result<bool, AllocError> {
    let run = Slice::new(bucket);
    let mut alike = area_of(rt, run) == plain.area2();
    for x in -1i64..2 {
        for y in -1i64..2 {
            if let Ok(d) = Direction::new(x, y) {
                alike = Some(extreme(run, d)) == plain.extreme(d) && alike;
            }
        }
    }
    let listed = vertices(alloc, run)?;
    let Ok(expected) = plain.vertices() else {
        return Ok(false);
    };
    Ok(alike && listed.as_slice() == expected.as_slice())
}

/// Whether a point has the same location and tangents in both.
fn has_same_location(bucket: &Bucket, plain: &PlainSet, q: Point) -> bool {
    let run = Slice::new(bucket);
    place(run, q) == plain.place(q) && tangents(run, q) == plain.tangents(q)
}

/// Makes changes as above. Returns whether, after each fourth of them, the bucket's slice answers as a plain set of all points, and, if it is split,
/// its halves have the bridges of all their points.
fn runs_answer_alike(
    rt: &impl Abort,
    alloc: Global,
    changes: u32,
    half: u16,
) -> Result<bool, AllocError> {
    let mut numbers = Numbers::new();
    let mut bucket = Bucket::new(at(rt, 0, 0), 1);
    let mut alike = true;
    for round in 0..changes {
        let p = at(rt, numbers.coordinate(half), numbers.coordinate(half));
        bucket = change(bucket, p, true);
        if round % 4 == 0 {
            alike = answers_alike(rt, alloc, &mut numbers, &bucket, half)? && alike;
        }
        alike = parts_and_merges(&mut bucket) && alike;
    }
    Ok(alike)
}

/// Whether a bucket's slice answers as a plain set of all its points, also about eight random points of a square.
fn answers_alike(
    rt: &impl Abort,
    alloc: Global,
    numbers: &mut Numbers,
    bucket: &Bucket,
    half: u16,
) -> Result<bool, AllocError> {
    let plain = plain_of(alloc, bucket);
    let mut alike = has_same_hull(rt, alloc, bucket, &plain)?;
    for _ in 0..8 {
        let q = at(rt, around(numbers, half), around(numbers, half));
        alike = has_same_location(bucket, &plain, q) && alike;
    }
    Ok(alike)
}

/// A coordinate whose distance from 0 is greater than `half` by 1 at most.
fn around(numbers: &mut Numbers, half: u16) -> i64 {
    numbers.coordinate(half.saturating_add(1))
}

/// Splits a bucket of several points, and merges its halves. Returns whether their bridges are those of all their points, and the bucket is right
/// afterwards.
fn parts_and_merges(bucket: &mut Bucket) -> bool {
    if bucket.points().len() < 2 {
        return true;
    }
    let second = separated(bucket);
    let right = bridges_are_right(bucket, &second);
    bucket.merge(&second);
    is_right(bucket) && right
}

#[test]
fn runs_of_few(rt: HostRuntime) -> Result<(), Fail> {
    let alike = runs_answer_alike(&rt, rt.alloc(), 400, 2);
    assert!(rt; alike?);
    Ok(())
}

#[test]
fn runs_of_many(rt: HostRuntime) -> Result<(), Fail> {
    let alike = runs_answer_alike(&rt, rt.alloc(), 600, 9);
    assert!(rt; alike?);
    Ok(())
}

#[test]
fn runs_far_apart(rt: HostRuntime) -> Result<(), Fail> {
    let alike = runs_answer_alike(&rt, rt.alloc(), 400, 16000);
    assert!(rt; alike?);
    Ok(())
}

#[test]
fn worked_example(rt: HostRuntime) {
    let mut bucket = Bucket::new(at(&rt, 0, 0), 1);
    for (x, y) in [(4, 0), (2, 3), (2, 1)] {
        let p = at(&rt, x, y);
        if let Err(place) = bucket.place_of(p) {
            if bucket.points().len() < BUCKET_SIZE {
                bucket.insert(place, p, 1);
            }
        }
    }
    let chains = (bucket.vertices(Side::Lower), bucket.vertices(Side::Upper));
    let up = Direction::new(0, 1);
    let highest = up.map(|d| extreme(Slice::new(&bucket), d));
    assert!(rt; bucket.points().len() > 1);
    let second = separated(&mut bucket);
    let halves = (bucket.points().len(), second.vertices(Side::Upper));
    let found = both_found(Slice::new(&bucket), Slice::new(&second));
    let bridge = found.map(|(upper, _)| upper.0);
    assert!(rt; chains == (0b1001, 0b1101) && highest == Ok(at(&rt, 2, 3)));
    assert!(rt; halves == (2, 0b11) && bridge == Some((at(&rt, 0, 0), at(&rt, 2, 3))));
}
