//! A set that removes points late and the plain set, under the same calls.
use super::numbers::{Numbers, centred};
use deferring_set::DeferringSet;
use hull_plain::PlainSet;
use hull_set::{Call, HullSet, apply};
use lattice::{Direction, Point};
use std::process::Abort;

/// Makes a point, which has to be in range.
fn at(rt: &impl Abort, x: i64, y: i64) -> Point {
    match Point::new(x, y) {
        Ok(point) => point,
        Err(_) => panic!(rt; "{x} {y} is no point"),
    }
}

/// Makes a call on both. Returns whether they answer alike, and have the same number of points afterwards.
fn answer_alike(late: &mut DeferringSet<PlainSet>, plain: &mut PlainSet, call: &Call) -> bool {
    late.apply(call) == apply(plain, call) && late.count() == plain.count()
}

/// Adds or removes a point on both. Returns whether they answer alike, and the point has the same multiplicity afterwards.
fn change_alike(
    late: &mut DeferringSet<PlainSet>,
    plain: &mut PlainSet,
    p: Point,
    adds: bool,
) -> bool {
    let call = if adds { Call::Add(p) } else { Call::Remove(p) };
    let alike = answer_alike(late, plain, &call);
    alike && late.multiplicity(p) == plain.multiplicity(p)
}

/// Asks both all questions. Returns whether they answer alike.
fn has_same_answers(late: &mut DeferringSet<PlainSet>, plain: &mut PlainSet, q: Point) -> bool {
    let mut alike = answer_alike(late, plain, &Call::Vertices);
    alike = answer_alike(late, plain, &Call::Area) && alike;
    alike = answer_alike(late, plain, &Call::Count) && alike;
    alike = answer_alike(late, plain, &Call::Place(q)) && alike;
    alike = answer_alike(late, plain, &Call::Tangents(q)) && alike;
    match Direction::new(q.x(), 7) {
        Ok(d) => answer_alike(late, plain, &Call::Extreme(d)) && alike,
        Err(_) => false,
    }
}

/// Makes 20,000 changes on both at points of a square, half of them at the point of the change before, and asks all questions after each `pause` of
/// them. Returns the first change that they answered differently, if any.
fn first_difference(
    rt: &impl Abort,
    late: &mut DeferringSet<PlainSet>,
    plain: &mut PlainSet,
    pause: u32,
) -> Option<u32> {
    let mut numbers = Numbers::new();
    let mut p = at(rt, 0, 0);
    for step in 0u32..20000 {
        if numbers.next() % 2 == 0 {
            let x = centred(numbers.next() % 15, 7);
            p = at(rt, x, centred(numbers.next() % 15, 7));
        }
        let adds = numbers.next() % 2 == 0;
        let mut alike = change_alike(late, plain, p, adds);
        if step.checked_rem(pause) == Some(0) {
            alike = has_same_answers(late, plain, p) && alike;
        }
        if !alike {
            return Some(step);
        }
    }
    None
}

/// Makes these changes on sets with this limit, which answer alike.
fn change_with_limit(rt: &impl Abort, alloc: std::alloc::Global, limit: u32, pause: u32) {
    if limit == 0 || limit > hull_set::POINT_LIMIT {
        panic!(rt; "{limit} is no limit");
    }
    let mut late = DeferringSet::new(PlainSet::new(alloc, limit));
    let mut plain = PlainSet::new(alloc, limit);
    let differs = first_difference(rt, &mut late, &mut plain, pause);
    let left = late.into_set();
    let same = left.vertices() == plain.vertices() && left.count() == plain.count();
    drop(left);
    drop(plain);
    assert_eq!(rt; differs, None);
    assert!(rt; same);
}

#[test]
fn deferred_removals_at_the_limit(rt: HostRuntime) {
    change_with_limit(&rt, rt.alloc(), 40, 3);
    change_with_limit(&rt, rt.alloc(), 40, 1000);
}

// (more points are removed between two questions than may wait)
#[test]
fn deferred_removals_of_many_points(rt: HostRuntime) {
    change_with_limit(&rt, rt.alloc(), 1000, 2000);
}
