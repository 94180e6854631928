//! A tree over buckets under random changes, compared with a plain set: few points and many, asked in all directions.
use crate::numbers::Numbers;
use bucket_tree::BucketTree;
use hull_plain::PlainSet;
use hull_set::{AddReply, HullSet, POINT_LIMIT};
use lattice::{Direction, Point};
use std::alloc::Global;
use std::process::Abort;
use std::test::Fail;

fn at(rt: &impl Abort, x: i64, y: i64) -> Point {
    match Point::new(x, y) {
        Ok(point) => point,
        Err(_) => panic!(rt; "{x} {y} is no point"),
    }
}

/// A tree and a plain set with the same points.
#[derive(Drop)]
struct Both {
    tree: BucketTree,
    plain: PlainSet,
}

impl Both {
    /// Both sets with one point.
    fn new(rt: &impl Abort, alloc: Global, first: Point) -> Both {
        let mut both = Both {
            tree: BucketTree::new(alloc, POINT_LIMIT),
            plain: PlainSet::new(alloc, POINT_LIMIT),
        };
        let added = (both.tree.add(first), both.plain.add(first));
        assert!(rt; added == (AddReply::Added, AddReply::Added));
        both
    }

    /// Adds `p` once, and returns whether both answer alike, and the turns.
    fn raise(&mut self, p: Point) -> (bool, u32) {
        let (reply, turns) = self.tree.add_counted(p);
        (self.plain.add(p) == reply, turns)
    }

    /// Removes `p` once, and returns whether both answer alike, and the turns.
    fn lower(&mut self, p: Point) -> (bool, u32) {
        let (reply, turns) = self.tree.remove_counted(p);
        (self.plain.remove(p) == reply, turns)
    }

    fn change(&mut self, p: Point, adds: bool) -> (bool, u32) {
        if adds { self.raise(p) } else { self.lower(p) }
    }

    /// Whether both answer alike, and `p` has the same multiplicity in both.
    fn are_alike(&self, p: Point, q: Point) -> bool {
        let multiplicity = self.tree.multiplicity(p) == self.plain.multiplicity(p);
        multiplicity && answer_alike(&self.tree, &self.plain, q)
    }
}

/// Whether both have the same point farthest in each direction whose components are at most 2.
fn have_same_extremes(tree: &BucketTree, plain: &PlainSet) -> bool {
    let mut alike = true;
    for x in -2i64..3 {
        for y in -2i64..3 {
            if let Ok(d) = Direction::new(x, y) {
                alike = tree.extreme(d) == plain.extreme(d) && alike;
            }
        }
    }
    alike
}

/// Whether both answer alike.
fn answer_alike(tree: &BucketTree, plain: &PlainSet, q: Point) -> bool {
    let vertices = plain.vertices();
    vertices.is_ok()
        && tree.vertices() == vertices
        && tree.count() == plain.count()
        && tree.area2() == plain.area2()
        && tree.place(q) == plain.place(q)
        && tree.tangents(q) == plain.tangents(q)
        && have_same_extremes(tree, plain)
}

/// Returns a random point of a square, and the one with its coordinates exchanged.
fn drawn(rt: &impl Abort, numbers: &mut Numbers, half: u16) -> (Point, Point) {
    let x = numbers.coordinate(half);
    let y = numbers.coordinate(half);
    (at(rt, x, y), at(rt, y.wrapping_add(1), x))
}

/// Whether the change of a round adds: three of four do in every other quarter of the changes, and one of four in the others.
fn is_to_add(numbers: &mut Numbers, round: u32, changes: u32) -> bool {
    let in_half = round.checked_rem(changes / 2).unwrap_or(0);
    let adding = if in_half < changes / 4 { 3 } else { 1 };
    numbers.next() % 4 < adding
}

/// Makes `changes` changes at points of a square, also on a plain set, and compares both at regular intervals. Returns whether they answer alike, and
/// the most turns of a change.
fn changes_alike(
    rt: &impl Abort,
    alloc: Global,
    changes: u32,
    half: u16,
    each: u32,
) -> (bool, u32) {
    let mut numbers = Numbers::new();
    let mut both = Both::new(rt, alloc, at(rt, 0, 0));
    let (mut alike, mut most) = (true, 0);
    for round in 0..changes {
        let (p, q) = drawn(rt, &mut numbers, half);
        let adds = is_to_add(&mut numbers, round, changes);
        let (same, turns) = both.change(p, adds);
        most = most.max(turns);
        alike = same && alike;
        if round.checked_rem(each) == Some(0) {
            alike = both.are_alike(p, q) && alike;
        }
    }
    (alike, most)
}

#[test]
fn nodes_of_few(rt: HostRuntime) -> Result<(), Fail> {
    let (alike, most) = changes_alike(&rt, rt.alloc(), 20000, 6, 3);
    assert!(rt; alike);
    assert!(rt; most <= 10000);
    Ok(())
}

#[test]
fn nodes_of_many(rt: HostRuntime) -> Result<(), Fail> {
    let (alike, most) = changes_alike(&rt, rt.alloc(), 40000, 15000, 50);
    assert!(rt; alike);
    assert!(rt; most <= 10000);
    assert!(rt; most > 0);
    Ok(())
}
