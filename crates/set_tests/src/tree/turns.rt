//! The turns of changes, the depth of the farthest point, and the number of halves that a search reads.
ghost use Rattle.std.specs.Prelude.{◌≡◌};
ghost use Rattle.lattice.specs.Plane as plane;
ghost use Rattle.lattice.specs.Plane.{IsWithin, widest_side};

use super::at;
use bridge_search::{Counted, Half, both_bridges, depth_is_unique, upper_bridge_counted};
use hull_set::{AddReply, HullSet, POINT_LIMIT, RemoveReply};
use hull_tree::{HullTree, path_cost_is_unique};
use lattice::{Direction, Point, before};
use std::alloc::Global;
use std::cell::Cell;
use std::process::Abort;
use std::test::Fail;

/// Four points in no line.
const VERTICES: [(i64, i64); 4] = [(0, 0), (1, 5), (2, 1), (3, 7)];

/// The vertex of this number.
fn vertex(rt: &impl Abort, number: usize) -> Point {
    match VERTICES.get(number) {
        Some((x, y)) => at(rt, *x, *y),
        None => panic!(rt; "there are four corners"),
    }
}

/// A tree to which these of the four points were added one after the other.
fn tree_of(rt: &impl Abort, alloc: Global, order: &[usize]) -> HullTree {
    let mut tree = HullTree::new(alloc, POINT_LIMIT);
    let mut all = true;
    for i in order {
        all = tree.add(vertex(rt, *i)) == AddReply::Added && all;
    }
    assert!(rt; all);
    tree
}

/// Whether a point of multiplicity one takes this many turns to be removed, and none to be added and removed a second time before.
fn is_removed_by(tree: &mut HullTree, p: Point, turns: u32) -> bool {
    let again = tree.add_counted(p) == (AddReply::Again(2), 0);
    let left = tree.remove_counted(p) == (RemoveReply::Left(1), 0);
    tree.remove_counted(p) == (RemoveReply::Removed, turns) && again && left
}

/// Whether removing each of these points from the tree of all of them takes this many turns.
fn are_removed_by(rt: &impl Abort, alloc: Global, order: &[usize], turns: u32) -> bool {
    let mut all = true;
    for i in order {
        let mut tree = tree_of(rt, alloc, order);
        all = is_removed_by(&mut tree, vertex(rt, *i), turns) && all;
    }
    all
}

/// Whether two points take no turns to be added and removed.
fn takes_no_turns(tree: &mut HullTree, left: Point, right: Point, between: Point) -> bool {
    let adds = [
        tree.add_counted(left),
        tree.add_counted(right),
        tree.add_counted(right),
    ];
    let removals = [
        tree.remove_counted(between),
        tree.remove_counted(right),
        tree.remove_counted(right),
        tree.remove_counted(left),
        tree.remove_counted(left),
    ];
    adds == [
        (AddReply::Added, 0),
        (AddReply::Added, 0),
        (AddReply::Again(2), 0),
    ] && removals
        == [
            (RemoveReply::Absent, 0),
            (RemoveReply::Left(1), 0),
            (RemoveReply::Removed, 0),
            (RemoveReply::Removed, 0),
            (RemoveReply::Absent, 0),
        ]
}

#[test]
fn turns_of_two_points(rt: HostRuntime) {
    let (left, right, between) = (at(&rt, 0, 0), at(&rt, 4, 0), at(&rt, 2, 0));
    let mut tree = HullTree::new(rt.alloc(), POINT_LIMIT);
    let takes_none = takes_no_turns(&mut tree, left, right, between);
    drop(tree);
    path_cost_is_unique();
    assert!(rt; takes_none);
}

/// Whether the third of three points takes two turns to be added, and each of the three none to be removed.
fn third_takes_two(rt: &impl Abort, alloc: Global, order: [usize; 3]) -> bool {
    let [first, second, third] = order;
    let mut tree = tree_of(rt, alloc, &[first, second]);
    let added = tree.add_counted(vertex(rt, third));
    added == (AddReply::Added, 2) && are_removed_by(rt, alloc, &order, 0)
}

/// Whether each of four points takes two turns to be removed, whichever the fourth one is.
fn fourth_takes_two(rt: &impl Abort, alloc: Global, order: [usize; 3]) -> bool {
    let [first, second, third] = order;
    let mut all = true;
    for fourth in 0usize..4 {
        if fourth != first && fourth != second && fourth != third {
            all = are_removed_by(rt, alloc, &[first, second, third, fourth], 2) && all;
        }
    }
    all
}

/// Whether that holds of all orders that begin with these two.
fn orders_after(rt: &impl Abort, alloc: Global, first: usize, second: usize) -> bool {
    let mut all = true;
    for third in 0usize..4 {
        if first != third && second != third {
            let order = [first, second, third];
            all = third_takes_two(rt, alloc, order) && fourth_takes_two(rt, alloc, order) && all;
        }
    }
    all
}

/// A body of `remove_counted` that always returns no turns fails at four points.
#[test]
fn turns_in_every_order(rt: HostRuntime) {
    for first in 0usize..4 {
        for second in 0usize..4 {
            if first != second {
                let all = orders_after(&rt, rt.alloc(), first, second);
                assert!(rt; all, "after {first} and {second}");
            }
        }
    }
}

#[test]
fn depth_of_the_farthest(rt: HostRuntime) -> Result<(), Fail> {
    let (origin, beyond) = (at(&rt, 0, 0), at(&rt, 4, 0));
    let right = Direction::new(1, 0)?;
    let mut tree = HullTree::new(rt.alloc(), POINT_LIMIT);
    let of_none = tree.extreme_counted(right);
    let first = tree.add(origin);
    let of_one = tree.extreme_counted(right);
    let second = tree.add(beyond);
    let of_two = tree.extreme_counted(right);
    drop(tree);
    assert!(rt; (first, second) == (AddReply::Added, AddReply::Added));
    assert_eq!(rt;
        [of_none, of_one, of_two],
        [(None, 0), (Some(origin), 0), (Some(beyond), 1)]
    );
    Ok(())
}

/// The point of this number in a grid of 32 columns, row by row.
fn in_rows(rt: &impl Abort, number: u32) -> Point {
    at(rt, (number % 32) as i64, (number / 32) as i64)
}

/// Whether 2048 points of the grid are added in 10000 turns each at most.
fn adds_rows(rt: &impl Abort, tree: &mut HullTree) -> bool {
    let mut all = true;
    for k in 0u32..2048 {
        let (reply, turns) = tree.add_counted(in_rows(rt, k));
        all = reply == AddReply::Added && turns <= 10000 && all;
    }
    all
}

/// Whether they are removed so.
fn removes_rows(rt: &impl Abort, tree: &mut HullTree) -> bool {
    let mut all = true;
    for k in 0u32..2048 {
        let (reply, turns) = tree.remove_counted(in_rows(rt, k));
        all = reply == RemoveReply::Removed && turns <= 10000 && all;
    }
    all
}

/// 2048 points of a grid, in rows, are added and taken.
#[test]
fn turns_on_a_grid(rt: HostRuntime) {
    let mut tree = HullTree::new(rt.alloc(), POINT_LIMIT);
    let added = adds_rows(&rt, &mut tree);
    let count = tree.count();
    let removed = removes_rows(&rt, &mut tree);
    let left = tree.count();
    drop(tree);
    assert!(rt; added && removed && [count, left] == [2048, 0]);
}

/// A half that counts in a cell how often it was asked for one of its two halves.
#[derive(Clone, Copy)]
struct WithProgress<'a, H> {
    half: H,
    asked: &'a Cell<u32>,
}

impl<'a, H: Half> Half for WithProgress<'a, H> {
    ghost tree = { λ s. H.tree s.half };

    ghost Fits = { H.Fits };

    fn orient(a: Point, b: Point, c: Point) -> i128
        requires first { H.Fits a }
        requires second { H.Fits b }
        requires third { H.Fits c }
        ensures value { result ≡ plane.orient a b c }
        ensures size { IsWithin widest_side result }
    {
        H::orient(a, b, c)
    }

    fn edge(self) -> Option<(Point, Point)> {
        self.half.edge()
    }

    fn lower(self) -> Option<(Point, Point)> {
        self.half.lower()
    }

    fn left(self) -> Self {
        self.asked.set(self.asked.get().wrapping_add(1));
        WithProgress {
            half: self.half.left(),
            asked: self.asked,
        }
    }

    fn right(self) -> Self {
        self.asked.set(self.asked.get().wrapping_add(1));
        WithProgress {
            half: self.half.right(),
            asked: self.asked,
        }
    }

    fn first(self) -> Point {
        self.half.first()
    }

    fn last(self) -> Point {
        self.half.last()
    }

    fn height(self) -> u32 {
        self.half.height()
    }

    ghost bridged = { λ s. H.bridged s.half };

    ghost low = { λ s. H.low s.half };

    ghost fits = { λ s. H.fits s.half };

    ghost turned_fits = { H.turned_fits };
}

/// The upper bridge and its turns, if the one half ends before the other begins.
fn upper_found<H: Half>(u: H, w: H) -> Option<Counted> {
    if before(u.last(), w.first()) {
        Some(upper_bridge_counted(u, w))
    } else {
        None
    }
}

/// Both bridges and their turns, if the one half ends before the other begins.
pub(crate) fn both_found<H: Half>(u: H, w: H) -> Option<(Counted, Counted)> {
    if before(u.last(), w.first()) {
        Some(both_bridges(u, w))
    } else {
        None
    }
}

/// A tree of the points (k, -k * k), for 512 numbers k in a row, each fork over two halves of one size: the numbers
/// come in the order of their bits read backwards.
fn evenly_halved(rt: &impl Abort, alloc: Global, from: u32) -> HullTree {
    let mut tree = HullTree::new(alloc, POINT_LIMIT);
    let mut all = true;
    for i in 0u32..512 {
        let k = (i.reverse_bits() >> 23).wrapping_add(from) as i64;
        let p = at(rt, k, k.wrapping_mul(k).wrapping_neg());
        all = tree.add(p) == AddReply::Added && all;
    }
    assert!(rt; all);
    tree
}

/// The heights of two trees, the upper bridge of both and how often its search read a half, and both bridges with these numbers; nothing if they are
/// not in order.
type Found = ((u32, u32), (Counted, u32), ((Counted, Counted), u32));

fn found_between(left: &HullTree, right: &HullTree) -> Option<Found> {
    let asked = Cell::new(0u32);
    let u = WithProgress {
        half: left.half()?,
        asked: &asked,
    };
    let w = WithProgress {
        half: right.half()?,
        asked: &asked,
    };
    let upper = upper_found(u, w)?;
    let by_one = asked.get();
    asked.set(0);
    let both = both_found(u, w)?;
    Some((
        (u.height(), w.height()),
        (upper, by_one),
        (both, asked.get()),
    ))
}

/// A body that goes through all points for a bridge, and counts the depths of its ends, fails here.
#[test]
fn halves_asked_for_a_turn(rt: HostRuntime) -> Result<(), Fail> {
    let upper = (at(&rt, 511, -261121), at(&rt, 512, -262144));
    let lower = (at(&rt, 0, 0), at(&rt, 1023, -1046529));
    let left = evenly_halved(&rt, rt.alloc(), 0);
    let right = evenly_halved(&rt, rt.alloc(), 512);
    let found = found_between(&left, &right);
    drop(left);
    drop(right);
    depth_is_unique();
    let (heights, (alone, by_one), (both, by_both)) = found.ok_or("order")?;
    assert!(rt; heights == (9, 9) && by_one <= 36 && by_both <= 72);
    assert_eq!(rt; (alone, both), ((upper, 18), ((upper, 18), (lower, 18))));
    Ok(())
}
