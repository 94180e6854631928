//! Both trees and the plain set under the same changes, among them many collinear points and many with multiplicity two.
use super::at;
use super::extends::are_entries;
use crate::numbers::{Numbers, centred};
use bucket_tree::BucketTree;
use hull_plain::PlainSet;
use hull_set::{AddReply, HullSet, NoMemory, POINT_LIMIT, RemoveReply};
use hull_tree::HullTree;
use lattice::{Direction, Point};
use leaf_trees::{Listed, LoadFault};
use std::alloc::Global;
use std::process::Abort;
use std::test::Fail;

/// The three sets under comparison.
#[derive(Drop)]
pub(super) struct Sets {
    searching: HullTree,
    bucketed: BucketTree,
    plain: PlainSet,
}

impl Sets {
    pub(super) fn new(alloc: Global) -> Sets {
        Sets {
            searching: HullTree::new(alloc, POINT_LIMIT),
            bucketed: BucketTree::new(alloc, POINT_LIMIT),
            plain: PlainSet::new(alloc, POINT_LIMIT),
        }
    }

    /// Extends both trees, and adds the points one by one to the plain set.
    pub(super) fn extend(&mut self, points: &[Point]) -> Result<(), LoadFault> {
        self.searching.extend(points)?;
        self.bucketed.extend(points)?;
        for p in points {
            let _ = self.plain.add(*p);
        }
        Ok(())
    }

    /// Whether both trees have the entries of the plain set.
    pub(super) fn has_same_entries(&self) -> Result<bool, NoMemory> {
        let searching = are_entries(&self.searching.entries()?, &self.plain);
        Ok(are_entries(&self.bucketed.entries()?, &self.plain) && searching)
    }

    /// Makes a change on all three. Whether they answer alike.
    fn change(&mut self, p: Point, adds: bool) -> bool {
        let alike = if adds {
            let reply = self.plain.add(p);
            self.searching.add(p) == reply && self.bucketed.add(p) == reply
        } else {
            let reply = self.plain.remove(p);
            self.searching.remove(p) == reply && self.bucketed.remove(p) == reply
        };
        alike && self.bucketed.multiplicity(p) == self.plain.multiplicity(p)
    }

    /// Whether all three have the same vertices.
    fn has_same_vertices(&self) -> bool {
        let vertices = self.plain.vertices();
        vertices.is_ok()
            && self.bucketed.vertices() == vertices
            && self.searching.vertices() == vertices
    }

    /// Whether `q` has the same location and tangents in all, and the farthest point in this direction is the same.
    fn has_same_location(&self, q: Point, d: Direction) -> bool {
        let (bucketed, plain) = (&self.bucketed, &self.plain);
        bucketed.place(q) == plain.place(q)
            && bucketed.tangents(q) == plain.tangents(q)
            && bucketed.extreme(d) == plain.extreme(d)
    }

    /// Whether the vertices, the area, and the location and tangents of `q` are alike.
    pub(super) fn are_alike(&self, q: Point, d: Direction) -> bool {
        let area = self.plain.area2();
        let areas = self.bucketed.area2() == area && self.searching.area2() == area;
        let count = self.bucketed.count() == self.plain.count();
        areas && count && self.has_same_vertices() && self.has_same_location(q, d)
    }
}

/// A square grid with this number of lines and this mesh.
#[derive(Clone, Copy)]
struct Grid {
    lines: u32,
    apart: i64,
}

impl Grid {
    /// A point of the grid, drawn by chance.
    fn draw(self, numbers: &mut Numbers) -> (i64, i64) {
        let right = numbers.next().checked_rem(self.lines).unwrap_or(0);
        let up = numbers.next().checked_rem(self.lines).unwrap_or(0);
        let x = centred(right, self.lines / 2).wrapping_mul(self.apart);
        (x, centred(up, self.lines / 2).wrapping_mul(self.apart))
    }
}

/// Makes `changes` changes at points of a grid, and compares at regular intervals and at the end. Returns the first change whose answers differed, if
/// any.
fn first_difference(
    rt: &impl Abort,
    sets: &mut Sets,
    grid: Grid,
    d: Direction,
    steps: u32,
    every: u32,
) -> Option<u32> {
    let origin = at(rt, 0, 0);
    let mut numbers = Numbers::new();
    for step in 0..steps {
        let (x, y) = grid.draw(&mut numbers);
        let (p, q) = (at(rt, x, y), at(rt, y, x));
        let adds = numbers.next() % 2 == 0;
        let alike = sets.change(p, adds);
        if !alike || step.checked_rem(every) == Some(0) && !sets.are_alike(q, d) {
            return Some(step);
        }
    }
    if sets.are_alike(origin, d) {
        None
    } else {
        Some(steps)
    }
}

/// All three answer this many changes alike.
fn change_on_grid(
    rt: &impl Abort,
    alloc: Global,
    grid: Grid,
    steps: u32,
    every: u32,
) -> Result<(), Fail> {
    let d = Direction::new(1, -1)?;
    let mut sets = Sets::new(alloc);
    let differs = first_difference(rt, &mut sets, grid, d, steps, every);
    drop(sets);
    assert_eq!(rt; differs, None);
    Ok(())
}

#[test]
fn each_of_8000_changes_of_25_points(rt: HostRuntime) -> Result<(), Fail> {
    let grid = Grid { lines: 5, apart: 1 };
    change_on_grid(&rt, rt.alloc(), grid, 8000, 1)
}

#[test]
fn alike_over_30000_changes(rt: HostRuntime) -> Result<(), Fail> {
    let grid = Grid {
        lines: 31,
        apart: 1,
    };
    change_on_grid(&rt, rt.alloc(), grid, 30000, 50)
}

// Some points are near, and some are not: those of the grid's outermost lines.
#[test]
fn alike_across_the_near_limit(rt: HostRuntime) -> Result<(), Fail> {
    let grid = Grid {
        lines: 31,
        apart: 80000000,
    };
    change_on_grid(&rt, rt.alloc(), grid, 8000, 20)
}

/// Whether 64 points of a parabola are added to both trees.
fn adds_a_parabola(rt: &impl Abort, bucketed: &mut BucketTree, searching: &mut HullTree) -> bool {
    let mut all = true;
    for k in 0i64..64 {
        let p = at(rt, k, k.wrapping_mul(k));
        all = bucketed.add(p) == AddReply::Added && all;
        all = searching.add(p) == AddReply::Added && all;
    }
    all
}

// A body that searches each bridge takes as many turns as the other tree.
#[test]
fn inner_points_take_few_turns(rt: HostRuntime) {
    let inner = at(&rt, 30, 1500);
    let mut bucketed = BucketTree::new(rt.alloc(), POINT_LIMIT);
    let mut searching = HullTree::new(rt.alloc(), POINT_LIMIT);
    let all = adds_a_parabola(&rt, &mut bucketed, &mut searching);
    let (added, few) = bucketed.add_counted(inner);
    let (_, many) = searching.add_counted(inner);
    let (removed, fewer) = bucketed.remove_counted(inner);
    let (_, more) = searching.remove_counted(inner);
    drop(bucketed);
    drop(searching);
    assert!(rt; all && added == AddReply::Added && removed == RemoveReply::Removed);
    assert!(rt;
        few < many && fewer < more,
        "{few} and {many}, {fewer} and {more} turns"
    );
}
