//! The set over buckets and the plain set under the same changes, among them many collinear points and many with multiplicity two.
use crate::numbers::{Numbers, centred};
use bucket_tree::BucketTree;
use hull_plain::PlainSet;
use hull_set::{AddReply, HullSet, MULTIPLICITY_LIMIT, NoMemory, POINT_LIMIT, RemoveReply};
use lattice::{Direction, Point};
use leaf_trees::{Listed, LoadFault};
use std::alloc::Global;
use std::process::Abort;
use std::test::Fail;

fn at(rt: &impl Abort, x: i64, y: i64) -> Point {
    match Point::new(x, y) {
        Ok(point) => point,
        Err(_) => panic!(rt; "{x} {y} is no point"),
    }
}

/// Both sets.
#[derive(Drop)]
struct Sets {
    tree: BucketTree,
    plain: PlainSet,
}

/// Whether the entries list the set.
fn are_entries(entries: &[(Point, u32)], plain: &PlainSet) -> bool {
    let mut alike = entries.len() == plain.count() as usize;
    for (p, multiplicity) in entries {
        alike = plain.multiplicity(*p) == *multiplicity && alike;
    }
    alike
}

/// How many entries are before the first one whose point is not less than `start`.
fn count_before(all: &[(Point, u32)], start: Point) -> usize {
    for k in 0..all.len() {
        if all[k].0 >= start {
            return k;
        }
    }
    all.len()
}

/// Whether `rest` is the first five entries of `all` from `start` on.
fn are_from(all: &[(Point, u32)], rest: &[(Point, u32)], start: Point) -> bool {
    let place = count_before(all, start);
    let mut alike = rest.len() == all.len().saturating_sub(place).min(5);
    for k in 0..rest.len() {
        alike = all.get(place.wrapping_add(k)) == Some(&rest[k]) && alike;
    }
    alike
}

impl Sets {
    fn new(alloc: Global) -> Sets {
        Sets {
            tree: BucketTree::new(alloc, POINT_LIMIT),
            plain: PlainSet::new(alloc, POINT_LIMIT),
        }
    }

    /// Makes a change on both, and counts the turns. Whether they answer alike.
    fn change(&mut self, p: Point, adds: bool, most: &mut u32) -> bool {
        let (alike, turns) = if adds {
            let reply = self.plain.add(p);
            let (returned, turns) = self.tree.add_counted(p);
            (returned == reply, turns)
        } else {
            let reply = self.plain.remove(p);
            let (returned, turns) = self.tree.remove_counted(p);
            (returned == reply, turns)
        };
        *most = (*most).max(turns);
        alike && self.tree.multiplicity(p) == self.plain.multiplicity(p)
    }

    /// Whether all questions are answered alike.
    fn are_alike(&self, q: Point, d: Direction) -> bool {
        let (tree, plain) = (&self.tree, &self.plain);
        let vertices = plain.vertices();
        vertices.is_ok()
            && tree.vertices() == vertices
            && tree.area2() == plain.area2()
            && tree.count() == plain.count()
            && tree.place(q) == plain.place(q)
            && tree.tangents(q) == plain.tangents(q)
            && tree.extreme(d) == plain.extreme(d)
    }

    /// Whether the entries are alike, all at once and from a point on.
    fn have_same_entries(&self, start: Point) -> Result<bool, NoMemory> {
        let all = self.tree.entries()?;
        let rest = self.tree.entries_from(start, 5)?;
        Ok(are_entries(&all, &self.plain) && are_from(&all, &rest, start))
    }
}

/// Returns a random point of a grid with this number of lines and this mesh, the point with its coordinates exchanged, and a direction.
fn drawn(
    rt: &impl Abort,
    numbers: &mut Numbers,
    lines: u32,
    apart: i64,
) -> Result<(Point, Point, Direction), Fail> {
    let (right, up) = (numbers.below(lines), numbers.below(lines));
    let x = centred(right, lines / 2).wrapping_mul(apart);
    let y = centred(up, lines / 2).wrapping_mul(apart);
    let d = Direction::new(1 - 2 * i64::from(up % 2), 2 - i64::from(right % 4))?;
    Ok((at(rt, x, y), at(rt, y, x), d))
}

/// Whether a step adds: six of eight do while the set grows, and two of eight while it shrinks.
fn is_to_add(numbers: &mut Numbers, step: u32, steps: u32) -> bool {
    let in_half = step.checked_rem(steps / 2 + 1).unwrap_or(0);
    let adding = if in_half < steps / 4 { 6 } else { 2 };
    numbers.next() % 8 < adding
}

/// Makes `steps` changes at points of a grid, more of them additions while the set grows, and compares the answers at regular intervals. Returns the
/// first change whose answers differed, if any, and the most turns of a change.
fn first_difference(
    rt: &impl Abort,
    sets: &mut Sets,
    lines: u32,
    apart: i64,
    steps: u32,
    every: u32,
) -> Result<(Option<u32>, u32), Fail> {
    let mut numbers = Numbers::new();
    let mut most = 0;
    for step in 0..steps {
        let (p, q, d) = drawn(rt, &mut numbers, lines, apart)?;
        let adds = is_to_add(&mut numbers, step, steps);
        let mut alike = sets.change(p, adds, &mut most);
        if step.checked_rem(every) == Some(0) {
            alike = sets.are_alike(q, d) && sets.have_same_entries(q)? && alike;
        }
        if !alike {
            return Ok((Some(step), most));
        }
    }
    Ok((None, most))
}

/// Both sets answer this many changes alike.
fn change_on_grid(
    rt: &impl Abort,
    alloc: Global,
    lines: u32,
    apart: i64,
    steps: u32,
    every: u32,
) -> Result<(), Fail> {
    let mut sets = Sets::new(alloc);
    let (differs, most) = first_difference(rt, &mut sets, lines, apart, steps, every)?;
    drop(sets);
    assert_eq!(rt; differs, None);
    assert!(rt; most <= 10000);
    Ok(())
}

#[test]
fn each_of_8000_changes_of_25_points(rt: HostRuntime) -> Result<(), Fail> {
    change_on_grid(&rt, rt.alloc(), 5, 1, 8000, 1)
}

#[test]
fn each_of_12000_changes_of_400_points(rt: HostRuntime) -> Result<(), Fail> {
    change_on_grid(&rt, rt.alloc(), 20, 1, 12000, 3)
}

#[test]
fn alike_over_20000_changes(rt: HostRuntime) -> Result<(), Fail> {
    change_on_grid(&rt, rt.alloc(), 101, 1, 20000, 100)
}

#[test]
fn alike_over_many_far_points(rt: HostRuntime) -> Result<(), Fail> {
    change_on_grid(&rt, rt.alloc(), 2001, 500000000, 10000, 100)
}

/// Adds or removes 1200 points of a parabola, each `factor` places after the one before, modulo 1201. Whether both sets answer
/// alike, also to all questions after each 40.
fn changes_parabola(
    rt: &impl Abort,
    sets: &mut Sets,
    d: Direction,
    factor: u64,
    adds: bool,
) -> bool {
    let mut most = 0;
    let mut alike = true;
    for k in 0u64..1200 {
        let x = (k.wrapping_mul(factor) % 1201) as i64 - 600;
        let p = at(rt, x, x.wrapping_mul(x));
        alike = sets.change(p, adds, &mut most) && alike;
        if k % 40 == 0 {
            alike = sets.are_alike(at(rt, x, x + 7), d) && alike;
        }
    }
    alike
}

// Every point is a vertex, and then none is.
#[test]
fn parabola_comes_and_goes(rt: HostRuntime) -> Result<(), Fail> {
    let mut sets = Sets::new(rt.alloc());
    let d = Direction::new(1, -3)?;
    let come = changes_parabola(&rt, &mut sets, d, 577, true);
    let go = changes_parabola(&rt, &mut sets, d, 431, false);
    drop(sets);
    assert!(rt; come && go);
    Ok(())
}

/// Returns random points of a grid with this number of lines.
fn drawn_points(
    rt: &impl Abort,
    alloc: Global,
    count: u32,
    lines: u32,
) -> Result<Vec<Point>, Fail> {
    let mut numbers = Numbers::new();
    let mut points = Vec::new(alloc);
    for _ in 0..count {
        let x = centred(numbers.below(lines), lines / 2);
        let y = centred(numbers.below(lines), lines / 2);
        points.push(at(rt, x, y))?;
    }
    Ok(points)
}

/// Makes a plain set of these points; the multiplicity of each is the number of times it is among them.
fn plain_of(alloc: Global, points: &[Point]) -> PlainSet {
    let mut plain = PlainSet::new(alloc, POINT_LIMIT);
    for p in points {
        let _ = plain.add(*p);
    }
    plain
}

/// An empty set extended by the first seven eighths of these points, and then by the others.
fn extended_twice(alloc: Global, points: &[Point]) -> Result<BucketTree, LoadFault> {
    let mut extended = BucketTree::new(alloc, POINT_LIMIT);
    let (front, back) = points.split_at(points.len() / 8 * 7);
    extended.extend(front)?;
    extended.extend(back)?;
    Ok(extended)
}

/// Whether a tree has these entries, and the vertices of the plain set.
fn is_alike(
    tree: &BucketTree,
    entries: &[(Point, u32)],
    plain: &PlainSet,
) -> Result<bool, NoMemory> {
    Ok(tree.entries()?.as_slice() == entries && tree.vertices() == plain.vertices())
}

/// Loads points at once, in two parts and from their entries. Returns whether each of these sets is the plain set to which they were added one by
/// one.
fn loads_alike(rt: &impl Abort, alloc: Global, count: u32, lines: u32) -> Result<bool, Fail> {
    let points = drawn_points(rt, alloc, count, lines)?;
    let plain = plain_of(alloc, &points);
    let tree = BucketTree::from_points(alloc, POINT_LIMIT, &points)?;
    let extended = extended_twice(alloc, &points)?;
    let entries = tree.entries()?;
    let again = again_of(alloc, &tree)?;
    let vertices = plain.vertices().is_ok();
    Ok(
        vertices
            && are_entries(&entries, &plain)
            && is_alike(&tree, &entries, &plain)?
            && is_alike(&extended, &entries, &plain)?
            && is_alike(&again, &entries, &plain)?,
    )
}

/// A set made of the entries of another.
fn again_of(alloc: Global, tree: &BucketTree) -> Result<BucketTree, NoMemory> {
    let entries = tree.entries()?;
    if entries.len() > POINT_LIMIT as usize {
        return Err(NoMemory);
    }
    BucketTree::from_entries(alloc, POINT_LIMIT, &entries)
}

#[test]
fn loads(rt: HostRuntime) -> Result<(), Fail> {
    for (count, lines) in [(1, 1), (64, 9), (65, 1001), (500, 12), (5000, 3001)] {
        assert!(rt; loads_alike(&rt, rt.alloc(), count, lines)?);
    }
    Ok(())
}

// A refused point leaves the set as it was.
#[test]
fn too_many(rt: HostRuntime) -> Result<(), Fail> {
    let mut tree = BucketTree::new(rt.alloc(), 2);
    let (a, b, c) = (at(&rt, 0, 0), at(&rt, 1, 5), at(&rt, 2, 1));
    assert!(rt; tree.add(a) == AddReply::Added && tree.add(b) == AddReply::Added);
    assert!(rt; tree.add(c) == AddReply::TooMany && tree.add(b) == AddReply::Again(2));
    assert!(rt; tree.extend(&[a, c]) == Err(LoadFault::TooMany));
    assert!(rt; tree.multiplicity(a) == 1 && tree.multiplicity(b) == 2 && tree.count() == 2);
    let most = BucketTree::from_entries(rt.alloc(), 2, &[(a, MULTIPLICITY_LIMIT)])?;
    let mut full = most;
    assert!(rt; full.add(a) == AddReply::TooMany && full.count() == 1);
    assert!(rt; tree.remove(b) == RemoveReply::Left(1) && tree.remove(c) == RemoveReply::Absent);
    Ok(())
}

/// Asks for a type whose values may go to another thread.
fn goes_to_any_thread<H: Send>(_set: &H) {}

// The wrappers of the libraries for C send a hull to another thread, which no program in C can ask the compiler about.
#[test]
fn a_tree_may_go_to_any_thread(rt: HostRuntime) {
    let tree = BucketTree::new(rt.alloc(), POINT_LIMIT);
    goes_to_any_thread(&tree);
    let count = tree.count();
    drop(tree);
    assert_eq!(rt; count, 0);
}
