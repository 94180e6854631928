//! Points that are added many at a time, compared with a plain set to which they are added one by one.
use super::both::Sets;
use super::{add_again, at};
use crate::numbers::{Numbers, centred};
use bucket_tree::BucketTree;
use hull_plain::PlainSet;
use hull_set::{AddReply, HullSet, MULTIPLICITY_LIMIT, NoMemory, POINT_LIMIT};
use hull_tree::HullTree;
use lattice::{Direction, Point, before};
use leaf_trees::{Listed, LoadFault};
use std::alloc::{AllocError, Global};
use std::process::Abort;
use std::test::Fail;

/// Returns points of a square grid with this number of lines, some of them more than once.
fn drawn(
    rt: &impl Abort,
    alloc: Global,
    numbers: &mut Numbers,
    count: u32,
    lines: u32,
) -> Result<Vec<Point>, AllocError> {
    let mut points = Vec::new(alloc);
    for _ in 0..count {
        let right = numbers.next().checked_rem(lines).unwrap_or(0);
        let up = numbers.next().checked_rem(lines).unwrap_or(0);
        points.push(at(rt, centred(right, lines / 2), centred(up, lines / 2)))?;
    }
    Ok(points)
}

/// Whether the entries are the points of the plain set in order, each with the same multiplicity.
pub(super) fn are_entries(entries: &[(Point, u32)], plain: &PlainSet) -> bool {
    for i in 0..entries.len() {
        let (point, multiplicity) = entries[i];
        if i > 0 && !before(entries[i - 1].0, point) || plain.multiplicity(point) != multiplicity {
            return false;
        }
    }
    entries.len() == plain.count() as usize
}

/// Extends all three sets this many times, by fewer points than `most`. Returns whether they are alike each time.
fn extends_alike(
    rt: &impl Abort,
    alloc: Global,
    sets: &mut Sets,
    lines: u32,
    rounds: u32,
    most: u32,
) -> Result<bool, Fail> {
    let (q, d) = (at(rt, 3, 2), Direction::new(1, -1)?);
    let mut numbers = Numbers::new();
    let mut alike = true;
    for _ in 0..rounds {
        let count = numbers.next().checked_rem(most).unwrap_or(0);
        sets.extend(&drawn(rt, alloc, &mut numbers, count, lines)?)?;
        alike = sets.has_same_entries()? && sets.are_alike(q, d) && alike;
    }
    Ok(alike)
}

/// Extends three sets so, which are alike each time.
fn extend_on_grid(
    rt: &impl Abort,
    alloc: Global,
    lines: u32,
    rounds: u32,
    most: u32,
) -> Result<(), Fail> {
    let mut sets = Sets::new(alloc);
    let alike = extends_alike(rt, alloc, &mut sets, lines, rounds, most);
    drop(sets);
    assert!(rt; alike?);
    Ok(())
}

#[test]
fn extended_on_a_small_grid(rt: HostRuntime) -> Result<(), Fail> {
    extend_on_grid(&rt, rt.alloc(), 5, 300, 4)
}

#[test]
fn extended_on_a_grid(rt: HostRuntime) -> Result<(), Fail> {
    extend_on_grid(&rt, rt.alloc(), 31, 100, 40)
}

/// Returns a tree of the points (0, 0), (1, 1), (2, 4) and so on, with capacity for no other.
fn full_tree(rt: &impl Abort, alloc: Global, count: u32) -> Result<BucketTree, LoadFault> {
    let mut points = Vec::new(alloc);
    for k in 0..count {
        let x = i64::from(k);
        let Ok(()) = points.push(at(rt, x, x.wrapping_mul(x))) else {
            return Err(LoadFault::NoMemory);
        };
    }
    BucketTree::from_points(alloc, count.clamp(1, POINT_LIMIT), &points)
}

/// Whether an extension by these points is refused, and leaves the tree unchanged.
fn is_refused(tree: &mut BucketTree, points: &[Point]) -> Result<bool, NoMemory> {
    let before = tree.entries()?;
    let fault = tree.extend(points).err();
    let after = tree.entries()?;
    Ok(fault == Some(LoadFault::TooMany) && after.as_slice() == before.as_slice())
}

/// Whether a full tree refuses a new point, and takes two that it contains already.
fn takes_held_points(rt: &impl Abort, tree: &mut BucketTree) -> Result<bool, Fail> {
    let (origin, held, new) = (at(rt, 0, 0), at(rt, 1, 1), at(rt, -1, 7));
    let refused = is_refused(tree, &[held, new])?;
    tree.extend(&[held, origin])?;
    Ok(refused && tree.multiplicity(held) == 2 && tree.add(new) == AddReply::TooMany)
}

/// If there are 40 points, two are added one by one; if there are 2, the tree is built anew. Either way an error leaves the set unchanged.
#[test]
fn extended_past_the_limit(rt: HostRuntime) -> Result<(), Fail> {
    for count in [40u32, 2] {
        let mut tree = full_tree(&rt, rt.alloc(), count)?;
        let takes = takes_held_points(&rt, &mut tree);
        drop(tree);
        assert!(rt; takes?, "of {count} points");
    }
    Ok(())
}

/// Returns a point this many times.
fn repeated(alloc: Global, point: Point, multiplicity: u32) -> Result<Vec<Point>, AllocError> {
    let mut points = Vec::new(alloc);
    for _ in 0..multiplicity {
        points.push(point)?;
    }
    Ok(points)
}

/// Whether a point of a tree can be added up to its greatest multiplicity, and not once more after another point.
fn takes_the_most(rt: &impl Abort, alloc: Global, tree: &mut BucketTree) -> Result<bool, Fail> {
    let (origin, other) = (at(rt, 0, 0), at(rt, 1, 1));
    tree.extend(&repeated(alloc, origin, MULTIPLICITY_LIMIT - 1)?)?;
    let most = tree.multiplicity(origin) == MULTIPLICITY_LIMIT;
    Ok(is_refused(tree, &[other, origin])? && most)
}

#[test]
fn once_more_than_a_point_may_be_held_after_others(rt: HostRuntime) -> Result<(), Fail> {
    for count in [40u32, 2] {
        let mut tree = full_tree(&rt, rt.alloc(), count)?;
        let takes = takes_the_most(&rt, rt.alloc(), &mut tree);
        drop(tree);
        assert!(rt; takes?, "of {count} points");
    }
    Ok(())
}

/// Extends a tree; if memory is refused, it is extended at the second attempt. Returns whether it was unchanged before that.
fn extend_again(tree: &mut HullTree, points: &[Point]) -> Result<bool, Fail> {
    let before = match tree.entries() {
        Ok(entries) => entries,
        Err(NoMemory) => tree.entries()?,
    };
    let Err(fault) = tree.extend(points) else {
        return Ok(true);
    };
    let after = tree.entries()?;
    tree.extend(points)?;
    Ok(fault == LoadFault::NoMemory && after.as_slice() == before.as_slice())
}

/// Whether the points (0, -1) to (59, -1) are added; if memory is refused, at the second attempt.
fn adds_a_row(rt: &impl Abort, tree: &mut HullTree) -> bool {
    let mut all = true;
    for k in 0i64..60 {
        all = add_again(tree, at(rt, k, -1)) && all;
    }
    all
}

/// Extends a tree by four points and by two, one of them already in the set, adds 60 points, and extends it by three. Returns whether each refusal
/// left the set unchanged.
fn extend_three_times(rt: &impl Abort, tree: &mut HullTree) -> Result<bool, Fail> {
    let (apex, twice) = (at(rt, 2, 3), at(rt, 9, 2));
    let four = [apex, at(rt, 0, 0), at(rt, 4, 0), at(rt, 2, 1)];
    let two = [at(rt, 9, 1), apex];
    let three = [twice, at(rt, 9, 3), twice];
    let first = extend_again(tree, &four)?;
    let second = extend_again(tree, &two)?;
    let added = adds_a_row(rt, tree);
    let third = extend_again(tree, &three)?;
    Ok(first && second && third && added)
}

// `rt try --test --fail-alloc N`: N = 1 refuses the sorted list, 2 its entries, 3 those of both, 4 to 6 the boxes of the
// forks, and the further ones those of an extension that builds anew and of one point by point.
#[test]
fn refused_extension(rt: HostRuntime) -> Result<(), Fail> {
    let (apex, twice) = (at(&rt, 2, 3), at(&rt, 9, 2));
    let mut tree = HullTree::new(rt.alloc(), POINT_LIMIT);
    let kept = extend_three_times(&rt, &mut tree);
    let returned = [
        tree.count(),
        tree.multiplicity(twice),
        tree.multiplicity(apex),
    ];
    drop(tree);
    assert!(rt; kept?);
    assert_eq!(rt; returned, [67, 2, 2]);
    Ok(())
}

/// Extends an empty tree by nothing, by a point, and by nothing. Returns whether it was empty before the point.
fn extend_by_one(tree: &mut HullTree, p: Point) -> Result<bool, LoadFault> {
    tree.extend(&[])?;
    let is_empty = tree.root().is_none();
    tree.extend(&[p])?;
    tree.extend(&[])?;
    Ok(is_empty)
}

#[test]
fn nothing_added(rt: HostRuntime) -> Result<(), Fail> {
    let p = at(&rt, 3, 4);
    let mut tree = HullTree::new(rt.alloc(), 1);
    let was_empty = extend_by_one(&mut tree, p);
    let entries = tree.entries();
    drop(tree);
    assert!(rt; was_empty?);
    assert!(rt; entries?.as_slice() == [(p, 1)].as_slice());
    Ok(())
}
