//! The calls of a set, on the plain set and on the tree that searches each bridge.
ghost use Rattle.std.specs.Prelude.{◌≤◌};

use crate::plane::{at, toward};
use hull_plain::{AddReply, HullSet, NoMemory, Place, PlainSet, RemoveReply};
use hull_tree::HullTree;
use lattice::Point;
use std::alloc::Global;
use std::process::Abort;
use std::test::Fail;

/// Adds points in their order. Returns whether each of them was new and was added.
pub(super) fn adds<S: HullSet>(set: &mut S, points: &[(i64, i64)]) -> Result<bool, Fail> {
    let mut all = true;
    for (x, y) in points {
        let reply: AddReply = set.add(at(*x, *y)?);
        all = all && reply == AddReply::Added;
    }
    Ok(all)
}

/// Whether these are the vertices.
pub(super) fn has_vertices<S: HullSet>(set: &S, wanted: &[(i64, i64)]) -> Result<bool, Fail> {
    let vertices: Result<Vec<Point>, NoMemory> = set.vertices();
    let found = vertices?;
    let mut same = found.len() == wanted.len();
    for (p, (x, y)) in found.iter().zip(wanted) {
        same = same && p.x() == *x && p.y() == *y;
    }
    Ok(same)
}

// Returns the location of the point.
fn place_of<S: HullSet>(set: &S, x: i64, y: i64) -> Result<Place, Fail> {
    let place: Place = set.place(at(x, y)?);
    Ok(place)
}

// Returns the farthest point.
fn farthest<S: HullSet>(set: &S, dx: i64, dy: i64) -> Result<Option<(i64, i64)>, Fail> {
    let found: Option<Point> = set.extreme(toward(dx, dy)?);
    Ok(found.map(|p| (p.x(), p.y())))
}

/// The coordinates of two points.
type Ends = ((i64, i64), (i64, i64));

// The points where the tangents touch.
fn touched<S: HullSet>(set: &S, x: i64, y: i64) -> Result<Option<Ends>, Fail> {
    let found: Option<(Point, Point)> = set.tangents(at(x, y)?);
    Ok(found.map(|(l, r)| ((l.x(), l.y()), (r.x(), r.y()))))
}

fn empty_set<S: HullSet>(rt: &impl Abort, set: &S) -> Result<(), Fail> {
    let area: u128 = set.area2();
    let count: u32 = set.count();
    assert_eq!(rt; farthest(set, 1, 0)?, None);
    assert_eq!(rt; (area, count), (0, 0));
    assert!(rt; has_vertices(set, &[])?);
    assert_eq!(rt; place_of(set, 0, 0)?, Place::Outside);
    assert_eq!(rt; touched(set, 0, 0)?, None);
    Ok(())
}

fn one_point<S: HullSet>(rt: &impl Abort, set: &mut S) -> Result<(), Fail> {
    let p = at(3, 4)?;
    let first: AddReply = set.add(p);
    let again: AddReply = set.add(p);
    let multiplicity: u32 = set.multiplicity(p);
    assert_eq!(rt;
        (first, again, multiplicity),
        (AddReply::Added, AddReply::Again(2), 2)
    );
    assert!(rt; has_vertices(set, &[(3, 4)])?);
    assert_eq!(rt; place_of(set, 3, 4)?, Place::On);
    assert_eq!(rt; set.area2(), 0);
    Ok(())
}

fn diagonal<S: HullSet>(rt: &impl Abort, set: &mut S) -> Result<(), Fail> {
    assert!(rt; adds(set, &[(0, 0), (1, 1), (2, 2)])?);
    assert!(rt; has_vertices(set, &[(0, 0), (2, 2)])?);
    assert_eq!(rt; place_of(set, 1, 1)?, Place::On);
    assert_eq!(rt; place_of(set, 3, 3)?, Place::Outside);
    let removed: RemoveReply = set.remove(at(2, 2)?);
    assert_eq!(rt; removed, RemoveReply::Removed);
    assert!(rt; has_vertices(set, &[(0, 0), (1, 1)])?);
    assert_eq!(rt; set.remove(at(7, 7)?), RemoveReply::Absent);
    Ok(())
}

fn left_wall<S: HullSet>(rt: &impl Abort, set: &mut S) -> Result<(), Fail> {
    assert!(rt; adds(set, &[(0, 0), (0, 1), (0, 2), (1, 3), (2, 3)])?);
    assert!(rt; has_vertices(set, &[(0, 0), (2, 3), (1, 3), (0, 2)])?);
    assert_eq!(rt; set.area2(), 5);
    assert_eq!(rt; place_of(set, 0, 1)?, Place::On);
    Ok(())
}

// The doubled area of the square between two numbers, the least and the greatest of a range.
fn range_corners<S: HullSet>(
    rt: &impl Abort,
    set: &mut S,
    least: i64,
    size: i64,
) -> Result<u128, Fail> {
    assert!(rt;
        adds(
            set,
            &[(least, least), (size, least), (size, size), (least, size)]
        )?
    );
    assert_eq!(rt; farthest(set, 1, 1)?, Some((size, size)));
    assert_eq!(rt; place_of(set, 0, 0)?, Place::Inside);
    Ok(set.area2())
}

fn square<S: HullSet>(rt: &impl Abort, set: &mut S) -> Result<(), Fail> {
    assert!(rt; adds(set, &[(0, 0), (2, 0), (2, 2), (0, 2)])?);
    assert_eq!(rt; farthest(set, 0, 1)?, Some((0, 2)));
    assert_eq!(rt; farthest(set, 1, 0)?, Some((2, 0)));
    assert_eq!(rt; touched(set, 4, 1)?, Some(((2, 0), (2, 2))));
    assert_eq!(rt; touched(set, 4, 0)?, Some(((0, 0), (2, 2))));
    assert_eq!(rt; touched(set, 1, 1)?, None);
    assert_eq!(rt; touched(set, 1, 0)?, None);
    Ok(())
}

fn two_points<S: HullSet>(rt: &impl Abort, set: &mut S) -> Result<(), Fail> {
    assert!(rt; adds(set, &[(0, 0), (1, 0)])?);
    assert_eq!(rt; touched(set, 3, 0)?, Some(((0, 0), (0, 0))));
    Ok(())
}

fn uncovered_by_removal<S: HullSet>(rt: &impl Abort, set: &mut S) -> Result<(), Fail> {
    assert!(rt; adds(set, &[(0, 0), (4, 0), (2, 3), (2, 1)])?);
    assert_eq!(rt; set.area2(), 12);
    assert_eq!(rt; place_of(set, 2, 1)?, Place::Inside);
    assert_eq!(rt; set.remove(at(2, 3)?), RemoveReply::Removed);
    assert!(rt; has_vertices(set, &[(0, 0), (4, 0), (2, 1)])?);
    assert_eq!(rt; set.area2(), 4);
    Ok(())
}

fn limit_two<S: HullSet>(rt: &impl Abort, set: &mut S) -> Result<(), Fail> {
    let limit: u32 = set.limit();
    assert_eq!(rt; limit, 2);
    assert!(rt; adds(set, &[(0, 0), (1, 1)])?);
    assert_eq!(rt; set.add(at(2, 2)?), AddReply::TooMany);
    assert_eq!(rt; set.add(at(1, 1)?), AddReply::Again(2));
    assert_eq!(rt; set.remove(at(1, 1)?), RemoveReply::Left(1));
    assert_eq!(rt; set.remove(at(1, 1)?), RemoveReply::Removed);
    Ok(())
}

fn plain(alloc: Global, limit: u32) -> PlainSet
    requires { (1 ≤ limit) × (limit ≤ 1048576) }
{
    let set: PlainSet = PlainSet::new(alloc, limit);
    set
}

fn tree(alloc: Global, limit: u32) -> HullTree
    requires { (1 ≤ limit) × (limit ≤ 1048576) }
{
    let set: HullTree = HullTree::new(alloc, limit);
    set
}

#[test]
fn rows_of_the_plain_set(rt: HostRuntime) -> Result<(), Fail> {
    let alloc = rt.alloc();
    empty_set(&rt, &plain(alloc, 1048576))?;
    one_point(&rt, &mut plain(alloc, 8))?;
    diagonal(&rt, &mut plain(alloc, 8))?;
    left_wall(&rt, &mut plain(alloc, 8))?;
    assert_eq!(rt;
        range_corners(&rt, &mut plain(alloc, 8), -1048576, 1048576)?,
        8796093022208
    );
    assert_eq!(rt;
        range_corners(&rt, &mut plain(alloc, 8), -1099511627776, 1099511627776)?,
        9671406556917033397649408
    );
    square(&rt, &mut plain(alloc, 8))?;
    two_points(&rt, &mut plain(alloc, 8))?;
    uncovered_by_removal(&rt, &mut plain(alloc, 8))?;
    limit_two(&rt, &mut plain(alloc, 2))?;
    Ok(())
}

#[test]
fn rows_of_the_tree(rt: HostRuntime) -> Result<(), Fail> {
    let alloc = rt.alloc();
    empty_set(&rt, &tree(alloc, 1048576))?;
    one_point(&rt, &mut tree(alloc, 8))?;
    diagonal(&rt, &mut tree(alloc, 8))?;
    left_wall(&rt, &mut tree(alloc, 8))?;
    assert_eq!(rt;
        range_corners(&rt, &mut tree(alloc, 8), -1048576, 1048576)?,
        8796093022208
    );
    assert_eq!(rt;
        range_corners(&rt, &mut tree(alloc, 8), -1099511627776, 1099511627776)?,
        9671406556917033397649408
    );
    square(&rt, &mut tree(alloc, 8))?;
    two_points(&rt, &mut tree(alloc, 8))?;
    uncovered_by_removal(&rt, &mut tree(alloc, 8))?;
    limit_two(&rt, &mut tree(alloc, 2))?;
    Ok(())
}

// Adds a second point. If memory for it is refused, the set is unchanged, and the next attempt adds it.
fn second_point<S: HullSet>(rt: &impl Abort, set: &mut S) -> Result<(), Fail> {
    let p = at(1, 1)?;
    if set.add(p) == AddReply::NoMemory {
        assert_eq!(rt; set.count(), 1);
        assert!(rt; has_vertices(set, &[(0, 0)])?);
        assert_eq!(rt; set.add(p), AddReply::Added);
    }
    assert_eq!(rt; set.count(), 2);
    Ok(())
}

/// A refused leaf changes nothing: `rt try --test --fail-alloc 2` refuses it.
#[test]
fn refused_leaf(rt: HostRuntime) -> Result<(), Fail> {
    let mut set = tree(rt.alloc(), 8);
    if set.add(at(0, 0)?) == AddReply::Added {
        second_point(&rt, &mut set)?;
    }
    Ok(())
}
