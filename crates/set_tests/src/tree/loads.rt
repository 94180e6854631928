//! Trees that are loaded at once.
use super::at;
use bucket_tree::BucketTree;
use hull_set::{AddReply, HullSet, MULTIPLICITY_LIMIT, POINT_LIMIT, Place};
use hull_tree::HullTree;
use lattice::{Direction, Point};
use leaf_trees::{Listed, LoadFault, entries_of};
use std::alloc::{AllocError, Global};
use std::process::Abort;
use std::test::Fail;

/// Whether these are the vertices of a tree, if there is memory for them.
fn has_vertices(tree: &BucketTree, vertices: &[Point]) -> bool {
    match tree.vertices() {
        Ok(found) => found.as_slice() == vertices,
        Err(_) => false,
    }
}

#[test]
fn loaded_as_added(rt: HostRuntime) -> Result<(), Fail> {
    let (left, right) = (at(&rt, 0, 0), at(&rt, 4, 0));
    let (apex, inner) = (at(&rt, 2, 3), at(&rt, 2, 1));
    let beyond = at(&rt, 9, 9);
    let points = [apex, left, right, apex, inner];
    let mut loaded = BucketTree::from_points(rt.alloc(), 4, &points)?;
    let returned = (loaded.count(), loaded.multiplicity(apex), loaded.area2());
    let is_triangle = has_vertices(&loaded, &[left, right, apex]);
    let replies = (loaded.add(beyond), loaded.add(inner));
    drop(loaded);
    assert!(rt; returned == (4, 2, 12) && is_triangle);
    assert_eq!(rt; replies, (AddReply::TooMany, AddReply::Again(2)));
    Ok(())
}

#[test]
fn nothing_loaded(rt: HostRuntime) -> Result<(), Fail> {
    let loaded = HullTree::from_points(rt.alloc(), 1, &[])?;
    let returned = (loaded.count(), loaded.root().is_none());
    drop(loaded);
    assert!(rt; returned == (0, true));
    Ok(())
}

#[test]
fn one_point_more_than_the_limit(rt: HostRuntime) -> Result<(), Fail> {
    let points = [at(&rt, 0, 0), at(&rt, 1, 1), at(&rt, 0, 0)];
    let fault = HullTree::from_points(rt.alloc(), 1, &points).err();
    let count = HullTree::from_points(rt.alloc(), 2, &points)?.count();
    assert_eq!(rt; fault, Some(LoadFault::TooMany));
    assert!(rt; count == 2);
    Ok(())
}

/// Returns a point this many times.
fn repeated(alloc: Global, point: Point, multiplicity: u32) -> Result<Vec<Point>, AllocError> {
    let mut points = Vec::new(alloc);
    for _ in 0..multiplicity {
        points.push(point)?;
    }
    Ok(points)
}

#[test]
fn once_more_than_a_point_may_be_held(rt: HostRuntime) -> Result<(), Fail> {
    let p = at(&rt, 7, 7);
    let most = repeated(rt.alloc(), p, MULTIPLICITY_LIMIT)?;
    let multiplicity = HullTree::from_points(rt.alloc(), 1, &most)?.multiplicity(p);
    let more = repeated(rt.alloc(), p, MULTIPLICITY_LIMIT + 1)?;
    let fault = entries_of(rt.alloc(), &more).err();
    assert!(rt; multiplicity == MULTIPLICITY_LIMIT);
    assert_eq!(rt; fault, Some(LoadFault::TooMany));
    Ok(())
}

// `rt try --test --fail-alloc N`: N = 1 refuses the sorted list, 2 the entries, 3 to 5 the boxes of the forks.
#[test]
fn refused_load(rt: HostRuntime) -> Result<(), Fail> {
    let points = [at(&rt, 2, 3), at(&rt, 0, 0), at(&rt, 4, 0), at(&rt, 2, 1)];
    let mut loaded = HullTree::from_points(rt.alloc(), POINT_LIMIT, &points);
    if matches!(&loaded, Err(LoadFault::NoMemory)) {
        loaded = HullTree::from_points(rt.alloc(), POINT_LIMIT, &points);
    }
    let tree = loaded?;
    let returned = (tree.count(), tree.area2());
    drop(tree);
    assert!(rt; returned == (4, 12));
    Ok(())
}

/// The point of a grid of 64 by 64 with this number, row by row.
fn on_grid(rt: &impl Abort, number: u64) -> Point {
    at(rt, (number % 64) as i64, (number / 64 % 64) as i64)
}

/// All points of that grid, in an order that is not sorted.
fn whole_grid(rt: &impl Abort, alloc: Global) -> Result<Vec<Point>, AllocError> {
    let mut points = Vec::with_capacity(alloc, 4096)?;
    for k in 0u64..4096 {
        points.push(on_grid(rt, k.wrapping_mul(1953) % 4096))?;
    }
    Ok(points)
}

/// Returns the location of one point inside a full set and of one on its boundary, and the set's farthest points to the right and up.
fn seen_of(
    rt: &impl Abort,
    tree: &BucketTree,
    outwards: Direction,
) -> (Place, Place, Option<Point>) {
    let (inner, below) = (at(rt, 32, 32), at(rt, 32, 0));
    (tree.place(inner), tree.place(below), tree.extreme(outwards))
}

/// A full set is loaded in an order that is not sorted, asked, and changed at its vertices. As many points as the greatest limit allows are loaded by
/// tests/embed.
#[test]
fn as_many_points_as_there_may_be(rt: HostRuntime) -> Result<(), Fail> {
    let (first, last) = (at(&rt, 0, 0), at(&rt, 63, 63));
    let vertices = [first, at(&rt, 63, 0), last, at(&rt, 0, 63)];
    let (new, outwards) = (at(&rt, 99, 99), Direction::new(1, 1)?);
    let points = whole_grid(&rt, rt.alloc())?;
    let mut tree = BucketTree::from_points(rt.alloc(), 4096, &points)?;
    let (count, area) = (tree.count(), tree.area2());
    let is_square = has_vertices(&tree, &vertices);
    let seen = seen_of(&rt, &tree, outwards);
    let refused = tree.add(new);
    let _ = tree.remove(first);
    let less = tree.area2();
    let (added, again) = (tree.add(first), tree.area2());
    drop(tree);
    assert!(rt; count == 4096 && is_square);
    assert!(rt; seen == (Place::Inside, Place::On, Some(last)));
    assert!(rt; (refused, added) == (AddReply::TooMany, AddReply::Added));
    assert!(rt; [area, less, again] == [7938, 7937, 7938]);
    Ok(())
}
