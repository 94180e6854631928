//! The borrowed nodes of a tree, its limits by their numbers, and memory that is refused. The comparison with the plain set is in
//! `tree/beside_plain.rt`; the worked examples are cases of tests/cli, which both trees run.
mod beside_plain;
mod both;
mod extends;
mod loads;
pub(crate) mod turns;

use hull_set::{AddReply, HullSet, MULTIPLICITY_LIMIT, NoMemory, POINT_LIMIT, RemoveReply};
use hull_tree::{HullTree, Node, trees_are_sound};
use lattice::Point;
use std::alloc::Global;
use std::process::Abort;

fn at(rt: &impl Abort, x: i64, y: i64) -> Point {
    match Point::new(x, y) {
        Ok(point) => point,
        Err(_) => panic!(rt; "{x} {y} is no point"),
    }
}

/// Whether each of these points is added, one after the other.
fn adds_all(tree: &mut HullTree, points: &[Point]) -> bool {
    let mut all = true;
    for point in points {
        all = tree.add(*point) == AddReply::Added && all;
    }
    all
}

/// A tree to which these points were added one after the other, all of them new.
fn tree_of(rt: &impl Abort, alloc: Global, points: &[Point]) -> HullTree {
    let mut tree = HullTree::new(alloc, POINT_LIMIT);
    let all = adds_all(&mut tree, points);
    assert!(rt; all);
    tree
}

#[test]
fn empty_tree(rt: HostRuntime) {
    let p = at(&rt, 7, 7);
    let mut tree = HullTree::new(rt.alloc(), 3);
    let is_empty = tree.root().is_none();
    let returned = [tree.limit(), tree.count(), tree.multiplicity(p)];
    let removed = tree.remove(p);
    trees_are_sound(&tree);
    drop(tree);
    assert!(rt; is_empty && returned == [3, 0, 0] && removed == RemoveReply::Absent);
}

/// Whether the points (0, 0) to (1023, 0) are added, one after the other.
fn adds_a_row(rt: &impl Abort, tree: &mut HullTree) -> bool {
    let mut all = true;
    for k in 0i64..1024 {
        all = tree.add(at(rt, k, 0)) == AddReply::Added && all;
    }
    all
}

/// Whether they are removed in the same order.
fn removes_a_row(rt: &impl Abort, tree: &mut HullTree) -> bool {
    let mut all = true;
    for k in 0i64..1024 {
        all = tree.remove(at(rt, k, 0)) == RemoveReply::Removed && all;
    }
    all
}

#[test]
fn rising_order(rt: HostRuntime) {
    let mut tree = HullTree::new(rt.alloc(), POINT_LIMIT);
    let added = adds_a_row(&rt, &mut tree);
    let count = tree.count();
    let removed = removes_a_row(&rt, &mut tree);
    let left = (tree.count(), tree.root().is_none());
    drop(tree);
    assert!(rt; added && removed);
    assert!(rt; count == 1024 && left == (0, true));
}

/// A node as a caller sees it: its point, the point's multiplicity, its upper and its lower bridge, and whether it has halves.
type Lent = (
    Option<Point>,
    Option<u32>,
    Option<(Point, Point)>,
    Option<(Point, Point)>,
    bool,
);

fn lent_by(node: &Node) -> Lent {
    (
        node.point(),
        node.multiplicity(),
        node.upper().copied(),
        node.lower().copied(),
        node.halves().is_some(),
    )
}

/// Returns the root as a caller sees it, and the points of its two halves.
fn root_of(tree: &HullTree) -> Option<(Lent, Option<Point>, Option<Point>)> {
    let root = tree.root()?;
    match root.halves() {
        None => Some((lent_by(root), None, None)),
        Some((left, right)) => Some((lent_by(root), left.point(), right.point())),
    }
}

#[test]
fn triangle_root(rt: HostRuntime) {
    let (left, right, apex) = (at(&rt, 0, 0), at(&rt, 4, 0), at(&rt, 2, 3));
    let base = Some((left, right));
    let mut tree = tree_of(&rt, rt.alloc(), &[left, right, apex]);
    let lower = tree.root().and_then(|root| root.lower()).copied();
    let removed = tree.remove(apex);
    let root = root_of(&tree);
    drop(tree);
    assert!(rt; lower == base && removed == RemoveReply::Removed);
    assert!(rt; root == Some(((None, None, base, base, true), Some(left), Some(right))));
}

#[test]
fn leaf_and_fork(rt: HostRuntime) {
    let (low, high) = (at(&rt, 1, 1), at(&rt, 1, 2));
    let (upper, lower) = (Some((low, high)), Some((low, high)));
    let mut tree = tree_of(&rt, rt.alloc(), &[high]);
    let leaf = root_of(&tree);
    let added = tree.add(low);
    let fork = root_of(&tree);
    drop(tree);
    assert!(rt; leaf == Some(((Some(high), Some(1), None, None, false), None, None)));
    assert!(rt; added == AddReply::Added);
    assert!(rt; fork == Some(((None, None, upper, lower, true), Some(low), Some(high))));
}

/// Adds a point until its multiplicity is 65535. Returns the multiplicity up to which each reply was right.
fn add_to_the_most(tree: &mut HullTree, p: Point) -> u32 {
    let mut held = 1;
    for multiplicity in 2u32..65536 {
        if held == multiplicity - 1 && tree.add(p) == AddReply::Again(multiplicity) {
            held = multiplicity;
        }
    }
    held
}

#[test]
fn as_often_as_may_be(rt: HostRuntime) {
    let (p, other) = (at(&rt, 0, 0), at(&rt, 1, 0));
    let mut tree = tree_of(&rt, rt.alloc(), &[p, other]);
    let held = add_to_the_most(&mut tree, p);
    let refused = tree.add_counted(p);
    let returned = [tree.multiplicity(p), tree.multiplicity(other), tree.count()];
    let removed = tree.remove(p);
    drop(tree);
    assert!(rt; held == 65535 && MULTIPLICITY_LIMIT == 65535);
    assert!(rt; refused == (AddReply::TooMany, 0) && removed == RemoveReply::Left(65534));
    assert!(rt; returned == [65535, 1, 2]);
}

/// Whether a second point is added. If memory is refused, the tree has only the first one, and the second attempt adds it.
fn adds_again(tree: &mut HullTree, first: Point, second: Point) -> bool {
    let mut reply = tree.add(second);
    let mut kept = true;
    if reply == AddReply::NoMemory {
        let point = tree.root().and_then(|root| root.point());
        kept = point == Some(first) && tree.count() == 1;
        kept = tree.remove(second) == RemoveReply::Absent && kept;
        reply = tree.add(second);
    }
    kept && reply == AddReply::Added
}

// `rt try --test --fail-alloc 1` refuses its one request for memory.
#[test]
fn refused_leaf(rt: HostRuntime) {
    let (first, second) = (at(&rt, 0, 0), at(&rt, 1, 1));
    let mut tree = tree_of(&rt, rt.alloc(), &[first]);
    let added = adds_again(&mut tree, first, second);
    let count = tree.count();
    drop(tree);
    assert!(rt; added && count == 2);
}

/// A body of `add` that always refuses memory fails here.
#[test]
fn add_always_refuses(rt: HostRuntime) {
    let (low, high) = (at(&rt, 3, 4), at(&rt, 3, 5));
    let mut tree = HullTree::new(rt.alloc(), POINT_LIMIT);
    let replies = [tree.add(low), tree.add(high), tree.add(low)];
    let count = tree.count();
    drop(tree);
    assert_eq!(rt;
        replies,
        [AddReply::Added, AddReply::Added, AddReply::Again(2)]
    );
    assert!(rt; count == 2);
}

/// Adds a new point; if memory is refused, at the second attempt. Returns whether it was added.
fn add_again(tree: &mut HullTree, p: Point) -> bool {
    let mut reply = tree.add(p);
    if reply == AddReply::NoMemory {
        reply = tree.add(p);
    }
    reply == AddReply::Added
}

/// Whether these are the vertices of a tree of this many points. If memory is refused, the second attempt lists them.
fn has_vertices(tree: &HullTree, vertices: &[Point], count: u32) -> bool {
    match tree.vertices() {
        Ok(found) => found.as_slice() == vertices,
        Err(NoMemory) => match tree.vertices() {
            Ok(found) => tree.count() == count && found.as_slice() == vertices,
            Err(NoMemory) => false,
        },
    }
}

// `rt try --test --fail-alloc N`: N = 1 and 2 refuse the boxes of the second and the third point, N = 3 the list.
#[test]
fn refused_vertices(rt: HostRuntime) {
    let vertices = [at(&rt, 0, 0), at(&rt, 4, 0), at(&rt, 2, 3)];
    let mut tree = HullTree::new(rt.alloc(), POINT_LIMIT);
    let mut all = true;
    for vertex in vertices {
        all = add_again(&mut tree, vertex) && all;
    }
    let has = has_vertices(&tree, &vertices, 3);
    drop(tree);
    assert!(rt; all && has);
}
