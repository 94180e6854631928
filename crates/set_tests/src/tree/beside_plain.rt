//! The tree and the plain set under the same changes and questions.
use super::at;
use crate::numbers::{Numbers, centred};
use hull_plain::PlainSet;
use hull_set::{HullSet, POINT_LIMIT};
use hull_tree::{HullTree, Node};
use lattice::{Direction, Point, before};
use std::alloc::{AllocError, Global};
use std::process::Abort;
use std::test::Fail;

/// Appends the points below a node, each with its multiplicity, from left to right.
fn push_points(points: &mut Vec<(Point, u32)>, node: &Node) -> Result<(), AllocError> {
    if let Some((left, right)) = node.halves() {
        push_points(points, left)?;
        push_points(points, right)?;
    }
    if let (Some(point), Some(multiplicity)) = (node.point(), node.multiplicity()) {
        points.push((point, multiplicity))?;
    }
    Ok(())
}

/// Whether these points are in order, and each of them has the same multiplicity in both.
fn are_held_alike(points: &[(Point, u32)], tree: &HullTree, plain: &PlainSet) -> bool {
    for i in 0..points.len() {
        let (point, multiplicity) = points[i];
        if i > 0 && !before(points[i - 1].0, point) {
            return false;
        }
        if plain.multiplicity(point) != multiplicity || tree.multiplicity(point) != multiplicity {
            return false;
        }
    }
    true
}

/// Whether all points of the tree are points of the plain set, in order and with the same multiplicity, and no other is.
fn has_same_points(alloc: Global, tree: &HullTree, plain: &PlainSet) -> Result<bool, AllocError> {
    let mut points = Vec::new(alloc);
    if let Some(root) = tree.root() {
        push_points(&mut points, root)?;
    }
    let all = points.len() == tree.count() as usize && plain.count() == tree.count();
    Ok(all && are_held_alike(&points, tree, plain))
}

/// Whether both answer alike of the farthest point in eight directions.
fn has_same_extremes(tree: &HullTree, plain: &PlainSet) -> bool {
    let mut alike = true;
    for x in -1i64..2 {
        for y in -1i64..2 {
            if let Ok(d) = Direction::new(x, y) {
                alike = tree.extreme(d) == plain.extreme(d) && alike;
            }
        }
    }
    alike
}

/// Whether both answer alike to questions with no argument, and of the farthest points.
fn has_same_hull(tree: &HullTree, plain: &PlainSet) -> bool {
    let same = tree.count() == plain.count() && tree.area2() == plain.area2();
    let listed = tree.vertices();
    listed.is_ok() && listed == plain.vertices() && same && has_same_extremes(tree, plain)
}

/// Whether a point has the same location and tangents in both.
fn has_same_location(tree: &HullTree, plain: &PlainSet, q: Point) -> bool {
    tree.place(q) == plain.place(q) && tree.tangents(q) == plain.tangents(q)
}

/// Makes a change on both. Returns whether they answer alike, and the point has the same multiplicity in both afterwards.
fn change(tree: &mut HullTree, plain: &mut PlainSet, p: Point, adds: bool) -> bool {
    let alike = if adds {
        tree.add(p) == plain.add(p)
    } else {
        tree.remove(p) == plain.remove(p)
    };
    alike && tree.multiplicity(p) == plain.multiplicity(p)
}

/// Makes one change at a point of a square of 7 by 7. Whether both answer alike.
fn change_near(rt: &impl Abort, tree: &mut HullTree, plain: &mut PlainSet, number: u32) -> bool {
    let p = at(rt, centred(number % 7, 3), centred(number / 7 % 7, 3));
    change(tree, plain, p, number / 49 % 2 == 0)
}

/// Makes 300 changes on both. Returns whether they answer alike, and have the same points after each.
fn changes_alike(
    rt: &impl Abort,
    alloc: Global,
    tree: &mut HullTree,
    plain: &mut PlainSet,
) -> Result<bool, AllocError> {
    let mut numbers = Numbers::new();
    let mut alike = true;
    for _ in 0..300 {
        alike = change_near(rt, tree, plain, numbers.next()) && alike;
        alike = has_same_points(alloc, tree, plain)? && alike;
    }
    Ok(alike)
}

#[test]
fn random_changes(rt: HostRuntime) -> Result<(), Fail> {
    let mut tree = HullTree::new(rt.alloc(), POINT_LIMIT);
    let mut plain = PlainSet::new(rt.alloc(), POINT_LIMIT);
    let alike = changes_alike(&rt, rt.alloc(), &mut tree, &mut plain);
    drop(tree);
    drop(plain);
    assert!(rt; alike?);
    Ok(())
}

/// Whether all points of a square of 9 by 9 have the same location and tangents in both.
fn has_same_locations(rt: &impl Abort, tree: &HullTree, plain: &PlainSet) -> bool {
    let mut alike = true;
    for x in -4i64..5 {
        for y in -4i64..5 {
            alike = has_same_location(tree, plain, at(rt, x, y)) && alike;
        }
    }
    alike
}

/// Makes 300 changes on both. Returns whether they answer alike, also to all questions after each ten.
fn answers_alike(rt: &impl Abort, tree: &mut HullTree, plain: &mut PlainSet) -> bool {
    let mut numbers = Numbers::new();
    let mut alike = true;
    for step in 0u32..300 {
        alike = change_near(rt, tree, plain, numbers.next()) && alike;
        if step % 10 == 9 {
            alike = has_same_hull(tree, plain) && has_same_locations(rt, tree, plain) && alike;
        }
    }
    alike
}

#[test]
fn same_answers(rt: HostRuntime) {
    let mut tree = HullTree::new(rt.alloc(), POINT_LIMIT);
    let mut plain = PlainSet::new(rt.alloc(), POINT_LIMIT);
    let alike = answers_alike(&rt, &mut tree, &mut plain);
    drop(tree);
    drop(plain);
    assert!(rt; alike);
}

/// Makes `changes` changes on both at points of a grid of 201 by 201 with this mesh, half of them at the point of the change before. Returns the
/// first one that they answered differently, if any.
fn first_difference(
    rt: &impl Abort,
    tree: &mut HullTree,
    plain: &mut PlainSet,
    apart: i64,
    steps: u32,
) -> Option<u32> {
    let mut numbers = Numbers::new();
    let (mut right, mut up) = (0, 0);
    for step in 0u32..steps {
        if numbers.next() % 2 == 0 {
            right = numbers.next() % 201;
            up = numbers.next() % 201;
        }
        let x = centred(right, 100).wrapping_mul(apart);
        let y = centred(up, 100).wrapping_mul(apart);
        let adds = numbers.next() % 3 != 0;
        let mut alike = change(tree, plain, at(rt, x, y), adds);
        if step % 500 == 499 {
            let (beside, above) = (at(rt, centred(right, 50), y), at(rt, x, centred(up, 150)));
            alike = has_same_hull(tree, plain) && alike;
            alike = has_same_location(tree, plain, beside) && alike;
            alike = has_same_location(tree, plain, above) && alike;
        }
        if !alike {
            return Some(step);
        }
    }
    None
}

/// Makes `changes` such changes on a tree and a plain set, which answer alike and have the same points at the end.
fn change_on_grid(rt: &impl Abort, alloc: Global, apart: i64, steps: u32) -> Result<(), Fail> {
    let mut tree = HullTree::new(alloc, POINT_LIMIT);
    let mut plain = PlainSet::new(alloc, POINT_LIMIT);
    let differs = first_difference(rt, &mut tree, &mut plain, apart, steps);
    let same = has_same_points(alloc, &tree, &plain);
    drop(tree);
    drop(plain);
    assert_eq!(rt; differs, None);
    assert!(rt; same?);
    Ok(())
}

#[test]
fn same_answers_over_20000_changes(rt: HostRuntime) -> Result<(), Fail> {
    change_on_grid(&rt, rt.alloc(), 1, 20000)
}

// Some points are near, and some are not: those of the grid's outermost lines.
#[test]
fn same_answers_across_the_near_limit(rt: HostRuntime) -> Result<(), Fail> {
    change_on_grid(&rt, rt.alloc(), 11000000, 4000)
}
