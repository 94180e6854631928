//! The nodes that a caller borrows from a tree, and the counts of its changes.
use crate::plane::{at, toward};
use crate::sets::adds;
use hull_plain::{AddReply, RemoveReply};
use hull_tree::{HullTree, Node};
use lattice::Point;
use std::test::Fail;

// The root's upper and lower bridge and the points of its halves, if these are leaves.
fn shown(tree: &HullTree) -> Option<((Point, Point), (Point, Point), Point, Point)> {
    let root: Option<&Node> = tree.root();
    let node = root?;
    let upper: Option<&(Point, Point)> = node.upper();
    let lower: Option<&(Point, Point)> = node.lower();
    let halves: Option<(&Node, &Node)> = node.halves();
    let (left, right) = halves?;
    let point: Option<Point> = left.point();
    Some((*upper?, *lower?, point?, right.point()?))
}

#[test]
fn lent_parts(rt: HostRuntime) -> Result<(), Fail> {
    let mut tree = HullTree::new(rt.alloc(), 8);
    assert!(rt; tree.root().is_none());
    assert!(rt; adds(&mut tree, &[(0, 0), (4, 0), (2, 3)])?);
    let edge = (at(0, 0)?, at(4, 0)?);
    let lower = tree.root().and_then(|node| node.lower().map(|e| *e));
    assert_eq!(rt; lower, Some(edge));
    let (removed, turns): (RemoveReply, u32) = tree.remove_counted(at(2, 3)?);
    assert_eq!(rt; (removed, turns), (RemoveReply::Removed, 0));
    assert_eq!(rt; shown(&tree), Some((edge, edge, edge.0, edge.1)));
    Ok(())
}

#[test]
fn counted_changes(rt: HostRuntime) -> Result<(), Fail> {
    let mut tree = HullTree::new(rt.alloc(), 8);
    let none: (Option<Point>, u32) = tree.extreme_counted(toward(1, 0)?);
    assert_eq!(rt; none, (None, 0));
    let first: (AddReply, u32) = tree.add_counted(at(0, 0)?);
    assert_eq!(rt; first, (AddReply::Added, 0));
    assert_eq!(rt; tree.extreme_counted(toward(1, 0)?), (Some(at(0, 0)?), 0));
    assert_eq!(rt; tree.add_counted(at(4, 0)?), (AddReply::Added, 0));
    assert_eq!(rt; tree.extreme_counted(toward(1, 0)?), (Some(at(4, 0)?), 1));
    assert_eq!(rt; tree.add_counted(at(2, 3)?), (AddReply::Added, 2));
    assert_eq!(rt; tree.add_counted(at(2, 3)?), (AddReply::Again(2), 0));
    assert_eq!(rt; tree.remove_counted(at(9, 9)?), (RemoveReply::Absent, 0));
    Ok(())
}
