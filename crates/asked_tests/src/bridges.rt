//! The search for the bridges of two halves.
use crate::plane::at;
use crate::sets::adds;
use bridge_search::{Half, Turned, lower_bridge, upper_bridge, upper_bridge_counted};
use hull_tree::HullTree;
use lattice::{Point, before};
use std::process::Abort;
use std::test::Fail;

// Returns the upper bridge of two halves, with and without the number of turns, and the lower one; `None` if the one half does not end before the
// other begins.
fn found<H: Half>(u: H, w: H) -> Option<((Point, Point), ((Point, Point), u32), (Point, Point))> {
    if before(u.last(), w.first()) {
        let upper: (Point, Point) = upper_bridge(u, w);
        let counted: ((Point, Point), u32) = upper_bridge_counted(u, w);
        let lower: (Point, Point) = lower_bridge(u, w);
        Some((upper, counted, lower))
    } else {
        None
    }
}

// Whether a half after a rotation by 180 degrees has the lower edge rotated, and as its first point the last one rotated.
fn is_turned<H: Half>(half: H) -> bool {
    let turned: Turned<H> = Turned::new(half);
    let (edge, lower): (Option<(Point, Point)>, Option<(Point, Point)>) = (
        turned.edge(),
        half.lower(),
    );
    let same_edge = match (edge, lower) {
        (Some((a, b)), Some((c, d))) => a == d.turned() && b == c.turned(),
        (None, None) => true,
        _ => false,
    };
    let same_first = turned.first() == half.last().turned();
    let height: u32 = half.height();
    same_edge && same_first && turned.last() == half.first().turned() && turned.height() == height
}

// Returns the bridges of the two halves of a half with edges; `None` for one point.
fn found_below<H: Half>(
    half: H,
) -> Option<((Point, Point), ((Point, Point), u32), (Point, Point))> {
    let edge: Option<(Point, Point)> = half.edge();
    if edge.is_none() {
        return None;
    }
    let (left, right): (H, H) = (half.left(), half.right());
    if !is_turned(left) || !is_turned(right) {
        return None;
    }
    found(left, right)
}

/// The left half is (0,0), (0,1), the right one (0,2), (1,3) and (2,3), whose left half is (0,2), (1,3).
#[test]
fn left_wall_bridge(rt: HostRuntime) -> Result<(), Fail> {
    let mut tree = HullTree::new(rt.alloc(), 8);
    assert!(rt; adds(&mut tree, &[(0, 0), (0, 1), (0, 2), (2, 3), (1, 3)])?);
    let bridges = match tree.half() {
        Some(half) => found_below(half),
        None => None,
    };
    let upper = (at(0, 0)?, at(0, 2)?);
    assert_eq!(rt; bridges, Some((upper, (upper, 3), (at(0, 0)?, at(2, 3)?))));
    Ok(())
}
