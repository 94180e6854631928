//! Rotations of three neighbouring subtrees, which keep the bridges that they can.
//!
//! If the bridge of the upper fork ends in the middle subtree, it is that of the new lower fork, and the bridge of the
//! old lower fork is that of the new upper one. Otherwise it is the bridge of the new upper fork, and only that of the
//! new lower one is searched.
ghost use Rattle.std.specs.Prelude.{◌≡◌, ◌≤◌, ◌+◌, ◌*◌, ◌++◌, ◌↔◌, IsTrue, max, length};
ghost use Rattle.lattice.specs.declared.side.Side.{Side};
ghost use Rattle.bridge_search.specs.Trees.{On};
ghost use Rattle.lattice.specs.Bridges.{IsBridge};
ghost use Rattle.hull_geometry.specs.Positions.{first_of as first_in};
ghost use Rattle.hull_set.specs.declared.TheConstants.{POINT_LIMIT};
ghost use Rattle.bucket_tree.specs.Changes.{edge_on};
ghost use Rattle.bucket_tree.specs.Nodes.{tree_of, points_below, multiplicities_below, node_height, AreInRow, AreNear};
ghost use Rattle.bucket_tree.specs.Nodes.{IsWellBuilt, IsHeightOver};
ghost use Rattle.bucket_tree.specs.Rotations.{AreEdgesOfFour, AreFourInRow, IsInMiddle, IsOnEither, IsRegrouped};

use crate::join::{fork_over, search_one, take_apart};
use crate::node::{Fork, Node, height_of};
use heap::Heap;
use lattice::{Point, Side, before};

/// The direction in which a rotation moves the middle one of three neighbouring subtrees: to the left, from the fork
/// that it has with the last one to one with the first one; to the right, the other way round.
#[derive(Clone, Copy)]
pub(crate) enum Rotation {
    /// To the left.
    Left,
    /// To the right.
    Right,
}

/// The edges on a side of the two forks that a rotation makes, and the turns of the search.
#[derive(Clone, Copy)]
pub(crate) struct Regrouped {
    pub(crate) inner: (Point, Point),
    pub(crate) outer: (Point, Point),
    pub(crate) turns: u32,
}

/// Whether the edge of the upper fork ends in the middle subtree; `split` is the first point of the later one of the
/// lower fork's halves.
fn is_in_middle(rotation: Rotation, whole: &(Point, Point), split: Point) -> bool
    ensures { IsTrue result ↔ IsInMiddle rotation whole.now split }
{
    match rotation {
        Rotation::Left => before(whole.1, split),
        Rotation::Right => !before(whole.0, split),
    }
}

/// Returns the edges, on a side, of the forks that a rotation makes; `whole` and `part` are those of the upper and of
/// the lower fork before, and `first` and `second` will be the halves of the lower one.
fn regroup(
    side: Side,
    rotation: Rotation,
    whole: (Point, Point),
    part: (Point, Point),
    split: Point,
    first: &Node,
    second: &Node,
) -> Regrouped
    requires row { AreInRow first.now second.now }
    requires few { length (points_below first.now ++ points_below second.now) ≤ POINT_LIMIT }
    ensures edges { IsRegrouped side rotation whole part split (tree_of first.now) (tree_of second.now) result }
    ensures turns { result.turns ≤ 2 * max (node_height first.now) (node_height second.now) + 12 }
{
    if is_in_middle(rotation, &whole, split) {
        return Regrouped {
            inner: whole,
            outer: part,
            turns: 0,
        };
    }
    let (inner, turns) = search_one(side, first, second);
    Regrouped {
        inner,
        outer: whole,
        turns,
    }
}

/// Returns the edges, on a side, of the forks that a rotation makes of `whole`, the upper fork, and of `part`, the lower one, as [`regroup`] does.
fn regroup_forks(
    side: Side,
    rotation: Rotation,
    whole: &Fork,
    part: &Fork,
    first: &Node,
    second: &Node,
) -> Regrouped
    requires row { AreInRow first.now second.now }
    requires few { length (points_below first.now ++ points_below second.now) ≤ POINT_LIMIT }
    ensures edges { IsRegrouped side rotation (edge_on side whole.now) (edge_on side part.now) part.now.right_ends.first
        (tree_of first.now) (tree_of second.now) result }
    ensures turns { result.turns ≤ 2 * max (node_height first.now) (node_height second.now) + 12 }
{
    let (upper, lower) = (*whole.edge(side), *part.edge(side));
    let split = part.right_ends.first;
    regroup(side, rotation, upper, lower, split, first, second)
}

/// The edges on a side of the three forks that a double rotation makes of four subtrees, and the turns of the searches.
#[derive(Clone, Copy)]
pub(crate) struct RegroupedTwice {
    pub(crate) left: (Point, Point),
    pub(crate) right: (Point, Point),
    pub(crate) outer: (Point, Point),
    pub(crate) turns: u32,
}

/// Returns the inner edges of the rotations that make the left and the right lower fork, with the edge of the upper one.
#[inline(always)]
fn edges_of_both(left: Regrouped, right: Regrouped, outer: (Point, Point)) -> RegroupedTwice
    requires few { left.turns + right.turns ≤ 1000 }
    ensures left { result.left ≡ left.inner }
    ensures right { result.right ≡ right.inner }
    ensures outer { result.outer ≡ outer }
    ensures turns { result.turns ≡ left.turns + right.turns }
{
    RegroupedTwice {
        left: left.inner,
        right: right.inner,
        outer,
        turns: left.turns + right.turns,
    }
}

/// Returns the edges, on a side, of the forks over `a` and `b`, over `c` and `d`, and over both, which a double
/// rotation makes: that of the lower two forks in the other direction, and then that of the upper two. `whole`, `low`
/// and `middle` are the three forks before, from the top.
fn regroup_twice(
    side: Side,
    rotation: Rotation,
    whole: &Fork,
    low: &Fork,
    middle: &Fork,
    a: &Node,
    b: &Node,
    c: &Node,
    d: &Node,
) -> RegroupedTwice
    requires row { AreFourInRow a.now b.now c.now d.now }
    requires few { length ((points_below a.now ++ points_below b.now) ++ (points_below c.now ++ points_below d.now)) ≤ POINT_LIMIT }
    requires split { middle.now.right_ends.first ≡ first_in (points_below c.now) }
    requires low { max (max (node_height a.now) (node_height b.now)) (max (node_height c.now) (node_height d.now)) ≤ 28 }
    requires edges { AreEdgesOfFour rotation side (tree_of a.now) (tree_of b.now) (tree_of c.now) (tree_of d.now)
        (edge_on side whole.now) (edge_on side low.now) (edge_on side middle.now) }
    ensures left { IsBridge side (On (tree_of a.now)) (On (tree_of b.now)) result.left.0 result.left.1 }
    ensures right { IsBridge side (On (tree_of c.now)) (On (tree_of d.now)) result.right.0 result.right.1 }
    ensures outer { IsBridge side (IsOnEither (tree_of a.now) (tree_of b.now)) (IsOnEither (tree_of c.now) (tree_of d.now))
        result.outer.0 result.outer.1 }
    ensures turns { result.turns ≤ 2 * max (node_height a.now) (node_height b.now) + 2 * max (node_height c.now) (node_height d.now) + 24 }
{
    let (edge, split) = (*whole.edge(side), middle.right_ends.first);
    match rotation {
        Rotation::Left => {
            let lower = regroup_forks(side, Rotation::Right, low, middle, c, d);
            let upper = regroup(side, Rotation::Left, edge, lower.outer, split, a, b);
            edges_of_both(upper, lower, upper.outer)
        }
        Rotation::Right => {
            let lower = regroup_forks(side, Rotation::Left, low, middle, a, b);
            let upper = regroup(side, Rotation::Right, edge, lower.outer, split, c, d);
            edges_of_both(lower, upper, upper.outer)
        }
    }
}

/// Makes the tree over four neighbouring subtrees after a double rotation. The edges in the boxes are those of the
/// three forks before, from the top.
fn rotate_twice(
    turn: Rotation,
    a: Node,
    b: Node,
    c: Node,
    d: Node,
    place: Box<Fork, Heap>,
    below: Box<Fork, Heap>,
    middle: Box<Fork, Heap>,
) -> (Node, u32)
    requires row { AreFourInRow a b c d }
    requires few { length ((points_below a ++ points_below b) ++ (points_below c ++ points_below d)) ≤ POINT_LIMIT }
    requires split { middle.value.right_ends.first ≡ first_in (points_below c) }
    requires edges { (side : Side) → AreEdgesOfFour turn side (tree_of a) (tree_of b) (tree_of c) (tree_of d)
        (edge_on side place.value) (edge_on side below.value) (edge_on side middle.value) }
    requires near_left { AreNear (node_height a) (node_height b) }
    requires near_right { AreNear (node_height c) (node_height d) }
    requires near { AreNear (max (node_height a) (node_height b)) (max (node_height c) (node_height d)) }
    requires low { max (max (node_height a) (node_height b)) (max (node_height c) (node_height d)) ≤ 26 }
    ensures built { IsWellBuilt result.0 }
    ensures points { points_below result.0 ≡ (points_below a ++ points_below b) ++ (points_below c ++ points_below d) }
    ensures multiplicities { multiplicities_below result.0
        ≡ (multiplicities_below a ++ multiplicities_below b) ++ (multiplicities_below c ++ multiplicities_below d) }
    ensures height { node_height result.0 ≡ max (max (node_height a) (node_height b)) (max (node_height c) (node_height d)) + 2 }
    ensures turns { result.1 ≤ 8 * max (max (node_height a) (node_height b)) (max (node_height c) (node_height d)) + 48 }
{
    let upper = regroup_twice(Side::Upper, turn, &place, &below, &middle, &a, &b, &c, &d);
    let lower = regroup_twice(Side::Lower, turn, &place, &below, &middle, &a, &b, &c, &d);
    let left = fork_over(a, b, below, upper.left, lower.left);
    let right = fork_over(c, d, place, upper.right, lower.right);
    let whole = fork_over(left, right, middle, upper.outer, lower.outer);
    (whole, upper.turns + lower.turns)
}

/// Makes the fork over two subtrees of which the left one is two higher, after a rotation to the right, which is double
/// if that one leans to the right. The edges in the box are those of the two subtrees.
pub(crate) fn rotate_right(left: Node, right: Node, place: Box<Fork, Heap>) -> (Node, u32)
    requires row { AreInRow left right }
    requires few { length (points_below left ++ points_below right) ≤ POINT_LIMIT }
    requires edges { (side : Side) → IsBridge side (On (tree_of left)) (On (tree_of right))
        (edge_on side place.value).0 (edge_on side place.value).1 }
    requires two_higher { node_height left ≡ node_height right + 2 }
    requires low { node_height left ≤ 28 }
    ensures built { IsWellBuilt result.0 }
    ensures points { points_below result.0 ≡ points_below left ++ points_below right }
    ensures multiplicities { multiplicities_below result.0 ≡ multiplicities_below left ++ multiplicities_below right }
    ensures height { IsHeightOver (node_height left) (node_height right) (node_height result.0) }
    ensures turns { result.1 ≤ 8 * node_height left + 48 }
{
    let (outer, inner, below) = take_apart(left);
    let turn = Rotation::Right;
    if height_of(&outer) >= height_of(&inner) {
        let upper = regroup_forks(Side::Upper, turn, &place, &below, &inner, &right);
        let lower = regroup_forks(Side::Lower, turn, &place, &below, &inner, &right);
        let second = fork_over(inner, right, place, upper.inner, lower.inner);
        let whole = fork_over(outer, second, below, upper.outer, lower.outer);
        return (whole, upper.turns + lower.turns);
    }
    let (middle_left, middle_right, middle) = take_apart(inner);
    rotate_twice(
        turn,
        outer,
        middle_left,
        middle_right,
        right,
        place,
        below,
        middle,
    )
}

/// Makes the fork over two subtrees of which the right one is two higher, after a rotation to the left, which is double
/// if that one leans to the left. The edges in the box are those of the two subtrees.
pub(crate) fn rotate_left(left: Node, right: Node, place: Box<Fork, Heap>) -> (Node, u32)
    requires row { AreInRow left right }
    requires few { length (points_below left ++ points_below right) ≤ POINT_LIMIT }
    requires edges { (side : Side) → IsBridge side (On (tree_of left)) (On (tree_of right))
        (edge_on side place.value).0 (edge_on side place.value).1 }
    requires two_higher { node_height right ≡ node_height left + 2 }
    requires low { node_height right ≤ 28 }
    ensures built { IsWellBuilt result.0 }
    ensures points { points_below result.0 ≡ points_below left ++ points_below right }
    ensures multiplicities { multiplicities_below result.0 ≡ multiplicities_below left ++ multiplicities_below right }
    ensures height { IsHeightOver (node_height left) (node_height right) (node_height result.0) }
    ensures turns { result.1 ≤ 8 * node_height right + 48 }
{
    let (inner, outer, below) = take_apart(right);
    let turn = Rotation::Left;
    if height_of(&outer) >= height_of(&inner) {
        let upper = regroup_forks(Side::Upper, turn, &place, &below, &left, &inner);
        let lower = regroup_forks(Side::Lower, turn, &place, &below, &left, &inner);
        let first = fork_over(left, inner, place, upper.inner, lower.inner);
        let whole = fork_over(first, outer, below, upper.outer, lower.outer);
        return (whole, upper.turns + lower.turns);
    }
    let (middle_left, middle_right, middle) = take_apart(inner);
    rotate_twice(
        turn,
        left,
        middle_left,
        middle_right,
        outer,
        place,
        below,
        middle,
    )
}
