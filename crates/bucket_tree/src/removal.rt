//! Removing points.
ghost use Rattle.std.specs.Prelude.{◌≡◌, ◌≤◌, ◌+◌, ◌*◌, ◌++◌, ◌⊎◌, true, false, Some, IfSome, max, length};
ghost use Rattle.hull_geometry.specs.Monotone.{IsInwards};
ghost use Rattle.hull_set.specs.declared.TheConstants.{POINT_LIMIT};
ghost use Rattle.lattice.specs.declared.side.Side.{Side};
ghost use Rattle.bucket_tree.specs.Changes.{ClosesBy, HasEdgesAfter, IsUnaffectedOver, change_of, is_affected};
ghost use Rattle.bucket_tree.specs.Counts.{multiplicity_at, HasLost};
ghost use Rattle.bucket_tree.specs.InPlace.{IsToBalance};
ghost use Rattle.bucket_tree.specs.Nodes.{points_below, multiplicities_below, node_height, AreInRow, IsHeightOver, IsWellBuilt};
ghost use Rattle.bucket_tree.specs.Turns.{most_turns};
ghost use Rattle.bucket_tree.specs.declared.node.Node.{Leaf};
ghost use Rattle.bucket_tree.specs.declared.removal.TheConstants.{MERGED};

use crate::insertion::{affected_at, bucket_of};
use crate::node::{Fork, Node};
use crate::renewal::{Affected, EdgePosition, Renewed, balance, change_at, edge_position_of};
use heap::Heap;
use hull_buckets::{Bucket, buckets_are_sound};
use lattice::{Point, Side, before};
use std::mem;

/// Two buckets with no more points than this become one when one of them loses a point.
const MERGED: usize = 56;

/// The result of removing a point: the node, or nothing if the point was the only one; how many turns the searches took; and the chains on which the
/// point may have been a vertex of the hull of all points that were below the node.
#[derive(Drop)]
pub struct Removed {
    /// The rest of the tree.
    pub rest: Option<Node>,
    /// The turns of the searches for bridges.
    pub turns: u32,
    /// The chains on which the point may have been a vertex.
    pub sides: Affected,
}

/// Removes a point of multiplicity one from a bucket: nothing is left if it was the only one.
fn remove_leaf(mut bucket: Box<Bucket, Heap>, p: Point) -> Removed
    requires built { IsWellBuilt (Leaf bucket) }
    requires held { multiplicity_at (Leaf bucket) p ≡ 1 }
    ensures lost { HasLost p (Leaf bucket) result.rest }
    ensures unaffected { IfSome result.rest (λ n. IsUnaffectedOver p result.sides (points_below n)) }
    ensures turns { result.turns ≡ 0 }
{
    let Ok(place) = bucket.place_of(p) else {
        unreachable!()
    };
    let sides = affected_at(&bucket, place, p);
    if bucket.points().len() == 1 {
        return Removed {
            rest: None,
            turns: 0,
            sides,
        };
    }
    bucket.remove(place);
    buckets_are_sound(&bucket);
    Removed {
        rest: Some(Node::Leaf(bucket)),
        turns: 0,
        sides,
    }
}

/// Whether two subtrees are buckets with few points together.
pub(crate) fn are_few(left: &Node, right: &Node) -> bool
    ensures { result ≡ true → (node_height left.now ≡ 0) × (node_height right.now ≡ 0)
        × (length (points_below left.now) + length (points_below right.now) ≤ MERGED) }
{
    match (left, right) {
        (Node::Leaf(first), Node::Leaf(second)) => {
            first.points().len() + second.points().len() <= MERGED
        }
        _ => false,
    }
}

/// Whether a chain stays affected above a fork of which a point was removed, by the edge that is stored there.
fn stays_affected(side: Side, edge: &(Point, Point), p: Point, at_issue: bool) -> bool
    ensures { result ≡ false → (at_issue ≡ false) ⊎ IsInwards side edge.now.0 edge.now.1 p }
{
    if !at_issue {
        return false;
    }
    match edge_position_of(side, edge, p) {
        EdgePosition::Covered => false,
        EdgePosition::Clear => true,
        EdgePosition::Touching => true,
    }
}

/// Merges two buckets, from one of which a point was removed, into one. The edges of the fork over them are compared first.
fn merge(mut place: Box<Fork, Heap>, p: Point, sides: Affected) -> Renewed
    requires row { AreInRow place.value.left place.value.right }
    requires left { node_height place.value.left ≡ 0 }
    requires right { node_height place.value.right ≡ 0 }
    requires few { length (points_below place.value.left) + length (points_below place.value.right) ≤ MERGED }
    requires edges { HasEdgesAfter p sides place.value }
    ensures built { IsWellBuilt result.node }
    ensures points { points_below result.node ≡ points_below place.value.left ++ points_below place.value.right }
    ensures multiplicities { multiplicities_below result.node
        ≡ multiplicities_below place.value.left ++ multiplicities_below place.value.right }
    ensures height { node_height result.node ≡ 0 }
    ensures turns { result.turns ≡ 0 }
    ensures closes { ClosesBy p sides result.sides (points_below place.value.left ++ points_below place.value.right) }
{
    let sides = Affected {
        lower: stays_affected(Side::Lower, &place.lower, p, sides.lower),
        upper: stays_affected(Side::Upper, &place.upper, p, sides.upper),
    };
    let mut first = bucket_of(mem::replace(&mut place.left, Node::Taken));
    let second = bucket_of(mem::replace(&mut place.right, Node::Taken));
    first.merge(&second);
    buckets_are_sound(&first);
    Renewed {
        node: Node::Leaf(first),
        turns: 0,
        sides,
    }
}

/// Repairs a fork of a given height whose one half lost a point, the left one or else the right one: if it was the only fork above two buckets with
/// few points, merges them; otherwise balances the tree.
fn prepare(place: Box<Fork, Heap>, is_left: bool, p: Point, sides: Affected, height: u16) -> Renewed
    requires { IsToBalance is_left (change_of is_left false) p sides place.value }
    ensures built { IsWellBuilt result.node }
    ensures points { points_below result.node ≡ points_below place.value.left ++ points_below place.value.right }
    ensures multiplicities { multiplicities_below result.node
        ≡ multiplicities_below place.value.left ++ multiplicities_below place.value.right }
    ensures height { IsHeightOver (node_height place.value.left) (node_height place.value.right) (node_height result.node)
        ⊎ ((height ≡ 1) × (node_height result.node ≡ 0)) }
    ensures turns { result.turns ≤ 16 * max (node_height place.value.left) (node_height place.value.right) + 96 }
    ensures closes { ClosesBy p sides result.sides (points_below place.value.left ++ points_below place.value.right) }
{
    if height == 1 && are_few(&place.left, &place.right) {
        return merge(place, p, sides);
    }
    balance(place, is_left, p, change_at(is_left, false), sides)
}

/// Returns what is left if one subtree of a fork lost its only point: the other subtree.
fn other_part(part: Node, turns: u32) -> Removed
    ensures rest { result.rest ≡ Some part }
    ensures turns { result.turns ≡ turns }
    ensures sides { (side : Side) → is_affected side result.sides ≡ true }
{
    Removed {
        rest: Some(part),
        turns,
        sides: Affected {
            lower: true,
            upper: true,
        },
    }
}

/// Removes a point of multiplicity one from below a node. Allocates no memory.
pub fn remove(node: Node, p: Point) -> Removed
    requires built { IsWellBuilt node }
    requires held { multiplicity_at node p ≡ 1 }
    requires few { length (points_below node) ≤ POINT_LIMIT }
    requires low { node_height node ≤ 28 }
    ensures lost { HasLost p node result.rest }
    ensures unaffected { IfSome result.rest (λ n. IsUnaffectedOver p result.sides (points_below n)) }
    ensures turns { result.turns ≤ most_turns (node_height node) }
{
    match node {
        Node::Leaf(bucket) => remove_leaf(bucket, p),
        Node::Fork(height, mut place) => {
            let is_left = before(p, place.right_ends.first);
            let half = mem::replace(place.half_mut(is_left), Node::Taken);
            let Removed { rest, turns, sides } = remove(half, p);
            let Some(rest) = rest else {
                let other = mem::replace(place.half_mut(!is_left), Node::Taken);
                return other_part(other, turns);
            };
            *place.half_mut(is_left) = rest;
            let above = prepare(place, is_left, p, sides, height);
            Removed {
                rest: Some(above.node),
                turns: above.turns + turns,
                sides: above.sides,
            }
        }
        Node::Taken => unreachable!(),
    }
}
