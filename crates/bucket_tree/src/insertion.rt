//! Adding points.
ghost use Rattle.std.specs.Prelude.{◌≡◌, ◌<◌, ◌≤◌, ◌+◌, ◌++◌, ◌∷◌, [], true, false, Err, length};
ghost use Rattle.std.specs.List.{Contains};
ghost use Rattle.lattice.specs.Covers.{IsPointSet, with_point};
ghost use Rattle.hull_buckets.specs.declared.TheConstants.{BUCKET_SIZE};
ghost use Rattle.hull_set.specs.Held.{once};
ghost use Rattle.hull_set.specs.declared.TheConstants.{POINT_LIMIT};
ghost use Rattle.hull_geometry.specs.Positions.{IsPositionOf, point_at};
ghost use Rattle.bucket_tree.specs.Changes.{IsUnaffectedOver};
ghost use Rattle.bucket_tree.specs.Counts.{counted, HasGained, IsNoMuchHigher};
ghost use Rattle.bucket_tree.specs.Nodes.{points_below, node_height, IsWellBuilt};
ghost use Rattle.bucket_tree.specs.Turns.{most_turns};
ghost use Rattle.bucket_tree.specs.declared.node.Node.{Leaf};

use crate::join::join;
use crate::load::blank;
use crate::node::Node;
use crate::renewal::{Affected, balance, change_at};
use heap::Heap;
use hull_buckets::{Bucket, buckets_are_sound};
use lattice::{Point, Side, before};
use std::mem;

/// The result of adding a point: the node, whether memory was refused for it, and how many turns the searches took.
#[derive(Drop)]
pub struct Inserted {
    /// The node, with the point; if memory was refused, with the points that it had.
    pub node: Node,
    /// Whether memory was refused.
    pub refused: bool,
    /// The turns of the searches for bridges.
    pub turns: u32,
    /// The chains on which the point may be a vertex of the hull of all points below the node.
    pub sides: Affected,
}

/// Returns the sides on which the point at an index of a bucket is a vertex.
pub(crate) fn affected_at(bucket: &Bucket, place: usize, p: Point) -> Affected
    requires within { place < length bucket.now.points }
    requires there { point_at bucket.now.points place ≡ p }
    ensures { IsUnaffectedOver p result bucket.now.points }
{
    Affected {
        lower: bucket.is_vertex(Side::Lower, place),
        upper: bucket.is_vertex(Side::Upper, place),
    }
}

/// Inserts a new point at its index into a bucket with capacity left, with multiplicity one, and returns the sides on which it is a vertex there.
pub(crate) fn put_at(bucket: &mut Bucket, place: usize, p: Point) -> Affected
    requires position { IsPositionOf bucket.old.points p (Err place) }
    requires space { length bucket.old.points < BUCKET_SIZE }
    ensures points { bucket.new.points ≡ with_point p bucket.old.points }
    ensures multiplicities { (q : _) → counted bucket.new.points bucket.new.multiplicities q
        ≡ counted bucket.old.points bucket.old.multiplicities q + once p q }
    ensures unaffected { IsUnaffectedOver p result bucket.new.points }
{
    buckets_are_sound(bucket);
    bucket.insert(place, p, 1);
    affected_at(bucket, place, p)
}

/// Inserts a new point into a bucket with capacity left, with multiplicity one, and returns the sides on which it is a vertex there.
fn put(bucket: &mut Bucket, p: Point) -> Affected
    requires absent { ¬ Contains bucket.old.points p }
    requires space { length bucket.old.points < BUCKET_SIZE }
    ensures points { bucket.new.points ≡ with_point p bucket.old.points }
    ensures multiplicities { (q : _) → counted bucket.new.points bucket.new.multiplicities q
        ≡ counted bucket.old.points bucket.old.multiplicities q + once p q }
    ensures unaffected { IsUnaffectedOver p result bucket.new.points }
{
    let Err(place) = bucket.place_of(p) else {
        unreachable!()
    };
    put_at(bucket, place, p)
}

/// Inserts a new point into one of two leaves in a row, which both have capacity left.
fn put_in_either(first: &mut Bucket, second: &mut Bucket, p: Point)
    requires ordered { IsPointSet (first.old.points ++ second.old.points) }
    requires absent { ¬ Contains (first.old.points ++ second.old.points) p }
    requires first_space { length first.old.points < BUCKET_SIZE }
    requires second_space { length second.old.points < BUCKET_SIZE }
    ensures points { first.new.points ++ second.new.points ≡ with_point p (first.old.points ++ second.old.points) }
    ensures multiplicities { (q : _) → counted (first.new.points ++ second.new.points) (first.new.multiplicities ++ second.new.multiplicities) q
        ≡ counted (first.old.points ++ second.old.points) (first.old.multiplicities ++ second.old.multiplicities) q + once p q }
{
    buckets_are_sound(first);
    buckets_are_sound(second);
    if before(p, second.points()[0]) {
        let _ = put(first, p);
        buckets_are_sound(first);
        return;
    }
    let _ = put(second, p);
}

/// Divides a full bucket's points, and a new point that another bucket holds alone, between the two, all of the first before all of the second: in
/// the middle, or, if the new point is before or after all others, between it and them. So points that come in order fill each bucket.
fn divide(first: &mut Bucket, second: &mut Bucket, p: Point)
    requires full { length first.old.points ≡ BUCKET_SIZE }
    requires absent { ¬ Contains first.old.points p }
    requires alone { second.old.points ≡ p ∷ [] }
    requires once { second.old.multiplicities ≡ 1 ∷ [] }
    ensures points { first.new.points ++ second.new.points ≡ with_point p first.old.points }
    ensures multiplicities { (q : _) → counted (first.new.points ++ second.new.points)
        (first.new.multiplicities ++ second.new.multiplicities) q ≡ counted first.old.points first.old.multiplicities q + once p q }
{
    buckets_are_sound(first);
    let points = first.points();
    if before(points[points.len() - 1], p) {
        return;
    }
    if before(p, points[0]) {
        mem::swap(first, second);
        return;
    }
    *second = first.split();
    put_in_either(first, second, p);
}

/// Returns a bucket that had capacity left with a new point, and the sides on which that is a vertex.
fn grown(mut bucket: Box<Bucket, Heap>, p: Point) -> (Node, Affected)
    requires absent { ¬ Contains bucket.value.points p }
    requires space { length bucket.value.points < BUCKET_SIZE }
    ensures built { IsWellBuilt result.0 }
    ensures gained { HasGained false p (Leaf bucket) result.0 }
    ensures height { node_height result.0 ≡ 0 }
    ensures unaffected { IsUnaffectedOver p result.1 (points_below result.0) }
{
    let sides = put(&mut bucket, p);
    buckets_are_sound(&bucket);
    (Node::Leaf(bucket), sides)
}

/// Returns a bucket unchanged, since memory was refused.
fn unchanged(bucket: Box<Bucket, Heap>) -> Inserted
    ensures node { result.node ≡ Leaf bucket }
    ensures refused { result.refused ≡ true }
    ensures turns { result.turns ≡ 0 }
{
    Inserted {
        node: Node::Leaf(bucket),
        refused: true,
        turns: 0,
        sides: Affected {
            lower: false,
            upper: false,
        },
    }
}

/// Inserts a new point into a bucket; if the bucket is full, makes a fork of it first.
fn insert_leaf(alloc: Heap, mut bucket: Box<Bucket, Heap>, p: Point) -> Inserted
    requires built { IsWellBuilt (Leaf bucket) }
    requires absent { ¬ Contains bucket.value.points p }
    ensures built { IsWellBuilt result.node }
    ensures gained { HasGained result.refused p (Leaf bucket) result.node }
    ensures height { IsNoMuchHigher (Leaf bucket) result.node }
    ensures turns { result.turns ≤ 24 }
    ensures unaffected { result.refused ≡ false → IsUnaffectedOver p result.sides (points_below result.node) }
{
    if !bucket.is_full() {
        let (node, sides) = grown(bucket, p);
        return Inserted {
            node,
            refused: false,
            turns: 0,
            sides,
        };
    }
    let Ok(place) = blank(alloc, p) else {
        return unchanged(bucket);
    };
    let Ok(mut second) = Box::new(alloc, Bucket::new(p, 1)) else {
        return unchanged(bucket);
    };
    divide(&mut bucket, &mut second, p);
    buckets_are_sound(&bucket);
    buckets_are_sound(&second);
    let (node, turns) = join(Node::Leaf(bucket), Node::Leaf(second), place);
    Inserted {
        node,
        refused: false,
        turns,
        sides: Affected {
            lower: true,
            upper: true,
        },
    }
}

/// Returns the bucket that a node is.
pub(crate) fn bucket_of(node: Node) -> Box<Bucket, Heap>
    requires built { IsWellBuilt node }
    requires leaf { node_height node ≡ 0 }
    ensures { node ≡ Leaf result }
{
    let Node::Leaf(bucket) = node else {
        unreachable!()
    };
    bucket
}

/// Adds a new point below a node.
pub fn insert(alloc: Heap, node: Node, p: Point) -> Inserted
    requires built { IsWellBuilt node }
    requires absent { ¬ Contains (points_below node) p }
    requires few { length (points_below node) < POINT_LIMIT }
    requires low { node_height node ≤ 28 }
    ensures built { IsWellBuilt result.node }
    ensures gained { HasGained result.refused p node result.node }
    ensures height { IsNoMuchHigher node result.node }
    ensures turns { result.turns ≤ most_turns (node_height node) }
    ensures unaffected { result.refused ≡ false → IsUnaffectedOver p result.sides (points_below result.node) }
{
    match node {
        Node::Leaf(bucket) => insert_leaf(alloc, bucket, p),
        Node::Fork(_, mut place) => {
            let is_left = before(p, place.right_ends.first);
            let half = mem::replace(place.half_mut(is_left), Node::Taken);
            let change = insert(alloc, half, p);
            *place.half_mut(is_left) = change.node;
            let above = balance(
                place,
                is_left,
                p,
                change_at(is_left, !change.refused),
                change.sides,
            );
            Inserted {
                node: above.node,
                refused: change.refused,
                turns: above.turns + change.turns,
                sides: above.sides,
            }
        }
        Node::Taken => unreachable!(),
    }
}
