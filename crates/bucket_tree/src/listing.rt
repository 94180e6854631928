//! Listing the points and bridges below a node.
ghost use Rattle.std.specs.Prelude.{◌≡◌, ◌≤◌, ◌+◌, ◌++◌, length, take, drop, vec_len, vec_capacity, OnOk};
ghost use Rattle.leaf_trees.specs.ChainRanges.{entries_from};
ghost use Rattle.bucket_tree.specs.Nodes.{points_below, HasBuckets, IsWellBuilt};
ghost use Rattle.bucket_tree.specs.Levels.{level_of};
ghost use Rattle.bucket_tree.specs.Lists.{paired, entries_below};

use crate::node::Node;
use heap::Heap;
use hull_buckets::{Bucket, buckets_are_sound};
use lattice::{Point, before};
use leaf_trees::Bridge;
use std::alloc::AllocError;

/// Appends points, each with its number, to entries with capacity for them.
fn push_all(points: &[Point], multiplicities: &[u16], entries: &mut Vec<(Point, u32), Heap>)
    requires counted { length multiplicities.now ≡ length points.now }
    requires space { vec_len entries.old + length points.now ≤ vec_capacity entries.old }
    ensures entries { entries.new.items ≡ entries.old.items ++ paired points.now multiplicities.now }
    ensures capacity { vec_capacity entries.new ≡ vec_capacity entries.old }
{
    for i in 0..points.len() {
        entries.push_reserved((points[i], u32::from(multiplicities[i])));
    }
}

/// Appends the points below a node in order, each with its multiplicity, to entries with capacity for them.
pub(crate) fn push_entries(node: &Node, entries: &mut Vec<(Point, u32), Heap>)
    requires buckets { HasBuckets node.now }
    requires space { vec_len entries.old + length (points_below node.now) ≤ vec_capacity entries.old }
    ensures entries { entries.new.items ≡ entries.old.items ++ entries_below node.now }
    ensures capacity { vec_capacity entries.new ≡ vec_capacity entries.old }
{
    match node {
        Node::Leaf(bucket) => push_all(bucket.points(), bucket.multiplicities(), entries),
        Node::Fork(_, fork) => {
            push_entries(&fork.left, entries);
            push_entries(&fork.right, entries);
        }
        Node::Taken => unreachable!(),
    }
}

/// Returns the index of the first point of a bucket that is not before `start`, or the number of its points.
fn first_from(bucket: &Bucket, start: Point) -> usize
    ensures within { result ≤ length bucket.now.points }
    ensures from { entries_from start (paired bucket.now.points bucket.now.multiplicities)
        ≡ drop result (paired bucket.now.points bucket.now.multiplicities) }
{
    buckets_are_sound(bucket);
    match bucket.place_of(start) {
        Ok(place) => place,
        Err(place) => place,
    }
}

/// Appends the points of a bucket that are not before `start`, in order, each with its multiplicity, until there are `most` entries.
fn push_bucket_from(
    bucket: &Bucket,
    start: Point,
    most: usize,
    entries: &mut Vec<(Point, u32), Heap>,
)
    requires few { vec_len entries.old ≤ most }
    requires space { most ≤ vec_capacity entries.old }
    ensures entries { entries.new.items
        ≡ take most (entries.old.items ++ entries_from start (paired bucket.now.points bucket.now.multiplicities)) }
    ensures capacity { vec_capacity entries.new ≡ vec_capacity entries.old }
{
    buckets_are_sound(bucket);
    let (points, multiplicities) = (bucket.points(), bucket.multiplicities());
    let first = first_from(bucket, start);
    let count = (points.len() - first).min(most - entries.len());
    push_all(
        &points[first..first + count],
        &multiplicities[first..first + count],
        entries,
    );
}

/// Appends the points below a node that are not before `start`, in order, each with its multiplicity, until there are `most` entries. Halves that end
/// before `start` are skipped.
pub(crate) fn push_from(
    node: &Node,
    start: Point,
    most: usize,
    entries: &mut Vec<(Point, u32), Heap>,
)
    requires built { IsWellBuilt node.now }
    requires few { vec_len entries.old ≤ most }
    requires space { most ≤ vec_capacity entries.old }
    ensures entries { entries.new.items ≡ take most (entries.old.items ++ entries_from start (entries_below node.now)) }
    ensures capacity { vec_capacity entries.new ≡ vec_capacity entries.old }
{
    if entries.len() == most {
        return;
    }
    match node {
        Node::Leaf(bucket) => push_bucket_from(bucket, start, most, entries),
        Node::Fork(_, fork) => {
            if !before(fork.left_ends.last, start) {
                push_from(&fork.left, start, most, entries);
            }
            push_from(&fork.right, start, most, entries);
        }
        Node::Taken => unreachable!(),
    }
}

/// Appends what the forks of a level store, from left to right; the node is on level `here`.
#[tactic(auto, unfolding(crate::specs::Levels::level_of))]
pub(crate) fn push_level(
    node: &Node,
    wanted: u32,
    here: u32,
    bridges: &mut Vec<Bridge, Heap>,
) -> Result<(), AllocError>
    requires { here ≤ wanted }
    ensures { OnOk result (bridges.new.items ≡ bridges.old.items ++ level_of wanted here node.now) }
{
    let Node::Fork(_, fork) = node else {
        return Ok(());
    };
    if here < wanted {
        push_level(&fork.left, wanted, here + 1, bridges)?;
        return push_level(&fork.right, wanted, here + 1, bridges);
    }
    bridges.push(Bridge {
        level: wanted,
        upper: fork.upper,
        lower: fork.lower,
    })?;
    Ok(())
}
