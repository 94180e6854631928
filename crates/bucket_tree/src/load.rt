//! Trees that are built at once.
ghost use Rattle.std.specs.Prelude.{◌≡◌, ◌≤◌, ◌∷◌, [], IfOk, length};
ghost use Rattle.hull_set.specs.declared.TheConstants.{POINT_LIMIT};
ghost use Rattle.leaf_trees.specs.Entries.{AreEntries, points_listed};
ghost use Rattle.bucket_tree.specs.Loads.{AreParts, IsLoad};
ghost use Rattle.bucket_tree.specs.Lists.{numbers_listed};
ghost use Rattle.bucket_tree.specs.Nodes.{IsWellBuilt, points_below, multiplicities_below, node_height};

use crate::join::join;
use crate::node::{Ends, Fork, Node};
use heap::Heap;
use hull_buckets::{BUCKET_SIZE, Bucket, buckets_are_sound};
use lattice::Point;
use std::alloc::AllocError;

/// Allocates the box of a fork that is made later.
pub(crate) fn blank(alloc: Heap, point: Point) -> Result<Box<Fork, Heap>, AllocError> {
    let ends = Ends {
        first: point,
        last: point,
    };
    let fork = Fork {
        right_ends: ends,
        left: Node::Taken,
        right: Node::Taken,
        left_ends: ends,
        upper: (point, point),
        lower: (point, point),
    };
    Ok(Box::new(alloc, fork)?)
}

/// Makes one bucket of points in order, each with its multiplicity.
fn leaf(alloc: Heap, points: &[Point], multiplicities: &[u16]) -> Result<Node, AllocError>
    requires { IsLoad points.now multiplicities.now 0 }
    ensures built { IfOk result IsWellBuilt }
    ensures points { IfOk result (λ n. points_below n ≡ points.now) }
    ensures multiplicities { IfOk result (λ n. multiplicities_below n ≡ multiplicities.now) }
    ensures height { IfOk result (λ n. node_height n ≡ 0) }
{
    let bucket = Bucket::from_parts(points, multiplicities);
    buckets_are_sound(&bucket);
    Ok(Node::Leaf(Box::new(alloc, bucket)?))
}

/// Makes the tree of points in order, each with its multiplicity, with this many forks above each bucket. Fails only if `alloc` refuses memory.
fn build(
    alloc: Heap,
    points: &[Point],
    multiplicities: &[u16],
    forks: u16,
) -> Result<Node, AllocError>
    requires { IsLoad points.now multiplicities.now forks }
    ensures built { IfOk result IsWellBuilt }
    ensures points { IfOk result (λ n. points_below n ≡ points.now) }
    ensures multiplicities { IfOk result (λ n. multiplicities_below n ≡ multiplicities.now) }
    ensures height { IfOk result (λ n. node_height n ≡ forks) }
{
    if forks == 0 {
        return leaf(alloc, points, multiplicities);
    }
    let middle = points.len() / 2;
    let (first, second) = points.split_at(middle);
    let (first_multiplicities, second_multiplicities) = multiplicities.split_at(middle);
    let left = build(alloc, first, first_multiplicities, forks - 1)?;
    let right = build(alloc, second, second_multiplicities, forks - 1)?;
    let place = blank(alloc, points[0])?;
    Ok(join(left, right, place).0)
}

/// Makes the tree of points in order, each with its multiplicity, with the least possible height. Fails only if `alloc` refuses memory.
pub fn from_parts(alloc: Heap, points: &[Point], multiplicities: &[u16]) -> Result<Node, AllocError>
    requires { AreParts points.now multiplicities.now }
    ensures built { IfOk result IsWellBuilt }
    ensures points { IfOk result (λ n. points_below n ≡ points.now) }
    ensures multiplicities { IfOk result (λ n. multiplicities_below n ≡ multiplicities.now) }
{
    let mut forks = 0;
    let mut space = BUCKET_SIZE;
    while space < points.len() {
        forks += 1;
        space *= 2;
    }
    build(alloc, points, multiplicities, forks)
}

/// Returns the points of entries, and their multiplicities.
fn separated(
    alloc: Heap,
    entries: &[(Point, u32)],
) -> Result<(Vec<Point, Heap>, Vec<u16, Heap>), AllocError>
    requires { AreEntries entries.now }
    ensures points { IfOk result (λ lists. lists.0.items ≡ points_listed entries.now) }
    ensures multiplicities { IfOk result (λ lists. lists.1.items ≡ numbers_listed entries.now) }
{
    let mut points = Vec::with_capacity(alloc, entries.len())?;
    let mut multiplicities = Vec::with_capacity(alloc, entries.len())?;
    for i in 0..entries.len() {
        points.push_reserved(entries[i].0);
        multiplicities.push_reserved(entries[i].1 as u16);
    }
    Ok((points, multiplicities))
}

/// Makes the tree of points in order, each with its multiplicity. Fails only if `alloc` refuses memory.
pub(crate) fn from_entries(alloc: Heap, entries: &[(Point, u32)]) -> Result<Node, AllocError>
    requires entries { AreEntries entries.now }
    requires some { 1 ≤ length entries.now }
    requires few { length entries.now ≤ POINT_LIMIT }
    ensures built { IfOk result IsWellBuilt }
    ensures points { IfOk result (λ n. points_below n ≡ points_listed entries.now) }
    ensures multiplicities { IfOk result (λ n. multiplicities_below n ≡ numbers_listed entries.now) }
{
    let (points, multiplicities) = separated(alloc, entries)?;
    from_parts(alloc, &points, &multiplicities)
}

/// Makes the tree of one point, with multiplicity one.
pub(crate) fn first_leaf(alloc: Heap, p: Point) -> Result<Node, AllocError>
    ensures built { IfOk result IsWellBuilt }
    ensures points { IfOk result (λ n. points_below n ≡ p ∷ []) }
    ensures multiplicities { IfOk result (λ n. multiplicities_below n ≡ 1 ∷ []) }
{
    let bucket = Bucket::new(p, 1);
    buckets_are_sound(&bucket);
    Ok(Node::Leaf(Box::new(alloc, bucket)?))
}
