//! Listing the vertices of a bucket's chain.
ghost use Rattle.std.specs.Prelude.{IfOk};
ghost use Rattle.bucket_tree.specs.Nodes.{tree_of_bucket};
ghost use Rattle.bucket_tree.specs.Runs.{IsListedOn, IsRangeOn, IsRunOf, IsRunTo, IsAhead, IsInOrder};

use heap::Heap;
use hull_buckets::{Bucket, ChainWalk, buckets_are_sound};
use lattice::{Point, Side};
use std::alloc::AllocError;

/// Appends `from` and the points that the walk passes up to `to`, without `to`.
fn push_run_to(
    walk: ChainWalk<'_>,
    from: Point,
    to: Point,
    out: &mut Vec<Point, Heap>,
) -> Result<(), AllocError>
    requires { IsAhead walk from to }
    ensures { IfOk result (λ _. IsRunTo walk.entry from to out.old.items out.new.items) }
{
    let mut walk = walk;
    let mut last = from;
    while last != to {
        out.push(last)?;
        let Some(next) = walk.next() else {
            unreachable!()
        };
        last = next;
    }
    Ok(())
}

/// Appends the points of the walk from `from` up to `to`, without `to`.
fn push_run_of(
    walk: ChainWalk<'_>,
    from: Point,
    to: Point,
    out: &mut Vec<Point, Heap>,
) -> Result<(), AllocError>
    requires { IsInOrder walk from to }
    ensures { IfOk result (λ _. IsRunOf walk.entry from to out.old.items out.new.items) }
{
    let mut walk = walk;
    while let Some(next) = walk.next() {
        if next == from {
            return push_run_to(walk, from, to, out);
        }
    }
    unreachable!()
}

/// Appends the vertices of the chain of a bucket on a side from one to another, which is left out.
pub(crate) fn push_bucket_run(
    bucket: &Bucket,
    side: Side,
    from: Point,
    to: Point,
    out: &mut Vec<Point, Heap>,
) -> Result<(), AllocError>
    requires { IsRangeOn side (tree_of_bucket bucket.now) from to }
    ensures { IfOk result (λ _. IsListedOn side (tree_of_bucket bucket.now) from to out.old.items out.new.items) }
{
    buckets_are_sound(bucket);
    push_run_of(ChainWalk::new(bucket, side), from, to, out)
}
