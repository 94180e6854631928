//! The vertices of the hull of the vertices below a node: one walk along each chain, counterclockwise.
//!
//! A walk goes down the stored bridges, through the forks above those that are edges of the chain, each once, and lists the run of a bucket's chain
//! by its mask.
ghost use Rattle.std.specs.Prelude.{◌≡◌, ◌≤◌, ◌↔◌, IfOk, IsTrue, vec_len};
ghost use Rattle.lattice.specs.Vertices.{IsVertexList};
ghost use Rattle.bridge_search.specs.Leaves.{points_of};
ghost use Rattle.bridge_search.specs.Trees.{IsBridged, size_of};
ghost use Rattle.hull_geometry.specs.Edges.{IsAlong};
ghost use Rattle.bucket_tree.specs.Chains.{HasRange, IsPassage};
ghost use Rattle.bucket_tree.specs.Nodes.{tree_of, tree_at, IsWhole, AreWhole};
ghost use Rattle.bucket_tree.specs.Runs.{IsListedOn, IsRangeOn};

use crate::node::{Fork, Node};
use crate::part::{first_vertex, last_vertex};
use crate::runs::push_bucket_run;
use heap::Heap;
use hull_buckets::BUCKET_SIZE;
use lattice::{Point, Side, before};
use std::alloc::AllocError;

/// The halves of a fork and the ends of its bridge, in the order in which a walk along a chain passes them.
#[derive(Clone, Copy)]
struct Passage<'a> {
    first: &'a Node,
    start: &'a Point,
    end: &'a Point,
    last: &'a Node,
}

/// Returns the order in which a walk along the chain on a side passes a fork: from left to right on the lower side, back on the upper one.
#[inline(always)]
fn passage_on(fork: &Fork, side: Side) -> Passage<'_>
    ensures { IsPassage side fork.now result }
{
    match side {
        Side::Lower => Passage {
            first: &fork.left,
            start: &fork.lower.0,
            end: &fork.lower.1,
            last: &fork.right,
        },
        Side::Upper => Passage {
            first: &fork.right,
            start: &fork.upper.1,
            end: &fork.upper.0,
            last: &fork.left,
        },
    }
}

/// Whether a walk along the chain on a side goes from one point on to another.
#[inline(always)]
fn is_along(side: Side, p: Point, q: Point) -> bool
    ensures { IsTrue result ↔ IsAlong side p q }
{
    match side {
        Side::Lower => before(p, q),
        Side::Upper => before(q, p),
    }
}

/// Appends the vertices of the chain on a side below a node from one to another, which is left out.
#[cycle(ranges)]
#[inline(always)]
fn push_range(
    node: &Node,
    side: Side,
    from: &Point,
    to: &Point,
    out: &mut Vec<Point, Heap>,
) -> Result<(), AllocError>
    requires { HasRange side node.now from.now to.now }
    ensures { IfOk result (λ _. IsListedOn side (tree_of node.now) from.now to.now out.old.items out.new.items) }
{
    if *from == *to {
        return Ok(());
    }
    push_long_range(node, side, from, to, out)
}

/// Appends the vertices of the chain on a side below a node from one to another, which is left out, and of which some edges lie between.
#[cycle(ranges)]
fn push_long_range(
    node: &Node,
    side: Side,
    from: &Point,
    to: &Point,
    out: &mut Vec<Point, Heap>,
) -> Result<(), AllocError>
    requires { HasRange side node.now from.now to.now }
    ensures { IfOk result (λ _. IsListedOn side (tree_of node.now) from.now to.now out.old.items out.new.items) }
{
    match node {
        Node::Leaf(bucket) => push_bucket_run(bucket, side, *from, *to, out),
        Node::Fork(_, fork) => push_through(fork, side, from, to, out),
        Node::Taken => unreachable!(),
    }
}

/// Appends the vertices of the chain on a side below a fork from one to another, which is left out.
#[cycle(ranges)]
#[inline(always)]
fn push_through(
    fork: &Fork,
    side: Side,
    from: &Point,
    to: &Point,
    out: &mut Vec<Point, Heap>,
) -> Result<(), AllocError>
    requires whole { AreWhole fork.now }
    requires bridged { IsBridged (tree_at fork.now) }
    requires between { IsRangeOn side (tree_at fork.now) from.now to.now }
    ensures { IfOk result (λ _. IsListedOn side (tree_at fork.now) from.now to.now out.old.items out.new.items) }
{
    let passage = passage_on(fork, side);
    if !is_along(side, *passage.start, *to) {
        return push_long_range(passage.first, side, from, to, out);
    }
    if !is_along(side, *from, *passage.end) {
        return push_long_range(passage.last, side, from, to, out);
    }
    push_range(passage.first, side, from, passage.start, out)?;
    out.push(*passage.start)?;
    push_range(passage.last, side, passage.end, to, out)
}

/// Returns a capacity for the vertices below a node, which a long list exceeds: as many as there are points in a bucket.
fn first_capacity(node: &Node) -> usize {
    match node {
        Node::Leaf(bucket) => bucket.points().len(),
        _ => BUCKET_SIZE,
    }
}

/// Returns the vertices of the hull of the vertices below a node, counterclockwise from the first; no more than there are vertices. Fails only if
/// `alloc` refuses memory.
pub(crate) fn vertices_of(alloc: Heap, node: &Node) -> Result<Vec<Point, Heap>, AllocError>
    requires whole { IsWhole node.now }
    requires bridged { IsBridged (tree_of node.now) }
    ensures vertices { IfOk result (λ v. IsVertexList (points_of (tree_of node.now)) v.items) }
    ensures few { IfOk result (λ v. vec_len v ≤ size_of (tree_of node.now)) }
{
    let (first, last) = (first_vertex(node), last_vertex(node));
    let mut out = Vec::with_capacity(alloc, first_capacity(node))?;
    if before(first, last) {
        push_range(node, Side::Lower, &first, &last, &mut out)?;
        push_range(node, Side::Upper, &last, &first, &mut out)?;
    } else {
        out.push(first)?;
    }
    Ok(out)
}
