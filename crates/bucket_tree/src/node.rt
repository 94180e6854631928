//! The nodes of the tree.
ghost use Rattle.std.specs.Prelude.{◌≡◌};
ghost use Rattle.bucket_tree.specs.Changes.{IsSameBut, edge_on};
ghost use Rattle.bucket_tree.specs.Nodes.{points_below, ends_in, node_height, HasBuckets, IsLabelled};

use heap::Heap;
use hull_buckets::Bucket;
use lattice::{Point, Side};

/// A subtree: a bucket, or a fork over two subtrees with its height.
///
/// The height is stored next to the pointer, so that a fork is balanced without reading what is below its halves.
#[cycle(node)]
#[derive(Drop)]
pub enum Node {
    /// A bucket.
    Leaf(Box<Bucket, Heap>),
    /// A fork and its height: the number of forks on the longest path to a bucket, this one included.
    Fork(u16, Box<Fork, Heap>),
    /// Nothing: it is in the place from which a node was taken out, while the fork there is rebuilt.
    Taken,
}

/// The first and the last point of a subtree.
#[derive(Clone, Copy)]
pub(crate) struct Ends {
    pub(crate) first: Point,
    pub(crate) last: Point,
}

/// The two halves of a fork, all points of the left one before all of the right one, the ends of each, and their
/// bridges.
///
/// What the way down to a point reads is first, so that it is on one line of the cache if the block begins at one; then the upper bridge on the next
/// line, and the lower one on the last.
#[cycle(node)]
#[derive(Drop)]
pub struct Fork {
    pub(crate) left: Node,
    pub(crate) right: Node,
    pub(crate) right_ends: Ends,
    pub(crate) upper: (Point, Point),
    pub(crate) left_ends: Ends,
    pub(crate) lower: (Point, Point),
}

impl Fork {
    ghost use Rattle.std.specs.Borrow.{sem};
    ghost use Rattle.bucket_tree.specs.Halves.{LendsHalf, half_of};

    /// Returns the left half, or else the right one.
    #[inline(always)]
    pub(crate) fn half_mut(&mut self, is_left: bool) -> &mut Node
        ensures* writes_back { sem 𝓛 (LendsHalf self.entry is_left result) }
        ensures value { result.now ≡ half_of is_left self.old }
    {
        if is_left {
            &mut self.left
        } else {
            &mut self.right
        }
    }

    /// Returns the edge on a side.
    pub(crate) fn edge(&self, side: Side) -> &(Point, Point)
        ensures { result.now ≡ edge_on side self.now }
    {
        match side {
            Side::Lower => &self.lower,
            Side::Upper => &self.upper,
        }
    }

    /// Replaces the edge on a side.
    pub(crate) fn set_edge(&mut self, side: Side, edge: (Point, Point))
        ensures same { IsSameBut side self.old self.new }
        ensures edge { edge_on side self.new ≡ edge }
    {
        match side {
            Side::Lower => self.lower = edge,
            Side::Upper => self.upper = edge,
        }
    }
}

/// Returns the first and the last point below a node. A fork stores those of its halves, so this takes one step.
#[inline(never)]
pub(crate) fn ends_of(node: &Node) -> Ends
    requires buckets { HasBuckets node.now }
    requires labelled { IsLabelled node.now }
    ensures { result ≡ ends_in (points_below node.now) }
{
    match node {
        Node::Leaf(bucket) => {
            let points = bucket.points();
            Ends {
                first: points[0],
                last: points[points.len() - 1],
            }
        }
        Node::Fork(_, fork) => Ends {
            first: fork.left_ends.first,
            last: fork.right_ends.last,
        },
        Node::Taken => unreachable!(),
    }
}

/// Returns the height of a node: the number of forks above its deepest bucket.
pub(crate) fn height_of(node: &Node) -> u16
    requires { IsLabelled node.now }
    ensures { result ≡ node_height node.now }
{
    match node {
        Node::Leaf(_) => 0,
        Node::Fork(height, _) => *height,
        Node::Taken => 0,
    }
}
