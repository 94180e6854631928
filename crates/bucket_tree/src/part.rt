//! Borrowed subtrees, as halves of a hull.
ghost use Rattle.std.specs.Prelude.{◌≡◌, ◌≤◌};
ghost use Rattle.lattice.specs.Plane as plane;
ghost use Rattle.lattice.specs.Plane.{IsWithin, widest_side};
ghost use Rattle.bridge_search.specs.Trees.{IsBridged, height_of as height_in, highest, first_of as first_in};
ghost use Rattle.bridge_search.specs.Trees.{last_of as last_in};
ghost use Rattle.bucket_tree.specs.Nodes.{tree_of, IsWhole};
ghost use Rattle.bucket_tree.specs.Parts.{part_tree, part_bridged, part_low};

use crate::fork_ref::ForkRef;
use crate::node::Node;
use bridge_search::Half;
use hull_buckets::Slice;
use lattice::{Point, orient};

/// A borrowed subtree: a fork, or neighbouring vertices of a bucket. It is the half of a hull that searches and questions go down, over vertices
/// only.
#[derive(Clone, Copy)]
pub enum Part<'a> {
    /// A fork.
    Fork(ForkRef<'a>),
    /// Neighbouring vertices of a bucket.
    Slice(Slice<'a>),
}

impl<'a> Part<'a> {
    /// Returns a node as a half.
    pub fn new(node: &'a Node) -> Part<'a>
        requires whole { IsWhole node.now }
        requires bridged { IsBridged (tree_of node.now) }
        requires low { height_in (tree_of node.now) ≤ highest }
        ensures { ⟦<Part<'a> as Half>⟧.tree result ≡ tree_of node.now }
    {
        match node {
            Node::Leaf(bucket) => Part::Slice(Slice::new(bucket)),
            Node::Fork(_, fork) => Part::Fork(ForkRef { fork }),
            Node::Taken => unreachable!(),
        }
    }
}

/// Returns the first vertex below a node: one step a level.
pub(crate) fn first_vertex(node: &Node) -> Point
    requires { IsWhole node.now }
    ensures { result ≡ first_in (tree_of node.now) }
{
    match node {
        Node::Leaf(bucket) => Slice::new(bucket).first(),
        Node::Fork(_, fork) => first_vertex(&fork.left),
        Node::Taken => unreachable!(),
    }
}

/// Returns the last vertex below a node: one step a level.
pub(crate) fn last_vertex(node: &Node) -> Point
    requires { IsWhole node.now }
    ensures { result ≡ last_in (tree_of node.now) }
{
    match node {
        Node::Leaf(bucket) => Slice::new(bucket).last(),
        Node::Fork(_, fork) => last_vertex(&fork.right),
        Node::Taken => unreachable!(),
    }
}

/// Returns the number of forks above the deepest vertex below a node, those of its buckets' slices included.
fn vertex_height(node: &Node) -> u32
    requires whole { IsWhole node.now }
    requires low { height_in (tree_of node.now) ≤ highest }
    ensures { result ≡ height_in (tree_of node.now) }
{
    match node {
        Node::Leaf(bucket) => Slice::new(bucket).height(),
        Node::Fork(_, fork) => vertex_height(&fork.left).max(vertex_height(&fork.right)) + 1,
        Node::Taken => unreachable!(),
    }
}

impl<'a> Half for Part<'a> {
    ghost tree = { part_tree };

    ghost Fits = { λ p. Unit {0} };

    fn orient(a: Point, b: Point, c: Point) -> i128
        ensures value { result ≡ plane.orient a b c }
        ensures size { IsWithin widest_side result }
    {
        orient(a, b, c)
    }

    fn edge(self) -> Option<(Point, Point)> {
        match self {
            Part::Fork(part) => Some(part.fork.upper),
            Part::Slice(slice) => slice.edge(),
        }
    }

    fn lower(self) -> Option<(Point, Point)> {
        match self {
            Part::Fork(part) => Some(part.fork.lower),
            Part::Slice(slice) => slice.lower(),
        }
    }

    fn left(self) -> Self {
        match self {
            Part::Fork(part) => Part::new(&part.fork.left),
            Part::Slice(slice) => Part::Slice(slice.left()),
        }
    }

    fn right(self) -> Self {
        match self {
            Part::Fork(part) => Part::new(&part.fork.right),
            Part::Slice(slice) => Part::Slice(slice.right()),
        }
    }

    fn first(self) -> Point {
        match self {
            Part::Fork(part) => first_vertex(&part.fork.left),
            Part::Slice(slice) => slice.first(),
        }
    }

    fn last(self) -> Point {
        match self {
            Part::Fork(part) => last_vertex(&part.fork.right),
            Part::Slice(slice) => slice.last(),
        }
    }

    fn height(self) -> u32 {
        match self {
            Part::Fork(part) => vertex_height(&part.fork.left).max(vertex_height(&part.fork.right))
                + 1,
            Part::Slice(slice) => slice.height(),
        }
    }

    ghost bridged = { part_bridged };

    ghost low = { part_low };

    ghost fits = { λ s p i. tt };

    ghost turned_fits = { λ p i. tt };
}
