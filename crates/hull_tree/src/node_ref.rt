ghost use Rattle.std.specs.Prelude.{◌≡◌, ◌≤◌};
ghost use Rattle.lattice.specs.Plane as plane;
ghost use Rattle.lattice.specs.Plane.{IsWithin, widest_side};
ghost use Rattle.bridge_search.specs.Trees.{IsBridged, highest};
ghost use Rattle.bridge_search.specs.OneWay.{IsBridged-prop};
ghost use Rattle.hull_tree.specs.Nodes.{tree_of, IsLabelled, IsWellBuilt};
ghost use Rattle.hull_tree.specs.Changes.{height_at};
ghost use Rattle.hull_tree.specs.OneWay.{IsLabelled-prop};

use super::node::{Node, first_of, height_of, last_of};
use bridge_search::Half;
use lattice::{Point, orient};

/// A borrowed node that is well built: the half of a hull that the bridge search and the questions walk down.
#[derive(Clone, Copy)]
pub struct NodeRef<'a> {
    node: &'a Node,
    ghost bridged: { IsBridged (tree_of node.now) } by { IsBridged-prop (tree_of node.now) },
    ghost labelled: { IsLabelled node.now } by { IsLabelled-prop node.now },
    ghost low: { height_at node.now ≤ highest },
}

impl<'a> NodeRef<'a> {
    /// Returns a well-built node as a half. (The nodes of a [`HullTree`](crate::HullTree) are at most 28 high.)
    pub fn new(node: &'a Node) -> NodeRef<'a>
        requires built { IsWellBuilt node.now }
        requires low { height_at node.now ≤ highest }
        ensures { ⟦<NodeRef<'a> as Half>⟧.tree result ≡ tree_of node.now }
    {
        NodeRef { node }
    }
}

impl<'a> Half for NodeRef<'a> {
    ghost tree = { λ s. tree_of s.node.now };

    ghost Fits = { λ p. Unit {0} };

    fn orient(a: Point, b: Point, c: Point) -> i128
        ensures value { result ≡ plane.orient a b c }
        ensures size { IsWithin widest_side result }
    {
        orient(a, b, c)
    }

    fn edge(self) -> Option<(Point, Point)> {
        match &self.node.below {
            None => None,
            Some(_) => Some(self.node.upper),
        }
    }

    fn lower(self) -> Option<(Point, Point)> {
        match &self.node.below {
            None => None,
            Some(_) => Some(self.node.lower),
        }
    }

    fn left(self) -> Self {
        match &self.node.below {
            None => self,
            Some(halves) => NodeRef { node: &halves.left },
        }
    }

    fn right(self) -> Self {
        match &self.node.below {
            None => self,
            Some(halves) => NodeRef {
                node: &halves.right,
            },
        }
    }

    fn first(self) -> Point {
        first_of(self.node)
    }

    fn last(self) -> Point {
        last_of(self.node)
    }

    fn height(self) -> u32 {
        height_of(self.node)
    }

    ghost bridged = { λ s. s.bridged };

    ghost low = { λ s. s.low };

    ghost fits = { λ s p i. tt };

    ghost turned_fits = { λ p i. tt };
}
