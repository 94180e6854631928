ghost use Rattle.std.specs.Prelude.{◌≡◌, option_map};
ghost use Rattle.std.specs.Borrow.{Bor};
ghost use Rattle.lattice.specs.Plane.{Pair};
ghost use Rattle.bridge_search.specs.Trees.{Leaf, edge_of, lower_of, first_of as first_in, last_of as last_in};
ghost use Rattle.bridge_search.specs.Trees.{height_of as height_in};
ghost use Rattle.bridge_search.specs.Near.{are_near};
ghost use Rattle.hull_tree.specs.declared.node.Node.{Node};
ghost use Rattle.hull_tree.specs.Nodes.{tree_of, halves_of, point_of, multiplicity_of, multiplicity_below};
ghost use Rattle.hull_tree.specs.Nodes.{IsLabelled};
ghost use Rattle.leaf_trees.specs.Entries.{several, IsMultiplicity};

use heap::Heap;
use lattice::{Point, is_near};

/// A subtree: one point, or a fork over two subtrees.
///
/// It stores its two bridges and its height itself, next to the pointer to its halves: so a search that goes down a half reads the edges that it
/// compares from the node where it is. For a point, both ends of both edges are that point, and `multiplicity` is its multiplicity; for a fork `multiplicity` has
/// no meaning. `near` is whether all its points are near: such halves are compared in 64 bits.
#[cycle(node)]
#[derive(Drop)]
pub struct Node {
    pub(crate) upper: (Point, Point),
    pub(crate) lower: (Point, Point),
    pub(crate) height: u16,
    pub(crate) near: bool,
    pub(crate) multiplicity: u32,
    pub(crate) below: Option<Box<Halves, Heap>>,
}

/// The two halves of a fork, all points of the left one before all of the right one, and the two points at their split.
#[cycle(node)]
#[derive(Drop)]
pub struct Halves {
    pub(crate) left: Node,
    pub(crate) right: Node,
    pub(crate) last_left: Point,
    pub(crate) right_first: Point,
}

impl Node {
    /// Makes the node of one point with its multiplicity.
    pub(crate) fn leaf(point: Point, multiplicity: u32) -> Node
        requires { IsMultiplicity multiplicity }
        ensures tree { tree_of result ≡ Leaf point }
        ensures multiplicities { (q : Pair) → multiplicity_below result q ≡ several multiplicity point q }
        ensures labelled { IsLabelled result }
    {
        Node {
            upper: (point, point),
            lower: (point, point),
            height: 0,
            near: is_near(point),
            multiplicity,
            below: None,
        }
    }

    /// Returns the upper bridge that a fork stores, from its end in the left half to its end in the right one; `None` for a leaf.
    pub fn upper(&self) -> Option<&(Point, Point)>
        ensures { option_map (λ (e : Bor (Pair × Pair)). e.now) result ≡ edge_of (tree_of self.now) }
    {
        match &self.below {
            None => None,
            Some(_) => Some(&self.upper),
        }
    }

    /// Returns the lower bridge that a fork stores, from its end in the left half to its end in the right one; `None` for a leaf.
    pub fn lower(&self) -> Option<&(Point, Point)>
        ensures { option_map (λ (e : Bor (Pair × Pair)). e.now) result ≡ lower_of (tree_of self.now) }
    {
        match &self.below {
            None => None,
            Some(_) => Some(&self.lower),
        }
    }

    /// Returns the left and the right half of a fork; `None` for a leaf.
    pub fn halves(&self) -> Option<(&Node, &Node)>
        ensures { option_map (λ (e : Bor Node × Bor Node). (e.0.now, e.1.now)) result ≡ halves_of self.now }
    {
        match &self.below {
            None => None,
            Some(halves) => Some((&halves.left, &halves.right)),
        }
    }

    /// Returns the point of a leaf; `None` for a fork.
    pub fn point(&self) -> Option<Point>
        ensures { result ≡ point_of self.now }
    {
        match &self.below {
            None => Some(self.upper.0),
            Some(_) => None,
        }
    }

    /// Returns the multiplicity of the point of a leaf; `None` for a fork.
    pub fn multiplicity(&self) -> Option<u32>
        ensures { result ≡ multiplicity_of self.now }
    {
        match &self.below {
            None => Some(self.multiplicity),
            Some(_) => None,
        }
    }
}

/// Returns the first point below a node: one step a level.
pub(crate) fn first_of(node: &Node) -> Point
    ensures { result ≡ first_in (tree_of node.now) }
{
    match &node.below {
        None => node.upper.0,
        Some(halves) => first_of(&halves.left),
    }
}

/// Returns the last point below a node: one step a level.
pub(crate) fn last_of(node: &Node) -> Point
    ensures { result ≡ last_in (tree_of node.now) }
{
    match &node.below {
        None => node.upper.0,
        Some(halves) => last_of(&halves.right),
    }
}

/// Returns the height of a node: the number of forks above its deepest point.
pub(crate) fn height_of(node: &Node) -> u32
    requires { IsLabelled node.now }
    ensures { result ≡ height_in (tree_of node.now) }
{
    u32::from(node.height)
}

/// Whether all points below a node are near.
pub(crate) fn near_of(node: &Node) -> bool
    requires { IsLabelled node.now }
    ensures { result ≡ are_near (tree_of node.now) }
{
    node.near
}
