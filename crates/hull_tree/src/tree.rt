ghost use Rattle.std.specs.Prelude.{◌≡◌, ◌≢◌, ◌≤◌, None, option_map, MatchOption, IfOk, IfErr};
ghost use Rattle.std.proofs.Common.{arith};
ghost use Rattle.hull_set.specs.Replies.{Answers, after, reply_to_add, reply_to_remove, reply_to_extreme};
ghost use Rattle.std.specs.Borrow.{Bor};
ghost use Rattle.hull_tree.specs.declared.node.Node.{Node};
ghost use Rattle.hull_tree.specs.Loaded.{entries_of_root};
ghost use Rattle.hull_tree.specs.Roots.{held_by, IsWellBuiltRoot};
ghost use Rattle.hull_tree.specs.Sets.{LimitedTree, IsSound, IsWhole};
ghost use Rattle.hull_tree.specs.Levels.{bridges_at};
ghost use Rattle.hull_tree.specs.Turns.{IsLeastCount, IsLeafDepth};

use super::chain_range::push_from;
use super::change::{find_multiplicity, insert, is_leaf, lower, raise, remove};
use super::joining::blank;
use super::levels::push_level;
use super::load::{node_over, push_entries};
use super::node::Node;
use super::node_ref::NodeRef;
use bridge_search::Half;
use heap::Heap;
use hull_questions::{area2, extreme_counted, place, tangents, vertices};
use hull_set::{
    AddReply, Call, HullSet, MULTIPLICITY_LIMIT, NoMemory, POINT_LIMIT, Place, RemoveReply, Rules,
};
use lattice::{Direction, Point};
use leaf_trees::{Bridge, Listed};
use std::marker::Model;

/// A set of points as a balanced leaf tree, whose forks store the bridges of their two halves, and whose leaves store the multiplicities of their
/// points.
///
/// `add` of a new point and `remove` of one with multiplicity one renew the forks on the way to the point and those that a rotation makes; every
/// other change is one way down, to the number in the point's leaf. Each question goes down the stored bridges. Only `add`, `vertices`, the entries
/// and `extend` allocate memory: `add` of a new point allocates one box, but none for the first point.
#[derive(Drop)]
pub struct HullTree {
    root: Option<Node>,
    count: u32,
    limit: u32,
    alloc: Heap,
}

impl Model for HullTree {
    ghost use Rattle.std.specs.Coded.{codes};
    ghost use Rattle.hull_tree.specs.contracts.node.Node as node;
    ghost use Rattle.hull_tree.specs.Sets.{LimitedTree, IsLimited};

    ghost Value = { LimitedTree };

    ghost coded = { Prim.hlevel (codes, node.the_row.coded) };

    ghost view = { λ t. record { limit = t.limit; root = t.root } };

    ghost invariant = { λ t. IsLimited t.root t.count t.limit };
}

impl HullTree {
    /// Makes the empty set, which takes at most `limit` points. Allocates no memory; later calls allocate from `alloc`.
    pub fn new(alloc: Heap, limit: u32) -> HullTree
        requires low { 1 ≤ limit }
        requires high { limit ≤ POINT_LIMIT }
        ensures { result ≡ record { limit = limit; root = None } }
    {
        HullTree {
            root: None,
            count: 0,
            limit,
            alloc,
        }
    }

    /// Returns the bridges that the forks of a level store, from left to right; the root is on level 0. Fails with `NoMemory` only if the set has
    /// points.
    pub fn bridges_at(&self, level: u32) -> Result<Vec<Bridge, Heap>, NoMemory>
        ensures bridges { IfOk result (λ bridges. bridges.items ≡ bridges_at level self.now.root) }
        ensures refused { IfErr result (λ _. self.now.root ≢ None) }
    {
        let mut bridges = Vec::new(self.alloc);
        if let Some(root) = &self.root {
            push_level(root, level, 0, &mut bridges)?;
        }
        Ok(bridges)
    }

    /// Returns the tree's root, borrowed; `None` for the empty set.
    pub fn root(&self) -> Option<&Node>
        ensures own { option_map (λ (n : Bor Node). n.now) result ≡ self.now.root }
        ensures built { IsWellBuiltRoot self.now.root }
    {
        match &self.root {
            None => None,
            Some(node) => Some(node),
        }
    }

    /// Returns the half that the whole tree is; `None` for the empty set.
    pub fn half<'a>(&'a self) -> Option<NodeRef<'a>>
        ensures { MatchOption result (self.now.root ≡ None)
            (λ half. IsWhole self.now (⟦<NodeRef<'a> as Half>⟧.tree half)) }
    {
        match &self.root {
            None => None,
            Some(node) => Some(NodeRef::new(node)),
        }
    }

    /// Adds `p` once, as [`add`](HullSet::add), and also returns how many turns the searches of bridges took.
    ///
    /// They are at most 10,000: a tree is at most 28 high, a change builds at most three forks a level and searches two bridges for each, and a
    /// search of two halves below it takes at most 56 turns. An added point takes at least the sum, over the forks that are above it afterwards, of
    /// the depths of both bridges' ends in that fork's halves: each of these bridges was searched for. Every other reply takes none.
    pub fn add_counted(&mut self, p: Point) -> (AddReply, u32)
        ensures reply { Answers Rules.Counted (held_by self.old.root) self.old.limit (Call.Add p)
            (reply_to_add result.0) }
        ensures effect { held_by self.new.root ≡ after (held_by self.old.root) (Call.Add p) (reply_to_add result.0) }
        ensures same_limit { self.new.limit ≡ self.old.limit }
        ensures sound { IsSound self.new.root }
        ensures few { result.1 ≤ 10000 }
        ensures least { IsLeastCount result.0 self.new.root p result.1 }
    {
        let Some(root) = &mut self.root else {
            self.root = Some(Node::leaf(p, 1));
            self.count = 1;
            return (AddReply::Added, 0);
        };
        let multiplicity = raise(root, p);
        if multiplicity == MULTIPLICITY_LIMIT {
            return (AddReply::TooMany, 0);
        }
        if multiplicity > 0 {
            return (AddReply::Again(multiplicity + 1), 0);
        }
        if self.count >= self.limit {
            return (AddReply::TooMany, 0);
        }
        let Ok(spare) = Box::new(self.alloc, blank(p)) else {
            return (AddReply::NoMemory, 0);
        };
        let turns = insert(root, p, spare);
        self.count += 1;
        (AddReply::Added, turns)
    }

    /// Removes `p` once, as [`remove`](HullSet::remove), and also returns how many turns the searches of bridges took: at most 10,000, for the reason
    /// given at [`add_counted`](HullTree::add_counted), and none unless `p` left the set.
    pub fn remove_counted(&mut self, p: Point) -> (RemoveReply, u32)
        ensures reply { Answers Rules.Counted (held_by self.old.root) self.old.limit (Call.Remove p)
            (reply_to_remove result.0) }
        ensures effect { held_by self.new.root
            ≡ after (held_by self.old.root) (Call.Remove p) (reply_to_remove result.0) }
        ensures same_limit { self.new.limit ≡ self.old.limit }
        ensures sound { IsSound self.new.root }
        ensures few { result.1 ≤ 10000 }
        ensures none { result.0 ≢ RemoveReply.Removed → result.1 ≡ 0 }
    {
        let Some(root) = &mut self.root else {
            return (RemoveReply::Absent, 0);
        };
        let multiplicity = lower(root, p);
        if multiplicity == 0 {
            return (RemoveReply::Absent, 0);
        }
        if multiplicity > 1 {
            return (RemoveReply::Left(multiplicity - 1), 0);
        }
        self.count -= 1;
        if is_leaf(root, p) {
            self.root = None;
            return (RemoveReply::Removed, 0);
        }
        (RemoveReply::Removed, remove(root, p))
    }

    /// Returns the first of the farthest points in the direction `d`, as [`extreme`](HullSet::extreme), and the number of forks above its leaf; none
    /// for the empty set.
    pub fn extreme_counted(&self, d: Direction) -> (Option<Point>, u32)
        ensures reply { Answers Rules.Counted (held_by self.now.root) self.now.limit (Call.Extreme d)
            (reply_to_extreme result.0) }
        ensures depth { IsLeafDepth self.now.root result.0 result.1 }
    {
        match self.half() {
            None => (None, 0),
            Some(half) => {
                let (point, depth) = extreme_counted(half, d);
                (Some(point), depth)
            }
        }
    }
}

impl HullSet for HullTree {
    ghost held = { λ t. held_by t.root };

    ghost bound = { λ t. t.limit };

    // well built: each stored bridge is that of the points below it; the points are in order; at most 28 high
    ghost sound = { λ t. IsSound t.root };

    fn limit(&self) -> u32 {
        self.limit
    }

    fn count(&self) -> u32 {
        self.count
    }

    fn multiplicity(&self, p: Point) -> u32 {
        match &self.root {
            None => 0,
            Some(root) => find_multiplicity(root, p),
        }
    }

    fn add(&mut self, p: Point) -> AddReply {
        self.add_counted(p).0
    }

    fn remove(&mut self, p: Point) -> RemoveReply {
        self.remove_counted(p).0
    }

    fn extreme(&self, d: Direction) -> Option<Point> {
        self.extreme_counted(d).0
    }

    fn place(&self, q: Point) -> Place {
        match self.half() {
            None => Place::Outside,
            Some(half) => place(half, q),
        }
    }

    fn tangents(&self, q: Point) -> Option<(Point, Point)> {
        tangents(self.half()?, q)
    }

    fn vertices(&self) -> Result<Vec<Point, Heap>, NoMemory> {
        match self.half() {
            None => Ok(Vec::new(self.alloc)),
            Some(half) => Ok(vertices(self.alloc, half)?),
        }
    }

    fn area2(&self) -> u128 {
        match self.half() {
            None => 0,
            Some(half) => area2(half),
        }
    }
}

impl Listed for HullTree {
    // building a new tree is faster from a sixteenth on
    const SHARE: usize = 16;

    ghost SHARE = { 16 };

    ghost listed = { λ t. entries_of_root t.root };

    fn alloc(&self) -> Heap {
        self.alloc
    }

    fn lists_are_sound(&self) {
        trees_are_sound(self);
    }

    fn push_entries(&self, entries: &mut Vec<(Point, u32), Heap>) {
        if let Some(root) = &self.root {
            push_entries(root, entries);
        }
    }

    fn push_from(&self, start: Point, most: usize, entries: &mut Vec<(Point, u32), Heap>) {
        if let Some(root) = &self.root {
            push_from(root, start, most, entries);
        }
    }

    /// Each fork is built once, from the points up.
    fn from_entries(
        alloc: Heap,
        limit: u32,
        entries: &[(Point, u32)],
    ) -> Result<HullTree, NoMemory> {
        let mut tree = HullTree::new(alloc, limit);
        if entries.is_empty() {
            return Ok(tree);
        }
        let root = node_over(alloc, entries)?;
        tree.root = Some(root);
        tree.count = entries.len() as u32;
        Ok(tree)
    }

    ghost some_share = { Prim.omega arith };
}

/// The law of a tree: after any calls, it is well built, its points are in order, and it is at most 28 high. (A tree of height h has at least as many
/// points as the Fibonacci number F(h + 2), and F(31) is above the greatest limit.)
pub fn trees_are_sound(tree: &HullTree)
    ensures { IsSound tree.now.root }
{
    let _ = &tree.root;
}
