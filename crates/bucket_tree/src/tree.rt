//! The set.
mod few_vertices;

ghost use Rattle.std.specs.Prelude.{◌≡◌, ◌≢◌, ◌≤◌, ◌<◌, ◌+◌, ◌↔◌, ℕ, pos, None, IsTrue, true, false, length, IfOk, IfErr, MatchOption, MatchResult};
ghost use Rattle.std.proofs.Common.{arith};
ghost use Rattle.lattice.specs.Plane.{Pair, distance_squared};
ghost use Rattle.hull_set.specs.Held.{with_new, with_none};
ghost use Rattle.hull_set.specs.Replies.{Answers, after, reply_to_add, reply_to_remove};
ghost use Rattle.leaf_trees.specs.Entries.{several, IsMultiplicity};
ghost use Rattle.bucket_tree.specs.Levels.{bridges_at};
ghost use Rattle.bucket_tree.specs.Lists.{entries_of_root};
ghost use Rattle.bucket_tree.specs.NearestPoints.{IsNearestPoint};
ghost use Rattle.bucket_tree.specs.Roots.{held_by, points_of_root, multiplicity_of_root};
ghost use Rattle.bucket_tree.specs.Sets.{LimitedTree, IsSound};

use crate::find::find_multiplicity;
use crate::in_place::{put_in_place, take_in_place};
use crate::insertion::insert;
use crate::listing::{push_entries, push_from, push_level};
use crate::load::{first_leaf, from_entries};
use crate::nearest::nearest_in;
use crate::node::Node;
use crate::questions::{area2, extreme, place, tangents, vertices};
use crate::recounting::recount;
use crate::removal::remove;
use heap::Heap;
use hull_set::{
    AddReply, Call, HullSet, MULTIPLICITY_LIMIT, NoMemory, POINT_LIMIT, Place, RemoveReply, Rules,
};
use lattice::{Direction, Point};
use leaf_trees::{Bridge, Listed};
use std::marker::Model;

/// A set of points as a balanced tree of forks over buckets of up to 64 points: a point takes 21 to 36 bytes, and most changes search no bridge.
///
/// Adding or removing a point repairs its bucket, and the bridges of those forks above it whose edges do not cover it. A change of the multiplicity
/// of a point that stays changes one number. Each question goes down the stored bridges. `add`, `vertices`, the entries and `extend` allocate memory:
/// `add` only for the first point and if a bucket is full.
#[derive(Drop)]
pub struct BucketTree {
    root: Option<Node>,
    count: u32,
    limit: u32,
    alloc: Heap,
}

impl Model for BucketTree {
    ghost use Rattle.std.specs.Coded.{codes};
    ghost use Rattle.bucket_tree.specs.contracts.node.Node as node;
    ghost use Rattle.bucket_tree.specs.Sets.{LimitedTree, IsLimited};

    ghost Value = { LimitedTree };

    ghost coded = { Prim.hlevel (codes, node.the_row.coded) };

    ghost view = { λ t. record { limit = t.limit; root = t.root } };

    ghost invariant = { λ t. IsLimited t.root t.count t.limit };
}

impl BucketTree {
    /// Makes the empty set, which takes at most `limit` points. Allocates no memory; later calls allocate from `alloc`.
    pub fn new(alloc: Heap, limit: u32) -> BucketTree
        requires low { 1 ≤ limit }
        requires high { limit ≤ POINT_LIMIT }
        ensures { result ≡ record { limit = limit; root = None } }
    {
        BucketTree {
            root: None,
            count: 0,
            limit,
            alloc,
        }
    }

    /// Returns the bridges that the forks of a level store, from left to right; the root is on level 0, and the vertices of a bucket are none. Fails
    /// with `NoMemory` only if the set has points.
    pub fn bridges_at(&self, level: u32) -> Result<Vec<Bridge, Heap>, NoMemory>
        ensures bridges { IfOk result (λ bridges. bridges.items ≡ bridges_at level self.now.root) }
        ensures refused { IfErr result (λ _. self.now.root ≢ None) }
    {
        let mut bridges = Vec::new(self.alloc);
        if let Some(root) = &self.root {
            push_level(root, level, 0, &mut bridges)?;
        }
        Ok(bridges)
    }

    /// Returns the point that is nearest to `q`, of several the first by x and then y, with the square of its distance; or `None` if the set is
    /// empty. Goes down to the bucket in which `q` would be, and on its way back looks into each half that is no farther along x than what was
    /// found: of n random points in a square some root of n points. Allocates nothing.
    pub fn nearest(&self, q: Point) -> Option<(Point, u128)>
        ensures { MatchOption result (self.now.root ≡ None)
            (λ found. IsNearestPoint q (points_of_root self.now.root) found.0 × (pos found.1 ≡ distance_squared q found.0)) }
    {
        match &self.root {
            None => None,
            Some(root) => {
                let found = nearest_in(root, q);
                Some((found.point, found.squared as u128))
            }
        }
    }

    /// Returns the multiplicity of a point.
    fn multiplicity(&self, p: Point) -> u32
        ensures multiplicities { result ≡ multiplicity_of_root self.now.root p }
        ensures few { result ≤ MULTIPLICITY_LIMIT }
    {
        match &self.root {
            None => 0,
            Some(root) => u32::from(find_multiplicity(root, p)),
        }
    }

    /// Whether there are as many points as the limit.
    fn is_full(&self) -> bool
        ensures full { IsTrue result ↔ (self.now.limit ≤ length (points_of_root self.now.root)) }
        ensures space { length (points_of_root self.now.root) ≤ self.now.limit }
    {
        self.count >= self.limit
    }

    /// Sets the multiplicity of a point of the set.
    fn set_multiplicity(&mut self, p: Point, multiplicity: u32)
        requires live { 1 ≤ multiplicity_of_root self.old.root p }
        requires held { IsMultiplicity multiplicity }
        ensures points { points_of_root self.new.root ≡ points_of_root self.old.root }
        ensures multiplicities { (q : Pair) → multiplicity_of_root self.new.root q + several (multiplicity_of_root self.old.root p) p q
            ≡ multiplicity_of_root self.old.root q + several multiplicity p q }
        ensures same_limit { self.new.limit ≡ self.old.limit }
    {
        let Some(root) = &mut self.root else {
            unreachable!()
        };
        recount(root, p, multiplicity as u16);
    }

    /// Adds a new point if its bucket has capacity left, and returns how many turns the searches took. Otherwise leaves all unchanged, and returns
    /// the multiplicity of the point.
    fn put_where_space(&mut self, p: Point) -> Result<u32, u32>
        requires space { length (points_of_root self.old.root) < self.old.limit }
        ensures absent { IfOk result (λ _. multiplicity_of_root self.old.root p ≡ 0) }
        ensures new { IfOk result (λ _. held_by self.new.root ≡ with_new p (held_by self.old.root)) }
        ensures few { IfOk result (λ turns. turns ≤ 10000) }
        ensures same { IfErr result (λ _. self.new ≡ self.old) }
        ensures returned { IfErr result (λ multiplicity. multiplicity ≡ multiplicity_of_root self.old.root p) }
        ensures least { IfErr result (λ multiplicity. multiplicity ≤ MULTIPLICITY_LIMIT) }
        ensures same_limit { self.new.limit ≡ self.old.limit }
    {
        let Some(root) = &mut self.root else {
            return Err(0);
        };
        match put_in_place(root, p) {
            Ok(change) => {
                self.count += 1;
                Ok(change.turns)
            }
            Err(multiplicity) => Err(u32::from(multiplicity)),
        }
    }

    /// Adds a new point, for which the set has capacity: the first one, or one whose bucket has to be split. Returns how many turns the searches
    /// took. Fails with that number if memory was refused, which leaves all unchanged.
    fn put_in(&mut self, p: Point) -> Result<u32, u32>
        requires absent { multiplicity_of_root self.old.root p ≡ 0 }
        requires space { length (points_of_root self.old.root) < self.old.limit }
        ensures new { IfOk result (λ _. held_by self.new.root ≡ with_new p (held_by self.old.root)) }
        ensures refused { IfErr result (λ _. held_by self.new.root ≡ held_by self.old.root) }
        ensures same_limit { self.new.limit ≡ self.old.limit }
        ensures few { MatchResult result (λ turns. turns ≤ 10000) (λ turns. turns ≤ 10000) }
    {
        let Some(root) = self.root.take() else {
            let Ok(leaf) = first_leaf(self.alloc, p) else {
                return Err(0);
            };
            self.root = Some(leaf);
            self.count = 1;
            return Ok(0);
        };
        let change = insert(self.alloc, root, p);
        self.root = Some(change.node);
        if change.refused {
            return Err(change.turns);
        }
        self.count += 1;
        Ok(change.turns)
    }

    /// Removes a point of multiplicity one if no subtree has to move, and returns how many turns the searches took. Otherwise leaves all unchanged,
    /// and returns the multiplicity of the point.
    fn take_where_others(&mut self, p: Point) -> Result<u32, u32>
        ensures once { IfOk result (λ _. multiplicity_of_root self.old.root p ≡ 1) }
        ensures without { IfOk result (λ _. held_by self.new.root ≡ with_none p (held_by self.old.root)) }
        ensures few { IfOk result (λ turns. turns ≤ 10000) }
        ensures same { IfErr result (λ _. self.new ≡ self.old) }
        ensures returned { IfErr result (λ multiplicity. multiplicity ≡ multiplicity_of_root self.old.root p) }
        ensures least { IfErr result (λ multiplicity. multiplicity ≤ MULTIPLICITY_LIMIT) }
        ensures same_limit { self.new.limit ≡ self.old.limit }
    {
        let Some(root) = &mut self.root else {
            return Err(0);
        };
        match take_in_place(root, p) {
            Ok(change) => {
                self.count -= 1;
                Ok(change.turns)
            }
            Err(multiplicity) => Err(u32::from(multiplicity)),
        }
    }

    /// Removes a point of multiplicity one, and returns how many turns the searches took.
    fn remove_point(&mut self, p: Point) -> u32
        requires { multiplicity_of_root self.old.root p ≡ 1 }
        ensures without { held_by self.new.root ≡ with_none p (held_by self.old.root) }
        ensures same_limit { self.new.limit ≡ self.old.limit }
        ensures few { result ≤ 10000 }
    {
        let Some(root) = self.root.take() else {
            unreachable!()
        };
        let removed = remove(root, p);
        self.root = removed.rest;
        self.count -= 1;
        removed.turns
    }

    /// Raises the multiplicity `multiplicity` of a point by one; a point that is not in the set finds it full.
    fn count_up(&mut self, p: Point, multiplicity: u32) -> AddReply
        requires returned { multiplicity ≡ multiplicity_of_root self.old.root p }
        requires few { multiplicity ≤ MULTIPLICITY_LIMIT }
        requires space { multiplicity ≡ 0 → length (points_of_root self.old.root) ≡ self.old.limit }
        ensures reply { Answers Rules.Counted (held_by self.old.root) self.old.limit (Call.Add p) (reply_to_add result) }
        ensures effect { held_by self.new.root ≡ after (held_by self.old.root) (Call.Add p) (reply_to_add result) }
        ensures same_limit { self.new.limit ≡ self.old.limit }
    {
        bucket_trees_are_sound(self);
        if multiplicity == 0 || multiplicity == MULTIPLICITY_LIMIT {
            return AddReply::TooMany;
        }
        self.set_multiplicity(p, multiplicity + 1);
        AddReply::Again(multiplicity + 1)
    }

    /// Adds `p` once; see [`add_counted`](BucketTree::add_counted).
    fn hold_more(&mut self, p: Point) -> (AddReply, u32)
        ensures reply { Answers Rules.Counted (held_by self.old.root) self.old.limit (Call.Add p)
            (reply_to_add result.0) }
        ensures effect { held_by self.new.root ≡ after (held_by self.old.root) (Call.Add p) (reply_to_add result.0) }
        ensures same_limit { self.new.limit ≡ self.old.limit }
        ensures few { result.1 ≤ 10000 }
        ensures again { (multiplicity : ℕ) → result.0 ≡ AddReply.Again multiplicity → result.1 ≡ 0 }
        ensures too_many { result.0 ≡ AddReply.TooMany → result.1 ≡ 0 }
    {
        bucket_trees_are_sound(self);
        if self.is_full() {
            let multiplicity = self.multiplicity(p);
            return (self.count_up(p, multiplicity), 0);
        }
        let multiplicity = match self.put_where_space(p) {
            Ok(turns) => return (AddReply::Added, turns),
            Err(multiplicity) => multiplicity,
        };
        if multiplicity > 0 {
            return (self.count_up(p, multiplicity), 0);
        }
        match self.put_in(p) {
            Ok(turns) => (AddReply::Added, turns),
            Err(turns) => (AddReply::NoMemory, turns),
        }
    }

    /// Removes `p` once; see [`remove_counted`](BucketTree::remove_counted).
    fn hold_less(&mut self, p: Point) -> (RemoveReply, u32)
        ensures reply { Answers Rules.Counted (held_by self.old.root) self.old.limit (Call.Remove p)
            (reply_to_remove result.0) }
        ensures effect { held_by self.new.root
            ≡ after (held_by self.old.root) (Call.Remove p) (reply_to_remove result.0) }
        ensures same_limit { self.new.limit ≡ self.old.limit }
        ensures few { result.1 ≤ 10000 }
        ensures none { result.0 ≢ RemoveReply.Removed → result.1 ≡ 0 }
    {
        bucket_trees_are_sound(self);
        let multiplicity = match self.take_where_others(p) {
            Ok(turns) => return (RemoveReply::Removed, turns),
            Err(multiplicity) => multiplicity,
        };
        if multiplicity == 0 {
            return (RemoveReply::Absent, 0);
        }
        if multiplicity > 1 {
            self.set_multiplicity(p, multiplicity - 1);
            return (RemoveReply::Left(multiplicity - 1), 0);
        }
        (RemoveReply::Removed, self.remove_point(p))
    }

    /// Adds `p` once, as [`add`](HullSet::add), and also returns how many turns the searches of bridges took: at most 10,000, since no tree is higher
    /// than 28 forks, a change searches at most six bridges a level, and a search takes as many turns as the sum of both halves' heights; mostly
    /// none. An addition that inserts no point and was not refused memory takes none.
    pub fn add_counted(&mut self, p: Point) -> (AddReply, u32)
        ensures reply { Answers Rules.Counted (held_by self.old.root) self.old.limit (Call.Add p)
            (reply_to_add result.0) }
        ensures effect { held_by self.new.root ≡ after (held_by self.old.root) (Call.Add p) (reply_to_add result.0) }
        ensures same_limit { self.new.limit ≡ self.old.limit }
        ensures sound { IsSound self.new.root }
        ensures few { result.1 ≤ 10000 }
        ensures again { (multiplicity : ℕ) → result.0 ≡ AddReply.Again multiplicity → result.1 ≡ 0 }
        ensures too_many { result.0 ≡ AddReply.TooMany → result.1 ≡ 0 }
    {
        let answer = self.hold_more(p);
        bucket_trees_are_sound(self);
        answer
    }

    /// Removes `p` once, as [`remove`](HullSet::remove), and also returns how many turns the searches of bridges took: at most 10,000, for the reason
    /// given at [`add_counted`](BucketTree::add_counted), and mostly none. A removal after which the point is still in the set, or that finds none,
    /// takes none.
    pub fn remove_counted(&mut self, p: Point) -> (RemoveReply, u32)
        ensures reply { Answers Rules.Counted (held_by self.old.root) self.old.limit (Call.Remove p)
            (reply_to_remove result.0) }
        ensures effect { held_by self.new.root
            ≡ after (held_by self.old.root) (Call.Remove p) (reply_to_remove result.0) }
        ensures same_limit { self.new.limit ≡ self.old.limit }
        ensures sound { IsSound self.new.root }
        ensures few { result.1 ≤ 10000 }
        ensures none { result.0 ≢ RemoveReply.Removed → result.1 ≡ 0 }
    {
        let answer = self.hold_less(p);
        bucket_trees_are_sound(self);
        answer
    }
}

impl HullSet for BucketTree {
    ghost held = { λ t. held_by t.root };

    ghost bound = { λ t. t.limit };

    // well built: each stored bridge is that of all points below it, each bucket's masks are its two chains; the points are in order; at most 28
    // forks high
    ghost sound = { λ t. IsSound t.root };

    fn limit(&self) -> u32 {
        self.limit
    }

    fn count(&self) -> u32 {
        self.count
    }

    fn multiplicity(&self, p: Point) -> u32 {
        bucket_trees_are_sound(self);
        self.multiplicity(p)
    }

    fn add(&mut self, p: Point) -> AddReply {
        self.add_counted(p).0
    }

    fn remove(&mut self, p: Point) -> RemoveReply {
        self.remove_counted(p).0
    }

    fn extreme(&self, d: Direction) -> Option<Point> {
        match &self.root {
            None => None,
            Some(root) => Some(extreme(root, d)),
        }
    }

    fn place(&self, q: Point) -> Place {
        match &self.root {
            None => Place::Outside,
            Some(root) => place(root, q),
        }
    }

    fn tangents(&self, q: Point) -> Option<(Point, Point)> {
        match &self.root {
            None => None,
            Some(root) => tangents(root, q),
        }
    }

    fn vertices(&self) -> Result<Vec<Point, Heap>, NoMemory> {
        match &self.root {
            None => Ok(Vec::new(self.alloc)),
            Some(root) => Ok(vertices(self.alloc, root)?),
        }
    }

    fn area2(&self) -> u128 {
        match &self.root {
            None => 0,
            Some(root) => area2(root),
        }
    }
}

impl Listed for BucketTree {
    // building a new tree is faster from a quarter on
    const SHARE: usize = 4;

    ghost SHARE = { 4 };

    ghost listed = { λ t. entries_of_root t.root };

    fn alloc(&self) -> Heap {
        self.alloc
    }

    fn lists_are_sound(&self) {
        bucket_trees_are_sound(self);
    }

    fn push_entries(&self, entries: &mut Vec<(Point, u32), Heap>) {
        if let Some(root) = &self.root {
            push_entries(root, entries);
        }
    }

    fn push_from(&self, start: Point, most: usize, entries: &mut Vec<(Point, u32), Heap>) {
        if let Some(root) = &self.root {
            push_from(root, start, most, entries);
        }
    }

    /// Each bucket and each fork is made once.
    fn from_entries(
        alloc: Heap,
        limit: u32,
        entries: &[(Point, u32)],
    ) -> Result<BucketTree, NoMemory> {
        let mut tree = BucketTree::new(alloc, limit);
        if entries.is_empty() {
            return Ok(tree);
        }
        let root = from_entries(alloc, entries)?;
        tree.root = Some(root);
        tree.count = entries.len() as u32;
        Ok(tree)
    }

    ghost some_share = { Prim.omega arith };
}

/// The law of a tree: after any calls, each stored bridge is that of all points below it, each bucket's masks are its two chains, the points are in
/// order, and the tree is at most 28 forks high. (A tree of height h has at least as many buckets as the Fibonacci number F(h + 2), and F(31) is
/// above the greatest limit.)
pub fn bucket_trees_are_sound(tree: &BucketTree)
    ensures { IsSound tree.now.root }
{
    let _ = &tree.root;
}
