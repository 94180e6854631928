ghost use Rattle.std.specs.Prelude.{◌≡◌, ◌≤◌, ◌<◌, ◌+◌, ◌*◌, ◌↔◌, ◌⊎◌, ◌∷◌, [], IsTrue};
ghost use Rattle.std.specs.List.{Contains};
ghost use Rattle.lattice.specs.Plane.{Pair, IsBefore};
ghost use Rattle.lattice.specs.Covers.{with_point, without_point};
ghost use Rattle.hull_set.specs.Held.{once};
ghost use Rattle.bridge_search.specs.Trees.{Leaf, IsFork, first_of as first_in, last_of as last_in};
ghost use Rattle.hull_tree.specs.Nodes.{tree_of, left_half, right_half, before_split, after_split};
ghost use Rattle.hull_tree.specs.Nodes.{multiplicity_below, IsWellBuilt};
ghost use Rattle.leaf_trees.specs.Entries.{several, IsMultiplicity};
ghost use Rattle.leaf_trees.specs.Heights.{greatest_height};
ghost use Rattle.hull_tree.specs.Changes.{points_below, height_at, points_within, multiplicity_within, height_within};
ghost use Rattle.hull_tree.specs.Changes.{AreSeparated, IsAtMostOneMore};
ghost use Rattle.hull_tree.specs.Turns.{IsCostAtMost, turns_a_level};

use super::joining::{join, take_halves};
use super::node::{Halves, Node, first_of, last_of};
use super::rotation::rebalance;
use heap::Heap;
use hull_set::MULTIPLICITY_LIMIT;
use lattice::{Point, before};

/// Returns the multiplicity of a point below a node, with one comparison a fork.
pub(crate) fn find_multiplicity(node: &Node, p: Point) -> u32
    requires { IsWellBuilt node.now }
    ensures { result ≡ multiplicity_below node.now p }
{
    match &node.below {
        None => {
            if p == node.upper.0 {
                node.multiplicity
            } else {
                0
            }
        }
        Some(halves) => {
            if before(p, halves.right_first) {
                find_multiplicity(&halves.left, p)
            } else {
                find_multiplicity(&halves.right, p)
            }
        }
    }
}

/// Raises the multiplicity of a point below a node by one, if a point may have that multiplicity; nothing else changes. Returns its multiplicity
/// before.
pub(crate) fn raise(node: &mut Node, p: Point) -> u32
    requires { IsWellBuilt node.old }
    ensures was { result ≡ multiplicity_below node.old p }
    ensures built { IsWellBuilt node.new }
    ensures same_tree { tree_of node.new ≡ tree_of node.old }
    ensures absent { result ≡ 0 → node.new ≡ node.old }
    ensures full { result ≡ MULTIPLICITY_LIMIT → node.new ≡ node.old }
    ensures raised { 1 ≤ result → result < MULTIPLICITY_LIMIT → (q : Pair)
        → multiplicity_below node.new q ≡ multiplicity_below node.old q + once p q }
{
    match &mut node.below {
        None => {
            if p != node.upper.0 {
                return 0;
            }
            let multiplicity = node.multiplicity;
            if multiplicity < MULTIPLICITY_LIMIT {
                node.multiplicity = multiplicity + 1;
            }
            multiplicity
        }
        Some(halves) => {
            if before(p, halves.right_first) {
                raise(&mut halves.left, p)
            } else {
                raise(&mut halves.right, p)
            }
        }
    }
}

/// Lowers the multiplicity of a point below a node by one, if it is above one; nothing else changes. Returns its multiplicity before.
pub(crate) fn lower(node: &mut Node, p: Point) -> u32
    requires { IsWellBuilt node.old }
    ensures was { result ≡ multiplicity_below node.old p }
    ensures built { IsWellBuilt node.new }
    ensures same_tree { tree_of node.new ≡ tree_of node.old }
    ensures few { result ≤ 1 → node.new ≡ node.old }
    ensures lowered { 1 < result → (q : Pair) → multiplicity_below node.new q + once p q ≡ multiplicity_below node.old q }
{
    match &mut node.below {
        None => {
            if p != node.upper.0 {
                return 0;
            }
            let multiplicity = node.multiplicity;
            if multiplicity > 1 {
                node.multiplicity = multiplicity - 1;
            }
            multiplicity
        }
        Some(halves) => {
            if before(p, halves.right_first) {
                lower(&mut halves.left, p)
            } else {
                lower(&mut halves.right, p)
            }
        }
    }
}

/// Makes the fork over two points with these multiplicities, in an existing box for the halves.
fn separated(mut spare: Box<Halves, Heap>, first: (Point, u32), last: (Point, u32)) -> Node
    requires in_order { IsBefore first.0 last.0 }
    requires multiplicity_first { IsMultiplicity first.1 }
    requires multiplicity_last { IsMultiplicity last.1 }
    ensures built { IsWellBuilt result }
    ensures points { points_below result ≡ first.0 ∷ last.0 ∷ [] }
    ensures multiplicities { (q : Pair) → multiplicity_below result q ≡ several first.1 first.0 q + several last.1 last.0 q }
    ensures height { height_at result ≡ 1 }
    ensures cost_first { IsCostAtMost (tree_of result) first.0 0 }
    ensures cost_last { IsCostAtMost (tree_of result) last.0 0 }
{
    spare.last_left = first.0;
    spare.right_first = last.0;
    join(
        spare,
        Node::leaf(first.0, first.1),
        Node::leaf(last.0, last.1),
    )
    .0
}

/// Makes the fork over a point with its multiplicity and a new one, in an existing box for the halves.
fn beside(point: Point, multiplicity: u32, p: Point, spare: Box<Halves, Heap>) -> Node
    requires new { ¬ (p ≡ point) }
    requires multiplicities { IsMultiplicity multiplicity }
    ensures built { IsWellBuilt result }
    ensures points { points_below result ≡ with_point p (point ∷ []) }
    ensures multiplicities { (q : Pair) → multiplicity_below result q ≡ several multiplicity point q + once p q }
    ensures height { height_at result ≡ 1 }
    ensures cost { IsCostAtMost (tree_of result) p 0 }
{
    if before(p, point) {
        separated(spare, (p, 1), (point, multiplicity))
    } else {
        separated(spare, (point, multiplicity), (p, 1))
    }
}

/// Sets the last point of a half to p, if a point p after it was added to the half.
fn reach(last: &mut Point, p: Point)
    ensures moved { IsBefore last.old p → last.new ≡ p }
    ensures kept { ¬ IsBefore last.old p → last.new ≡ last.old }
{
    if before(*last, p) {
        *last = p;
    }
}

/// Adds a point below a node, with an existing box for its halves. Each fork on the way to the point is renewed. Returns how many turns the searches
/// took: at most 336 a level, and at least the cost of the forks above the point.
#[cycle(insert)]
pub(crate) fn insert(node: &mut Node, p: Point, spare: Box<Halves, Heap>) -> u32
    requires built { IsWellBuilt node.old }
    requires absent { ¬ Contains (points_below node.old) p }
    requires low { height_at node.old ≤ greatest_height }
    ensures built { IsWellBuilt node.new }
    ensures points { points_below node.new ≡ with_point p (points_below node.old) }
    ensures multiplicities { (q : Pair) → multiplicity_below node.new q ≡ multiplicity_below node.old q + once p q }
    ensures height { IsAtMostOneMore (height_at node.old) (height_at node.new) }
    ensures few { result ≤ turns_a_level * height_at node.old }
    ensures cost { IsCostAtMost (tree_of node.new) p result }
{
    match &mut node.below {
        None => {
            *node = beside(node.upper.0, node.multiplicity, p, spare);
            0
        }
        Some(halves) => {
            let below = insert_below(halves, p, spare);
            below + rebalance(node)
        }
    }
}

/// Adds a point to the half that it belongs to, and keeps the points at the split.
#[cycle(insert)]
fn insert_below(halves: &mut Halves, p: Point, spare: Box<Halves, Heap>) -> u32
    requires separated { AreSeparated halves.old }
    requires absent { ¬ Contains (points_within halves.old) p }
    requires low { height_within halves.old ≤ greatest_height }
    ensures separated { AreSeparated halves.new }
    ensures points { points_within halves.new ≡ with_point p (points_within halves.old) }
    ensures multiplicities { (q : Pair) → multiplicity_within halves.new q ≡ multiplicity_within halves.old q + once p q }
    ensures left { IsAtMostOneMore (height_at (left_half halves.old)) (height_at (left_half halves.new)) }
    ensures right { IsAtMostOneMore (height_at (right_half halves.old)) (height_at (right_half halves.new)) }
    ensures few { result ≤ turns_a_level * height_within halves.old }
    ensures cost { IsCostAtMost (tree_of (left_half halves.new)) p result
        ⊎ IsCostAtMost (tree_of (right_half halves.new)) p result }
{
    if before(p, halves.right_first) {
        reach(&mut halves.last_left, p);
        insert(&mut halves.left, p, spare)
    } else {
        insert(&mut halves.right, p, spare)
    }
}

/// Whether a point is the only one of one of two halves.
fn is_half(halves: &Halves, p: Point) -> bool
    ensures { IsTrue result ↔ (tree_of (left_half halves.now) ≡ Leaf p) ⊎ (tree_of (right_half halves.now) ≡ Leaf p) }
{
    is_leaf(&halves.left, p) || is_leaf(&halves.right, p)
}

/// Whether a node is the leaf of a point.
pub(crate) fn is_leaf(node: &Node, p: Point) -> bool
    ensures { IsTrue result ↔ (tree_of node.now ≡ Leaf p) }
{
    match &node.below {
        None => node.upper.0 == p,
        Some(_) => false,
    }
}

/// Takes out the other half, if one half is only this point.
fn other_half(halves: &mut Halves, p: Point) -> Node
    ensures right { tree_of (left_half halves.old) ≡ Leaf p → result ≡ right_half halves.old }
    ensures left { ¬ (tree_of (left_half halves.old) ≡ Leaf p) → result ≡ left_half halves.old }
{
    let (left, right) = take_halves(halves);
    if is_leaf(&left, p) { right } else { left }
}

/// Removes a point of multiplicity one from below a fork. Each fork on the way to the point is renewed, except the last one: its other half takes its
/// place. Returns how many turns the searches took: at most 336 a level.
#[cycle(remove)]
pub(crate) fn remove(node: &mut Node, p: Point) -> u32
    requires built { IsWellBuilt node.old }
    requires fork { IsFork (tree_of node.old) }
    requires once { multiplicity_below node.old p ≡ 1 }
    requires low { height_at node.old ≤ greatest_height }
    ensures built { IsWellBuilt node.new }
    ensures points { points_below node.new ≡ without_point p (points_below node.old) }
    ensures multiplicities { (q : Pair) → multiplicity_below node.new q + once p q ≡ multiplicity_below node.old q }
    ensures height { IsAtMostOneMore (height_at node.new) (height_at node.old) }
    ensures few { result ≤ turns_a_level * height_at node.old }
{
    let Some(halves) = &mut node.below else {
        unreachable!()
    };
    if is_half(halves, p) {
        *node = other_half(halves, p);
        return 0;
    }
    let below = remove_below(halves, p);
    below + rebalance(node)
}

/// Removes a point from the half that it belongs to, which has other points too, and keeps the points at the split.
#[cycle(remove)]
fn remove_below(halves: &mut Halves, p: Point) -> u32
    requires separated { AreSeparated halves.old }
    requires once { multiplicity_within halves.old p ≡ 1 }
    requires more_left { ¬ (tree_of (left_half halves.old) ≡ Leaf p) }
    requires more_right { ¬ (tree_of (right_half halves.old) ≡ Leaf p) }
    requires low { height_within halves.old ≤ greatest_height }
    ensures separated { AreSeparated halves.new }
    ensures points { points_within halves.new ≡ without_point p (points_within halves.old) }
    ensures multiplicities { (q : Pair) → multiplicity_within halves.new q + once p q ≡ multiplicity_within halves.old q }
    ensures left { IsAtMostOneMore (height_at (left_half halves.new)) (height_at (left_half halves.old)) }
    ensures right { IsAtMostOneMore (height_at (right_half halves.new)) (height_at (right_half halves.old)) }
    ensures few { result ≤ turns_a_level * height_within halves.old }
{
    if before(p, halves.right_first) {
        let turns = remove(&mut halves.left, p);
        draw_back_last(halves, p);
        turns
    } else {
        let turns = remove(&mut halves.right, p);
        draw_back_first(halves, p);
        turns
    }
}

/// Finds the last point of the left half again, if it was p, which was removed from that half.
fn draw_back_last(halves: &mut Halves, p: Point)
    requires { ¬ (before_split halves.old ≡ p)
        → before_split halves.old ≡ last_in (tree_of (left_half halves.old)) }
    ensures last { before_split halves.new ≡ last_in (tree_of (left_half halves.old)) }
    ensures first { after_split halves.new ≡ after_split halves.old }
    ensures left { left_half halves.new ≡ left_half halves.old }
    ensures right { right_half halves.new ≡ right_half halves.old }
{
    if halves.last_left == p {
        halves.last_left = last_of(&halves.left);
    }
}

/// Finds the first point of the right half again, if it was p, which was removed from that half.
fn draw_back_first(halves: &mut Halves, p: Point)
    requires { ¬ (after_split halves.old ≡ p)
        → after_split halves.old ≡ first_in (tree_of (right_half halves.old)) }
    ensures last { before_split halves.new ≡ before_split halves.old }
    ensures first { after_split halves.new ≡ first_in (tree_of (right_half halves.old)) }
    ensures left { left_half halves.new ≡ left_half halves.old }
    ensures right { right_half halves.new ≡ right_half halves.old }
{
    if halves.right_first == p {
        halves.right_first = first_of(&halves.right);
    }
}
