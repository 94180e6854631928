//! Changes that move no subtree: a bucket with capacity left takes a point, or one with several points loses one. Most changes are of this kind; they
//! go down once, and write only what they alter. If a change is not of this kind, the multiplicity of the point is returned instead.
ghost use Rattle.std.specs.Prelude.{◌≡◌, ◌≤◌, ◌<◌, ◌↔◌, Bool, IsTrue, true, false, IfOk, IfErr, length};
ghost use Rattle.hull_buckets.specs.Buckets.{IsBucket};
ghost use Rattle.hull_set.specs.declared.TheConstants.{POINT_LIMIT};
ghost use Rattle.bucket_tree.specs.Counts.{counted, multiplicity_at};
ghost use Rattle.bucket_tree.specs.InPlace.{AreFewFor, HasChanged, HasChangedBelow, HasChangedIn, HasPutIn, HasTakenOut, IsChangeable, IsContained};
ghost use Rattle.bucket_tree.specs.InPlace.{IsRenewedAfter, IsToRenew};
ghost use Rattle.bucket_tree.specs.declared.node.Node.{Node};
ghost use Rattle.bucket_tree.specs.Nodes.{points_below, node_height, IsWellBuilt};

use crate::find::find_multiplicity;
use crate::insertion::{affected_at, put_at};
use crate::node::{Fork, Node};
use crate::order::is_before;
use crate::removal::are_few;
use crate::renewal::{Change, Changed, change_at, renew_edges, renew_half_ends};
use crate::top_down::renew_top_down;
use hull_buckets::{Bucket, buckets_are_sound};
use lattice::Point;

/// A change that adds or removes a point of a tree without moving a subtree.
trait InPlace {
    // whether one is added
    ghost puts: { Bool };

    /// Changes a bucket if it can take the change. Otherwise leaves it unchanged, and returns the multiplicity of the point there.
    fn change(bucket: &mut Bucket, p: Point) -> Result<Changed, u16>
        ensures same { IfErr result (λ _. bucket.new ≡ bucket.old) }
        ensures returned { IfErr result (λ multiplicity. multiplicity ≡ counted bucket.old.points bucket.old.multiplicities p) }
        ensures bucket { IsBucket bucket.new }
        ensures change { IfOk result (HasChangedIn puts p bucket.old bucket.new) };

    /// Whether buckets have to be merged if a point below this node is removed.
    fn merges(node: &Node) -> bool;

    /// Renews the forks below a node on the way to the bucket that changed at a point. At first the change is that of the bucket, in the end that of
    /// the node.
    fn renew(node: &mut Node, p: Point, change: &mut Changed)
        requires { (n : Node) × IsChangeable puts n × HasChangedBelow puts p n node.old change.old }
        ensures { (n : Node) → IsChangeable puts n → HasChangedBelow puts p n node.old change.old → HasChanged puts p n node.new change.new };
}

/// Whether an index has others before it, and is below a number.
#[inline(always)]
fn is_inside(place: usize, end: usize) -> bool
    ensures { IsTrue result ↔ ((0 < place) × (place < end)) }
{
    place > 0 && place < end
}

/// Adds a new point, with multiplicity one, if its bucket has capacity for it.
struct Coming;

impl InPlace for Coming {
    ghost puts = { true };

    fn change(bucket: &mut Bucket, p: Point) -> Result<Changed, u16> {
        buckets_are_sound(bucket);
        match bucket.place_of(p) {
            Ok(place) => Err(bucket.multiplicities()[place]),
            Err(place) => {
                if bucket.is_full() {
                    return Err(0);
                }
                let is_between = is_inside(place, bucket.points().len());
                let sides = put_at(bucket, place, p);
                buckets_are_sound(bucket);
                Ok(Changed {
                    turns: 0,
                    sides,
                    is_between,
                })
            }
        }
    }

    fn merges(_node: &Node) -> bool {
        false
    }

    /// Since a bridge that the point alters ends at it, the forks are renewed on the way down.
    fn renew(node: &mut Node, p: Point, change: &mut Changed) {
        let mut turns = 0;
        renew_top_down(node, p, change, &mut turns);
        change.turns = turns;
    }
}

/// Removes a point of multiplicity one, if its bucket has others.
struct Going;

impl InPlace for Going {
    ghost puts = { false };

    fn change(bucket: &mut Bucket, p: Point) -> Result<Changed, u16> {
        buckets_are_sound(bucket);
        let Ok(place) = bucket.place_of(p) else {
            return Err(0);
        };
        let multiplicity = bucket.multiplicities()[place];
        if multiplicity != 1 || bucket.points().len() == 1 {
            return Err(multiplicity);
        }
        let is_between = is_inside(place, bucket.points().len() - 1);
        let sides = affected_at(bucket, place, p);
        bucket.remove(place);
        buckets_are_sound(bucket);
        Ok(Changed {
            turns: 0,
            sides,
            is_between,
        })
    }

    /// The lowest fork over two buckets with few points together, which become one.
    fn merges(node: &Node) -> bool {
        match node {
            Node::Fork(1, fork) => are_few(&fork.left, &fork.right),
            _ => false,
        }
    }

    /// Since the search of a bridge goes down both halves, the forks are renewed on the way back.
    fn renew(node: &mut Node, p: Point, change: &mut Changed) {
        renew_bottom_up(node, p, change);
    }
}

/// Renews a fork of which one half changed at a point, the left one or else the right one. At first the change is that of the half, in the end that
/// of the fork. Nothing is altered if the point is between two others of that half and neither chain is affected.
#[inline(always)]
fn renew_fork(fork: &mut Fork, is_left: bool, p: Point, change: Change, changed: &mut Changed)
    requires { IsToRenew is_left change p changed.old fork.old }
    ensures { IsRenewedAfter p changed.old fork.old fork.new changed.new }
{
    if is_contained(changed) {
        return;
    }
    changed.is_between = renew_half_ends(fork, is_left, p, changed.sides, changed.is_between);
    let above = renew_edges(fork, p, change, changed.sides);
    changed.turns += above.turns;
    changed.sides = above.sides;
}

/// Whether a change alters nothing above it: the point is between two others there, and on neither chain.
#[inline(always)]
fn is_contained(change: &Changed) -> bool
    ensures { IsTrue result ↔ IsContained change.now }
{
    change.is_between && !change.sides.lower && !change.sides.upper
}

/// Changes the bucket below a node that a point belongs to, if no subtree has to move; the forks above it stay as they are. Otherwise leaves all
/// unchanged. Writes the change, or the multiplicity of the point there: since nothing is returned, the descent is a loop.
fn change_bucket<C: InPlace>(node: &mut Node, p: Point, outcome: &mut Result<Changed, u16>)
    requires { IsWellBuilt node.old }
    ensures change { IfOk outcome.new (HasChangedBelow C.puts p node.old node.new) }
    ensures same { IfErr outcome.new (λ _. node.new ≡ node.old) }
    ensures returned { IfErr outcome.new (λ multiplicity. multiplicity ≡ multiplicity_at node.old p) }
{
    if C::merges(node) {
        *outcome = Err(find_multiplicity(node, p));
        return;
    }
    match node {
        Node::Leaf(bucket) => *outcome = C::change(bucket, p),
        Node::Fork(_, fork) => {
            let is_left = is_before(p, fork.right_ends.first);
            change_bucket::<C>(fork.half_mut(is_left), p, outcome);
        }
        Node::Taken => unreachable!(),
    }
}

/// Renews the forks below a node on the way to the bucket from which a point was removed, the lowest first. At first the change is that of the
/// bucket, in the end that of the node.
fn renew_bottom_up(node: &mut Node, p: Point, change: &mut Changed)
    requires { (n : Node) × IsChangeable false n × HasChangedBelow false p n node.old change.old }
    ensures { (n : Node) → IsChangeable false n → HasChangedBelow false p n node.old change.old → HasChanged false p n node.new change.new }
{
    match node {
        Node::Leaf(_) => {}
        Node::Fork(_, fork) => {
            let is_left = is_before(p, fork.right_ends.first);
            renew_bottom_up(fork.half_mut(is_left), p, change);
            renew_fork(fork, is_left, p, change_at(is_left, false), change);
        }
        Node::Taken => unreachable!(),
    }
}

/// Changes the bucket below a node that a point belongs to, and renews the forks above it, if no subtree has to move. Otherwise leaves all unchanged,
/// and returns the multiplicity of the point there. Most changes alter nothing above the bucket, and go down once.
fn change_in_place<C: InPlace>(node: &mut Node, p: Point) -> Result<Changed, u16>
    requires built { IsWellBuilt node.old }
    requires few { AreFewFor C.puts (length (points_below node.old)) }
    requires low { node_height node.old ≤ 28 }
    ensures change { IfOk result (HasChanged C.puts p node.old node.new) }
    ensures same { IfErr result (λ _. node.new ≡ node.old) }
    ensures returned { IfErr result (λ multiplicity. multiplicity ≡ multiplicity_at node.old p) }
{
    let mut outcome = Err(0);
    change_bucket::<C>(node, p, &mut outcome);
    let mut change = outcome?;
    if !is_contained(&change) {
        C::renew(node, p, &mut change);
    }
    Ok(change)
}

/// Adds a new point below a node, with multiplicity one, if the bucket that it belongs to has capacity left. Otherwise leaves all unchanged, and
/// returns the multiplicity of the point there.
#[inline(always)]
pub fn put_in_place(node: &mut Node, p: Point) -> Result<Changed, u16>
    requires built { IsWellBuilt node.old }
    requires few { length (points_below node.old) < POINT_LIMIT }
    requires low { node_height node.old ≤ 28 }
    ensures put { IfOk result (HasPutIn p node.old node.new) }
    ensures same { IfErr result (λ _. node.new ≡ node.old) }
    ensures returned { IfErr result (λ multiplicity. multiplicity ≡ multiplicity_at node.old p) }
{
    change_in_place::<Coming>(node, p)
}

/// Removes a point of multiplicity one from below a node, if its bucket has others and must not be merged with its neighbour. Otherwise leaves all
/// unchanged, and returns the multiplicity of the point there.
#[inline(always)]
pub fn take_in_place(node: &mut Node, p: Point) -> Result<Changed, u16>
    requires built { IsWellBuilt node.old }
    requires few { length (points_below node.old) ≤ POINT_LIMIT }
    requires low { node_height node.old ≤ 28 }
    ensures taken { IfOk result (HasTakenOut p node.old node.new) }
    ensures same { IfErr result (λ _. node.new ≡ node.old) }
    ensures returned { IfErr result (λ multiplicity. multiplicity ≡ multiplicity_at node.old p) }
{
    change_in_place::<Going>(node, p)
}
