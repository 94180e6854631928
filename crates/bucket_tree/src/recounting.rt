//! Changing multiplicities.
ghost use Rattle.std.specs.Prelude.{◌≡◌, ◌≤◌, ◌+◌};
ghost use Rattle.hull_buckets.specs.Buckets.{IsMultiplicity};
ghost use Rattle.bucket_tree.specs.Counts.{counted, multiplicity_at, IsSameButMultiplicities, IsRecounted};
ghost use Rattle.leaf_trees.specs.Entries.{several};
ghost use Rattle.bucket_tree.specs.Nodes.{IsWellBuilt};

use crate::node::Node;
use hull_buckets::{Bucket, buckets_are_sound};
use lattice::{Point, before};

/// Sets the multiplicity of a point of a bucket.
fn recount_leaf(bucket: &mut Bucket, p: Point, multiplicity: u16)
    requires live { 1 ≤ counted bucket.old.points bucket.old.multiplicities p }
    requires held { IsMultiplicity multiplicity }
    ensures same { IsSameButMultiplicities bucket.old bucket.new }
    ensures held { (q : _) → counted bucket.new.points bucket.new.multiplicities q
        + several (counted bucket.old.points bucket.old.multiplicities p) p q
        ≡ counted bucket.old.points bucket.old.multiplicities q + several multiplicity p q }
{
    buckets_are_sound(bucket);
    let Ok(place) = bucket.place_of(p) else {
        unreachable!()
    };
    bucket.set_multiplicity(place, multiplicity);
    buckets_are_sound(bucket);
}

/// Sets the multiplicity of a point below a node. This changes no bridge.
pub fn recount(node: &mut Node, p: Point, multiplicity: u16)
    requires built { IsWellBuilt node.old }
    requires live { 1 ≤ multiplicity_at node.old p }
    requires held { IsMultiplicity multiplicity }
    ensures { IsRecounted multiplicity p node.old node.new }
{
    match node {
        Node::Leaf(bucket) => recount_leaf(bucket, p, multiplicity),
        Node::Fork(_, fork) => {
            if before(p, fork.right_ends.first) {
                recount(&mut fork.left, p, multiplicity);
            } else {
                recount(&mut fork.right, p, multiplicity);
            }
        }
        Node::Taken => unreachable!(),
    }
}
