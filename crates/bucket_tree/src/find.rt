//! Finding points.
ghost use Rattle.std.specs.Prelude.{◌≡◌};
ghost use Rattle.bucket_tree.specs.Counts.{multiplicity_at};
ghost use Rattle.bucket_tree.specs.Nodes.{IsWellBuilt};

use crate::node::Node;
use lattice::{Point, before};

/// Returns the multiplicity of a point below a node, 0 if it is not there. One comparison at each fork.
pub fn find_multiplicity(node: &Node, p: Point) -> u16
    requires { IsWellBuilt node.now }
    ensures { result ≡ multiplicity_at node.now p }
{
    match node {
        Node::Leaf(bucket) => match bucket.place_of(p) {
            Ok(place) => bucket.multiplicities()[place],
            Err(_) => 0,
        },
        Node::Fork(_, fork) => {
            if before(p, fork.right_ends.first) {
                find_multiplicity(&fork.left, p)
            } else {
                find_multiplicity(&fork.right, p)
            }
        }
        Node::Taken => unreachable!(),
    }
}
