//! A tree of forks over buckets of lattice points: a leaf tree whose leaves are [`Bucket`](hull_buckets::Bucket)s of up to 64 points, and whose forks
//! store the bridges of their two halves (Overmars and van Leeuwen, 1981).
//!
//! A bridge of two halves is that of their vertices, so a [`Part`] of the tree, which searches and questions go down, has only the vertices of its
//! buckets; their answer about a hull is the answer of all points below a [`Node`]. Adding or removing a point repairs one bucket and searches the
//! bridges of the forks above it. [`BucketTree`] is the set of points built on it.
#![tactic(auto)]

mod bridge_to_added;
mod chains;
mod find;
mod fork_ref;
mod in_place;
mod insertion;
mod join;
mod listing;
mod load;
mod nearest;
mod node;
mod order;
mod other_end;
mod part;
mod questions;
mod recounting;
mod removal;
mod renewal;
mod rotation;
mod runs;
mod top_down;
mod tree;

pub use find::find_multiplicity;
pub use fork_ref::ForkRef;
pub use in_place::{put_in_place, take_in_place};
pub use insertion::{Inserted, insert};
pub use load::from_parts;
pub use node::{Fork, Node};
pub use part::Part;
pub use questions::{area2, extreme, place, tangents, vertices, vertices_answer, vertices_are_few};
pub use recounting::recount;
pub use removal::{Removed, remove};
pub use renewal::{Affected, Changed};
pub use tree::{BucketTree, bucket_trees_are_sound};
