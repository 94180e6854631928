//! A set of lattice points as a balanced leaf tree whose forks store the bridges of their two halves (Overmars and van Leeuwen, 1981).
//!
//! A [`Node`] is one point with its multiplicity, or a fork: two halves, all points of the one before all points of the other, and the upper and the
//! lower bridge between them. If a point is added or removed, only the bridges of the forks above its place and of those that a rotation makes are
//! renewed; if only its multiplicity changes, none is.
//!
//! # A worked example, for one thread
//!
//! ```
//! let mut tree = HullTree::new(alloc, 1000); // at most 1000 points
//! for (x, y) in [(0, 0), (4, 0), (2, 3), (2, 1)] {
//!     assert!(tree.add(Point::new(x, y)?) == AddReply::Added); // `NoMemory` leaves the tree as it was
//! }
//! assert!(tree.tangents(Point::new(6, 0)?) == Some((Point::new(0, 0)?, Point::new(2, 3)?))); // left, and right
//! assert!(tree.place(Point::new(2, 0)?) == Place::On);
//! assert!(tree.vertices()?.len() == 3 && tree.area2() == 12);
//! assert!(tree.add(Point::new(2, 3)?) == AddReply::Again(2)); // multiplicity 2: two removes remove it
//! assert!(tree.remove(Point::new(2, 3)?) == RemoveReply::Left(1) && tree.area2() == 12);
//! assert!(tree.multiplicity(Point::new(2, 3)?) == 1 && tree.count() == 4); // the number of points, not of adds
//! ```
//!
//! The questions are those of the trait `HullSet` (crate `hull_set`), each O(log n) except `vertices` and `area2`. The crate `hull_pool` shares a
//! tree among many threads.
#![tactic(auto)]

mod bridges;
mod chain_range;
mod change;
mod joining;
mod keeping;
mod laws;
mod levels;
mod load;
mod node;
mod node_ref;
mod rotation;
mod tree;

pub use laws::path_cost_is_unique;
pub use levels::push_level;
pub use node::Node;
pub use node_ref::NodeRef;
pub use tree::{HullTree, trees_are_sound};
