//! The common parts of the leaf trees over a set's points: the lists of points that they are loaded from and return, the trait of such a set
//! ([`Listed`]), points that are added all or none of them, and the bridges that a fork shows.
//!
//! `proofs/` has the lemmas about concatenated lists, about replies by multiplicity, and about the greatest height of a balanced tree.
#![tactic(auto)]

mod adding;
mod bridge;
mod entries;
mod fault;
mod listed;

pub use adding::add_each;
pub use bridge::Bridge;
pub use entries::{entries_of, merged_entries};
pub use fault::LoadFault;
pub use listed::Listed;
