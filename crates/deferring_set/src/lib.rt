//! A set of points from which points are removed late.
//!
//! When a vertex leaves a hull, the points that it hid become vertices; when it comes back, they are hidden again. A set that stores its hull does
//! this work at each such change, also if no question is asked in between. [`DeferringSet`] remembers the points that were removed, and removes
//! them from the set before the next question, or when it has as many as it can remember. If one of them is added again before that, the set has
//! not changed.
//!
//! # A worked example
//!
//! ```
//! let mut set = DeferringSet::new(PlainSet::new(alloc, 1000));
//! // .. a thousand points, and a vertex `v` below all of them
//! set.remove(v); // the set still has it
//! set.add(v); // and has not changed
//! assert!(set.apply(&Call::Count) == Reply::PointCount(1000));
//! ```
#![tactic(auto)]

mod deferring_set;
mod positions;
mod removed_point;

pub use deferring_set::DeferringSet;
