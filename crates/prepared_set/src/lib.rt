//! A set of points that caches its vertices in an array once many questions are asked.
//!
//! A [`Prepared`] set contains another set and, after enough questions since the vertices last changed
//! ([`Prepared::prepare`]), an array of its vertices. Most changes leave the vertices as they are, and keep the array;
//! any other change drops it. Questions are answered from the array if it is there, and else by the set. With the
//! array, each takes one or two bisections of adjacent points instead of one or a few paths down a tree.
//!
//! Questions take `&self` and write nothing, so any number of threads may ask one set at once, prepared or not. Only
//! [`prepare`](Prepared::prepare) and changes need exclusive access.
#![tactic(auto)]

mod gathering;
mod kept;
mod patches;
mod prepared;
mod splicing;
mod vertices;

pub use gathering::ListsVertices;
pub use prepared::Prepared;
