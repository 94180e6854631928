//! The upper and the lower bridge of two halves of a hull, found by walking down their stored edges
//! (Overmars and van Leeuwen, 1981).
//!
//! A [`Half`] is one point, or two stored edges and two halves of its own; the search is proved over every half that
//! keeps its law. Nothing here allocates.
#![tactic(auto)]

mod both;
mod half;
mod laws;
#[cfg(test)]
mod listed;
mod near;
mod search;
#[cfg(test)]
mod tests;
mod turned;

pub use both::{Counted, both_bridges, both_bridges_between};
pub use half::Half;
pub use laws::depth_is_unique;
pub use near::Near;
pub use search::{upper_bridge, upper_bridge_counted};
pub use turned::{Turned, lower_bridge, lower_bridge_counted};
