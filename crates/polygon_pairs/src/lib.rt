//! The pairs of many convex polygons that are near one another.
//!
//! [`pairs_within_distance`] sorts the boxes of the polygons by their left sides and sweeps over them (Shamos and Hoey,
//! 1976): a pair is asked about only if its boxes are no farther apart than the length along both axes.
#![tactic(auto)]

mod boxed;
mod near;
mod pair;
mod pairs;
mod sweep;

pub use pair::HullPair;
pub use pairs::pairs_within_distance;
