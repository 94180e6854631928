//! Questions about a convex hull, answered by going down its stored bridges (Overmars and van Leeuwen, 1981).
//!
//! Each question is about any [`Half`](bridge_search::Half), and its answer is one that the definitions allow for the
//! points of that half. [`extreme`], [`place`] and [`tangents`] follow one or a few paths down, with one or two
//! comparisons at each fork, and do not allocate; [`vertices`] and [`area2`] visit the bridges once, and only those
//! parts of the half that have vertices.
#![tactic(auto)]

mod chain_ranges;
mod edges;
mod locations;
mod questions;
mod slabs;

pub use questions::area::area2;
pub use questions::extreme::{extreme, extreme_counted};
pub use questions::few_vertices::vertices_up_to;
pub use questions::place::place;
pub use questions::tangents::tangents;
pub use questions::vertices::vertices;
