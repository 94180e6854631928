//! Drops points that are no vertices from a list of points, before it is sorted.
//!
//! The eight points that are farthest along the axes and the diagonals are the vertices of an octagon. What lies in it
//! and is none of them is no vertex of the hull, and one pass finds it (Akl and Toussaint, 1978). Of random points few are
//! left.
//!
//! # A worked example
//!
//! ```
//! let mut points = vec![in alloc; a, b, c, d, middle]?; // a square and a point inside
//! drop_inner(&mut points);
//! assert!(points.len() == 4);
//! ```
#![tactic(auto)]

mod chain;
mod extremes;
mod filter;
mod octagon;

pub use filter::{are_many_inner, drop_inner};
