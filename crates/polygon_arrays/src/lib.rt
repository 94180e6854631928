//! Convex polygons in arrays of a caller in C: moved ones, and which points their vertices are.
#![tactic(auto)]

mod indices;
mod moved;
mod steps;
mod translated;

pub use indices::vertex_indices;
pub use moved::rotate;
pub use translated::{translate, translate_in_place};
