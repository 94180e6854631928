//! Lists of points in which a change anywhere takes time proportional to the square root of the length: a tiered vector
//! (Goodrich and Kloss, 1999).
//!
//! A list keeps its points in blocks of one size, each a ring: all are full but the last that has any. So a division
//! returns the block of a point from its index, and an insertion or a removal moves points within one block, and one
//! point between each later block and its neighbour.
//!
//! # A worked example
//!
//! ```
//! let mut list = TieredList::new(alloc);
//! list.reserve(3)?; // capacity for three points: the calls below do not allocate
//! list.splice(0, 0, &[a, c], &mut spare); // a, c
//! list.splice(1, 1, &[b], &mut spare); // a, b, c
//! assert!(list.len() == 3 && list.get(1) == b);
//! list.splice(0, 2, &[], &mut spare); // c
//! ```
#![tactic(auto)]

mod blocks;
mod list;
mod splice;

pub use list::TieredList;

/// The capacity of a block, in points.
pub(crate) const BLOCK: usize = 1024;

/// The greatest number of blocks of a list, so that a length fits in 64 bits.
pub(crate) const MOST_BLOCKS: usize = 1 << 53;
