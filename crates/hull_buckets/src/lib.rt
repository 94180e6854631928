//! Buckets of lattice points: up to 64 of them in order in one array, with the vertices of both chains of their hull as the bits of two words.
//!
//! You can insert points into a [`Bucket`] and remove them, split it in the middle, and append a bucket that is after it; each change repairs the two
//! words, by passes over the indices that it can affect. To a search of bridges and to questions it is a half of a hull, a [`Slice`] of its vertices.
//! A leaf tree over buckets has a thirtieth of the forks that one over points has; `BucketTree` (crate `bucket_tree`) is one.
//!
//! # A worked example
//!
//! ```
//! let mut bucket = Bucket::new(Point::new(0, 0)?, 1);
//! for (x, y) in [(4, 0), (2, 3), (2, 1)] {
//!     let p = Point::new(x, y)?;
//!     if let Err(place) = bucket.place_of(p) {
//!         bucket.insert(place, p, 1); // (0, 0), (2, 1), (2, 3), (4, 0)
//!     }
//! }
//! assert!(bucket.vertices(Side::Lower) == 0b1001 && bucket.vertices(Side::Upper) == 0b1101);
//! assert!(extreme(Slice::new(&bucket), Direction::new(0, 1)?) == Point::new(2, 3)?);
//! let second = bucket.split();
//! assert!(bucket.points().len() == 2 && second.vertices(Side::Upper) == 0b11);
//! assert!(both_bridges(Slice::new(&bucket), Slice::new(&second)).0.0 == (Point::new(0, 0)?, Point::new(2, 3)?));
//! ```
#![tactic(auto)]

mod bridges;
mod bucket;
mod chain;
mod mask;
mod multiplicities;
mod positions;
mod repairing;
mod row;
mod slice;
mod walk;

pub use bridges::{bridges_of, vertices_are_candidates};
pub use bucket::{Bucket, buckets_are_sound};
pub use slice::Slice;
pub use walk::ChainWalk;

/// The capacity of a bucket: one bit of a word for each point.
pub const BUCKET_SIZE: usize = 64;
