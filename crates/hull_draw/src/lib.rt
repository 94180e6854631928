//! Pictures of the set that a journal leaves, as SVG.
//!
//! [`draw`] reads a journal, replays it, and writes a picture of the set after the requested lines: its points,
//! beside them their multiplicities if these can be read, the hull with its vertices, the stored bridges of the tree
//! if they are requested, and a legend. The polygon is the vertex list of the replayed set, in order, in whole
//! numbers. [`film`] writes a picture that plays the journal, a call a second.
//!
//! # A worked example
//!
//! ```
//! let mut input = Counted::new(file); // any `Read`
//! let mut output = Counted::new(device); // any `Write`
//! draw(alloc, &mut input, &mut output, &options)?; // a `DrawOptions`: which line, which size
//! ```
#![tactic(auto)]

mod bridges;
mod captions;
mod drawing;
mod film_picture;
mod filming;
mod frame;
mod labels;
mod laws;
mod legend;
mod marks;
mod picture;
mod replaying;
mod scene;
mod shapes;
mod shots;

pub use bridges::LEVEL_LIMIT;
pub use drawing::{DrawFault, DrawOptions, draw};
pub use filming::film;
pub use laws::label_limits_are_stated;
pub use leaf_trees::Bridge;
pub use marks::Mark;
pub use scene::{Scene, scene_of};
pub use shots::{FRAME_LIMIT, scenes_of};
