//! The first code that a caller of each library writes, proved: the page `CALLING.md` of a crate shows its file of these.
//!
//! Each file is for the crate that its first line names.
#![tactic(auto)]

mod counts;
mod free_motions;
mod free_ways;
mod halves;
mod joints;
mod journals;
mod latest_snapshots;
mod lists;
mod loaded_zones;
mod pictures;
mod plain_hulls;
mod prepared_zones;
mod sets;
mod sides;
mod texts;
mod with_progress_zones;

pub use counts::write_count;
pub use free_motions::moves_freely;
pub use free_ways::intersects_way;
pub use halves::seen_from;
pub use joints::joined;
pub use journals::serve_and_count;
pub use latest_snapshots::latest_snapshot;
pub use lists::list_of;
pub use loaded_zones::place_among;
pub use pictures::draw_tree;
pub use plain_hulls::vertices_of_three;
pub use prepared_zones::place_often;
pub use sets::area_without;
pub use sides::{lies_left, point_at};
pub use texts::verdict_on;
pub use with_progress_zones::add_and_look;
