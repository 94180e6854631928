//! A plain set of lattice points that answers questions about its convex hull.
//!
//! [`PlainSet`] implements [`HullSet`] (crate `hull_set`) with an ordered map of std, the two chains of the hull and a
//! candidate list for each of them, as lists in blocks. Faster sets are compared with it, and the checker of journals
//! replays on it. The definition of a set and its laws are re-exported from `hull_set` and `hull_geometry`.
//!
//! # A worked example
//!
//! ```
//! let mut set = PlainSet::new(alloc, 1000); // at most 1000 live points
//! for (x, y) in [(0, 0), (4, 0), (2, 3), (2, 1)] {
//!     assert!(set.add(Point::new(x, y)?) == AddReply::Added);
//! }
//! assert!(set.extreme(Direction::new(0, 1)?) == Some(Point::new(2, 3)?));
//! assert!(set.place(Point::new(2, 1)?) == Place::Inside);
//! assert!(set.area2() == 12); // the doubled area
//! assert!(set.vertices()?.len() == 3); // counterclockwise from the first: (0, 0), (4, 0), (2, 3)
//! assert!(set.add(Point::new(2, 3)?) == AddReply::Again(2)); // multiplicity 2: the hull is unchanged
//! assert!(set.remove(Point::new(2, 3)?) == RemoveReply::Left(1));
//! assert!(set.remove(Point::new(2, 3)?) == RemoveReply::Removed);
//! ```
#![tactic(auto)]

mod bisection;
mod candidate_lists;
mod candidates;
mod extremes;
mod growing_hull;
mod hull_chains;
mod locations;
mod monotone;
mod octagon;
mod plain_set;
mod positions;
mod repairing;
mod scratch_chain;
mod tangents;
mod vertices;

pub use growing_hull::{GrowFault, GrowingHull};
pub use hull_geometry::{
    doubled_area_is_unique, vertex_list_is_unique, with_point_adds_the_point,
    without_point_takes_the_point,
};
pub use hull_set::{
    AddReply, Call, HullSet, MULTIPLICITY_LIMIT, NoMemory, POINT_LIMIT, Place, PointList,
    RemoveReply, Reply, Rules, multiplicity_limit_is_stated, point_limit_is_stated,
    replies_are_unique,
};
pub use plain_set::PlainSet;
