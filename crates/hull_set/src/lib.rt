//! The interface of a set of lattice points that answers questions about its convex hull: its calls, and the replies
//! that they may have.
//!
//! [`HullSet`] is the contract: each call replies as the relation of allowed replies in `specs/Replies.antt` requires.
//! That relation depends only on the set's points and their multiplicities. `PlainSet` (crate `hull_plain`), `HullTree`
//! (`hull_tree`) and `BucketTree` (`bucket_tree`) implement it.
#![tactic(auto)]

mod call;
mod calling;
mod laws;
mod place;
mod point_list;
mod reply;
mod rules;
mod set;

pub use call::Call;
pub use calling::{apply, extreme_reply, tangents_reply};
pub use laws::{multiplicity_limit_is_stated, point_limit_is_stated, replies_are_unique};
pub use point_list::PointList;
pub use reply::Reply;
pub use rules::Rules;
pub use set::{AddReply, HullSet, NoMemory, Place, RemoveReply};

/// The greatest limit of a set, and so the greatest number of its different points.
pub const POINT_LIMIT: u32 = 1048576;

/// The greatest multiplicity of a point.
pub const MULTIPLICITY_LIMIT: u32 = 65535;
