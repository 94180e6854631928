//! The first moment at which a convex polygon that moves straight intersects another.
//!
//! Two convex polygons that are disjoint first intersect, as one of them moves, at a vertex of one of them. So [`first_meeting`]
//! casts a ray from each vertex of both that is not beside the other's lane and may arrive first.
#![tactic(auto)]

mod arrivals;
mod lanes;
mod meeting;
mod products;

pub use arrivals::Arrival;
pub use meeting::{FirstMeeting, first_meeting};
