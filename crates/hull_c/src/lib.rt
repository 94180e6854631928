//! A convex hull for C: a static library over a [`Prepared`](prepared_set::Prepared)
//! [`BucketTree`](bucket_tree::BucketTree), whose header is `include/hull.h`.
//!
//! A set is in storage that the caller provides, and so is a hull of points that are only added (`growing.rt`). Changes
//! and questions are one export, `hull_call`, by their kind; the header has a function for each over it, except for the
//! three most frequent questions, which are exports of their own. An export (`exports/`) passes a reference to the set at
//! the pointer to one plain function (`calls.rt`, `vertices.rt`, `requests.rt`) and returns its reply: the export promises
//! that function's contract. Its walk (`proofs/exports/*/hull_*/Proof.antt`) shows that it lends the set to the function
//! and takes it back.
#![tactic(auto)]

mod bridges;
mod calls;
mod distance_bounds;
mod exports;
mod findings;
mod first_meetings;
mod growing;
mod held;
mod hull;
mod load;
mod many;
mod nearest_held;
mod pairs;
mod polygon;
mod raycasts;
mod requests;
mod threads;
mod vertices;
mod vertices_of;

pub use bridges::HullBridge;
pub use distance_bounds::HullDistanceBounds;
pub use first_meetings::HullMotion;
pub use held::HullHeld;
pub use hull_reply::HullPoint;
pub use many::HullSegment;
pub use pairs::HullWitness;
pub use polygon_pairs::HullPair;
pub use raycasts::HullHit;
pub use requests::HullRequest;
pub use threads::hulls_go_to_any_thread;
