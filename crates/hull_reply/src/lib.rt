//! Requests and replies in numbers, for callers in C: a request is a kind and two numbers, a reply a code and its
//! values.
//!
//! The libraries for C use one table of numbers, which is in `include/hull_common.h`. [`encoded`] converts a
//! [`Reply`](hull_set::Reply) to a [`HullReply`]; its contract states that the numbers mean that reply and no other.
//! [`request_of`] makes a [`Request`] of a kind and two numbers, which [`point_of`] and [`direction_of`] read, and
//! [`serve`] applies it to a set. [`put_vertices`] writes vertices to a caller's array.
#![tactic(auto)]

mod code;
mod coordinates;
mod kind;
mod reply;
mod request;
mod serving;
mod vertices;

pub use code::Code;
pub use coordinates::{direction_of, point_of};
pub use kind::Kind;
pub use reply::{HullReply, encoded};
pub use request::{Request, request_of};
pub use serving::serve;
pub use vertices::{HullPoint, put_vertices};
