//! Readers and writers that count their failures, and writing a text piece by piece. `testing` has devices for tests.
//!
//! # A worked example
//!
//! ```
//! let mut out = Counted::new(device); // any `Write`
//! put(&mut out, b"count = ")?; // all of the piece was written, or a prefix of it with one failure more
//! let done = number_after(Ok(()), &mut out, 17);
//! flush_after(done, &mut out)?;
//! ```
#![tactic(auto)]

mod counted;
mod device;
pub mod testing;
mod write;

pub use counted::Counted;
pub use device::{Sink, Source};
pub use write::{Done, WriteFault, flush_after, number_after, put, put_after};
