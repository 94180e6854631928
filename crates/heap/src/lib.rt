//! The heap from which hulls allocate their memory, named in one place: malloc and free, by the `Global` of std.
//!
//! A build for another host replaces this crate by one of the same name, with that host's heap.
#![tactic(auto)]

pub use std::alloc::Global as Heap;
