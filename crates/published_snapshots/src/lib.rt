//! Snapshots of a value that is published again and again: each snapshot is the value as of one line of a history,
//! with that line's number, and never changes while it is owned. Readers take snapshots without a lock, in a few
//! atomic steps.
//!
//! A [`SnapshotSlots`] has slots for published values and one word, which names the newest value by its number and its slot.
//! The only [`Publisher`] writes into a slot that nobody reads and then raises the word. A reader loads the word,
//! counts itself into that slot, and keeps the value there only if it has the number that was loaded. So no thread
//! waits for another: a step fails only because another thread's step succeeded.
//!
//! A [`Truth`] defines what must be true of a value at its line. The history and the past of the word exist only in
//! proofs (`logbook`); `counted_slot` guarantees that a slot is written only while nobody reads it. No contract
//! promises that a try succeeds, since `counted_slot` does not promise that a step wins.
#![tactic(auto)]

mod history;
mod newest;
mod prefixes;
mod publisher;
mod snapshot;
mod snapshot_slots;
#[cfg(test)]
mod tests;

pub use history::{History, Lines, Overtaken, Prefix};
pub use newest::{Newest, Rise, Rises, Watermark};
pub use prefixes::is_prefix;
pub use publisher::Publisher;
pub use snapshot::{Snapshot, Truth};
pub use snapshot_slots::SnapshotSlots;

/// The greatest number of slots.
pub const SLOT_LIMIT: u64 = 128;

/// Published numbers are below this one.
pub const NUMBER_LIMIT: u64 = 144115188075855872;
