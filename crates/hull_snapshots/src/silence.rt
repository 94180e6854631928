//! Why publication stopped.
use published_snapshots::Overtaken;

/// Why publication stopped: there is no other reason.
#[derive(Drop)]
pub(crate) enum Silence {
    /// It has recorded as many lines as can have a number.
    AtLimit,
    /// Another thread added lines to the same history, or published in the same slots.
    Overtaken(Overtaken),
}
