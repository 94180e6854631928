//! A reader that is acquired.
use hull_snapshots::Reader;

/// A reader, and the number of the first line.
#[derive(Drop)]
pub(crate) struct OutReader {
    pub(crate) reader: Reader,
    pub(crate) first: u64,
}

/// The storage of a reader.
#[derive(Drop)]
pub(crate) enum SharedReader {
    /// There is no reader.
    Vacant,
    /// A reader that is acquired.
    Out(OutReader),
}
