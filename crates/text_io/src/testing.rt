//! Devices over bytes in memory, for tests of readers and writers of texts.
mod pieces;
mod spout;

pub use pieces::Pieces;
pub use spout::Spout;
