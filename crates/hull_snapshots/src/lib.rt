//! Snapshots of the vertices of a changing set: each shows the vertices as of one line of a journal, with that line's
//! number, and never changes while it is owned.
//!
//! A [`Change`] is what a line does to the set. A [`ChangePublisher`] is the publisher beside the set: it records the change
//! of each line, and publishes the vertices after each line that changes the set. If the vertices stay, it publishes
//! the same list under another number. A [`Reader`] takes snapshots in a few atomic steps, without a lock, and no
//! thread waits for it. The owner of the journal and of the publisher ensures that the recorded changes are those of
//! the journal.
#![tactic(auto)]

mod change;
mod change_publisher;
mod laws;
mod reader;
mod reader_registry;
mod silence;
mod vertex_list;
mod vertices;

pub use change::{Change, change_of};
pub use change_publisher::ChangePublisher;
pub use laws::changes_have_the_effect;
pub use reader::Reader;
pub use reader_registry::ReaderRegistry;
pub use vertex_list::VertexList;
pub use vertices::Vertices;

/// The greatest number of readers that a publisher can be opened for.
pub const READER_LIMIT: u8 = 64;
