//! The reader registry.
ghost use Rattle.std.specs.Arc.{arc_value};
ghost use Rattle.std.specs.Prelude.{IfSome};
ghost use Rattle.published_snapshots.specs.Snapshots.{IsWatermarkOf};

use super::reader::Reader;
use super::vertices::Vertices;
use published_snapshots::{SnapshotSlots, Watermark};
use std::sync::Arc;

/// A reader registry: the snapshot slots, and the watermark that each new reader begins with.
#[derive(Drop)]
pub struct ReaderRegistry {
    pub(crate) snapshot_slots: Arc<SnapshotSlots<Vertices>>,
    pub(crate) watermark: Watermark,
    ghost own: { IsWatermarkOf (arc_value snapshot_slots) watermark },
}

impl ReaderRegistry {
    ghost use Rattle.hull_snapshots.specs.Readers.{ComesIn};

    /// Makes a reader that has no snapshot yet. Returns `None` if the snapshot slots have too many owners.
    pub fn reader(&self) -> Option<Reader>
        ensures { IfSome result (ComesIn self.now) }
    {
        let snapshot_slots = Arc::try_clone(&self.snapshot_slots).ok()?;
        Some(Reader::new(snapshot_slots, self.watermark.again()))
    }
}
