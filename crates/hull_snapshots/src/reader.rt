//! Readers, which take snapshots.
ghost use Rattle.std.specs.Arc.{arc_value};
ghost use Rattle.std.specs.Prelude.{◌≡◌, ◌≤◌, IfSome, IsTrue, MatchBool, ◌≢◌, None, length};
ghost use Rattle.published_snapshots.specs.Numbers.{IsLaterWatermark, watermark_number};
ghost use Rattle.published_snapshots.specs.Snapshots.{IsOfSnapshotSlots, IsWatermarkOf};
ghost use Rattle.lattice.specs.Vertices.{IsVertexList};
ghost use Rattle.hull_snapshots.specs.Changes.{held_after_changes};
ghost use Rattle.hull_snapshots.specs.Shown.{lines_shown};

use super::vertices::Vertices;
use lattice::Point;
use published_snapshots::{Snapshot, SnapshotSlots, Watermark};
use std::sync::Arc;

/// A reader: it takes snapshots of the vertices, and keeps the last one.
#[derive(Drop)]
pub struct Reader {
    snapshot_slots: Arc<SnapshotSlots<Vertices>>,
    watermark: Watermark,
    snapshot: Option<Snapshot<Vertices>>,
    number: u64,
    ghost counted: { number ≡ length (lines_shown snapshot) },
    ghost own: { IsWatermarkOf (arc_value snapshot_slots) watermark },
    ghost of_snapshot_slots: { ∥ IfSome snapshot (λ v. IsOfSnapshotSlots (arc_value snapshot_slots) v) ∥₁ },
    ghost watermark_of: { length (lines_shown snapshot) ≤ watermark_number watermark },
}

impl Reader {
    ghost use Rattle.hull_snapshots.specs.Readers.{HasLooked, IsAt, vertices_at, lines_at, newest_watermark};

    /// Makes a reader of these snapshot slots that has no snapshot.
    pub(crate) fn new(snapshot_slots: Arc<SnapshotSlots<Vertices>>, watermark: Watermark) -> Reader
        requires { IsWatermarkOf (arc_value snapshot_slots) watermark }
        ensures { (result.snapshot_slots ≡ snapshot_slots) × (result.watermark ≡ watermark) × (result.snapshot ≡ None) }
    {
        Reader {
            snapshot_slots,
            watermark,
            snapshot: None,
            number: 0,
        }
    }

    /// Whether the reader's snapshot is the newest one: one load of shared memory.
    pub fn is_newest(&mut self) -> bool
        ensures same { IsAt self.old self.new }
        ensures newest { MatchBool result (length (lines_at self.new) ≡ newest_watermark self.new)
            (length (lines_at self.new) ≢ newest_watermark self.new) }
    {
        self.snapshot_slots.newest_number(&mut self.watermark) == self.line_count()
    }

    /// Takes the newest snapshot if the reader does not have it, and returns whether its snapshot is then the newest,
    /// as of a moment of the call. It never waits.
    ///
    /// It returns `false` if a thousand tries were undone, each by a publication or by another reader's step. Then
    /// the snapshot is the same as before, and the watermark has the number of a newer one.
    pub fn look(&mut self) -> bool
        ensures looked { HasLooked self.old self.new result }
    {
        if self.is_newest() {
            return true;
        }
        match self.snapshot_slots.snapshot(&mut self.watermark) {
            Some(snapshot) => {
                self.number = snapshot.number();
                self.snapshot = Some(snapshot);
                true
            }
            None => false,
        }
    }

    /// Returns how many lines the journal had as of the snapshot, or 0 before the first snapshot.
    pub fn line_count(&self) -> u64
        ensures { result ≡ length (lines_at self.now) }
    {
        self.number
    }

    /// Returns the vertices as of those lines.
    pub fn vertices(&self) -> &[Point]
        ensures points { result.now ≡ vertices_at self.now }
        ensures behind { ∥ IsVertexList (held_after_changes (lines_at self.now)).points result.now ∥₁ }
    {
        match &self.snapshot {
            Some(snapshot) => snapshot.value().points(),
            None => &[],
        }
    }
}
