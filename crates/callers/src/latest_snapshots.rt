//! A caller of `published_snapshots`.
ghost use Rattle.published_snapshots.specs.Snapshots.{IsOfSnapshotSlots, IsWatermarkOf};

use published_snapshots::{Snapshot, SnapshotSlots, Truth, Watermark};

/// Returns the newest snapshot that is published, or the one that the caller has if none can be taken. It never waits, and each snapshot stays the
/// same for as long as the caller has it.
pub fn latest_snapshot<T: Truth>(
    snapshot_slots: &SnapshotSlots<T>,
    held: Snapshot<T>,
    watermark: &mut Watermark,
) -> Snapshot<T>
    requires watermark { IsWatermarkOf snapshot_slots.now watermark.old }
    requires held { IsOfSnapshotSlots snapshot_slots.now held }
    ensures { IsOfSnapshotSlots snapshot_slots.now result }
{
    match snapshot_slots.snapshot(watermark) {
        Some(snapshot) => snapshot,
        None => held,
    }
}
