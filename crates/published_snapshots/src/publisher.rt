//! The publisher.
ghost use Rattle.std.specs.Prelude.{◌≡◌, ◌<◌, IfOk, IfErr, IsSome, IsTrue, OnErr, false};
ghost use Rattle.std.specs.Arc.{arc_value};
ghost use Rattle.published_snapshots.specs.Numbers.{IsLaterWatermark, watermark_number};
ghost use Rattle.published_snapshots.specs.Snapshots.{IsOfSnapshotSlots, IsWatermarkOf, snapshot_slots_of, number_of, published};

use super::history::Overtaken;
use super::newest::Watermark;
use super::snapshot::{Snapshot, Truth};
use super::snapshot_slots::{SnapshotSlots, reader_count, state_of};
use super::{NUMBER_LIMIT, SLOT_LIMIT};
use counted_slot::{PRESENT, TAKEN};
use std::sync::Arc;

/// The right to publish in these slots. It keeps the word as it was raised last.
#[derive(Drop)]
pub struct Publisher<T: Truth> {
    snapshot_slots: Arc<SnapshotSlots<T>>,
    raised: u64,
}

impl<T: Truth> Publisher<T> {
    /// Makes the publisher of slots in which nothing was published yet.
    pub fn new(snapshot_slots: Arc<SnapshotSlots<T>>) -> Publisher<T>
        ensures snapshot_slots { snapshot_slots_of result ≡ arc_value snapshot_slots }
        ensures nothing { published result ≡ 0 }
    {
        Publisher {
            snapshot_slots,
            raised: 0,
        }
    }

    /// Returns the number of the value that was published last, or 0 if none was.
    pub fn last(&self) -> u64
        ensures { result ≡ published self.now }
    {
        self.raised / SLOT_LIMIT
    }

    /// Tries one slot: puts the snapshot there if nobody reads it, and else returns the snapshot.
    fn try_put(&self, at: usize, snapshot: Snapshot<T>) -> Result<(), Snapshot<T>>
        requires { IsOfSnapshotSlots (snapshot_slots_of self.now) snapshot }
        ensures { IfErr result (λ back. back ≡ snapshot) }
    {
        let Some(slot) = self.snapshot_slots.slots.get(at) else {
            return Err(snapshot);
        };
        let word = slot.load();
        if state_of(word) == TAKEN || reader_count(word) != 0 {
            return Err(snapshot);
        }
        let (found, hand) = slot.turn(word, TAKEN);
        if found != word {
            hand.done();
            return Err(snapshot);
        }
        let old = hand.put(Some(snapshot), PRESENT);
        drop(old);
        Ok(())
    }

    /// Puts the snapshot into the first slot, other than the newest, that nobody reads.
    fn put(&self, snapshot: Snapshot<T>) -> Result<u64, Snapshot<T>>
        requires { IsOfSnapshotSlots (snapshot_slots_of self.now) snapshot }
        ensures at { IfOk result (λ at. at < SLOT_LIMIT) }
        ensures back { IfErr result (λ back. back ≡ snapshot) }
    {
        let mut snapshot = snapshot;
        for at in 0..SLOT_LIMIT {
            if at != self.raised % SLOT_LIMIT {
                match self.try_put(at as usize, snapshot) {
                    Ok(()) => return Ok(at),
                    Err(same) => snapshot = same,
                }
            }
        }
        Err(snapshot)
    }

    /// Publishes a snapshot whose number is greater than the last one's. From then on no thread whose watermark has
    /// that number takes a snapshot with a smaller number. It never waits: each slot but the newest is tried once.
    ///
    /// Fails with the snapshot if every slot is being read. With two slots more than there are readers, one is free.
    pub fn publish(
        &mut self,
        watermark: &mut Watermark,
        snapshot: Snapshot<T>,
    ) -> Result<bool, Snapshot<T>>
        requires rising { published self.old < number_of snapshot }
        requires few { number_of snapshot < NUMBER_LIMIT }
        requires watermark { IsWatermarkOf (snapshot_slots_of self.old) watermark.old }
        requires history { IsOfSnapshotSlots (snapshot_slots_of self.old) snapshot }
        ensures more { IsLaterWatermark watermark.old watermark.new }
        ensures watermark { IfOk result (λ raised. IsTrue raised → watermark_number watermark.new ≡ number_of snapshot) }
        ensures back { IfErr result (λ back. back ≡ snapshot) }
        ensures same { snapshot_slots_of self.new ≡ snapshot_slots_of self.old }
        ensures last { IfOk result (λ _. published self.new ≡ number_of snapshot) }
        ensures kept { OnErr result ((published self.new ≡ published self.old) × (watermark.new ≡ watermark.old)) }
    {
        let number = snapshot.number();
        let at = self.put(snapshot)?;
        let from = self.raised;
        let to = number * SLOT_LIMIT + at;
        self.raised = to;
        Ok(self.snapshot_slots.newest.raise(watermark, from, to))
    }

    /// Does what [`publish`](Publisher::publish) does. If another thread published in the meantime, puts the evidence
    /// of that into `overtaken`.
    pub fn publish_unless_overtaken(
        &mut self,
        watermark: &mut Watermark,
        snapshot: Snapshot<T>,
        overtaken: &mut Option<Overtaken>,
    ) -> Result<bool, Snapshot<T>>
        requires rising { published self.old < number_of snapshot }
        requires few { number_of snapshot < NUMBER_LIMIT }
        requires watermark { IsWatermarkOf (snapshot_slots_of self.old) watermark.old }
        requires history { IsOfSnapshotSlots (snapshot_slots_of self.old) snapshot }
        ensures more { IsLaterWatermark watermark.old watermark.new }
        ensures watermark { IfOk result (λ raised. IsTrue raised → watermark_number watermark.new ≡ number_of snapshot) }
        ensures back { IfErr result (λ back. back ≡ snapshot) }
        ensures same { snapshot_slots_of self.new ≡ snapshot_slots_of self.old }
        ensures last { IfOk result (λ _. published self.new ≡ number_of snapshot) }
        ensures kept { OnErr result ((published self.new ≡ published self.old) × (watermark.new ≡ watermark.old)) }
        ensures overtaken { IfOk result (λ raised. raised ≡ false → IsSome overtaken.new) }
    {
        let published = self.publish(watermark, snapshot);
        if let Ok(false) = published {
            *overtaken = Some(Overtaken::by_another());
        }
        published
    }
}
