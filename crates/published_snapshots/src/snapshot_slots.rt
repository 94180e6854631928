//! The state that readers and the publisher share: slots, and a word that names the newest one.
ghost use Rattle.std.specs.Prelude.{◌≡◌, ◌≢◌, ◌%◌, IfSome, IfOk, MatchBool, All};
ghost use Rattle.counted_slot.specs.Counting.{readers};

use super::SLOT_LIMIT;
use super::history::{Lines, Prefix};
use super::newest::{Newest, Watermark};
use super::snapshot::{Snapshot, Truth};
use counted_slot::{Counted, MOST_READERS, ONE_READER, PRESENT};
use logbook::Seen;
use std::alloc::{AllocError, Global};

/// How many times a reader tries to take a snapshot before it gives up.
const TRIES: u32 = 1000;

/// Slots for published values, and the word that names the newest.
#[derive(Drop)]
pub struct SnapshotSlots<T: Truth> {
    pub(crate) newest: Newest,
    pub(crate) slots: Vec<Counted<Option<Snapshot<T>>>>,
    pub(crate) history: Seen<T::Line, u64, Lines>,
    ghost of_history: { All (λ slot. slot ≡ history) slots.items },
}

/// Returns the state in a slot's word.
pub(crate) fn state_of(word: u64) -> u64
    ensures { result ≡ word % 4 }
{
    word % 4
}

/// Returns how many readers a slot's word counts.
pub(crate) fn reader_count(word: u64) -> u64
    ensures { result ≡ readers word }
{
    word % 0x1_0000_0000 / 4
}

impl<T: Truth> SnapshotSlots<T> {
    ghost use Rattle.published_snapshots.specs.Numbers.{IsLaterWatermark, watermark_number};
    ghost use Rattle.published_snapshots.specs.Snapshots.{IsOfSnapshotSlots, IsWatermarkOf, number_of, slots_of};

    /// Makes `count` empty slots for values of this history. Fails with [`AllocError`] if memory was refused.
    pub fn new(
        alloc: Global,
        newest: Newest,
        prefix: &Prefix<T::Line>,
        count: usize,
    ) -> Result<SnapshotSlots<T>, AllocError>
        ensures history { IfOk result (λ snapshot_slots. snapshot_slots.history.book ≡ prefix.now.seen.book) }
        ensures newest { IfOk result (λ snapshot_slots. snapshot_slots.newest ≡ newest) }
        ensures slots { IfOk result (λ snapshot_slots. slots_of snapshot_slots ≡ count) }
    {
        let history = prefix.seen.again();
        let mut slots = Vec::with_capacity(alloc, count)?;
        for _ in 0..count {
            slots.push(Counted::new(None, &history))?;
        }
        Ok(SnapshotSlots {
            newest,
            slots,
            history,
        })
    }

    /// Tries once to take the snapshot with this number from this slot: a load, an exchange that counts one reader
    /// more, a count of the value's owners, and a step that leaves.
    fn enter(&self, at: usize, number: u64) -> Option<Snapshot<T>>
        ensures number { IfSome result (λ v. number_of v ≡ number) }
        ensures history { IfSome result (λ v. IsOfSnapshotSlots self.now v) }
    {
        let slot = self.slots.get(at)?;
        let word = slot.load();
        if state_of(word) != PRESENT || reader_count(word) >= MOST_READERS {
            return None;
        }
        let (found, hand) = slot.turn(word, word + ONE_READER);
        if found != word {
            hand.done();
            return None;
        }
        let snapshot = match hand.get() {
            Some(snapshot) => snapshot.again(),
            None => None,
        };
        hand.leave();
        let snapshot = snapshot?;
        if snapshot.number() != number {
            return None;
        }
        Some(snapshot)
    }

    /// Tries once to take the newest snapshot: the one that the word names, with the number that the word had when it
    /// was loaded.
    fn try_snapshot(&self, watermark: &mut Watermark) -> Option<Snapshot<T>>
        requires { IsWatermarkOf self.now watermark.old }
        ensures more { IsLaterWatermark watermark.old watermark.new }
        ensures exact { IfSome result (λ v. number_of v ≡ watermark_number watermark.new) }
        ensures history { IfSome result (λ v. IsOfSnapshotSlots self.now v) }
    {
        let heard = self.newest.observe(watermark);
        self.enter((heard % SLOT_LIMIT) as usize, heard / SLOT_LIMIT)
    }

    /// Takes a snapshot of the newest value, as it was at a moment of the call: no snapshot that the calling thread
    /// took before has a greater number, and `watermark` named no greater one. It never waits.
    ///
    /// Returns `None` if nothing was published yet, or after a thousand tries, each of which was undone by a
    /// publication or by another reader's step.
    pub fn snapshot(&self, watermark: &mut Watermark) -> Option<Snapshot<T>>
        requires { IsWatermarkOf self.now watermark.old }
        ensures more { IsLaterWatermark watermark.old watermark.new }
        ensures exact { IfSome result (λ v. number_of v ≡ watermark_number watermark.new) }
        ensures history { IfSome result (λ v. IsOfSnapshotSlots self.now v) }
    {
        for _ in 0..TRIES {
            if let Some(snapshot) = self.try_snapshot(watermark) {
                return Some(snapshot);
            }
        }
        None
    }

    /// Returns the number of the newest value, or 0 if nothing was published yet: one load.
    pub fn newest_number(&self, watermark: &mut Watermark) -> u64
        requires { IsWatermarkOf self.now watermark.old }
        ensures more { IsLaterWatermark watermark.old watermark.new }
        ensures newest { result ≡ watermark_number watermark.new }
    {
        self.newest.observe(watermark) / SLOT_LIMIT
    }

    /// Whether a snapshot is still of the newest value: one load.
    pub fn is_newest(&self, snapshot: &Snapshot<T>, watermark: &mut Watermark) -> bool
        requires { IsWatermarkOf self.now watermark.old }
        ensures more { IsLaterWatermark watermark.old watermark.new }
        ensures newest { MatchBool result (number_of snapshot.now ≡ watermark_number watermark.new)
            (number_of snapshot.now ≢ watermark_number watermark.new) }
    {
        self.newest.observe(watermark) / SLOT_LIMIT == snapshot.number()
    }
}
