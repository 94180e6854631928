//! The publisher: it records changes, and publishes the vertices.
ghost use Rattle.std.specs.Prelude.{◌≡◌, ◌<◌, ◌≤◌, ◌+◌, ◌++◌, ◌∷◌, ℕ, None, [], IfOk, IfSome, IsSomeAnd, IsTrue, OnErr, Some};
ghost use Rattle.std.specs.Prelude.{false, length, true};
ghost use Rattle.std.specs.Arc.{arc_value};
ghost use Rattle.lattice.specs.Vertices.{IsVertexList};
ghost use Rattle.lattice.specs.Covers.{IsPointSet};
ghost use Rattle.published_snapshots.specs.Numbers.{IsLaterWatermark, watermark_number};
ghost use Rattle.published_snapshots.specs.declared.TheConstants.{NUMBER_LIMIT};
ghost use Rattle.published_snapshots.specs.Snapshots.{IsPrefixOf, IsOfSnapshotSlots, IsWatermarkOf, snapshot_slots_of, number_of, published, seen_lines};
ghost use Rattle.published_snapshots.specs.Snapshots.{slots_of};
ghost use Rattle.hull_snapshots.specs.Changes.{changed, held_at, held_after_changes};
ghost use Rattle.hull_snapshots.specs.Lists.{AreVerticesAfter, StayThrough, vertices_in};
ghost use Rattle.hull_snapshots.specs.Silences.{IsWhySilent};
ghost use Rattle.hull_snapshots.specs.declared.TheConstants.{READER_LIMIT};

use super::change::Change;
use super::reader_registry::ReaderRegistry;
use super::silence::Silence;
use super::vertex_list::VertexList;
use super::vertices::Vertices;
use hull_set::{HullSet, NoMemory};
use published_snapshots::{
    History, NUMBER_LIMIT, Newest, Prefix, Publisher, Snapshot, SnapshotSlots, Watermark,
};
use std::alloc::Global;
use std::sync::Arc;

/// The publisher of a set: records its changes, and publishes its vertices.
///
/// It stops publishing for good at the greatest number that can be published, or if another thread added lines to its
/// history or published in its place; it keeps the evidence of that. It stops for no other reason.
#[derive(Drop)]
pub struct ChangePublisher {
    alloc: Global,
    history: History<Change>,
    prefix: Prefix<Change>,
    publisher: Publisher<Vertices>,
    watermark: Watermark,
    known: Option<Arc<VertexList>>,
    is_behind: bool,
    is_silent: bool,
    why_silent: Option<Silence>,
    ghost why: { is_silent ≡ true → IsWhySilent why_silent (length (seen_lines prefix)) },
    ghost own_history: { IsPrefixOf history prefix },
    ghost own_snapshot_slots: { prefix.seen.book ≡ (snapshot_slots_of publisher).history.book },
    ghost own_word: { IsWatermarkOf (snapshot_slots_of publisher) watermark },
    ghost rising: { published publisher ≤ length (seen_lines prefix) },
    ghost few: { is_silent ≡ false → length (seen_lines prefix) < NUMBER_LIMIT },
    ghost watermark_is: { is_silent ≡ false → watermark_number watermark ≡ published publisher },
    ghost known_is: { ∥ (is_silent ≡ false
        → IfSome known (λ l. IsVertexList (held_after_changes (seen_lines prefix)).points (vertices_in (arc_value l)))) ∥₁ },
    ghost shown: { ∥ (is_silent ≡ false → is_behind ≡ false
        → held_at (published publisher) (seen_lines prefix) ≡ held_after_changes (seen_lines prefix)) ∥₁ },
}

/// Gathers the vertices of a set.
fn gathered<S: HullSet>(alloc: Global, set: &S) -> Result<Arc<VertexList>, NoMemory>
    ensures { IfOk result (λ list. IsVertexList (S.held set.now).points (vertices_in (arc_value list))) }
{
    // (for the prover: what these two promise is that the set is sound)
    let _limit = set.limit();
    let _count = set.count();
    let list = set.vertices()?;
    match Arc::new(alloc, VertexList::new(list)) {
        Ok(list) => Ok(list),
        Err(_) => Err(NoMemory),
    }
}

/// Returns the vertices, if they are known.
fn shared(known: &Option<Arc<VertexList>>) -> Option<Arc<VertexList>>
    ensures { IfSome result (λ list. IsSomeAnd known.now (λ k. arc_value k ≡ arc_value list)) }
{
    match known {
        Some(list) => Arc::try_clone(list).ok(),
        None => None,
    }
}

/// Drops the known vertices if the change may move them.
fn keep(known: &mut Option<Arc<VertexList>>, change: &Change)
    ensures { IfSome known.new
        (λ list. (known.old ≡ Some list) × StayThrough (vertices_in (arc_value list)) change.now) }
{
    if let Some(list) = known {
        if !list.stay(change) {
            *known = None;
        }
    }
}

/// Adds a line for a change after all that was seen. Returns whether it did and one more line can have a number.
fn add_line(
    history: &History<Change>,
    prefix: &mut Prefix<Change>,
    change: Change,
    why_silent: &mut Option<Silence>,
) -> bool
    requires room { length (seen_lines prefix.old) < NUMBER_LIMIT }
    requires history { IsPrefixOf history.now prefix.old }
    ensures history { IsPrefixOf history.now prefix.new }
    ensures longer { length (seen_lines prefix.old) ≤ length (seen_lines prefix.new) }
    ensures added { IsTrue result → (seen_lines prefix.new ≡ seen_lines prefix.old ++ change ∷ [])
        × (length (seen_lines prefix.new) < NUMBER_LIMIT) }
    ensures why { result ≡ false → IsWhySilent why_silent.new (length (seen_lines prefix.new)) }
{
    match prefix.add_unless_overtaken(history, change) {
        Ok(()) => {
            if prefix.count() < NUMBER_LIMIT {
                return true;
            }
            *why_silent = Some(Silence::AtLimit);
            false
        }
        Err(evidence) => {
            *why_silent = Some(Silence::Overtaken(evidence));
            false
        }
    }
}

/// Publishes a snapshot, and returns whether readers can know of it.
fn put_out(
    publisher: &mut Publisher<Vertices>,
    watermark: &mut Watermark,
    snapshot: Snapshot<Vertices>,
    why_silent: &mut Option<Silence>,
) -> Result<bool, Snapshot<Vertices>>
    requires rising { published publisher.old < number_of snapshot }
    requires few { number_of snapshot < NUMBER_LIMIT }
    requires watermark { IsWatermarkOf (snapshot_slots_of publisher.old) watermark.old }
    requires history { IsOfSnapshotSlots (snapshot_slots_of publisher.old) snapshot }
    ensures more { IsLaterWatermark watermark.old watermark.new }
    ensures watermark { IfOk result (λ raised. IsTrue raised → watermark_number watermark.new ≡ number_of snapshot) }
    ensures same { snapshot_slots_of publisher.new ≡ snapshot_slots_of publisher.old }
    ensures last { IfOk result (λ _. published publisher.new ≡ number_of snapshot) }
    ensures kept { OnErr result ((published publisher.new ≡ published publisher.old) × (watermark.new ≡ watermark.old)) }
    ensures why { IfOk result (λ raised. raised ≡ false → (n : ℕ) → IsWhySilent why_silent.new n) }
{
    let mut overtaken = None;
    let published = publisher.publish_unless_overtaken(watermark, snapshot, &mut overtaken);
    if let Some(evidence) = overtaken {
        *why_silent = Some(Silence::Overtaken(evidence));
    }
    published
}

impl ChangePublisher {
    ghost use Rattle.hull_snapshots.specs.ChangePublishers.{HasKept, HasRecorded, IsOpened, IsPublic, IsShown, SaysWhySilent, is_silent};
    ghost use Rattle.hull_snapshots.specs.ChangePublishers.{last_published, recorded};

    /// Makes a publisher that has recorded nothing, and the registry for so many readers. Fails with [`NoMemory`] if
    /// memory was refused.
    pub fn open(alloc: Global, readers: u8) -> Result<(ChangePublisher, ReaderRegistry), NoMemory>
        requires { readers ≤ READER_LIMIT }
        ensures { IfOk result (λ r. IsOpened readers r.0 r.1) }
    {
        let (history, prefix) = History::open();
        let (newest, watermark) = Newest::open();
        let snapshot_slots = SnapshotSlots::new(alloc, newest, &prefix, usize::from(readers) + 2)?;
        let Ok(snapshot_slots) = Arc::new(alloc, snapshot_slots) else {
            return Err(NoMemory);
        };
        let Ok(other) = Arc::try_clone(&snapshot_slots) else {
            return Err(NoMemory);
        };
        let change_publisher = ChangePublisher {
            alloc,
            history,
            prefix,
            publisher: Publisher::new(other),
            watermark: watermark.again(),
            known: None,
            is_behind: false,
            is_silent: false,
            why_silent: None,
        };
        Ok((
            change_publisher,
            ReaderRegistry {
                snapshot_slots,
                watermark,
            },
        ))
    }

    /// Records a change, and publishes nothing: the next publication shows it.
    pub fn record(&mut self, change: Change)
        ensures recorded { HasRecorded self.old self.new change }
        ensures last { last_published self.new ≡ last_published self.old }
        ensures why { SaysWhySilent self.new }
    {
        if self.is_silent {
            return;
        }
        keep(&mut self.known, &change);
        self.is_silent = !add_line(
            &self.history,
            &mut self.prefix,
            change,
            &mut self.why_silent,
        );
        self.is_behind |= change.matters();
    }

    /// Gathers the vertices after the recorded changes from the set, if they are not known.
    fn fill<S: HullSet>(&mut self, set: &S)
        requires held { is_silent self.old ≡ false → S.held set.now ≡ held_after_changes (recorded self.old) }
        ensures prefix { (self.new.prefix ≡ self.old.prefix) × (self.new.is_silent ≡ self.old.is_silent) }
        ensures publisher { self.new.publisher ≡ self.old.publisher }
    {
        if self.known.is_none() {
            self.known = gathered(self.alloc, set).ok();
        }
    }

    /// Publishes these vertices, and returns whether they are public then.
    fn post(&mut self, list: Arc<VertexList>) -> bool
        requires speaks { is_silent self.old ≡ false }
        requires rising { last_published self.old < length (recorded self.old) }
        requires vertices { AreVerticesAfter (recorded self.old) (arc_value list) }
        ensures same { HasKept self.old self.new }
        ensures published { IsTrue result → IsPublic self.new }
    {
        let snapshot = Snapshot::new(list, self.prefix.again());
        match put_out(
            &mut self.publisher,
            &mut self.watermark,
            snapshot,
            &mut self.why_silent,
        ) {
            Ok(is_raised) => {
                self.is_behind = false;
                self.is_silent = !is_raised;
                is_raised
            }
            Err(_) => false,
        }
    }

    /// Publishes the vertices after the recorded changes, unless these were published last, and returns whether they
    /// are public then. They are the vertices of the set.
    ///
    /// It returns `false` if memory for new vertices was refused, if every slot is being read (impossible with no
    /// more readers than it was opened for), or if the publisher is silent. Then the next publication must show them.
    pub fn publish<S: HullSet>(&mut self, set: &S) -> bool
        requires held { is_silent self.old ≡ false → S.held set.now ≡ held_after_changes (recorded self.old) }
        ensures same { HasKept self.old self.new }
        ensures published { IsTrue result → IsPublic self.new }
    {
        if self.is_silent {
            return false;
        }
        if self.publisher.last() == self.prefix.count() {
            return true;
        }
        self.fill(set);
        match shared(&self.known) {
            Some(list) => self.post(list),
            None => false,
        }
    }

    /// Records the change of a call, and publishes the vertices after it if it changed the set or if earlier vertices
    /// were not published. `set` is the set after the call. Returns whether all points of the set are shown then.
    pub fn announce<S: HullSet>(&mut self, change: Change, set: &S) -> bool
        requires held { is_silent self.old ≡ false → S.held set.now ≡ changed (held_after_changes (recorded self.old)) change }
        ensures recorded { HasRecorded self.old self.new change }
        ensures shown { ∥ (IsTrue result → IsShown self.new) ∥₁ }
        ensures why { SaysWhySilent self.new }
    {
        self.record(change);
        if self.is_behind {
            self.publish(set)
        } else {
            !self.is_silent
        }
    }
}
