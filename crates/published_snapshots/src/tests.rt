//! Here the published value is the number of lines.
ghost use Rattle.std.specs.Prelude.{◌≡◌, ◌+◌, ◌≤◌, length};
ghost use Rattle.std.specs.Arc.{arc_value};
ghost use Rattle.published_snapshots.specs.Snapshots.{IsPrefixOf, IsOfSnapshotSlots, IsWatermarkOf, snapshot_slots_of, published, seen_lines};

use crate::{
    History, Newest, Prefix, Publisher, Snapshot, SnapshotSlots, Truth, Watermark, is_prefix,
};
use std::alloc::Global;
use std::process::Abort;
use std::sync::Arc;
use std::test::Fail;
use std::thread;
use std::thread::Threads;

/// How often one thread publishes while the other reads.
const TIMES: u32 = 100000;

/// The value is the number of lines.
struct Counts;

impl Truth for Counts {
    type Line = u64;

    type Value = u64;

    ghost use Rattle.std.specs.Prelude.{◌≡◌, length};

    ghost holds = { λ lines count. count ≡ length lines };
}

/// Slots with their publisher, and the history so far.
#[derive(Drop)]
struct Stage {
    history: History<u64>,
    prefix: Prefix<u64>,
    snapshot_slots: Arc<SnapshotSlots<Counts>>,
    publisher: Publisher<Counts>,
    watermark: Watermark,
    ghost of_history: { IsPrefixOf history prefix },
    ghost same_history: { (arc_value snapshot_slots).history.book ≡ prefix.seen.book },
    ghost of_snapshot_slots: { IsWatermarkOf (arc_value snapshot_slots) watermark },
    ghost publishes: { snapshot_slots_of publisher ≡ arc_value snapshot_slots },
    ghost rising: { published publisher ≤ length (seen_lines prefix) },
}

// Makes so many slots, in which nothing was published.
fn opened(rt: &impl Abort, alloc: Global, slots: usize) -> Stage {
    let (history, prefix) = History::open();
    let (newest, watermark) = Newest::open();
    let Ok(snapshot_slots) = SnapshotSlots::new(alloc, newest, &prefix, slots) else {
        panic!(rt; "there is memory for the slots")
    };
    let Ok(snapshot_slots) = Arc::new(alloc, snapshot_slots) else {
        panic!(rt; "there is memory for the hall")
    };
    let other = shared(rt, &snapshot_slots);
    Stage {
        history,
        prefix,
        snapshot_slots,
        publisher: Publisher::new(other),
        watermark,
    }
}

// Adds a line.
fn add_line(rt: &impl Abort, history: &History<u64>, prefix: &mut Prefix<u64>)
    requires { IsPrefixOf history.now prefix.old }
    ensures history { IsPrefixOf history.now prefix.new }
    ensures longer { length (seen_lines prefix.new) ≡ length (seen_lines prefix.old) + 1 }
    ensures few { length (seen_lines prefix.new) ≤ 1000000 }
{
    let line = prefix.count();
    assert!(rt; line < 1000000);
    let is_added = prefix.add(history, line);
    assert!(rt; is_added);
}

// Returns a snapshot whose value is the number of lines.
fn snapshot_of(rt: &impl Abort, alloc: Global, prefix: &Prefix<u64>) -> Snapshot<Counts>
    ensures { result.prefix ≡ prefix.now }
{
    let Ok(value) = Arc::new(alloc, prefix.count()) else {
        panic!(rt; "there is memory for the value")
    };
    Snapshot::new(value, prefix.again())
}

// Adds a line, and publishes the number of lines; returns whether the word was raised.
fn publish(rt: &impl Abort, alloc: Global, stage: &mut Stage) -> bool {
    add_line(rt, &stage.history, &mut stage.prefix);
    let snapshot = snapshot_of(rt, alloc, &stage.prefix);
    match stage.publisher.publish(&mut stage.watermark, snapshot) {
        Ok(is_raised) => is_raised,
        Err(_) => false,
    }
}

// Returns one more owner of the slots.
fn shared(
    rt: &impl Abort,
    snapshot_slots: &Arc<SnapshotSlots<Counts>>,
) -> Arc<SnapshotSlots<Counts>>
    ensures { arc_value result ≡ arc_value snapshot_slots.now }
{
    match Arc::try_clone(snapshot_slots) {
        Ok(other) => other,
        Err(_) => panic!(rt; "the hall has few owners"),
    }
}

// Returns the newest snapshot.
fn newest(
    rt: &impl Abort,
    snapshot_slots: &SnapshotSlots<Counts>,
    watermark: &mut Watermark,
) -> Snapshot<Counts>
    requires { IsWatermarkOf snapshot_slots.now watermark.old }
    ensures watermark { IsWatermarkOf snapshot_slots.now watermark.new }
    ensures snapshot { IsOfSnapshotSlots snapshot_slots.now result }
{
    match snapshot_slots.snapshot(watermark) {
        Some(snapshot) => snapshot,
        None => panic!(rt; "a view was published"),
    }
}

// Whether the snapshot is the newest.
fn is_newest(
    snapshot_slots: &SnapshotSlots<Counts>,
    snapshot: &Snapshot<Counts>,
    watermark: &mut Watermark,
) -> bool
    requires { IsWatermarkOf snapshot_slots.now watermark.old }
    ensures { IsWatermarkOf snapshot_slots.now watermark.new }
{
    snapshot_slots.is_newest(snapshot, watermark)
}

/// A snapshot stays unchanged while others are published, and `is_newest` distinguishes the newest one from it.
#[test]
fn snapshots_show_what_was_published(rt: HostRuntime) -> Result<(), Fail> {
    let mut stage = opened(&rt, rt.alloc(), 3);
    let snapshot_slots = shared(&rt, &stage.snapshot_slots);
    let mut watermark = stage.watermark.again();
    assert!(rt; snapshot_slots.snapshot(&mut watermark).is_none());
    assert!(rt; publish(&rt, rt.alloc(), &mut stage));
    let first = newest(&rt, &snapshot_slots, &mut watermark);
    assert_eq!(rt; (first.number(), *first.value()), (1, 1));
    assert!(rt; is_newest(&snapshot_slots, &first, &mut watermark));
    assert!(rt; publishes(&rt, rt.alloc(), &mut stage, 300));
    assert!(rt; !is_newest(&snapshot_slots, &first, &mut watermark));
    let last = newest(&rt, &snapshot_slots, &mut watermark);
    assert_eq!(rt; (last.number(), *last.value()), (301, 301));
    assert_eq!(rt; (first.number(), *first.value()), (1, 1));
    assert!(rt; is_prefix(&first, &last) && !is_prefix(&last, &first));
    Ok(())
}

/// A snapshot comes back if there is no slot but the newest.
#[test]
fn a_snapshot_comes_back_where_there_is_no_slot(rt: HostRuntime) -> Result<(), Fail> {
    let mut stage = opened(&rt, rt.alloc(), 1);
    assert!(rt; !publish(&rt, rt.alloc(), &mut stage));
    let mut watermark = stage.watermark.again();
    assert!(rt; stage.snapshot_slots.snapshot(&mut watermark).is_none());
    Ok(())
}

// Takes so many snapshots: whether each shows its number and no number is below an earlier one.
fn reads(snapshot_slots: &SnapshotSlots<Counts>, watermark: &mut Watermark, times: u32) -> bool
    requires { IsWatermarkOf snapshot_slots.now watermark.old }
    ensures { IsWatermarkOf snapshot_slots.now watermark.new }
{
    let mut last = 0u64;
    let mut are_right = true;
    for _ in 0..times {
        if let Some(snapshot) = snapshot_slots.snapshot(watermark) {
            are_right = are_right
                && last <= snapshot.number()
                && *snapshot.value() == snapshot.number();
            last = snapshot.number();
        }
    }
    are_right
}

// Publishes so many times; whether the word was raised each time.
fn publishes(rt: &impl Abort, alloc: Global, stage: &mut Stage, times: u32) -> bool {
    let mut all_watermark = true;
    for _ in 0..times {
        all_watermark = publish(rt, alloc, stage) && all_watermark;
    }
    all_watermark
}

/// The state of the publishing thread, and whether it raised the word for all that it published.
#[derive(Drop)]
struct Writer {
    stage: Stage,
    all_watermark: bool,
}

/// The state of the reading thread, and whether all snapshots that it took were right.
#[derive(Drop)]
struct Reader {
    snapshot_slots: Arc<SnapshotSlots<Counts>>,
    watermark: Watermark,
    all_right: bool,
    ghost of_snapshot_slots: { IsWatermarkOf (arc_value snapshot_slots) watermark },
}

// Publishes [`TIMES`] times.
fn write_all(rt: &impl Abort, alloc: Global, writer: &mut Writer) {
    writer.all_watermark = publishes(rt, alloc, &mut writer.stage, TIMES);
}

// Takes [`TIMES`] snapshots.
fn read_all(reader: &mut Reader) {
    let snapshot_slots = &reader.snapshot_slots;
    reader.all_right = reads(snapshot_slots, &mut reader.watermark, TIMES);
}

// One thread publishes while another reads: whether the word was raised each time, and all snapshots were right.
fn storm<R: Threads + Abort + Sync>(rt: &R, alloc: Global) -> (bool, bool) {
    let stage = opened(rt, alloc, 3);
    let snapshot_slots = shared(rt, &stage.snapshot_slots);
    let watermark = stage.watermark.again();
    let mut reader = Reader {
        snapshot_slots,
        watermark,
        all_right: false,
    };
    let mut writer = Writer {
        stage,
        all_watermark: false,
    };
    thread::join_mut(
        rt,
        &mut || write_all(rt, alloc, &mut writer),
        &mut || read_all(&mut reader),
    );
    (writer.all_watermark, reader.all_right)
}

/// Snapshots that are taken during publications show their numbers, and no number is below an earlier one.
#[test]
fn snapshots_beside_publications(rt: HostRuntime) -> Result<(), Fail> {
    let (all_watermark, all_right) = storm(&rt, rt.alloc());
    assert!(rt; all_watermark && all_right);
    Ok(())
}
