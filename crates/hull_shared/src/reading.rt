//! Readers are acquired, take snapshots, and are released.
ghost use Rattle.hull_shared.specs.Readings.{HasSetReaders, HasAcquiredReader, HasReturnedReader, HasReportedNewest, HasSnapshotTaken};
ghost use Rattle.hull_shared.specs.Readings.{HasPutSnapshot, HasSnapshotTakenIn, IsBareSnapshot};

use crate::reader::{OutReader, SharedReader};
use crate::shared_hull::{FreshSharedHull, SharedHull};
use hull_reply::{Code, HullPoint, HullReply, put_vertices};
use hull_snapshots::READER_LIMIT;

/// A snapshot in numbers.
#[repr(C)]
#[derive(Clone, Copy)]
pub struct SnapshotReply {
    /// How many vertices there are.
    pub count: usize,
    /// As of how many lines of the whole journal they are.
    pub lines: u64,
    /// The number of the last of these lines, or 0 if there is none.
    pub line: u64,
    /// 1 if there is one, and else 0.
    pub has_line: u32,
    /// The number of the code.
    pub code: u32,
}

impl SnapshotReply {
    /// Makes the reply with a code and no snapshot.
    pub(crate) fn bare(code: Code) -> SnapshotReply
        ensures { IsBareSnapshot code result }
    {
        SnapshotReply {
            count: 0,
            lines: 0,
            line: 0,
            has_line: 0,
            code: code.number(),
        }
    }
}

impl OutReader {
    /// Looks, and returns the snapshot that the reader has then.
    fn snapshot(&mut self) -> SnapshotReply
        ensures { HasSnapshotTaken self.old self.new result }
    {
        let code = if self.reader.look() {
            Code::SnapshotTaken
        } else {
            Code::Old
        };
        let lines = self.reader.line_count();
        let count = self.reader.vertices().len();
        let mut reply = SnapshotReply::bare(code);
        reply.count = count;
        reply.lines = lines;
        if lines != 0 {
            reply.line = self.first.wrapping_add(lines - 1);
            reply.has_line = 1;
        }
        reply
    }
}

/// Sets for how many readers a shared hull is opened.
pub(crate) fn set_max_readers(shared_hull: &mut SharedHull, readers: u32) -> u32
    ensures { HasSetReaders readers shared_hull.old shared_hull.new result }
{
    let SharedHull::Fresh(fresh) = shared_hull else {
        return Code::WasOpened.number();
    };
    if readers == 0 || readers > u32::from(READER_LIMIT) {
        return Code::OutOfLimits.number();
    }
    *fresh = FreshSharedHull {
        readers: readers as u8,
    };
    Code::ReadersSet.number()
}

/// Moves a reader out of the shared hull, into the storage.
pub(crate) fn acquire_reader(shared_hull: &mut SharedHull, storage: &mut SharedReader) -> u32
    ensures { HasAcquiredReader shared_hull.old shared_hull.new storage.old storage.new result }
{
    let SharedHull::Open(open) = shared_hull else {
        return Code::NotOpen.number();
    };
    let SharedReader::Vacant = storage else {
        return Code::StorageInUse.number();
    };
    let Some(gate) = &mut open.gate else {
        return Code::NoSeat.number();
    };
    match gate.let_in() {
        Ok(out) => {
            *storage = SharedReader::Out(out);
            Code::Acquired.number()
        }
        Err(fault) => fault.number(),
    }
}

/// Moves the reader in the storage back to its shared hull, and drops its snapshot.
pub(crate) fn return_reader(shared_hull: &mut SharedHull, storage: &mut SharedReader) -> u32
    ensures { HasReturnedReader shared_hull.old shared_hull.new storage.old storage.new result }
{
    let SharedHull::Open(open) = shared_hull else {
        return Code::NotOpen.number();
    };
    let SharedReader::Out(_) = storage else {
        return Code::Vacant.number();
    };
    let Some(gate) = &mut open.gate else {
        return Code::SlotInUse.number();
    };
    if !gate.take_in() {
        return Code::SlotInUse.number();
    }
    *storage = SharedReader::Vacant;
    Code::Released.number()
}

/// Takes the newest snapshot, and returns its numbers.
pub(crate) fn snapshot(storage: &mut SharedReader) -> SnapshotReply
    ensures { HasSnapshotTakenIn storage.old storage.new result }
{
    match storage {
        SharedReader::Vacant => SnapshotReply::bare(Code::Vacant),
        SharedReader::Out(out) => out.snapshot(),
    }
}

/// Writes the vertices of the reader's snapshot to the array, if they fit.
pub(crate) fn put_snapshot(storage: &mut SharedReader, out: &mut [HullPoint]) -> HullReply
    ensures { HasPutSnapshot storage.old storage.new out.old out.new result }
{
    match storage {
        SharedReader::Vacant => HullReply::bare(Code::Vacant),
        SharedReader::Out(own) => put_vertices(own.reader.vertices(), out),
    }
}

/// Returns 1 if the reader's snapshot is the newest, and else 0.
pub(crate) fn is_newest(storage: &mut SharedReader) -> u32
    ensures { HasReportedNewest storage.old storage.new result }
{
    match storage {
        SharedReader::Vacant => 0,
        SharedReader::Out(out) => u32::from(out.reader.is_newest()),
    }
}
