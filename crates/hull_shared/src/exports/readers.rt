//! Exports about readers, and their snapshots.
ghost use Rattle.std.specs.Borrow.{full_share, sem};
ghost use Rattle.std.specs.Ptr.{lies_at};
ghost use Rattle.hull_shared.specs.contracts.shared_hull.SharedHull.{the_row as shared_hull_row};
ghost use Rattle.hull_shared.specs.contracts.reader.SharedReader.{the_row as reader_row};
ghost use Rattle.hull_reply.specs.Left.{leaves};
ghost use Rattle.hull_shared.specs.Left.{leaves_both};
ghost use Rattle.hull_shared.specs.Readings.{HasSetReaders, HasAcquiredReader, HasPutSnapshot, HasReturnedReader};
ghost use Rattle.hull_shared.specs.Readings.{HasReportedNewest, HasSnapshotTakenIn};

use crate::reader::SharedReader;
use crate::reading;
use crate::reading::SnapshotReply;
use crate::shared_hull::SharedHull;
use hull_reply::{HullPoint, HullReply};

/// Sets for how many readers a shared hull is opened.
///
/// # Safety
///
/// `at` points to a shared hull, and no other call on it is under way.
#[unsafe(no_mangle)]
pub unsafe extern "C" fn hull_shared_set_max_readers(at: *mut u8, readers: u32) -> u32
    ghost t: { shared_hull_row.Denot }
    requires* { sem 𝓛 (lies_at shared_hull_row full_share at t) }
    ensures* { sem 𝓛 (leaves shared_hull_row at (λ new. HasSetReaders readers t new result)) }
{
    let shared_hull = at as *mut SharedHull;
    reading::set_max_readers(unsafe { &mut *shared_hull }, readers)
}

/// Moves a reader out of its shared hull, into storage.
///
/// # Safety
///
/// `at` points to a shared hull and `storage` to storage for a reader, and no other call on either is under way.
#[unsafe(no_mangle)]
pub unsafe extern "C" fn hull_shared_acquire_reader(at: *mut u8, storage: *mut u8) -> u32
    ghost t: { shared_hull_row.Denot × reader_row.Denot }
    requires* shared_hull { sem 𝓛 (lies_at shared_hull_row full_share at t.0) }
    requires* storage { sem 𝓛 (lies_at reader_row full_share storage t.1) }
    ensures* { sem 𝓛 (leaves_both shared_hull_row reader_row at storage (λ new left. HasAcquiredReader t.0 new t.1 left result)) }
{
    let shared_hull = at as *mut SharedHull;
    let reader = storage as *mut SharedReader;
    reading::acquire_reader(unsafe { &mut *shared_hull }, unsafe { &mut *reader })
}

/// Moves the reader in the storage back to its shared hull, and drops its snapshot.
///
/// # Safety
///
/// `at` points to a shared hull and `storage` to storage for a reader; a reader in it was acquired from that shared
/// hull; and no other call on either is under way.
#[unsafe(no_mangle)]
pub unsafe extern "C" fn hull_shared_release_reader(at: *mut u8, storage: *mut u8) -> u32
    ghost t: { shared_hull_row.Denot × reader_row.Denot }
    requires* shared_hull { sem 𝓛 (lies_at shared_hull_row full_share at t.0) }
    requires* storage { sem 𝓛 (lies_at reader_row full_share storage t.1) }
    ensures* { sem 𝓛 (leaves_both shared_hull_row reader_row at storage (λ new left. HasReturnedReader t.0 new t.1 left result)) }
{
    let shared_hull = at as *mut SharedHull;
    let reader = storage as *mut SharedReader;
    reading::return_reader(unsafe { &mut *shared_hull }, unsafe { &mut *reader })
}

/// Takes the newest snapshot, in a few atomic steps without a lock, and returns its numbers.
///
/// # Safety
///
/// `at` points to storage for a reader, and no other call on it is under way.
#[unsafe(no_mangle)]
pub unsafe extern "C" fn hull_shared_read(at: *mut u8) -> SnapshotReply
    ghost t: { reader_row.Denot }
    requires* { sem 𝓛 (lies_at reader_row full_share at t) }
    ensures* { sem 𝓛 (leaves reader_row at (λ new. HasSnapshotTakenIn t new result)) }
{
    let reader = at as *mut SharedReader;
    reading::snapshot(unsafe { &mut *reader })
}

/// Writes the vertices of the reader's snapshot to the front of an array.
///
/// # Safety
///
/// `at` points to storage for a reader, and no other call on it is under way.
#[unsafe(no_mangle)]
pub unsafe extern "C" fn hull_shared_snapshot_vertices(
    at: *mut u8,
    out: &mut [HullPoint],
) -> HullReply
    ghost t: { reader_row.Denot }
    requires* { sem 𝓛 (lies_at reader_row full_share at t) }
    ensures* { sem 𝓛 (leaves reader_row at (λ new. HasPutSnapshot t new out.old out.new result)) }
{
    let reader = at as *mut SharedReader;
    reading::put_snapshot(unsafe { &mut *reader }, out)
}

/// Returns 1 if the reader's snapshot is the newest, and else 0.
///
/// # Safety
///
/// `at` points to storage for a reader, and no other call on it is under way.
#[unsafe(no_mangle)]
pub unsafe extern "C" fn hull_shared_is_newest(at: *mut u8) -> u32
    ghost t: { reader_row.Denot }
    requires* { sem 𝓛 (lies_at reader_row full_share at t) }
    ensures* { sem 𝓛 (leaves reader_row at (λ new. HasReportedNewest t new result)) }
{
    let reader = at as *mut SharedReader;
    reading::is_newest(unsafe { &mut *reader })
}
