//! Exports that open a shared hull.
ghost use Rattle.std.specs.Prelude.{false, true};
ghost use Rattle.std.specs.Borrow.{full_share, sem};
ghost use Rattle.std.specs.Ptr.{lies_at};
ghost use Rattle.hull_shared.specs.contracts.shared_hull.SharedHull.{the_row as shared_hull_row};
ghost use Rattle.hull_shared.specs.SharedHulls.{HasOpened};
ghost use Rattle.hull_reply.specs.Left.{leaves};
ghost use Rattle.hull_shared.specs.Left.{leaves_both};
ghost use Rattle.hull_shared.specs.Limits.{kept_with, unkept_with};
ghost use Rattle.hull_shared.specs.Reopenings.{HasReopened};
ghost use Rattle.hull_shared.specs.contracts.stored_file.JournalFile.{the_row as file_row};
ghost use Rattle.hull_shared.specs.Continuations.{HasContinued};

use crate::shared_hull::SharedHull;
use crate::stored_file::JournalFile;
use crate::{continuing, opening, reopening};
use hull_reply::HullReply;
use std::alloc::Global;

/// Opens a shared hull round an empty set: for up to `limit` different points, `capacity` calls whose numbers begin
/// with `first`, and `seats` seats.
///
/// # Safety
///
/// `at` points to a shared hull, and no other call on it is under way.
#[unsafe(no_mangle)]
pub unsafe extern "C" fn hull_shared_open(
    at: *mut u8,
    alloc: Global,
    limit: u32,
    first: u64,
    capacity: u32,
    seats: u32,
) -> u32
    ghost t: { shared_hull_row.Denot }
    requires* { sem 𝓛 (lies_at shared_hull_row full_share at t) }
    ensures* { sem 𝓛 (leaves shared_hull_row at
        (λ new. HasOpened (kept_with limit first capacity seats false) t new result)) }
{
    let shared_hull = at as *mut SharedHull;
    opening::open(
        unsafe { &mut *shared_hull },
        alloc,
        limit,
        first,
        capacity,
        seats,
    )
}

/// Opens a shared hull as [`hull_shared_open`] does, but one that also answers questions when the book is full: such
/// a question has no line.
///
/// # Safety
///
/// `at` points to a shared hull, and no other call on it is under way.
#[unsafe(no_mangle)]
pub unsafe extern "C" fn hull_shared_open_answering(
    at: *mut u8,
    alloc: Global,
    limit: u32,
    first: u64,
    capacity: u32,
    seats: u32,
) -> u32
    ghost t: { shared_hull_row.Denot }
    requires* { sem 𝓛 (lies_at shared_hull_row full_share at t) }
    ensures* { sem 𝓛 (leaves shared_hull_row at
        (λ new. HasOpened (kept_with limit first capacity seats true) t new result)) }
{
    let shared_hull = at as *mut SharedHull;
    opening::open_answering(
        unsafe { &mut *shared_hull },
        alloc,
        limit,
        first,
        capacity,
        seats,
    )
}

/// Opens a shared hull as [`hull_shared_open`] does, but one that discards the line of each call.
///
/// # Safety
///
/// `at` points to a shared hull, and no other call on it is under way.
#[unsafe(no_mangle)]
pub unsafe extern "C" fn hull_shared_open_without_journal(
    at: *mut u8,
    alloc: Global,
    limit: u32,
    first: u64,
    seats: u32,
) -> u32
    ghost t: { shared_hull_row.Denot }
    requires* { sem 𝓛 (lies_at shared_hull_row full_share at t) }
    ensures* { sem 𝓛 (leaves shared_hull_row at
        (λ new. HasOpened (unkept_with limit first seats) t new result)) }
{
    let shared_hull = at as *mut SharedHull;
    opening::open_without_journal(unsafe { &mut *shared_hull }, alloc, limit, first, seats)
}

/// Opens a shared hull round a set with the points that a journal left, which continues where the journal ends.
/// `text` is that of the whole journal, `capacity` the greatest number of lines in the book, and there are `seats`
/// seats. First number and limit are the journal's.
///
/// # Safety
///
/// `at` points to a shared hull, and no other call on it is under way.
#[unsafe(no_mangle)]
pub unsafe extern "C" fn hull_shared_reopen(
    at: *mut u8,
    alloc: Global,
    text: &[u8],
    capacity: u32,
    seats: u32,
) -> HullReply
    ghost t: { shared_hull_row.Denot }
    requires* { sem 𝓛 (lies_at shared_hull_row full_share at t) }
    ensures* { sem 𝓛 (leaves shared_hull_row at (λ new. HasReopened text.now capacity seats false t new result)) }
{
    let shared_hull = at as *mut SharedHull;
    reopening::reopen(unsafe { &mut *shared_hull }, alloc, text, capacity, seats)
}

/// Opens a shared hull as [`hull_shared_reopen`] does, but one that also answers questions when the book is full.
///
/// # Safety
///
/// `at` points to a shared hull, and no other call on it is under way.
#[unsafe(no_mangle)]
pub unsafe extern "C" fn hull_shared_reopen_answering(
    at: *mut u8,
    alloc: Global,
    text: &[u8],
    capacity: u32,
    seats: u32,
) -> HullReply
    ghost t: { shared_hull_row.Denot }
    requires* { sem 𝓛 (lies_at shared_hull_row full_share at t) }
    ensures* { sem 𝓛 (leaves shared_hull_row at (λ new. HasReopened text.now capacity seats true t new result)) }
{
    let shared_hull = at as *mut SharedHull;
    reopening::reopen_answering(unsafe { &mut *shared_hull }, alloc, text, capacity, seats)
}

/// Opens a shared hull with what a journal file leaves, which is taken out of its storage.
///
/// # Safety
///
/// `at` points to a shared hull and `storage` to storage for a journal file, and no other call on either is under way.
#[unsafe(no_mangle)]
pub unsafe extern "C" fn hull_shared_continue_file(
    at: *mut u8,
    storage: *mut u8,
    capacity: u32,
    seats: u32,
) -> HullReply
    ghost t: { shared_hull_row.Denot × file_row.Denot }
    requires* shared_hull { sem 𝓛 (lies_at shared_hull_row full_share at t.0) }
    requires* storage { sem 𝓛 (lies_at file_row full_share storage t.1) }
    ensures* { sem 𝓛 (leaves_both shared_hull_row file_row at storage (λ new left. HasContinued capacity seats t.0 new t.1 left result)) }
{
    let shared_hull = at as *mut SharedHull;
    let file = storage as *mut JournalFile;
    continuing::continue_file(
        unsafe { &mut *shared_hull },
        unsafe { &mut *file },
        capacity,
        seats,
    )
}
