//! Exports that close a shared hull, and write what its book contained.
ghost use Rattle.std.specs.Borrow.{full_share, sem};
ghost use Rattle.std.specs.Ptr.{lies_at};
ghost use Rattle.hull_shared.specs.contracts.shared_hull.SharedHull.{the_row as shared_hull_row};
ghost use Rattle.hull_shared.specs.SharedHulls.{HasClosed, HasEnded, HasWritten};
ghost use Rattle.hull_reply.specs.Left.{leaves};
ghost use Rattle.hull_shared.specs.Pieces.{HasWrittenPieceOfSharedHull};
ghost use Rattle.hull_shared.specs.SegmentNumbers.{HasReportedLast};

use crate::shared_hull::SharedHull;
use crate::{closing, journal_lines_in, pieces};
use hull_reply::HullReply;

/// Closes a shared hull, all of whose seats are released.
///
/// # Safety
///
/// `at` points to a shared hull, and no other call on it is under way.
#[unsafe(no_mangle)]
pub unsafe extern "C" fn hull_shared_close(at: *mut u8) -> u32
    ghost t: { shared_hull_row.Denot }
    requires* { sem 𝓛 (lies_at shared_hull_row full_share at t) }
    ensures* { sem 𝓛 (leaves shared_hull_row at (λ new. HasClosed t new result)) }
{
    let shared_hull = at as *mut SharedHull;
    closing::close(unsafe { &mut *shared_hull })
}

/// Returns the number of the first line of a closed shared hull's last segment, and 0 if it is not closed.
///
/// # Safety
///
/// `at` points to a shared hull, and no other call on it is under way.
#[unsafe(no_mangle)]
pub unsafe extern "C" fn hull_shared_last_first(at: *mut u8) -> u64
    ghost t: { shared_hull_row.Denot }
    requires* { sem 𝓛 (lies_at shared_hull_row full_share at t) }
    ensures* { sem 𝓛 (leaves shared_hull_row at (λ new. HasReportedLast t new result)) }
{
    let shared_hull = at as *mut SharedHull;
    journal_lines_in::last_first(unsafe { &mut *shared_hull })
}

/// Writes the text of the last segment of a closed shared hull's journal, the lines still in its book, to the front
/// of an array.
///
/// # Safety
///
/// `at` points to a shared hull, and no other call on it is under way.
#[unsafe(no_mangle)]
pub unsafe extern "C" fn hull_shared_text(at: *mut u8, out: &mut [u8]) -> HullReply
    ghost t: { shared_hull_row.Denot }
    requires* { sem 𝓛 (lies_at shared_hull_row full_share at t) }
    ensures* { sem 𝓛 (leaves shared_hull_row at (λ new. HasWritten t new out.old out.new result)) }
{
    let shared_hull = at as *mut SharedHull;
    closing::text(unsafe { &mut *shared_hull }, out)
}

/// Writes whole lines of that text to the front of an array, from line `from` of it on, counted from 0: as many as
/// fit. Returns the number of bytes, and the number of the line after them.
///
/// # Safety
///
/// `at` points to a shared hull, and no other call on it is under way.
#[unsafe(no_mangle)]
pub unsafe extern "C" fn hull_shared_text_from(at: *mut u8, from: u64, out: &mut [u8]) -> HullReply
    ghost t: { shared_hull_row.Denot }
    requires* { sem 𝓛 (lies_at shared_hull_row full_share at t) }
    ensures* { sem 𝓛 (leaves shared_hull_row at (λ new. HasWrittenPieceOfSharedHull from t new out.old out.new result)) }
{
    let shared_hull = at as *mut SharedHull;
    pieces::shared_hull_text_from(unsafe { &mut *shared_hull }, from, out)
}

/// Ends a shared hull that is not open: it contains nothing then, and its storage may be used for anything.
///
/// # Safety
///
/// `at` points to a shared hull, and no other call on it is under way.
#[unsafe(no_mangle)]
pub unsafe extern "C" fn hull_shared_end(at: *mut u8) -> u32
    ghost t: { shared_hull_row.Denot }
    requires* { sem 𝓛 (lies_at shared_hull_row full_share at t) }
    ensures* { sem 𝓛 (leaves shared_hull_row at (λ new. HasEnded t new result)) }
{
    let shared_hull = at as *mut SharedHull;
    closing::end(unsafe { &mut *shared_hull })
}
