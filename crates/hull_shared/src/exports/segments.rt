//! Exports about segments of a journal.
ghost use Rattle.std.specs.Borrow.{full_share, sem};
ghost use Rattle.std.specs.Ptr.{lies_at};
ghost use Rattle.hull_shared.specs.contracts.segment.Segment.{the_row as segment_row};
ghost use Rattle.hull_reply.specs.Left.{leaves};
ghost use Rattle.hull_shared.specs.Pieces.{HasWrittenPiece};
ghost use Rattle.hull_shared.specs.Segments.{HasEndedSegment, HasReserved, HasReportedSpace, HasWrittenSegment};
ghost use Rattle.hull_shared.specs.SegmentNumbers.{HasReportedFirst};

use crate::segment::Segment;
use crate::{journal_lines_in, pieces, segments};
use hull_reply::HullReply;
use std::alloc::Global;

/// Requests storage for so many lines for a segment.
///
/// # Safety
///
/// `at` points to a segment, and no other call on it is under way.
#[unsafe(no_mangle)]
pub unsafe extern "C" fn hull_shared_segment_reserve(at: *mut u8, alloc: Global, lines: u32) -> u32
    ghost t: { segment_row.Denot }
    requires* { sem 𝓛 (lies_at segment_row full_share at t) }
    ensures* { sem 𝓛 (leaves segment_row at (λ new. HasReserved lines t new result)) }
{
    let segment = at as *mut Segment;
    segments::reserve(unsafe { &mut *segment }, alloc, lines)
}

/// Returns for how many lines a segment has storage, or 0 if it has none.
///
/// # Safety
///
/// `at` points to a segment, and no other call on it is under way.
#[unsafe(no_mangle)]
pub unsafe extern "C" fn hull_shared_segment_space(at: *mut u8) -> u32
    ghost t: { segment_row.Denot }
    requires* { sem 𝓛 (lies_at segment_row full_share at t) }
    ensures* { sem 𝓛 (leaves segment_row at (λ new. HasReportedSpace t new result)) }
{
    let segment = at as *mut Segment;
    segments::storage(unsafe { &mut *segment })
}

/// Returns the number of the first line of a segment's lines, and 0 if it has none.
///
/// # Safety
///
/// `at` points to a segment, and no other call on it is under way.
#[unsafe(no_mangle)]
pub unsafe extern "C" fn hull_shared_segment_first(at: *mut u8) -> u64
    ghost t: { segment_row.Denot }
    requires* { sem 𝓛 (lies_at segment_row full_share at t) }
    ensures* { sem 𝓛 (leaves segment_row at (λ new. HasReportedFirst t new result)) }
{
    let segment = at as *mut Segment;
    journal_lines_in::segment_first(unsafe { &mut *segment })
}

/// Writes the text of a segment's lines to the front of an array.
///
/// # Safety
///
/// `at` points to a segment, and no other call on it is under way.
#[unsafe(no_mangle)]
pub unsafe extern "C" fn hull_shared_segment_text(at: *mut u8, out: &mut [u8]) -> HullReply
    ghost t: { segment_row.Denot }
    requires* { sem 𝓛 (lies_at segment_row full_share at t) }
    ensures* { sem 𝓛 (leaves segment_row at (λ new. HasWrittenSegment t new out.old out.new result)) }
{
    let segment = at as *mut Segment;
    segments::text(unsafe { &mut *segment }, out)
}

/// Writes whole lines of the text of a segment's lines to the front of an array, from line `from` of the text on,
/// counted from 0: as many as fit. Returns the number of bytes, and the number of the line after them.
///
/// # Safety
///
/// `at` points to a segment, and no other call on it is under way.
#[unsafe(no_mangle)]
pub unsafe extern "C" fn hull_shared_segment_text_from(
    at: *mut u8,
    from: u64,
    out: &mut [u8],
) -> HullReply
    ghost t: { segment_row.Denot }
    requires* { sem 𝓛 (lies_at segment_row full_share at t) }
    ensures* { sem 𝓛 (leaves segment_row at (λ new. HasWrittenPiece from t new out.old out.new result)) }
{
    let segment = at as *mut Segment;
    pieces::text_from(unsafe { &mut *segment }, from, out)
}

/// Frees the memory of a segment: it contains nothing then, and its storage may be used for anything.
///
/// # Safety
///
/// `at` points to a segment, and no other call on it is under way.
#[unsafe(no_mangle)]
pub unsafe extern "C" fn hull_shared_segment_end(at: *mut u8) -> u32
    ghost t: { segment_row.Denot }
    requires* { sem 𝓛 (lies_at segment_row full_share at t) }
    ensures* { sem 𝓛 (leaves segment_row at (λ new. HasEndedSegment t new result)) }
{
    let segment = at as *mut Segment;
    segments::end(unsafe { &mut *segment })
}
