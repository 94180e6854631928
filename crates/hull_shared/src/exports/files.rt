//! Exports about journal files, and the lines of theirs that are not a journal's.
ghost use Rattle.std.specs.Prelude.{◌≡◌};
ghost use Rattle.std.specs.Borrow.{full_share, sem};
ghost use Rattle.std.specs.Ptr.{lies_at};
ghost use Rattle.journal_file.specs.Fnv1a.{sum_from};
ghost use Rattle.hull_reply.specs.Left.{leaves};
ghost use Rattle.hull_shared.specs.contracts.stored_file.JournalFile.{the_row as file_row};
ghost use Rattle.hull_shared.specs.JournalFiles.{HasBegunFile, HasEndedFile, HasFed, HasFinished, HasLeft, HasPutNumbers, HasWrittenFile};
ghost use Rattle.hull_shared.specs.SegmentNumbers.{PutsLine};
ghost use Rattle.journal_lines.specs.Hex.{hex_digits};
ghost use Rattle.journal_lines.specs.Lines.{first_line, sum_line};

use crate::stored_file::JournalFile;
use crate::{journal_files, journal_lines_in};
use hull_reply::HullReply;
use journal_file::add_to_sum;
use std::alloc::Global;

/// Counts the checksum of a journal file on over the bytes of an array (FNV-1a of 64 bits; Fowler, Noll and Vo, 1991).
#[unsafe(no_mangle)]
pub extern "C" fn hull_shared_add_to_sum(sum: u64, bytes: &[u8]) -> u64
    ensures { result ≡ sum_from sum bytes.now }
{
    add_to_sum(sum, bytes)
}

/// Begins to read a journal file, none of whose bytes is taken yet.
///
/// # Safety
///
/// `at` points to storage for a journal file, and no other call on it is under way.
#[unsafe(no_mangle)]
pub unsafe extern "C" fn hull_shared_file_begin(at: *mut u8, alloc: Global) -> u32
    ghost t: { file_row.Denot }
    requires* { sem 𝓛 (lies_at file_row full_share at t) }
    ensures* { sem 𝓛 (leaves file_row at (λ new. HasBegunFile t new result)) }
{
    let file = at as *mut JournalFile;
    journal_files::begin(unsafe { &mut *file }, alloc)
}

/// Takes the next bytes of a journal file that was begun.
///
/// # Safety
///
/// `at` points to storage for a journal file, and no other call on it is under way.
#[unsafe(no_mangle)]
pub unsafe extern "C" fn hull_shared_file_feed(at: *mut u8, piece: &[u8]) -> u32
    ghost t: { file_row.Denot }
    requires* { sem 𝓛 (lies_at file_row full_share at t) }
    ensures* { sem 𝓛 (leaves file_row at (λ new. HasFed piece.now t new result)) }
{
    let file = at as *mut JournalFile;
    journal_files::feed(unsafe { &mut *file }, piece)
}

/// Ends the bytes of a journal file: all its whole segments are read then, and a crash may have left what follows them.
///
/// # Safety
///
/// `at` points to storage for a journal file, and no other call on it is under way.
#[unsafe(no_mangle)]
pub unsafe extern "C" fn hull_shared_file_finish(at: *mut u8) -> HullReply
    ghost t: { file_row.Denot }
    requires* { sem 𝓛 (lies_at file_row full_share at t) }
    ensures* { sem 𝓛 (leaves file_row at (λ new. HasFinished t new result)) }
{
    let file = at as *mut JournalFile;
    journal_files::finish(unsafe { &mut *file })
}

/// Writes what is known of a journal file that was read to the front of an array: the end and the
/// beginning of its last whole segment, in bytes, its next number, its limit, and its checksum, with 1 if it has one.
///
/// # Safety
///
/// `at` points to storage for a journal file, and no other call on it is under way.
#[unsafe(no_mangle)]
pub unsafe extern "C" fn hull_shared_file_numbers(at: *mut u8, out: &mut [u64]) -> u32
    ghost t: { file_row.Denot }
    requires* { sem 𝓛 (lies_at file_row full_share at t) }
    ensures* { sem 𝓛 (leaves file_row at (λ new. HasPutNumbers t new out.old out.new result)) }
{
    let file = at as *mut JournalFile;
    journal_files::put_numbers(unsafe { &mut *file }, out)
}

/// Replaces a journal file that was read by what it leaves: the set after all its calls, and the additions that leave the
/// same.
///
/// # Safety
///
/// `at` points to storage for a journal file, and no other call on it is under way.
#[unsafe(no_mangle)]
pub unsafe extern "C" fn hull_shared_file_leave(at: *mut u8) -> HullReply
    ghost t: { file_row.Denot }
    requires* { sem 𝓛 (lies_at file_row full_share at t) }
    ensures* { sem 𝓛 (leaves file_row at (λ new. HasLeft t new result)) }
{
    let file = at as *mut JournalFile;
    journal_files::leave(unsafe { &mut *file })
}

/// Writes whole lines of the text of the additions to the front of an array, from line `from` of the text on, counted
/// from 0: as many as fit. Returns the number of bytes, and the number of the line after them.
///
/// # Safety
///
/// `at` points to storage for a journal file, and no other call on it is under way.
#[unsafe(no_mangle)]
pub unsafe extern "C" fn hull_shared_file_text_from(
    at: *mut u8,
    from: u64,
    out: &mut [u8],
) -> HullReply
    ghost t: { file_row.Denot }
    requires* { sem 𝓛 (lies_at file_row full_share at t) }
    ensures* { sem 𝓛 (leaves file_row at (λ new. HasWrittenFile from t new out.old out.new result)) }
{
    let file = at as *mut JournalFile;
    journal_files::text_from(unsafe { &mut *file }, from, out)
}

/// Frees the memory of a journal file: its storage contains nothing then, and may be used for anything.
///
/// # Safety
///
/// `at` points to storage for a journal file, and no other call on it is under way.
#[unsafe(no_mangle)]
pub unsafe extern "C" fn hull_shared_file_end(at: *mut u8) -> u32
    ghost t: { file_row.Denot }
    requires* { sem 𝓛 (lies_at file_row full_share at t) }
    ensures* { sem 𝓛 (leaves file_row at (λ new. HasEndedFile t new result)) }
{
    let file = at as *mut JournalFile;
    journal_files::end(unsafe { &mut *file })
}

/// Writes the first line of a journal file that counts its checksums from this number to the front of an array. Returns its
/// length, or 0 if the array is too small for it.
#[unsafe(no_mangle)]
pub extern "C" fn hull_shared_first_line(sum: u64, out: &mut [u8]) -> usize
    ensures { PutsLine (first_line (hex_digits 16 sum)) out.old out.new result }
{
    journal_lines_in::put_first_line(sum, out)
}

/// Writes the line of a checksum to the front of an array. Returns its length, or 0 if the array is too small for it.
#[unsafe(no_mangle)]
pub extern "C" fn hull_shared_sum_line(sum: u64, out: &mut [u8]) -> usize
    ensures { PutsLine (sum_line sum) out.old out.new result }
{
    journal_lines_in::put_sum_line(sum, out)
}
