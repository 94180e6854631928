//! Exports that say how large the storage of an object is, and that make the object in it.
ghost use Rattle.std.specs.Prelude.{◌≡◌};
ghost use Rattle.std.specs.Borrow.{sem};
ghost use Rattle.std.specs.Ptr.{room_at};
ghost use Rattle.hull_shared.specs.contracts.shared_hull.SharedHull.{the_row as shared_hull_row};
ghost use Rattle.hull_shared.specs.contracts.segment.Segment.{the_row as segment_row};
ghost use Rattle.hull_shared.specs.contracts.reader.SharedReader.{the_row as reader_row};
ghost use Rattle.hull_shared.specs.contracts.seat.SharedSeat.{the_row as seat_row};
ghost use Rattle.hull_shared.specs.SharedHulls.{IsFreshForNone};
ghost use Rattle.hull_reply.specs.Left.{leaves};
ghost use Rattle.hull_reply.specs.Storages.{storage_alignment, storage_size};
ghost use Rattle.hull_shared.specs.contracts.stored_file.JournalFile.{the_row as file_row};
ghost use Rattle.hull_shared.specs.declared.stored_file.JournalFile.TheVariants.{Vacant as NoFile};
ghost use Rattle.hull_shared.specs.declared.segment.Segment.TheVariants.{Bare};
ghost use Rattle.hull_shared.specs.declared.reader.SharedReader.TheVariants.{Vacant as NoReader};
ghost use Rattle.hull_shared.specs.declared.seat.SharedSeat.TheVariants.{Vacant};

use crate::reader::SharedReader;
use crate::seat::SharedSeat;
use crate::segment::Segment;
use crate::shared_hull::{FreshSharedHull, SharedHull};
use crate::stored_file::JournalFile;

/// Returns the size of the storage of a shared hull, in bytes.
#[unsafe(no_mangle)]
pub extern "C" fn hull_shared_size() -> usize
    ensures { result ≡ storage_size shared_hull_row }
{
    size_of::<SharedHull>()
}

/// Returns the alignment of the storage of a shared hull, in bytes.
#[unsafe(no_mangle)]
pub extern "C" fn hull_shared_alignment() -> usize
    ensures { result ≡ storage_alignment shared_hull_row }
{
    align_of::<SharedHull>()
}

/// Returns the size of the storage of a seat, in bytes.
#[unsafe(no_mangle)]
pub extern "C" fn hull_shared_seat_size() -> usize
    ensures { result ≡ storage_size seat_row }
{
    size_of::<SharedSeat>()
}

/// Returns the alignment of the storage of a seat, in bytes.
#[unsafe(no_mangle)]
pub extern "C" fn hull_shared_seat_alignment() -> usize
    ensures { result ≡ storage_alignment seat_row }
{
    align_of::<SharedSeat>()
}

/// Returns the size of the storage of a segment of a journal, in bytes.
#[unsafe(no_mangle)]
pub extern "C" fn hull_shared_segment_size() -> usize
    ensures { result ≡ storage_size segment_row }
{
    size_of::<Segment>()
}

/// Returns the alignment of the storage of a segment, in bytes.
#[unsafe(no_mangle)]
pub extern "C" fn hull_shared_segment_alignment() -> usize
    ensures { result ≡ storage_alignment segment_row }
{
    align_of::<Segment>()
}

/// Returns the size of the storage of a reader, in bytes.
#[unsafe(no_mangle)]
pub extern "C" fn hull_shared_reader_size() -> usize
    ensures { result ≡ storage_size reader_row }
{
    size_of::<SharedReader>()
}

/// Returns the alignment of the storage of a reader, in bytes.
#[unsafe(no_mangle)]
pub extern "C" fn hull_shared_reader_alignment() -> usize
    ensures { result ≡ storage_alignment reader_row }
{
    align_of::<SharedReader>()
}

/// Returns the size of the storage of a journal file that is read, in bytes.
#[unsafe(no_mangle)]
pub extern "C" fn hull_shared_file_size() -> usize
    ensures { result ≡ storage_size file_row }
{
    size_of::<JournalFile>()
}

/// Returns the alignment of the storage of a journal file, in bytes.
#[unsafe(no_mangle)]
pub extern "C" fn hull_shared_file_alignment() -> usize
    ensures { result ≡ storage_alignment file_row }
{
    align_of::<JournalFile>()
}

/// Makes a shared hull that is not open.
fn fresh_shared_hull() -> SharedHull
    ensures { IsFreshForNone result }
{
    SharedHull::Fresh(FreshSharedHull::of_none())
}

/// Makes storage with no seat.
fn vacant_seat() -> SharedSeat
    ensures { result ≡ Vacant }
{
    SharedSeat::Vacant
}

/// Makes storage with no reader.
fn no_reader() -> SharedReader
    ensures { result ≡ NoReader }
{
    SharedReader::Vacant
}

/// Makes a segment that contains nothing.
fn bare_segment() -> Segment
    ensures { result ≡ Bare }
{
    Segment::Bare
}

/// Makes storage for a journal file, which contains nothing.
fn no_file() -> JournalFile
    ensures { result ≡ NoFile }
{
    JournalFile::Vacant
}

/// Makes a shared hull in its storage, which is not open and contains nothing.
///
/// # Safety
///
/// `storage` has [`hull_shared_size`] bytes at a multiple of [`hull_shared_alignment`], which nothing else
/// uses.
#[unsafe(no_mangle)]
pub unsafe extern "C" fn hull_shared_make(storage: *mut u8)
    requires* { sem 𝓛 (room_at shared_hull_row storage) }
    ensures* { sem 𝓛 (leaves shared_hull_row storage IsFreshForNone) }
{
    let at = storage as *mut SharedHull;
    let shared_hull = fresh_shared_hull();
    unsafe { at.write(shared_hull) };
}

/// Makes storage for a seat, with no seat in it.
///
/// # Safety
///
/// `storage` has [`hull_shared_seat_size`] bytes at a multiple of [`hull_shared_seat_alignment`], which nothing else
/// uses.
#[unsafe(no_mangle)]
pub unsafe extern "C" fn hull_shared_make_seat(storage: *mut u8)
    requires* { sem 𝓛 (room_at seat_row storage) }
    ensures* { sem 𝓛 (leaves seat_row storage (λ new. new ≡ Vacant)) }
{
    let at = storage as *mut SharedSeat;
    let seat = vacant_seat();
    unsafe { at.write(seat) };
}

/// Makes storage for a reader, with no reader in it.
///
/// # Safety
///
/// `storage` has [`hull_shared_reader_size`] bytes at a multiple of [`hull_shared_reader_alignment`], which nothing else
/// uses.
#[unsafe(no_mangle)]
pub unsafe extern "C" fn hull_shared_make_reader(storage: *mut u8)
    requires* { sem 𝓛 (room_at reader_row storage) }
    ensures* { sem 𝓛 (leaves reader_row storage (λ new. new ≡ NoReader)) }
{
    let at = storage as *mut SharedReader;
    let reader = no_reader();
    unsafe { at.write(reader) };
}

/// Makes a segment in its storage, which contains nothing.
///
/// # Safety
///
/// `storage` has [`hull_shared_segment_size`] bytes at a multiple of [`hull_shared_segment_alignment`], which nothing else
/// uses.
#[unsafe(no_mangle)]
pub unsafe extern "C" fn hull_shared_make_segment(storage: *mut u8)
    requires* { sem 𝓛 (room_at segment_row storage) }
    ensures* { sem 𝓛 (leaves segment_row storage (λ new. new ≡ Bare)) }
{
    let at = storage as *mut Segment;
    let segment = bare_segment();
    unsafe { at.write(segment) };
}

/// Makes storage for a journal file, which contains nothing.
///
/// # Safety
///
/// `storage` has [`hull_shared_file_size`] bytes at a multiple of [`hull_shared_file_alignment`], which nothing else
/// uses.
#[unsafe(no_mangle)]
pub unsafe extern "C" fn hull_shared_make_file(storage: *mut u8)
    requires* { sem 𝓛 (room_at file_row storage) }
    ensures* { sem 𝓛 (leaves file_row storage (λ new. new ≡ NoFile)) }
{
    let at = storage as *mut JournalFile;
    let file = no_file();
    unsafe { at.write(file) };
}
