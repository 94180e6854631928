//! Exports about seats, and their calls.
ghost use Rattle.std.specs.Borrow.{full_share, sem};
ghost use Rattle.std.specs.Ptr.{lies_at};
ghost use Rattle.hull_shared.specs.contracts.shared_hull.SharedHull.{the_row as shared_hull_row};
ghost use Rattle.hull_shared.specs.contracts.segment.Segment.{the_row as segment_row};
ghost use Rattle.hull_shared.specs.contracts.seat.SharedSeat.{the_row as seat_row};
ghost use Rattle.hull_shared.specs.SharedHulls.{HasAcquired, HasReturned, IsSeatOfSharedHull};
ghost use Rattle.hull_reply.specs.Left.{leaves};
ghost use Rattle.hull_shared.specs.Left.{leaves_both};
ghost use Rattle.hull_shared.specs.Drains.{HasRepliedWith};
ghost use Rattle.hull_shared.specs.Looks.{HasReplied, HasRepliedInto, HasTaken, HasTakenAndLooked, HasReportedCapacity};

use crate::looking::SeatReply;
use crate::seat::SharedSeat;
use crate::segment::Segment;
use crate::shared_hull::SharedHull;
use crate::{acquiring, draining, looking};
use hull_reply::HullPoint;

/// Moves the seat of a number out of its shared hull, into storage.
///
/// # Safety
///
/// `at` points to a shared hull and `storage` to storage for a seat, and no other call on either is under way.
#[unsafe(no_mangle)]
pub unsafe extern "C" fn hull_shared_acquire_seat(at: *mut u8, storage: *mut u8, number: u32) -> u32
    ghost t: { shared_hull_row.Denot × seat_row.Denot }
    requires* shared_hull { sem 𝓛 (lies_at shared_hull_row full_share at t.0) }
    requires* storage { sem 𝓛 (lies_at seat_row full_share storage t.1) }
    ensures* { sem 𝓛 (leaves_both shared_hull_row seat_row at storage (λ new left. HasAcquired number t.0 new t.1 left result)) }
{
    let shared_hull = at as *mut SharedHull;
    let seat = storage as *mut SharedSeat;
    acquiring::acquire(unsafe { &mut *shared_hull }, unsafe { &mut *seat }, number)
}

/// Moves the seat in the storage back to its shared hull.
///
/// # Safety
///
/// `at` points to a shared hull and `storage` to storage for a seat; a seat in it was acquired from that shared hull;
/// and no other call on either is under way.
#[unsafe(no_mangle)]
pub unsafe extern "C" fn hull_shared_release_seat(at: *mut u8, storage: *mut u8) -> u32
    ghost t: { shared_hull_row.Denot × seat_row.Denot }
    requires own { IsSeatOfSharedHull t.0 t.1 }
    requires* shared_hull { sem 𝓛 (lies_at shared_hull_row full_share at t.0) }
    requires* storage { sem 𝓛 (lies_at seat_row full_share storage t.1) }
    ensures* { sem 𝓛 (leaves_both shared_hull_row seat_row at storage (λ new left. HasReturned t.0 new t.1 left result)) }
{
    let shared_hull = at as *mut SharedHull;
    let seat = storage as *mut SharedSeat;
    acquiring::release(unsafe { &mut *shared_hull }, unsafe { &mut *seat })
}

/// Returns how many lines the book of a seat's shared hull may contain, or 0 if the storage has no seat.
///
/// # Safety
///
/// `at` points to storage for a seat, and no other call on it is under way.
#[unsafe(no_mangle)]
pub unsafe extern "C" fn hull_shared_capacity(at: *mut u8) -> u32
    ghost t: { seat_row.Denot }
    requires* { sem 𝓛 (lies_at seat_row full_share at t) }
    ensures* { sem 𝓛 (leaves seat_row at (λ new. HasReportedCapacity t new result)) }
{
    let seat = at as *mut SharedSeat;
    looking::capacity(unsafe { &mut *seat })
}

/// Takes a number for a call, by its kind and a point or a direction.
///
/// # Safety
///
/// `at` points to storage for a seat, and no other call on it is under way.
#[unsafe(no_mangle)]
pub unsafe extern "C" fn hull_shared_take(at: *mut u8, kind: u32, x: i64, y: i64) -> SeatReply
    ghost t: { seat_row.Denot }
    requires* { sem 𝓛 (lies_at seat_row full_share at t) }
    ensures* { sem 𝓛 (leaves seat_row at (λ new. HasTaken kind x y t new result)) }
{
    let seat = at as *mut SharedSeat;
    looking::take(unsafe { &mut *seat }, kind, x, y)
}

/// Looks once whether the number is served, and if so, has the call served and hands the book on.
///
/// # Safety
///
/// `at` points to storage for a seat, and no other call on it is under way.
#[unsafe(no_mangle)]
pub unsafe extern "C" fn hull_shared_look(at: *mut u8) -> SeatReply
    ghost t: { seat_row.Denot }
    requires* { sem 𝓛 (lies_at seat_row full_share at t) }
    ensures* { sem 𝓛 (leaves seat_row at (λ new. HasReplied t new result)) }
{
    let seat = at as *mut SharedSeat;
    looking::look(unsafe { &mut *seat })
}

/// Takes a number for a call as [`hull_shared_take`] does, and if it did, looks once as [`hull_shared_look`] does.
///
/// # Safety
///
/// `at` points to storage for a seat, and no other call on it is under way.
#[unsafe(no_mangle)]
pub unsafe extern "C" fn hull_shared_take_and_look(
    at: *mut u8,
    kind: u32,
    x: i64,
    y: i64,
) -> SeatReply
    ghost t: { seat_row.Denot }
    requires* { sem 𝓛 (lies_at seat_row full_share at t) }
    ensures* { sem 𝓛 (leaves seat_row at (λ new. HasTakenAndLooked kind x y t new result)) }
{
    let seat = at as *mut SharedSeat;
    looking::take_and_look(unsafe { &mut *seat }, kind, x, y)
}

/// Looks once, as [`hull_shared_look`] does. If the call requested the vertices, they are written to the front of an
/// array.
///
/// # Safety
///
/// `at` points to storage for a seat, and no other call on it is under way.
#[unsafe(no_mangle)]
pub unsafe extern "C" fn hull_shared_look_into(at: *mut u8, out: &mut [HullPoint]) -> SeatReply
    ghost t: { seat_row.Denot }
    requires* { sem 𝓛 (lies_at seat_row full_share at t) }
    ensures* { sem 𝓛 (leaves seat_row at (λ new. HasRepliedInto t new out.old out.new result)) }
{
    let seat = at as *mut SharedSeat;
    looking::look_into(unsafe { &mut *seat }, out)
}

/// Looks once, as [`hull_shared_look`] does. If the call is served, all lines that the book contains then are drained
/// into a segment.
///
/// # Safety
///
/// `at` points to storage for a seat and `segment` to a segment, and no other call on either is under way.
#[unsafe(no_mangle)]
pub unsafe extern "C" fn hull_shared_look_and_drain(at: *mut u8, segment: *mut u8) -> SeatReply
    ghost t: { seat_row.Denot × segment_row.Denot }
    requires* seat { sem 𝓛 (lies_at seat_row full_share at t.0) }
    requires* segment { sem 𝓛 (lies_at segment_row full_share segment t.1) }
    ensures* { sem 𝓛 (leaves_both seat_row segment_row at segment (λ new left. HasRepliedWith t.0 new t.1 left result)) }
{
    let seat = at as *mut SharedSeat;
    let lines = segment as *mut Segment;
    draining::look_and_drain(unsafe { &mut *seat }, unsafe { &mut *lines })
}
