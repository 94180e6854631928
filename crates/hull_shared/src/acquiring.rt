//! Acquiring seats of a shared hull, and releasing them.
ghost use Rattle.std.specs.Prelude.{◌≡◌, ◌+◌, ◌≤◌, IsNone, MatchOption};
ghost use Rattle.hull_shared.specs.SharedHulls.{HasAcquired, HasReturned, IsSeatOfSharedHull, Lends, TakesBack};
ghost use Rattle.hull_shared.specs.Locks.{lock_of};

use crate::place::{SeatPlace, SeatPlaces};
use crate::seat::{AcquiredSeat, SharedSeat};
use crate::seat_state::SeatState;
use crate::shared_hull::{OpenSharedHull, SharedHull};
use core::mem::{replace, replace_with};
use hull_reply::Code;
use std::sync::Arc;

/// Returns the slot of the seat of a number, if a shared hull of so many seats has it.
fn place_of(number: u32, seats: u8) -> Option<usize>
    ensures { MatchOption result (seats ≤ number) (λ j. number + j + 1 ≡ seats) }
{
    if number >= u32::from(seats) {
        return None;
    }
    Some(usize::from(seats) - number as usize - 1)
}

/// Takes the seat of this number out of its slot. Fails with the reason if it cannot.
fn acquire_from(
    shared_hull: OpenSharedHull,
    number: u32,
) -> (OpenSharedHull, Result<AcquiredSeat, Code>)
    ensures { Lends number shared_hull result.0 result.1 }
{
    let Some(j) = place_of(number, shared_hull.seats) else {
        return (shared_hull, Err(Code::NoSeat));
    };
    if shared_hull.places.list[j].is_none() {
        return (shared_hull, Err(Code::NoSeat));
    }
    let Ok(lock) = Arc::try_clone(&shared_hull.lock) else {
        return (shared_hull, Err(Code::NoMemory));
    };
    let mut shared_hull = shared_hull;
    let SeatPlace { seat, ledger } = shared_hull.places.list[j].take().unwrap();
    let acquired = AcquiredSeat {
        lock,
        number,
        capacity: shared_hull.capacity,
        state: SeatState {
            ledger,
            seat: Some(seat),
            taken: None,
        },
    };
    (shared_hull, Ok(acquired))
}

/// Puts the seat back into its slot. Returns the seat if the slot is not free.
fn return_to(
    shared_hull: OpenSharedHull,
    acquired: AcquiredSeat,
) -> (OpenSharedHull, Option<AcquiredSeat>)
    requires own { lock_of acquired.lock ≡ lock_of shared_hull.lock }
    requires idle { IsNone acquired.state.taken }
    ensures { TakesBack shared_hull acquired result.0 result.1 }
{
    let Some(j) = place_of(acquired.number, shared_hull.seats) else {
        unreachable!()
    };
    if shared_hull.places.list[j].is_some() {
        return (shared_hull, Some(acquired));
    }
    let AcquiredSeat {
        lock,
        number: _,
        capacity: _,
        state,
    } = acquired;
    drop(lock);
    let SeatState {
        ledger,
        seat,
        taken,
    } = state;
    let None = taken else { unreachable!() };
    let place = SeatPlace {
        seat: seat.unwrap(),
        ledger,
    };
    let mut shared_hull = shared_hull;
    let none = shared_hull.places.list[j].replace(place);
    let None = none else { unreachable!() };
    (shared_hull, None)
}

/// Returns the shared hull and the storage after a request for a seat.
fn after_lending(
    shared_hull: SharedHull,
    request: (SharedSeat, u32),
) -> (SharedHull, (SharedSeat, u32))
    ensures { HasAcquired request.1 shared_hull result.0 request.0 result.1.0 result.1.1 }
{
    let (storage, number) = request;
    match shared_hull {
        SharedHull::Fresh(fresh) => (SharedHull::Fresh(fresh), (storage, Code::NotOpen.number())),
        SharedHull::Closed(closed) => (
            SharedHull::Closed(closed),
            (storage, Code::NotOpen.number()),
        ),
        SharedHull::Open(open) => match storage {
            SharedSeat::Acquired(acquired) => (
                SharedHull::Open(open),
                (SharedSeat::Acquired(acquired), Code::StorageInUse.number()),
            ),
            SharedSeat::Vacant => {
                let (open, lent) = acquire_from(open, number);
                match lent {
                    Ok(acquired) => (
                        SharedHull::Open(open),
                        (SharedSeat::Acquired(acquired), Code::Acquired.number()),
                    ),
                    Err(fault) => (SharedHull::Open(open), (SharedSeat::Vacant, fault.number())),
                }
            }
        },
    }
}

/// Returns the shared hull and the storage after a request to release the seat.
fn after_return(shared_hull: SharedHull, storage: SharedSeat) -> (SharedHull, (SharedSeat, u32))
    requires { IsSeatOfSharedHull shared_hull storage }
    ensures { HasReturned shared_hull result.0 storage result.1.0 result.1.1 }
{
    match shared_hull {
        SharedHull::Fresh(fresh) => (SharedHull::Fresh(fresh), (storage, Code::NotOpen.number())),
        SharedHull::Closed(closed) => (
            SharedHull::Closed(closed),
            (storage, Code::NotOpen.number()),
        ),
        SharedHull::Open(open) => match storage {
            SharedSeat::Vacant => (
                SharedHull::Open(open),
                (SharedSeat::Vacant, Code::Vacant.number()),
            ),
            SharedSeat::Acquired(acquired) => {
                if acquired.state.taken.is_some() {
                    return (
                        SharedHull::Open(open),
                        (SharedSeat::Acquired(acquired), Code::Waiting.number()),
                    );
                }
                let (open, left) = return_to(open, acquired);
                match left {
                    None => (
                        SharedHull::Open(open),
                        (SharedSeat::Vacant, Code::Released.number()),
                    ),
                    Some(acquired) => (
                        SharedHull::Open(open),
                        (SharedSeat::Acquired(acquired), Code::SlotInUse.number()),
                    ),
                }
            }
        },
    }
}

/// Moves the seat of this number out of the shared hull, into the storage.
pub(crate) fn acquire(shared_hull: &mut SharedHull, storage: &mut SharedSeat, number: u32) -> u32
    ensures { HasAcquired number shared_hull.old shared_hull.new storage.old storage.new result }
{
    let seat = replace(storage, SharedSeat::Vacant);
    let (seat, code) = replace_with(shared_hull, (seat, number), after_lending);
    let vacant = replace(storage, seat);
    let SharedSeat::Vacant = vacant else {
        unreachable!()
    };
    code
}

/// Moves the seat in the storage back to its shared hull.
pub(crate) fn release(shared_hull: &mut SharedHull, storage: &mut SharedSeat) -> u32
    requires { IsSeatOfSharedHull shared_hull.old storage.old }
    ensures { HasReturned shared_hull.old shared_hull.new storage.old storage.new result }
{
    let seat = replace(storage, SharedSeat::Vacant);
    let (seat, code) = replace_with(shared_hull, seat, after_return);
    let vacant = replace(storage, seat);
    let SharedSeat::Vacant = vacant else {
        unreachable!()
    };
    code
}
