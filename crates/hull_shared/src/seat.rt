//! An acquired seat: the lock, which it owns with the others, its ledger, and its current call.
ghost use Rattle.std.specs.Prelude.{◌≡◌, ◌<◌};
ghost use Rattle.hull_shared.specs.Locks.{capacity_of, lock_of, seats_of};
ghost use Rattle.hull_shared.specs.SeatStates.{IsSeatStateAt};

use crate::lock::SharedLock;
use crate::seat_state::SeatState;

/// An acquired seat: what no call on it changes, and its state.
pub(crate) struct AcquiredSeat {
    pub(crate) lock: SharedLock,
    pub(crate) number: u32,
    pub(crate) capacity: u32,
    pub(crate) state: SeatState,
    ghost is_state: { IsSeatStateAt (lock_of lock) number state },
    ghost holds: { capacity ≡ capacity_of (lock_of lock) },
    ghost below: { number < seats_of (lock_of lock) },
}

/// The storage of a seat.
pub(crate) enum SharedSeat {
    /// There is no seat.
    Vacant,
    /// An acquired seat.
    Acquired(AcquiredSeat),
}
