//! What the calls on an acquired seat change.
use crate::lock::{SharedHullSeat, SharedHullTicket};
use hull_book::Ledger;
use hull_set::Call;

/// The number that a seat took, and the call that it took it for.
pub(crate) struct TakenNumber {
    pub(crate) ticket: SharedHullTicket,
    pub(crate) call: Call,
}

/// The ledger of an acquired seat, and either the seat of the lock or the number that the seat took. A call that is
/// served at once takes the seat out and puts it back in its place, which moves one byte.
pub(crate) struct SeatState {
    pub(crate) ledger: Ledger,
    /// The seat, if it has no number.
    pub(crate) seat: Option<SharedHullSeat>,
    /// Its number, if it has one.
    pub(crate) taken: Option<TakenNumber>,
}
