//! The seats that are not acquired.
use crate::lock::SharedHullSeat;
use hull_book::Ledger;

/// A seat of the lock, with its ledger.
pub(crate) struct SeatPlace {
    pub(crate) seat: SharedHullSeat,
    pub(crate) ledger: Ledger,
}

/// The seat slots of a shared hull. After the slot of seat k there are k slots; it is empty while the seat is
/// acquired. Beside them is capacity for all seats and all ledgers, so that closing needs no memory.
pub(crate) struct SeatPlaces {
    pub(crate) list: Vec<Option<SeatPlace>>,
    pub(crate) seats: Vec<SharedHullSeat>,
    pub(crate) ledgers: Vec<Ledger>,
}
