//! The objects that a caller passes from thread to thread: no program in C can ask the compiler about them.
use crate::lock::{SharedHullSeat, SharedHullTicket, SharedLock};
use crate::segment::Segment;
use hull_book::{Journal, Ledger};
use hull_set::Call;
use hull_snapshots::{ChangePublisher, Reader, ReaderRegistry};

/// Requires a type whose values can be sent to another thread.
fn goes_to_any_thread<T: Send>() {}

/// All that is in the storage of the header's objects can be sent to another thread. An acquired seat is an owner of
/// the lock, a seat of it or a ticket, a ledger, a call and numbers; an open shared hull is an owner, seats with
/// their ledgers, a reader registry, and numbers; a closed one is a journal; an acquired reader is an owner of the
/// snapshot slots, a watermark, and its snapshot. For the structs of these the prover's search does not terminate, so
/// they are required one by one.
pub fn storages_go_to_any_thread() {
    goes_to_any_thread::<Segment>();
    goes_to_any_thread::<SharedLock>();
    goes_to_any_thread::<SharedHullSeat>();
    goes_to_any_thread::<SharedHullTicket>();
    goes_to_any_thread::<Ledger>();
    goes_to_any_thread::<Call>();
    goes_to_any_thread::<Journal>();
    goes_to_any_thread::<ChangePublisher>();
    goes_to_any_thread::<ReaderRegistry>();
    goes_to_any_thread::<Reader>();
}
