//! Setting up a shared hull round a book: the lock, the seats with their ledgers, and their slots.
ghost use Rattle.std.specs.Prelude.{◌≡◌, All, IfOk, IsSome, box_value, vec_len};
ghost use Rattle.hull_book.specs.Books.{IsLawful};
ghost use Rattle.hull_book.specs.Ledgers.{AreLedgers};
ghost use Rattle.hull_book.specs.LongBooks.{whole};
ghost use Rattle.bucket_tree.specs.Sets.{bucket_set};
ghost use Rattle.hull_shared.specs.SharedHulls.{IsSharedHullRound};
ghost use Rattle.hull_shared.specs.Locks.{book_of, boxed_head, capacity_of, lock_of};
ghost use Rattle.hull_shared.specs.Places.{AreLaidOut};
ghost use Rattle.ticket_lock.specs.Tokens.{AreNumbered, IsSeatOf, seat_count, seat_seen};

use crate::book::SharedHullBook;
use crate::gate::Gate;
use crate::lock::{SharedHullLock, SharedHullSeat};
use crate::place::SeatPlaces;
use crate::places::{close_lock, lay_out};
use crate::shared_hull::OpenSharedHull;
use core::mem::ManuallyDrop;
use hull_book::{Ledger, gather};
use hull_set::NoMemory;
use std::alloc::{AllocFailed, Global};
use std::sync::Arc;
use ticket_lock::TicketLock;

/// A lock that was just opened, with its seats and ledgers.
struct NewLock {
    lock: SharedHullLock,
    seats: Vec<SharedHullSeat>,
    ledgers: Vec<Ledger>,
}

/// Moves the book to the heap, with its ledgers.
fn boxed(
    alloc: Global,
    book: SharedHullBook,
    ledgers: Vec<Ledger>,
) -> Result<(Box<SharedHullBook>, Vec<Ledger>), NoMemory>
    requires lawful { IsLawful bucket_set (whole book.book) }
    requires ledgers { AreLedgers (whole book.book) ledgers.items }
    ensures { IfOk result (λ r. (box_value r.0 ≡ book) × (r.1 ≡ ledgers)) }
{
    match Box::new(alloc, book) {
        Ok(boxed) => Ok((boxed, ledgers)),
        Err(AllocFailed { value }) => {
            let _none = gather(&value, ledgers);
            Err(NoMemory)
        }
    }
}

/// Makes a lock round the book.
fn new_lock(
    alloc: Global,
    book: Box<SharedHullBook>,
    ledgers: Vec<Ledger>,
    seats: u8,
) -> Result<NewLock, NoMemory>
    requires lawful { IsLawful bucket_set (whole (box_value book).book) }
    requires ledgers { AreLedgers (whole (box_value book).book) ledgers.items }
    ensures book { IfOk result (λ r. book_of r.lock ≡ box_value book) }
    ensures count { IfOk result (λ r. (vec_len r.seats ≡ seat_count r.lock) × (seat_count r.lock ≡ seats)) }
    ensures own { IfOk result (λ r. All (IsSeatOf boxed_head r.lock) r.seats.items) }
    ensures numbers { IfOk result (λ r. AreNumbered r.seats.items) }
    ensures seen { IfOk result (λ r. All (λ s. seat_seen s ≡ (book_of r.lock).book.lines) r.seats.items) }
    ensures ledgers { IfOk result (λ r. AreLedgers (whole (book_of r.lock).book) r.ledgers.items) }
{
    match TicketLock::open(alloc, book, seats) {
        Ok((lock, seats)) => Ok(NewLock {
            lock,
            seats,
            ledgers,
        }),
        Err((_, book)) => {
            let _none = gather(&*book, ledgers);
            Err(NoMemory)
        }
    }
}

/// Makes a shared hull round the lock, which it will own together with the acquired seats. If memory is refused,
/// closes the lock again.
fn new_shared_hull(
    alloc: Global,
    lock: SharedHullLock,
    seats: u8,
    capacity: u32,
    places: SeatPlaces,
    gate: Option<Gate>,
) -> Result<OpenSharedHull, NoMemory>
    requires capacity { capacity ≡ capacity_of lock }
    requires laid_out { AreLaidOut lock seats places }
    requires all_in { All IsSome places.list.items }
    ensures { IfOk result (λ d. (lock_of d.lock ≡ lock) × (d.seats ≡ seats) × (d.places ≡ places)
        × (d.gate ≡ gate)) }
{
    match Arc::new(alloc, unsafe { ManuallyDrop::new_unchecked(lock) }) {
        Ok(lock) => Ok(OpenSharedHull {
            alloc,
            lock,
            seats,
            capacity,
            places,
            gate,
        }),
        Err(AllocFailed { value }) => {
            let lock = ManuallyDrop::into_inner(value);
            drop(close_lock(lock, places));
            Err(NoMemory)
        }
    }
}

/// Makes a shared hull round the book, with all its seats. If memory is refused, takes apart what was made by then.
pub(crate) fn set_up(
    alloc: Global,
    book: SharedHullBook,
    ledgers: Vec<Ledger>,
    seats: u8,
    capacity: u32,
    gate: Option<Gate>,
) -> Result<OpenSharedHull, NoMemory>
    requires lawful { IsLawful bucket_set (whole book.book) }
    requires ledgers { AreLedgers (whole book.book) ledgers.items }
    requires seats { seats ≡ book.book.head.workers }
    requires capacity { capacity ≡ book.book.head.journal.capacity }
    ensures shared_hull { IfOk result (IsSharedHullRound book seats) }
    ensures gate { IfOk result (λ d. d.gate ≡ gate) }
{
    let (book, ledgers) = boxed(alloc, book, ledgers)?;
    let Ok(list) = Vec::with_capacity(alloc, usize::from(seats)) else {
        let _none = gather(&*book, ledgers);
        return Err(NoMemory);
    };
    let made = match new_lock(alloc, book, ledgers, seats) {
        Ok(made) => made,
        Err(_) => {
            list.destroy_empty();
            return Err(NoMemory);
        }
    };
    let NewLock {
        lock,
        seats: all,
        ledgers,
    } = made;
    let (lock, places) = lay_out(lock, all, ledgers, list);
    new_shared_hull(alloc, lock, seats, capacity, places, gate)
}
