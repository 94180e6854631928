//! The end of a shared book: its lock is closed, and its ledgers are gathered.
ghost use Rattle.std.specs.Prelude.{◌≡◌, length, box_value, vec_len, All};
ghost use Rattle.std.specs.List.{AllZip};
ghost use mathlib.Core.List.{IsPrefix};
ghost use Rattle.ticket_lock.specs.Tokens.{seat_count, opening_book, IsSeatOf, AreNumbered, seat_number, seat_seen};
ghost use Rattle.hull_book.specs.Books.{IsLawful};
ghost use Rattle.hull_book.specs.Ledgers.{IsLedgerOf};
ghost use Rattle.hull_pool.specs.Work.{lines_of, workers_of};

use hull_book::{JournaledBook, Ledger, gather};
use ticket_lock::{Seat, TicketLock};

/// Closes the lock and gathers the ledgers. Returns the book, and how many calls have their line in its whole journal, including the lines that were
/// taken out. You pass all seats of the lock in the order of their numbers, and the ledger of each, in the same order. The journal begins with what
/// each seat has seen, and in each seat's name it contains exactly the lines that the seat has seen in its name.
pub fn close_book<B: JournaledBook>(
    lock: TicketLock<Box<B>>,
    seats: Vec<Seat<Box<B>>>,
    ledgers: Vec<Ledger>,
) -> (B, u64)
    requires all { (vec_len seats ≡ seat_count lock)
        × (seat_count lock ≡ workers_of (B.whole (box_value (opening_book lock)))) }
    requires own { All (IsSeatOf (λ b. B.head (box_value b)) lock) seats.items }
    requires numbered { AreNumbered seats.items }
    requires ledgers { AllZip (λ s l. IsLedgerOf (seat_number s) (B.plain (seat_seen s)) l) seats.items ledgers.items }
    ensures lawful { IsLawful B.Set.HullSet (B.whole result.0) }
    ensures head { B.head result.0 ≡ B.head (box_value (opening_book lock)) }
    ensures sum { result.1 ≡ length (B.lines result.0) }
    ensures seen { All (λ s. IsPrefix (seat_seen s) (B.lines result.0)) seats.items }
    ensures own_lines { All (λ s. lines_of (seat_number s) (B.plain (B.lines result.0))
        ≡ lines_of (seat_number s) (B.plain (seat_seen s))) seats.items }
{
    let book = Box::into_inner(lock.close(seats));
    let sum = gather(&book, ledgers);
    (book, sum)
}
