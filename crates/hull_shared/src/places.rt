//! Laying out the seats of a shared hull in their slots, and gathering them when it closes.
ghost use Rattle.std.specs.Prelude.{◌≡◌, ◌≤◌, ℕ, [], All, IsSome, vec_len, vec_capacity};
ghost use mathlib.Core.List.{IsPrefix};
ghost use Rattle.hull_book.specs.Books.{IsLawful};
ghost use Rattle.hull_book.specs.Ledgers.{AreLedgers};
ghost use Rattle.hull_book.specs.LongBooks.{whole};
ghost use Rattle.bucket_tree.specs.Sets.{bucket_set};
ghost use Rattle.hull_shared.specs.SharedHullBooks.{shared_hull_head};
ghost use Rattle.hull_shared.specs.Locks.{book_of, boxed_head, head_of, seats_of};
ghost use Rattle.hull_shared.specs.Places.{AreLaidOut, HasAt, HasOwnLines};
ghost use Rattle.hull_shared.specs.declared.place.SeatPlace.{SeatPlace as PlaceValue};
ghost use Rattle.ticket_lock.specs.Tokens.{AreNumbered, IsSeatOf, seat_count, seat_seen};

use crate::book::SharedHullBook;
use crate::lock::{SharedHullLock, SharedHullSeat};
use crate::place::{SeatPlace, SeatPlaces};
use hull_book::Ledger;
use hull_pool::close_book;

/// Puts all seats of a lock that was just opened into their slots, each with its ledger.
pub(crate) fn lay_out(
    lock: SharedHullLock,
    mut seats: Vec<SharedHullSeat>,
    mut ledgers: Vec<Ledger>,
    mut list: Vec<Option<SeatPlace>>,
) -> (SharedHullLock, SeatPlaces)
    requires all { (vec_len seats ≡ seat_count lock) × (seat_count lock ≡ seats_of lock) }
    requires own { All (IsSeatOf boxed_head lock) seats.items }
    requires numbers { AreNumbered seats.items }
    requires seen { All (λ s. seat_seen s ≡ (book_of lock).book.lines) seats.items }
    requires ledgers { AreLedgers (whole (book_of lock).book) ledgers.items }
    requires storage { (list.items ≡ []) × (vec_len seats ≤ vec_capacity list) }
    ensures lock { result.0 ≡ lock }
    ensures laid_out { AreLaidOut lock (seat_count lock) result.1 }
    ensures all_in { All IsSome result.1.list.items }
    ensures all_seen { (j : ℕ) (p : PlaceValue) → HasAt result.1.list.items j p
        → seat_seen p.seat ≡ (book_of lock).book.lines }
{
    while let Some(seat) = seats.pop() {
        let ledger = ledgers.pop().unwrap();
        list.push_reserved(Some(SeatPlace { seat, ledger }));
    }
    let places = SeatPlaces {
        list,
        seats,
        ledgers,
    };
    (lock, places)
}

/// Closes the lock, all of whose seats are released, and returns its book. Its journal begins with what each seat has
/// seen and has no other lines in that seat's name.
pub(crate) fn close_lock(lock: SharedHullLock, places: SeatPlaces) -> SharedHullBook
    requires laid_out { AreLaidOut lock (seat_count lock) places }
    requires all_in { All IsSome places.list.items }
    ensures lawful { IsLawful bucket_set (whole result.book) }
    ensures head { shared_hull_head result ≡ head_of lock }
    ensures seen { (j : ℕ) (p : PlaceValue) → HasAt places.list.items j p → IsPrefix (seat_seen p.seat)
        result.book.lines }
    ensures own_lines { (j : ℕ) (p : PlaceValue) → HasAt places.list.items j p → HasOwnLines
        result.book.lines p }
{
    let SeatPlaces {
        mut list,
        mut seats,
        mut ledgers,
    } = places;
    while let Some(place) = list.pop() {
        let SeatPlace { seat, ledger } = place.unwrap();
        seats.push_reserved(seat);
        ledgers.push_reserved(ledger);
    }
    list.destroy_empty();
    close_book(lock, seats, ledgers).0
}
