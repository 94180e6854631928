//! The whole flow of a book that may be drained, for two seats: an example to copy.
ghost use Rattle.std.specs.Prelude.{◌≡◌, ◌≤◌, [], length, vec_capacity};
ghost use Rattle.ticket_lock.specs.Tokens.{opening_book, seat_count, seat_seen};
ghost use Rattle.hull_book.specs.Books.{IsLawful};
ghost use Rattle.hull_book.specs.Kinds.{drained};
ghost use Rattle.hull_book.specs.LongBooks.{whole};
ghost use Rattle.hull_pool.specs.Handing.{MayCall};
ghost use Rattle.hull_pool.specs.Long.{HaveShared, long_book_head, whole_of};
ghost use Rattle.hull_pool.specs.Work.{workers_of};

use super::call::{LongLock, LongSeat, make_call};
use super::close::close_book;
use hull_book::{AfterCall, Call, Ledger, LongAnswer, LongBook, Space};
use hull_set::HullSet;
use std::sync::Wait;

/// A seat that is taken out of the list of all, and its ledger.
pub struct Member<S: HullSet + Drop> {
    /// The seat.
    pub seat: LongSeat<S>,
    /// Its ledger.
    pub ledger: Ledger,
}

/// Seat 0 makes a call, seat 1 takes all lines out with another, and seat 0 asks for the count and discards the line. Then the lock is closed with
/// both seats. Returns the book, the segment that was taken out, and how many calls have their line. In a program each seat has a thread of its own.
/// The lists are those that the seats and the ledgers came in.
pub fn two_seats_share<R: Wait, S: HullSet + Drop>(
    rt: &R,
    lock: LongLock<S>,
    zero: Member<S>,
    one: Member<S>,
    space: Space,
    mut seats: Vec<LongSeat<S>>,
    mut ledgers: Vec<Ledger>,
    call: Call,
) -> (LongBook<S>, LongAnswer, u64)
    requires two { (seat_count lock ≡ 2) × (workers_of (whole_of (opening_book lock)) ≡ 2) }
    requires zero { MayCall (drained S.HullSet) lock 0 zero.seat zero.ledger }
    requires one { MayCall (drained S.HullSet) lock 1 one.seat one.ledger }
    requires space { (long_book_head (opening_book lock)).journal.capacity ≤ space }
    requires empty { (seats.items ≡ []) × (ledgers.items ≡ []) }
    requires lists { (2 ≤ vec_capacity seats) × (2 ≤ vec_capacity ledgers) }
    ensures shared { HaveShared lock (seat_seen zero.seat) (seat_seen one.seat) call space result.1 }
    ensures lawful { IsLawful S.HullSet (whole result.0) }
    ensures sum { result.2 ≡ length result.0.lines }
{
    let Member {
        seat: zero,
        ledger: mut zeros,
    } = zero;
    let Member {
        seat: one,
        ledger: mut ones,
    } = one;
    let (zero, _answer) = make_call(rt, &lock, zero, 0, call, &mut zeros, AfterCall::Keep);
    let take = AfterCall::Drain(space);
    let (one, drained) = make_call(rt, &lock, one, 1, Call::Count, &mut ones, take);
    let (zero, _count) = make_call(
        rt,
        &lock,
        zero,
        0,
        Call::Count,
        &mut zeros,
        AfterCall::Discard,
    );
    seats.push_reserved(zero);
    seats.push_reserved(one);
    ledgers.push_reserved(zeros);
    ledgers.push_reserved(ones);
    let (book, sum) = close_book(lock, seats, ledgers);
    (book, drained, sum)
}
