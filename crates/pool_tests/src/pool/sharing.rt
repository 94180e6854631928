//! A book shared by two threads of a program, from its opening to its end.
ghost use Rattle.std.specs.Prelude.{◌≡◌, ◌+◌, ◌<◌, ◌≤◌, [], All, IsSome, IfSome, box_value, vec_len, vec_capacity};
ghost use Rattle.ticket_lock.specs.Tokens.{seat_count, opening_book, IsSeatOf, seat_number, seat_seen};
ghost use Rattle.hull_book.specs.Ledgers.{IsLedgerOf};
ghost use Rattle.hull_plain.specs.Sets.{plain_set};
ghost use Rattle.hull_book.specs.Books.{IsLawful};
ghost use Rattle.hull_pool.specs.Crews.{book_head, IsSeated};
ghost use Rattle.hull_pool.specs.Work.{workers_of};

use super::{at, opened};
use hull_book::{Answer, Book, Call, Journal, Ledger, Reply};
use hull_plain::PlainSet;
use hull_pool::{BookLock, BookSeat, close_book, make_call};
use std::alloc::Global;
use std::process::Abort;
use std::sync::Wait;
use std::test::Fail;
use std::thread;
use std::thread::Threads;
use ticket_lock::TicketLock;

/// The state of a thread: a seat, its ledger, and the answer that it got.
struct Caller {
    number: u8,
    seat: Option<BookSeat<PlainSet>>,
    ledger: Ledger,
    answer: Option<Answer>,
}

// The caller with the last seat and the last ledger, which are those of this number, before any call.
fn last_caller(
    rt: &impl Abort,
    lock: &BookLock<PlainSet>,
    seats: &mut Vec<BookSeat<PlainSet>>,
    ledgers: &mut Vec<Ledger>,
    number: u8,
) -> Caller
    requires own { All (λ s. IsSeatOf book_head lock.now s × (seat_seen s ≡ [])) seats.old.items }
    ensures own { All (λ s. IsSeatOf book_head lock.now s × (seat_seen s ≡ [])) seats.new.items }
    ensures number { result.number ≡ number }
    ensures ready { IsSeated lock.now result.number result.ledger result.seat }
    ensures left { (vec_len seats.new + 1 ≡ vec_len seats.old) × (vec_len ledgers.new + 1 ≡ vec_len ledgers.old) }
    ensures space { (vec_capacity seats.new ≡ vec_capacity seats.old)
        × (vec_capacity ledgers.new ≡ vec_capacity ledgers.old) }
{
    let Some(seat) = seats.pop() else {
        panic!(rt; "a seat is left")
    };
    let Some(ledger) = ledgers.pop() else {
        panic!(rt; "a ledger is left")
    };
    assert!(rt; seat.number() == number);
    assert!(rt; ledger.seat() == number && ledger.total() == 0);
    Caller {
        number,
        seat: Some(seat),
        ledger,
        answer: None,
    }
}

// Makes the caller's call.
fn calls<R: Wait>(rt: &R, lock: &BookLock<PlainSet>, caller: &mut Caller, call: Call)
    requires below { caller.old.number < workers_of (box_value (opening_book lock.now)) }
    requires ready { IsSeated lock.now caller.old.number caller.old.ledger caller.old.seat }
    ensures number { caller.new.number ≡ caller.old.number }
    ensures ready { IsSeated lock.now caller.new.number caller.new.ledger caller.new.seat }
{
    let seat = caller.seat.take().unwrap();
    let (seat, answer) = make_call(rt, lock, seat, caller.number, call, &mut caller.ledger, ());
    let none = caller.seat.replace(seat);
    let None = none else { unreachable!() };
    caller.answer = Some(answer);
}

// The end of the book that two callers shared.
fn ends(
    lock: BookLock<PlainSet>,
    mut seats: Vec<BookSeat<PlainSet>>,
    mut ledgers: Vec<Ledger>,
    zero: Caller,
    one: Caller,
) -> (Book<PlainSet>, u64)
    requires empty { (seats.items ≡ []) × (ledgers.items ≡ []) }
    requires space { (2 ≤ vec_capacity seats) × (2 ≤ vec_capacity ledgers) }
    requires two { (seat_count lock ≡ 2) × (workers_of (box_value (opening_book lock)) ≡ 2) }
    requires numbers { (zero.number ≡ 0) × (one.number ≡ 1) }
    requires zero { IsSeated lock zero.number zero.ledger zero.seat }
    requires one { IsSeated lock one.number one.ledger one.seat }
    ensures lawful { IsLawful plain_set result.0 }
{
    let Caller {
        number: _,
        seat,
        ledger,
        answer: _,
    } = zero;
    seats.push_reserved(seat.unwrap());
    ledgers.push_reserved(ledger);
    let Caller {
        number: _,
        seat,
        ledger,
        answer: _,
    } = one;
    seats.push_reserved(seat.unwrap());
    ledgers.push_reserved(ledger);
    close_book(lock, seats, ledgers)
}

// Whether the answer is this reply.
fn is_reply(answer: &Option<Answer>, reply: &Reply) -> bool {
    match answer {
        Some(Ok(given)) => given == reply,
        _ => false,
    }
}

// Two threads make a call each on a book that they share. Returns whether the point was added, whether none was counted and whether one was, how many
// calls have their line, and the journal.
fn two_share<R: Threads + Wait + Abort + Sync>(
    rt: &R,
    alloc: Global,
) -> (bool, bool, bool, u64, Journal) {
    let (book, mut ledgers) = opened(rt, alloc, 5, 8, 2);
    let Ok(book) = Box::new(alloc, book) else {
        panic!(rt; "there is memory for the book")
    };
    let Ok((lock, mut seats)) = TicketLock::open(alloc, book, 2) else {
        panic!(rt; "there is memory for the lock")
    };
    let mut one = last_caller(rt, &lock, &mut seats, &mut ledgers, 1);
    let mut zero = last_caller(rt, &lock, &mut seats, &mut ledgers, 0);
    let add = Call::Add(at(rt, 3, 4));
    thread::join_mut(
        rt,
        &mut || calls(rt, &lock, &mut zero, add),
        &mut || calls(rt, &lock, &mut one, Call::Count),
    );
    let added = is_reply(&zero.answer, &Reply::Added);
    let counted_none = is_reply(&one.answer, &Reply::PointCount(0));
    let counted_one = is_reply(&one.answer, &Reply::PointCount(1));
    let (book, sum) = ends(lock, seats, ledgers, zero, one);
    (added, counted_none, counted_one, sum, book.into_journal())
}

/// Two threads share a book by calls of their own: each has its line, with the number that was served, and the sum of
/// the ledgers is two.
#[test]
fn two_threads_share_a_book(rt: HostRuntime) -> Result<(), Fail> {
    for _ in 0..100u8 {
        let (added, none, one, sum, journal) = two_share(&rt, rt.alloc());
        assert!(rt; added && (none || one));
        let lines = journal.lines();
        assert_eq!(rt; (sum, lines.len()), (2, 2));
        assert_eq!(rt; (lines[0].number, lines[1].number), (5, 6));
        let seats = (lines[0].seat, lines[1].seat);
        assert_eq!(rt; seats, if none { (1, 0) } else { (0, 1) });
    }
    Ok(())
}
