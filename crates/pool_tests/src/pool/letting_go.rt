//! Two seats on a book whose lines are discarded, which has storage for one and is never full; and the whole flow of two seats.
ghost use Rattle.std.specs.Prelude.{◌≡◌, ◌+◌, ◌<◌, [], All, vec_len, vec_capacity};
ghost use Rattle.ticket_lock.specs.Tokens.{IsSeatOf, opening_book, seat_seen};
ghost use Rattle.hull_book.specs.Kinds.{drained};
ghost use Rattle.hull_plain.specs.Sets.{plain_set};
ghost use Rattle.hull_pool.specs.Handing.{MayCall};
ghost use Rattle.hull_pool.specs.Long.{IsSeatedLong, long_book_head};

use super::draining::{Member, answered, answered_by_look, assemble, disband};
use super::{at, opened};
use hull_book::{AfterCall, Call, Journal, Ledger, LongAnswer, LongBook, Reply, Space};
use hull_plain::PlainSet;
use hull_pool::{LongLock, LongSeat, close_book, two_seats_share};
use std::alloc::Global;
use std::process::Abort;
use std::sync::Wait;
use std::test::Fail;
use ticket_lock::TicketLock;

// A list of three answers.
fn listed(
    rt: &impl Abort,
    alloc: Global,
    first: LongAnswer,
    second: LongAnswer,
    third: LongAnswer,
) -> Vec<LongAnswer> {
    let mut answers = Vec::new(alloc);
    assert!(rt; answers.push(first).is_ok());
    assert!(rt; answers.push(second).is_ok());
    assert!(rt; answers.push(third).is_ok());
    answers
}

// Makes three calls of two members: the first adds a point, the second counts, and the first, which looks once, removes the point.
fn three_calls<R: Wait + Abort>(
    rt: &R,
    alloc: Global,
    lock: &LongLock<PlainSet>,
    zero: &mut Member,
    one: &mut Member,
) -> Vec<LongAnswer>
    requires zero { IsSeatedLong lock.now zero.old.number zero.old.ledger zero.old.seat }
    requires one { IsSeatedLong lock.now one.old.number one.old.ledger one.old.seat }
    ensures zero { IsSeatedLong lock.now zero.new.number zero.new.ledger zero.new.seat }
    ensures one { IsSeatedLong lock.now one.new.number one.new.ledger one.new.seat }
{
    let p = at(rt, 3, 4);
    let added = answered(rt, lock, zero, Call::Add(p), AfterCall::Discard);
    let counted = answered(rt, lock, one, Call::Count, AfterCall::Discard);
    let removed = answered_by_look(rt, lock, zero, Call::Remove(p), AfterCall::Discard);
    listed(rt, alloc, added, counted, removed)
}

// Returns the answers of three calls of two seats, the lines that the book has then as a segment, and how many calls have their line.
fn all_discarded<R: Wait + Abort>(rt: &R, alloc: Global) -> (Vec<LongAnswer>, Journal, u64) {
    let (book, mut ledgers) = opened(rt, alloc, 7, 1, 2);
    let Ok(book) = LongBook::new(book) else {
        panic!(rt; "there is memory for the spare line")
    };
    let Ok(book) = Box::new(alloc, book) else {
        panic!(rt; "there is memory for the book")
    };
    let Ok((lock, mut seats)) = TicketLock::open(alloc, book, 2) else {
        panic!(rt; "there is memory for the lock")
    };
    let Ok(mut members) = Vec::with_capacity(alloc, 2) else {
        panic!(rt; "there is memory for the members")
    };
    let mut segments = Vec::new(alloc);
    assemble(rt, alloc, &lock, &mut seats, &mut ledgers, &mut members);
    let Some(mut zero) = members.pop() else {
        panic!(rt; "there are two members")
    };
    let Some(mut one) = members.pop() else {
        panic!(rt; "there are two members")
    };
    let answers = three_calls(rt, alloc, &lock, &mut zero, &mut one);
    members.push_reserved(one);
    members.push_reserved(zero);
    disband(
        rt,
        &lock,
        &mut members,
        &mut seats,
        &mut ledgers,
        &mut segments,
    );
    members.destroy_empty();
    assert!(rt; segments.is_empty());
    let (book, sum) = close_book(lock, seats, ledgers);
    assert_eq!(rt; book.drained(), 3);
    (answers, book.into_segment(), sum)
}

#[test]
fn discarded_lines_make_space(rt: HostRuntime) {
    let (answers, segment, sum) = all_discarded(&rt, rt.alloc());
    let returned = match &*answers {
        [
            Ok((Reply::Added, None)),
            Ok((Reply::PointCount(1), None)),
            Ok((Reply::Removed, None)),
        ] => true,
        _ => false,
    };
    let left = (segment.first(), segment.lines().len());
    drop(answers);
    drop(segment);
    assert!(rt; returned);
    assert_eq!(rt; (left, sum), ((10, 0), 3));
}

// The last seat and the last ledger, which are those of this number, before any call.
fn last_member(
    rt: &impl Abort,
    lock: &LongLock<PlainSet>,
    seats: &mut Vec<LongSeat<PlainSet>>,
    ledgers: &mut Vec<Ledger>,
    number: u8,
) -> hull_pool::Member<PlainSet>
    requires own { All (λ s. IsSeatOf long_book_head lock.now s × (seat_seen s ≡ [])) seats.old.items }
    requires below { number < (long_book_head (opening_book lock.now)).workers }
    ensures own { All (λ s. IsSeatOf long_book_head lock.now s × (seat_seen s ≡ [])) seats.new.items }
    ensures ready { MayCall (drained plain_set) lock.now number result.seat result.ledger }
    ensures left { (vec_len seats.new + 1 ≡ vec_len seats.old) × (vec_len ledgers.new + 1 ≡ vec_len ledgers.old) }
    ensures space { (vec_capacity seats.new ≡ vec_capacity seats.old)
        × (vec_capacity ledgers.new ≡ vec_capacity ledgers.old) }
{
    let Some(seat) = seats.pop() else {
        panic!(rt; "a seat is left")
    };
    let Some(ledger) = ledgers.pop() else {
        panic!(rt; "a ledger is left")
    };
    assert!(rt; seat.number() == number);
    assert!(rt; ledger.seat() == number && ledger.total() == 0);
    hull_pool::Member { seat, ledger }
}

// Returns what two seats took out of a book, how many lines its journal has, and how many the book has at the end.
fn both_share<R: Wait + Abort>(rt: &R, alloc: Global) -> (Option<Journal>, u64, usize) {
    let (book, mut ledgers) = opened(rt, alloc, 7, 4, 2);
    let Ok(book) = LongBook::new(book) else {
        panic!(rt; "there is memory for the spare line")
    };
    let Ok(book) = Box::new(alloc, book) else {
        panic!(rt; "there is memory for the book")
    };
    let Ok((lock, mut seats)) = TicketLock::open(alloc, book, 2) else {
        panic!(rt; "there is memory for the lock")
    };
    let Ok(space) = Space::reserve(alloc, 4) else {
        panic!(rt; "there is memory for the lines")
    };
    let one = last_member(rt, &lock, &mut seats, &mut ledgers, 1);
    let zero = last_member(rt, &lock, &mut seats, &mut ledgers, 0);
    let added = Call::Add(at(rt, 3, 4));
    let (book, drained, sum) = two_seats_share(rt, lock, zero, one, space, seats, ledgers, added);
    let held = book.lines().len();
    drop(book);
    match drained {
        Ok((_reply, segment)) => (segment, sum, held),
        Err(_then) => (None, sum, held),
    }
}

#[test]
fn two_seats_share_a_book_that_one_of_them_drains(rt: HostRuntime) {
    let (segment, sum, held) = both_share(&rt, rt.alloc());
    let segment = segment.map(|segment| (segment.first(), segment.lines().len()));
    assert!(rt; segment == Some((7, 2)));
    assert_eq!(rt; (sum, held), (3, 0));
}
