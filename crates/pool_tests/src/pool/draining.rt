//! Eight threads on a book that one of them drains; the checker of segments judges all segments.
ghost use Rattle.std.specs.Prelude.{◌≡◌, ◌+◌, ◌<◌, ◌≤◌, [], All, box_value, length, vec_len, vec_capacity};
ghost use Rattle.std.specs.List.{AllZip};
ghost use Rattle.ticket_lock.specs.Tokens.{AreNumbered, IsSeatOf, opening_book, seat_count, seat_number, seat_seen};
ghost use Rattle.hull_book.specs.Answers.{HasSpace};
ghost use Rattle.hull_book.specs.Books.{IsLawful};
ghost use Rattle.hull_book.specs.Kinds.{kind_of};
ghost use Rattle.hull_book.specs.Ledgers.{IsLedgerOf};
ghost use Rattle.hull_book.specs.Marks.{plain};
ghost use Rattle.hull_plain.specs.Sets.{plain_set};
ghost use Rattle.hull_pool.specs.Handing.{HasCome, MayCall};
ghost use Rattle.hull_pool.specs.Long.{IsSeatedLong, long_book_head};

use super::{at, opened};
use hull_book::{
    AfterCall, Call, Journal, JournaledBook, Ledger, LongAnswer, LongBook, ReplayFault,
    SegmentsChecker, Space,
};
use hull_plain::PlainSet;
use hull_pool::{LongLock, LongSeat, close_book, make_call, serve_and_hand_on};
use std::alloc::Global;
use std::process::Abort;
use std::sync::Wait;
use std::test::Fail;
use std::thread;
use std::thread::Threads;
use ticket_lock::{Look, Seat, TicketLock};

/// How many threads there are, and how many calls each makes.
const MEMBERS: u8 = 8;

const CALLS: u32 = 20_000;

/// Member 0 drains with each call that is the 10,000th since the last drain, itself counted.
const EVERY: u32 = 10_000;

/// The maximal number of lines that the book has at once: too few for all calls, and enough for those up to the first drain and between drains.
const CAPACITY: u32 = 150_000;

/// The state of a thread: a seat, its ledger, the segments that it took out, and how many calls were refused.
pub(super) struct Member {
    number: u8,
    seat: Option<LongSeat<PlainSet>>,
    ledger: Ledger,
    segments: Vec<Journal>,
    refused: u32,
}

// The i-th call of a member.
fn nth_call(rt: &impl Abort, number: u8, i: u32) -> Call {
    let k = i.wrapping_mul(7).wrapping_add(u32::from(number) * 5) % 97;
    let p = at(rt, i64::from(k % 11), i64::from(k / 11));
    match i % 5 {
        0 | 1 => Call::Add(p),
        2 => Call::Remove(p),
        3 => Call::Place(p),
        _ => Call::Count,
    }
}

// Makes the member's call, treats the book's lines as `then` says, and returns its answer.
pub(super) fn answered<R: Wait>(
    rt: &R,
    lock: &LongLock<PlainSet>,
    member: &mut Member,
    call: Call,
    then: AfterCall,
) -> LongAnswer
    requires space { HasSpace then (long_book_head (opening_book lock.now)).journal.capacity }
    requires ready { IsSeatedLong lock.now member.old.number member.old.ledger member.old.seat }
    ensures ready { IsSeatedLong lock.now member.new.number member.new.ledger member.new.seat }
{
    let seat = member.seat.take().unwrap();
    let ledger = &mut member.ledger;
    let (seat, answer) = make_call(rt, lock, seat, member.number, call, ledger, then);
    let none = member.seat.replace(seat);
    let None = none else { unreachable!() };
    answer
}

// Does the same with one look at the lock, whose next number must be served.
pub(super) fn answered_by_look(
    rt: &impl Abort,
    lock: &LongLock<PlainSet>,
    member: &mut Member,
    call: Call,
    then: AfterCall,
) -> LongAnswer
    requires space { HasSpace then (long_book_head (opening_book lock.now)).journal.capacity }
    requires ready { IsSeatedLong lock.now member.old.number member.old.ledger member.old.seat }
    ensures ready { IsSeatedLong lock.now member.new.number member.new.ledger member.new.seat }
{
    let seat = member.seat.take().unwrap();
    let ledger = &mut member.ledger;
    let (seat, answer) = look_and_serve(rt, lock, seat, member.number, call, ledger, then);
    let none = member.seat.replace(seat);
    let None = none else { unreachable!() };
    answer
}

// Serves a call of a seat, which takes a number and looks once.
fn look_and_serve<B: JournaledBook>(
    rt: &impl Abort,
    lock: &TicketLock<Box<B>>,
    seat: Seat<Box<B>>,
    number: u8,
    call: Call,
    ledger: &mut Ledger,
    then: B::AfterCall,
) -> (Seat<Box<B>>, B::Answer)
    requires may { MayCall (kind_of B.Chronicle B.whole B.plain) lock.now number seat ledger.old }
    requires space { B.space (B.head (box_value (opening_book lock.now))) then }
    ensures { HasCome (kind_of B.Chronicle B.whole B.plain) lock.now number (seat_seen seat) result.0 ledger.new }
{
    match lock.look(lock.take(seat)) {
        Look::Entered(guard) => serve_and_hand_on(guard, number, call, ledger, then),
        Look::NotYet(_ticket) => panic!(rt; "the number is served"),
    }
}

// Adds the segment, if lines were taken out.
fn add_segment(rt: &impl Abort, segments: &mut Vec<Journal>, segment: Option<Journal>) {
    if let Some(segment) = segment {
        assert!(rt; segments.push(segment).is_ok());
    }
}

// Makes the member's call, treats the book's lines as `then` says, and keeps the segment.
fn calls<R: Wait + Abort>(
    rt: &R,
    lock: &LongLock<PlainSet>,
    member: &mut Member,
    call: Call,
    then: AfterCall,
)
    requires space { HasSpace then (long_book_head (opening_book lock.now)).journal.capacity }
    requires ready { IsSeatedLong lock.now member.old.number member.old.ledger member.old.seat }
    ensures ready { IsSeatedLong lock.now member.new.number member.new.ledger member.new.seat }
{
    match answered(rt, lock, member, call, then) {
        Ok((_reply, segment)) => add_segment(rt, &mut member.segments, segment),
        Err(_then) => member.refused = member.refused.wrapping_add(1),
    }
}

// Makes the member's call and takes out all lines of the book.
fn drains<R: Wait + Abort>(
    rt: &R,
    alloc: Global,
    lock: &LongLock<PlainSet>,
    member: &mut Member,
    call: Call,
)
    requires space { (long_book_head (opening_book lock.now)).journal.capacity ≤ CAPACITY }
    requires ready { IsSeatedLong lock.now member.old.number member.old.ledger member.old.seat }
    ensures ready { IsSeatedLong lock.now member.new.number member.new.ledger member.new.seat }
{
    let Ok(space) = Space::reserve(alloc, CAPACITY) else {
        panic!(rt; "there is memory for the lines")
    };
    calls(rt, lock, member, call, AfterCall::Drain(space));
}

// Makes all calls of the member.
fn works<R: Wait + Abort>(rt: &R, alloc: Global, lock: &LongLock<PlainSet>, member: &mut Member)
    requires space { (long_book_head (opening_book lock.now)).journal.capacity ≤ CAPACITY }
    requires ready { IsSeatedLong lock.now member.old.number member.old.ledger member.old.seat }
    ensures ready { IsSeatedLong lock.now member.new.number member.new.ledger member.new.seat }
{
    for i in 0..CALLS {
        let call = nth_call(rt, member.number, i);
        if member.number == 0 && i % EVERY == EVERY - 1 {
            drains(rt, alloc, lock, member, call);
        } else {
            calls(rt, lock, member, call, AfterCall::Keep);
        }
    }
}

// All members make their calls at once, in a thread each.
fn work_each<R: Threads + Wait + Abort + Sync>(
    rt: &R,
    alloc: Global,
    lock: &LongLock<PlainSet>,
    members: &mut [Member],
)
    requires some { 0 < length members.old }
    requires space { (long_book_head (opening_book lock.now)).journal.capacity ≤ CAPACITY }
    requires ready { All (λ m. IsSeatedLong lock.now m.number m.ledger m.seat) members.old }
    ensures ready { All (λ m. IsSeatedLong lock.now m.number m.ledger m.seat) members.new }
{
    let threads = members.len();
    let each = |_: usize, member: &mut Member|
        requires space { (long_book_head (opening_book lock.now)).journal.capacity ≤ CAPACITY }
        requires ready { IsSeatedLong lock.now member.now.number member.now.ledger member.now.seat }
        ensures { IsSeatedLong lock.entry.now member.exit.now.number member.exit.now.ledger member.exit.now.seat }
    { works(rt, alloc, lock, member) };
    thread::for_each_mut(rt, members, threads, &each);
}

// Does the same with a list of them.
fn work_all<R: Threads + Wait + Abort + Sync>(
    rt: &R,
    alloc: Global,
    lock: &LongLock<PlainSet>,
    members: &mut Vec<Member>,
)
    requires some { 0 < vec_len members.old }
    requires space { (long_book_head (opening_book lock.now)).journal.capacity ≤ CAPACITY }
    requires ready { All (λ m. IsSeatedLong lock.now m.number m.ledger m.seat) members.old.items }
    ensures ready { All (λ m. IsSeatedLong lock.now m.number m.ledger m.seat) members.new.items }
    ensures many { vec_len members.new ≡ vec_len members.old }
{
    work_each(rt, alloc, lock, members.as_mut_slice());
}

// Makes a member of each seat, with its ledger, before any call.
pub(super) fn assemble(
    rt: &impl Abort,
    alloc: Global,
    lock: &LongLock<PlainSet>,
    seats: &mut Vec<LongSeat<PlainSet>>,
    ledgers: &mut Vec<Ledger>,
    members: &mut Vec<Member>,
)
    requires seats { All (λ s. IsSeatOf long_book_head lock.now s × (seat_seen s ≡ [])) seats.old.items }
    requires space { (members.old.items ≡ []) × (vec_len seats.old ≤ vec_capacity members.old) }
    requires few { ((long_book_head (opening_book lock.now)).workers ≡ vec_len seats.old)
        × (vec_len ledgers.old ≡ vec_len seats.old) }
    ensures seats { (seats.new.items ≡ []) × (vec_capacity seats.new ≡ vec_capacity seats.old) }
    ensures ledgers { (ledgers.new.items ≡ []) × (vec_capacity ledgers.new ≡ vec_capacity ledgers.old) }
    ensures ready { All (λ m. IsSeatedLong lock.now m.number m.ledger m.seat) members.new.items }
    ensures many { vec_len members.new ≡ vec_len seats.old }
    ensures space { vec_len seats.old ≤ vec_capacity members.new }
{
    let workers = seats.len();
    while let Some(seat) = seats.pop() {
        let Some(ledger) = ledgers.pop() else {
            panic!(rt; "there is a ledger for each seat")
        };
        let number = seat.number();
        assert!(rt; ledger.seat() == number && ledger.total() == 0);
        assert!(rt; usize::from(number) < workers);
        members.push_reserved(Member {
            number,
            seat: Some(seat),
            ledger,
            segments: Vec::new(alloc),
            refused: 0,
        });
    }
}

// Keeps the segments of the member that took some out.
fn keep(segments: &mut Vec<Journal>, own: Vec<Journal>) {
    if !own.is_empty() {
        drop(std::mem::replace(segments, own));
    }
}

// Separates the members, the last first, into their seats, their ledgers, and the segments that they took out.
pub(super) fn disband(
    rt: &impl Abort,
    lock: &LongLock<PlainSet>,
    members: &mut Vec<Member>,
    seats: &mut Vec<LongSeat<PlainSet>>,
    ledgers: &mut Vec<Ledger>,
    segments: &mut Vec<Journal>,
)
    requires ready { All (λ m. IsSeatedLong lock.now m.number m.ledger m.seat) members.old.items }
    requires empty { (seats.old.items ≡ []) × (ledgers.old.items ≡ []) }
    requires space { (vec_len members.old ≤ vec_capacity seats.old) × (vec_len members.old ≤ vec_capacity ledgers.old) }
    ensures members { members.new.items ≡ [] }
    ensures own { All (IsSeatOf long_book_head lock.now) seats.new.items }
    ensures numbered { AreNumbered seats.new.items }
    ensures ledgers { AllZip (λ s l. IsLedgerOf (seat_number s) (plain (seat_seen s)) l) seats.new.items
        ledgers.new.items }
    ensures many { vec_len seats.new ≡ vec_len members.old }
{
    while let Some(member) = members.pop() {
        let Member {
            number,
            seat,
            ledger,
            segments: own,
            refused,
        } = member;
        let Some(seat) = seat else { unreachable!() };
        assert!(rt; usize::from(number) == seats.len() && refused == 0);
        seats.push_reserved(seat);
        ledgers.push_reserved(ledger);
        keep(segments, own);
    }
}

// All members make their calls on one book. Returns the segments of its journal in their order, and how many calls have a line.
fn all_share<R: Threads + Wait + Abort + Sync>(rt: &R, alloc: Global) -> (Vec<Journal>, u64) {
    let (book, mut ledgers) = opened(rt, alloc, 18446744073709551600, CAPACITY, MEMBERS);
    let Ok(book) = LongBook::new(book) else {
        panic!(rt; "there is memory for the spare line")
    };
    let Ok(book) = Box::new(alloc, book) else {
        panic!(rt; "there is memory for the book")
    };
    let Ok((lock, mut seats)) = TicketLock::open(alloc, book, MEMBERS) else {
        panic!(rt; "there is memory for the lock")
    };
    let Ok(mut members) = Vec::with_capacity(alloc, usize::from(MEMBERS)) else {
        panic!(rt; "there is memory for the members")
    };
    let mut segments = Vec::new(alloc);
    assemble(rt, alloc, &lock, &mut seats, &mut ledgers, &mut members);
    work_all(rt, alloc, &lock, &mut members);
    disband(
        rt,
        &lock,
        &mut members,
        &mut seats,
        &mut ledgers,
        &mut segments,
    );
    members.destroy_empty();
    let (book, sum) = close_book(lock, seats, ledgers);
    assert!(rt; segments.push(book.into_segment()).is_ok());
    (segments, sum)
}

// Checks the segments with these indices, in this order. Returns how many lines they have, or which of them is not right, and why.
fn checked(
    alloc: Global,
    segments: &[Journal],
    order: &[usize],
) -> Result<usize, (usize, ReplayFault)> {
    let [first, ..] = segments else { return Ok(0) };
    let _limits = first.lines();
    let mut checker = SegmentsChecker::new(PlainSet::new(alloc, first.limit()), first);
    let mut lines = 0usize;
    for (i, place) in order.iter().enumerate() {
        let Some(segment) = segments.get(*place) else {
            return Ok(lines);
        };
        match checker.check_next(segment) {
            Ok(next) => checker = next,
            Err(fault) => return Err((i, fault)),
        }
        lines = lines.wrapping_add(segment.lines().len());
    }
    Ok(lines)
}

/// Eight threads make 20,000 calls each on a book that has at most 150,000 lines at once, and one of them drains it with every 10,000th of its calls:
/// no call is refused, each has its line, the segments together are a legal history, and a segment that is missing, doubled or exchanged is illegal
/// at its first line.
#[test]
fn eight_threads_and_one_drains(rt: HostRuntime) -> Result<(), Fail> {
    let (segments, sum) = all_share(&rt, rt.alloc());
    assert_eq!(rt; (sum, segments.len()), (160_000, 3));
    let alloc = rt.alloc();
    assert_eq!(rt; checked(alloc, &segments, &[0, 1, 2]), Ok(160_000));
    let at_first = ReplayFault::Wrong(0);
    assert_eq!(rt; checked(alloc, &segments, &[0, 2]), Err((1, at_first)));
    assert_eq!(rt;
        checked(alloc, &segments, &[0, 1, 1, 2]),
        Err((2, at_first))
    );
    assert_eq!(rt; checked(alloc, &segments, &[0, 2, 1]), Err((1, at_first)));
    Ok(())
}
