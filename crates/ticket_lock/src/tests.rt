//! A roll under the lock.
ghost use Rattle.std.specs.Prelude.{◌≡◌, ◌+◌, ◌≤◌, [], vec_len, vec_capacity, All, IfOk};
ghost use Rattle.ticket_lock.specs.Tokens.{seat_count, IsSeatOf, IsTicketOf, ticket_seat, seat_number, seat_seen};

mod threads;

use crate::roll::{Roll, Signature, sign};
use crate::{Chronicle, Look, OpenFault, Seat, Ticket, TicketLock};
use std::alloc::{AllocError, Global};
use std::process::Abort;
use std::test::Fail;

// Returns the last of the seats.
fn last_seat<B: Chronicle>(
    rt: &impl Abort,
    lock: &TicketLock<B>,
    seats: &mut Vec<Seat<B>>,
) -> Seat<B>
    requires own { All (IsSeatOf B.head lock.now) seats.old.items }
    ensures own { All (IsSeatOf B.head lock.now) seats.new.items }
    ensures seat { IsSeatOf B.head lock.now result }
    ensures space { (vec_capacity seats.new ≡ vec_capacity seats.old) × (vec_len seats.new + 1 ≡ vec_len seats.old) }
{
    let Some(seat) = seats.pop() else {
        panic!(rt; "no seat is left")
    };
    seat
}

// Looks with a ticket whose number is served, and serves one call.
fn enters(rt: &impl Abort, lock: &TicketLock<Roll>, ticket: Ticket<Roll>, seat: u8) -> Seat<Roll>
    requires own { IsTicketOf lock.now ticket × (ticket_seat ticket ≡ seat) }
    ensures own { IsSeatOf ⟦<Roll as Chronicle>⟧.head lock.now result }
{
    match lock.look(ticket) {
        Look::Entered(guard) => sign(guard, seat),
        Look::NotYet(_same) => panic!(rt; "the number is served"),
    }
}

// Looks with a ticket whose number is not served.
fn waits(rt: &impl Abort, lock: &TicketLock<Roll>, ticket: Ticket<Roll>) -> Ticket<Roll>
    requires own { IsTicketOf lock.now ticket }
    ensures own { IsTicketOf lock.now result × (ticket_seat result ≡ ticket_seat ticket) }
{
    match lock.look(ticket) {
        Look::Entered(_guard) => panic!(rt; "the number is not served"),
        Look::NotYet(same) => same,
    }
}

// Opens a lock around a roll. If memory is refused, the roll is returned unchanged.
fn opened(
    rt: &impl Abort,
    alloc: Global,
    roll: Roll,
    seats: u8,
) -> Result<(TicketLock<Roll>, Vec<Seat<Roll>>), AllocError>
    requires lawful { roll.capacity ≤ vec_capacity roll.lines }
    requires seats { (1 ≤ seats) × (seats ≤ 64) }
    ensures lock { IfOk result (λ r. (seat_count r.0 ≡ seats) × (vec_len r.1 ≡ seats) × (seats ≤ vec_capacity r.1)) }
    ensures seats { IfOk result
        (λ r. All (λ s. IsSeatOf ⟦<Roll as Chronicle>⟧.head r.0 s × (seat_seen s ≡ roll.lines.items)) r.1.items) }
{
    let was = (roll.turn, roll.capacity, roll.lines.len());
    match TicketLock::open(alloc, roll, seats) {
        Ok(made) => Ok(made),
        Err((fault, roll)) => {
            assert_eq!(rt; fault, OpenFault::NoMemory);
            assert_eq!(rt; (roll.turn, roll.capacity, roll.lines.len()), was);
            Err(AllocError)
        }
    }
}

// Two seats take numbers and serve in turn. Returns the numbers, and the roll after them.
fn two_serve(rt: &impl Abort, alloc: Global, turn: u64) -> Result<(u64, u64, Roll), AllocError> {
    let (lock, mut seats) = opened(rt, alloc, Roll::blank(alloc, 4, turn)?, 2)?;
    let one = last_seat(rt, &lock, &mut seats);
    let zero = last_seat(rt, &lock, &mut seats);
    let (k, j) = (zero.number(), one.number());
    let first = lock.take(zero);
    let second = lock.take(one);
    let numbers = (first.number(), second.number());
    let second = waits(rt, &lock, second);
    let first = match lock.look(first) {
        Look::Entered(guard) => guard,
        Look::NotYet(_same) => panic!(rt; "the number is served"),
    };
    let second = waits(rt, &lock, second);
    seats.push_reserved(sign(first, k));
    seats.push_reserved(enters(rt, &lock, second, j));
    Ok((numbers.0, numbers.1, lock.close(seats)))
}

#[test]
fn two_seats(rt: HostRuntime) -> Result<(), Fail> {
    let (first, second, roll) = two_serve(&rt, rt.alloc(), 5)?;
    assert!(rt; first == 5 && second == 6 && roll.turn == 7 && roll.lines.len() == 2);
    let lines = (roll.lines[0], roll.lines[1]);
    assert!(rt; lines.0.number == 5 && lines.0.seat == 0);
    assert!(rt; lines.1.number == 6 && lines.1.seat == 1);
    Ok(())
}

#[test]
fn two_seats_across_the_wrap(rt: HostRuntime) -> Result<(), Fail> {
    let (first, second, roll) = two_serve(&rt, rt.alloc(), u64::MAX)?;
    assert!(rt; first == u64::MAX && second == 0 && roll.turn == 1 && roll.lines.len() == 2);
    let lines = (roll.lines[0], roll.lines[1]);
    assert!(rt; lines.0.number == u64::MAX && lines.0.seat == 0);
    assert!(rt; lines.1.number == 0 && lines.1.seat == 1);
    Ok(())
}

// The grant words in order.
fn grant_words(lock: &TicketLock<Roll>) -> [u64; 8] {
    let mut words = [0; 8];
    for j in 0..8 {
        words[j] = lock.board.shared.peek(j + 8);
    }
    words
}

// The last seat serves one call, and is the last again.
fn last_serves(rt: &impl Abort, lock: &TicketLock<Roll>, seats: &mut Vec<Seat<Roll>>)
    requires own { All (IsSeatOf ⟦<Roll as Chronicle>⟧.head lock.now) seats.old.items
        × (vec_len seats.old ≤ vec_capacity seats.old) }
    ensures own { All (IsSeatOf ⟦<Roll as Chronicle>⟧.head lock.now) seats.new.items
        × (vec_capacity seats.new ≡ vec_capacity seats.old) × (vec_len seats.new ≡ vec_len seats.old) }
{
    let seat = last_seat(rt, lock, seats);
    let number = seat.number();
    seats.push_reserved(enters(rt, lock, lock.take(seat), number));
}

// Serves one call, or two, and reads the grant words.
fn words_after(
    rt: &impl Abort,
    alloc: Global,
    turn: u64,
    again: bool,
) -> Result<[u64; 8], AllocError> {
    let (lock, mut seats) = opened(rt, alloc, Roll::blank(alloc, 4, turn)?, 2)?;
    last_serves(rt, &lock, &mut seats);
    if again {
        last_serves(rt, &lock, &mut seats);
    }
    let words = grant_words(&lock);
    drop(lock.close(seats));
    Ok(words)
}

#[test]
fn grant_words_after_handing_on(rt: HostRuntime) -> Result<(), Fail> {
    let twice = words_after(&rt, rt.alloc(), 5, true)?;
    assert_eq!(rt; twice, [5, 5, 5, 5, 5, 5, 6, 7]);
    let last = u64::MAX;
    let wrapped = words_after(&rt, rt.alloc(), last, false)?;
    assert_eq!(rt; wrapped, [0, last, last, last, last, last, last, last]);
    Ok(())
}

#[test]
fn refuses_no_seats_and_too_many(rt: HostRuntime) -> Result<(), Fail> {
    for seats in [0, 65] {
        let roll = Roll::blank(rt.alloc(), 3, 9)?;
        match TicketLock::open(rt.alloc(), roll, seats) {
            Ok(_) => panic!(rt; "{seats} seats are refused"),
            Err((fault, roll)) => {
                assert!(rt; fault == OpenFault::SeatCount && roll.turn == 9 && roll.capacity == 3);
            }
        }
    }
    Ok(())
}

#[test]
fn a_full_book_hands_on(rt: HostRuntime) -> Result<(), Fail> {
    let mut roll = Roll::blank(rt.alloc(), 1, 7)?;
    roll.lines.push_reserved(Signature { seat: 0, number: 6 });
    let (lock, mut seats) = opened(&rt, rt.alloc(), roll, 2)?;
    let one = last_seat(&rt, &lock, &mut seats);
    let zero = last_seat(&rt, &lock, &mut seats);
    let (k, j) = (zero.number(), one.number());
    let first = lock.take(zero);
    let second = lock.take(one);
    seats.push_reserved(enters(&rt, &lock, first, k));
    seats.push_reserved(enters(&rt, &lock, second, j));
    let roll = lock.close(seats);
    assert!(rt; roll.lines.len() == 1 && roll.turn == 9);
    Ok(())
}

// Each of the seats serves one call, the last first.
fn all_serve(
    rt: &impl Abort,
    lock: &TicketLock<Roll>,
    mut seats: Vec<Seat<Roll>>,
    done: &mut Vec<Seat<Roll>>,
)
    requires own { All (IsSeatOf ⟦<Roll as Chronicle>⟧.head lock.now) seats.items × (done.old.items ≡ []) }
    requires space { vec_len seats ≤ vec_capacity done.old }
    ensures own { All (IsSeatOf ⟦<Roll as Chronicle>⟧.head lock.now) done.new.items
        × (vec_len done.new ≡ vec_len seats) }
{
    while let Some(seat) = seats.pop() {
        let number = seat.number();
        done.push_reserved(enters(rt, lock, lock.take(seat), number));
    }
    seats.destroy_empty();
}

#[test]
fn sixty_four_seats_serve(rt: HostRuntime) -> Result<(), Fail> {
    let roll = Roll::blank(rt.alloc(), 64, 0)?;
    let mut done = Vec::with_capacity(rt.alloc(), 64)?;
    let (lock, seats) = match opened(&rt, rt.alloc(), roll, 64) {
        Ok(made) => made,
        Err(refused) => {
            done.destroy_empty();
            return Err(refused.into());
        }
    };
    all_serve(&rt, &lock, seats, &mut done);
    let roll = lock.close(done);
    assert!(rt; roll.turn == 64 && roll.lines.len() == 64);
    for (k, line) in roll.lines.iter().enumerate() {
        assert!(rt; line.number == k as u64 && usize::from(line.seat) + k == 63);
    }
    Ok(())
}

// Makes one call by a lock around a roll on the heap.
fn boxed_serves(
    rt: &impl Abort,
    lock: &TicketLock<Box<Roll>>,
    seat: Seat<Box<Roll>>,
) -> Seat<Box<Roll>>
    requires own { IsSeatOf ⟦<Box<Roll> as Chronicle>⟧.head lock.now seat }
    ensures own { IsSeatOf ⟦<Box<Roll> as Chronicle>⟧.head lock.now result }
{
    let number = seat.number();
    let mut guard = match lock.look(lock.take(seat)) {
        Look::Entered(guard) => guard,
        Look::NotYet(_ticket) => panic!(rt; "the number is served"),
    };
    let roll: &mut Roll = guard.book();
    if !roll.full() {
        roll.lines.push_reserved(Signature {
            seat: number,
            number: roll.turn,
        });
    }
    roll.turn = roll.turn.wrapping_add(1);
    guard.hand_on()
}

#[test]
fn a_boxed_roll_is_signed(rt: HostRuntime) -> Result<(), Fail> {
    let roll = Box::new(rt.alloc(), Roll::blank(rt.alloc(), 2, 8)?)?;
    assert!(rt; roll.turn() == 8 && !roll.full());
    let Ok((lock, mut seats)) = TicketLock::open(rt.alloc(), roll, 1) else {
        return Err(AllocError.into());
    };
    let seat = last_seat(&rt, &lock, &mut seats);
    seats.push_reserved(boxed_serves(&rt, &lock, seat));
    let roll = lock.close(seats);
    assert!(rt; roll.turn == 9 && roll.lines.len() == 1);
    Ok(())
}
