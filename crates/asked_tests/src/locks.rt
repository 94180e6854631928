//! The ticket lock around a book, step by step.
ghost use Rattle.std.specs.Prelude.{◌≡◌, ◌≤◌, ◌<◌, ◌+◌, [], All, IfOk, vec_len, vec_capacity};
ghost use Rattle.hull_plain.specs.Sets.{plain_set};
ghost use Rattle.hull_book.specs.Books.{IsLawful};
ghost use Rattle.ticket_lock.specs.Tokens.{IsSeatOf, IsTicketOf, seat_count, ticket_seat};

use std::alloc::Global;
use std::process::Abort;
use std::sync::Wait;
use std::test::Fail;
use ticket_lock::roll::{Roll, sign};
use ticket_lock::{Chronicle, Guard, Look, OpenFault, Seat, Ticket, TicketLock};

// The turn of a book, and whether it is full.
fn shown<B: Chronicle>(book: &B) -> (u64, bool) {
    let turn: u64 = book.turn();
    let full: bool = book.full();
    (turn, full)
}

// The last of the seats.
fn last_seat(rt: &impl Abort, lock: &TicketLock<Roll>, seats: &mut Vec<Seat<Roll>>) -> Seat<Roll>
    requires own { All (IsSeatOf ⟦<Roll as Chronicle>⟧.head lock.now) seats.old.items }
    ensures own { All (IsSeatOf ⟦<Roll as Chronicle>⟧.head lock.now) seats.new.items }
    ensures seat { IsSeatOf ⟦<Roll as Chronicle>⟧.head lock.now result }
    ensures room { (vec_capacity seats.new ≡ vec_capacity seats.old) × (vec_len seats.new + 1 ≡ vec_len seats.old) }
{
    let Some(seat) = seats.pop() else {
        panic!(rt; "no seat is left")
    };
    seat
}

// Looks with a ticket whose number is served, and hands on with one line more.
fn enters(rt: &impl Abort, lock: &TicketLock<Roll>, ticket: Ticket<Roll>, seat: u8) -> Seat<Roll>
    requires own { IsTicketOf lock.now ticket × (ticket_seat ticket ≡ seat) }
    ensures own { IsSeatOf ⟦<Roll as Chronicle>⟧.head lock.now result }
{
    let found: Look<'_, Roll> = lock.look(ticket);
    match found {
        Look::Entered(guard) => {
            let guard: Guard<'_, Roll> = guard;
            sign(guard, seat)
        }
        Look::NotYet(_same) => panic!(rt; "the number is served"),
    }
}

// Looks with a ticket whose number is not served.
fn waits(rt: &impl Abort, lock: &TicketLock<Roll>, ticket: Ticket<Roll>) -> Ticket<Roll>
    requires own { IsTicketOf lock.now ticket }
    ensures own { IsTicketOf lock.now result × (ticket_seat result ≡ ticket_seat ticket) }
{
    match lock.look(ticket) {
        Look::Entered(_guard) => panic!(rt; "the number is not served"),
        Look::NotYet(same) => same,
    }
}

// Opens a lock around a roll of two seats. If memory is refused, the roll is returned unchanged.
fn opened(
    rt: &impl Abort,
    roll: Roll,
    alloc: Global,
) -> Result<(TicketLock<Roll>, Vec<Seat<Roll>>), Fail>
    requires lawful { roll.capacity ≤ vec_capacity roll.lines }
    ensures lock { IfOk result (λ r. (seat_count r.0 ≡ 2) × (vec_len r.1 ≡ 2) × (2 ≤ vec_capacity r.1)) }
    ensures seats { IfOk result (λ r. All (IsSeatOf ⟦<Roll as Chronicle>⟧.head r.0) r.1.items) }
{
    let seats: u8 = 2;
    let made: Result<(TicketLock<Roll>, Vec<Seat<Roll>>), (OpenFault, Roll)> = TicketLock::open(
        alloc, roll, seats,
    );
    match made {
        Ok(made) => Ok(made),
        Err((fault, _roll)) => {
            assert_eq!(rt; fault, OpenFault::NoMemory);
            Err(Fail::new("memory is refused"))
        }
    }
}

// Two seats take the numbers 5 and 6; each looks before it is served.
fn two_serve(rt: &impl Abort, alloc: Global) -> Result<(u64, u64, Roll), Fail> {
    let (lock, mut seats) = opened(rt, Roll::blank(alloc, 4, 5)?, alloc)?;
    let one: Seat<Roll> = last_seat(rt, &lock, &mut seats);
    let zero: Seat<Roll> = last_seat(rt, &lock, &mut seats);
    let (zero_number, one_number): (u8, u8) = (zero.number(), one.number());
    let first: Ticket<Roll> = lock.take(zero);
    let second: Ticket<Roll> = lock.take(one);
    let numbers: (u64, u64) = (first.number(), second.number());
    let second = waits(rt, &lock, second);
    let mut guard = match lock.look(first) {
        Look::Entered(guard) => guard,
        Look::NotYet(_same) => panic!(rt; "the number is served"),
    };
    let book: &mut Roll = guard.book();
    let _shown = shown(book);
    let second = waits(rt, &lock, second);
    let seat: Seat<Roll> = sign(guard, zero_number);
    seats.push_reserved(seat);
    seats.push_reserved(enters(rt, &lock, second, one_number));
    let roll: Roll = lock.close(seats);
    Ok((numbers.0, numbers.1, roll))
}

#[test]
fn two_seats(rt: HostRuntime) -> Result<(), Fail> {
    let (first, second, roll) = two_serve(&rt, rt.alloc())?;
    assert_eq!(rt; (first, second), (5, 6));
    assert_eq!(rt; shown(&roll), (7, false));
    assert_eq!(rt; roll.lines.len(), 2);
    assert!(rt; roll.lines[0].number == 5 && roll.lines[0].seat == 0);
    assert!(rt; roll.lines[1].number == 6 && roll.lines[1].seat == 1);
    Ok(())
}

// Waits for the book, and signs.
fn signs<R: Wait>(rt: &R, lock: &TicketLock<Roll>, seat: Seat<Roll>) -> Seat<Roll>
    requires own { IsSeatOf ⟦<Roll as Chronicle>⟧.head lock.now seat }
    ensures own { IsSeatOf ⟦<Roll as Chronicle>⟧.head lock.now result }
{
    let number = seat.number();
    let guard: Guard<'_, Roll> = lock.enter(rt, seat);
    sign(guard, number)
}

// The last of the seats waits for the book and signs, and is the last again.
fn last_signs<R: Wait + Abort>(rt: &R, lock: &TicketLock<Roll>, seats: &mut Vec<Seat<Roll>>)
    requires own { All (IsSeatOf ⟦<Roll as Chronicle>⟧.head lock.now) seats.old.items
        × (vec_len seats.old ≤ vec_capacity seats.old) }
    ensures own { All (IsSeatOf ⟦<Roll as Chronicle>⟧.head lock.now) seats.new.items
        × (vec_capacity seats.new ≡ vec_capacity seats.old) × (vec_len seats.new ≡ vec_len seats.old) }
{
    let seat = last_seat(rt, lock, seats);
    seats.push_reserved(signs(rt, lock, seat));
}

// One call of a lock whose first number is the last before the wrap.
fn waits_and_signs<R: Wait + Abort>(rt: &R, alloc: Global) -> Result<Roll, Fail> {
    let (lock, mut seats) = opened(rt, Roll::blank(alloc, 4, 18446744073709551615)?, alloc)?;
    last_signs(rt, &lock, &mut seats);
    Ok(lock.close(seats))
}

#[test]
fn waiting_for_the_book(rt: HostRuntime) -> Result<(), Fail> {
    let roll = waits_and_signs(&rt, rt.alloc())?;
    assert_eq!(rt; (roll.turn, roll.lines.len()), (0, 1));
    Ok(())
}

#[test]
fn refused_numbers_of_seats(rt: HostRuntime) -> Result<(), Fail> {
    for seats in [0u8, 65] {
        match TicketLock::open(rt.alloc(), Roll::blank(rt.alloc(), 3, 9)?, seats) {
            Ok(_) => panic!(rt; "{seats} seats are refused"),
            Err((fault, roll)) => {
                assert!(rt; fault == OpenFault::SeatCount && roll.turn == 9);
            }
        }
    }
    Ok(())
}
