//! Workers in threads of their own, over one lock.
ghost use Rattle.std.specs.Prelude.{◌≡◌, ◌+◌, ◌≤◌, ◌<◌, ◌^◌, [], length, vec_len, vec_capacity, map, All, IfSome};
ghost use Rattle.std.specs.Prelude.{IsSome};
ghost use Rattle.ticket_lock.specs.World.{own};
ghost use Rattle.ticket_lock.specs.Tokens.{seat_count, opening_book, IsSeatOf, seat_number, seat_seen, IsTicketOf};
ghost use Rattle.ticket_lock.specs.Tokens.{ticket_seat, guard_lock, guard_seat, guard_number, guard_seen, guard_book};
ghost use Rattle.ticket_lock.specs.Tokens.{KeepsHead, IfEntered, IfNotYet};

use super::{last_seat, opened};
use crate::roll::{Roll, sign};
use crate::{Chronicle, Look, Seat, TicketLock};
use std::alloc::{AllocError, Global};
use std::process::Abort;
use std::sync::Wait;
use std::test::Fail;
use std::thread;
use std::thread::Threads;

/// A worker: its seat, which one that is, and how many lines are in its name.
struct Worker {
    seat: Option<Seat<Roll>>,
    number: u8,
    signed: u64,
}

// Waits until `crowd` numbers are taken, this one among them.
fn wait_for_crowd<R: Wait>(rt: &R, lock: &TicketLock<Roll>, number: u64, crowd: u64) {
    for _ in rt.forever() {
        if lock.board.shared.peek(0).wrapping_sub(number) >= crowd {
            return;
        }
        thread::yield_now();
    }
}

// Waits for the roll, signs it, and hands it on. A worker whose number is a multiple of 64 first waits until a crowd has taken numbers after it.
fn work<R: Wait>(rt: &R, lock: &TicketLock<Roll>, worker: &mut Worker, crowd: u64)
    requires some { IsSome worker.old.seat × (worker.old.signed < 2 ^ 32) }
    requires own { IfSome worker.old.seat
        (λ s. IsSeatOf ⟦<Roll as Chronicle>⟧.head lock.now s × (seat_number s ≡ worker.old.number)
        × (length (own ⟦<Roll as Chronicle>⟧ worker.old.number (seat_seen s)) ≡ worker.old.signed)) }
    ensures some { IsSome worker.new.seat × (worker.new.number ≡ worker.old.number)
        × (worker.new.signed ≤ worker.old.signed + 1) }
    ensures own { IfSome worker.new.seat
        (λ s. IsSeatOf ⟦<Roll as Chronicle>⟧.head lock.now s × (seat_number s ≡ worker.new.number)
        × (length (own ⟦<Roll as Chronicle>⟧ worker.new.number (seat_seen s)) ≡ worker.new.signed)) }
{
    let seat = worker.seat.take().unwrap();
    let mut guard = lock.enter(rt, seat);
    if guard.number % 64 == 0 {
        wait_for_crowd(rt, lock, guard.number, crowd);
    }
    let is_full = guard.book().full();
    let back = sign(guard, worker.number);
    if !is_full {
        worker.signed += 1;
    }
    let none = worker.seat.replace(back);
    let None = none else { unreachable!() };
}

// Each worker works once, in as many threads. In each round before it has signed at most once.
fn all_work<R: Threads + Wait + Sync>(
    rt: &R,
    lock: &TicketLock<Roll>,
    workers: &mut [Worker],
    round: u32,
    crowd: u64,
)
    requires ready { All
        (λ w. IsSome w.seat × (w.signed ≤ round)
        × IfSome w.seat (λ s. IsSeatOf ⟦<Roll as Chronicle>⟧.head lock.now s × (seat_number s ≡ w.number)
        × (length (own ⟦<Roll as Chronicle>⟧ w.number (seat_seen s)) ≡ w.signed))) workers.old }
    requires some { (1 ≤ length workers.old) × (round < 2 ^ 31) }
    ensures ready { All (λ w. IsSome w.seat × (w.signed ≤ round + 1)
        × IfSome w.seat (λ s. IsSeatOf ⟦<Roll as Chronicle>⟧.head lock.now s × (seat_number s ≡ w.number)
        × (length (own ⟦<Roll as Chronicle>⟧ w.number (seat_seen s)) ≡ w.signed))) workers.new }
    ensures many { length workers.new ≡ length workers.old }
{
    let threads = workers.len();
    thread::for_each_mut(
        rt,
        workers,
        threads,
        &|_, worker| { work(rt, lock, worker, crowd) },
    );
}

/// The rest of a worker whose seat was returned.
#[derive(Drop)]
struct Tally {
    number: u8,
    signed: u64,
}

// The seats of workers that are done, and their tallies.
fn part(
    lock: &TicketLock<Roll>,
    mut workers: Vec<Worker>,
    seats: &mut Vec<Seat<Roll>>,
    tallies: &mut Vec<Tally>,
)
    requires ready { All
        (λ w. IsSome w.seat × IfSome w.seat
        (λ s. IsSeatOf ⟦<Roll as Chronicle>⟧.head lock.now s × (seat_number s ≡ w.number)
        × (length (own ⟦<Roll as Chronicle>⟧ w.number (seat_seen s)) ≡ w.signed))) workers.items }
    requires space { (vec_len workers ≤ vec_capacity seats.old) × (vec_len workers ≤ vec_capacity tallies.old)
        × (seats.old.items ≡ []) × (tallies.old.items ≡ []) }
    ensures own { All (IsSeatOf ⟦<Roll as Chronicle>⟧.head lock.now) seats.new.items
        × (vec_len seats.new ≡ vec_len workers) }
    ensures numbers { map (λ s. seat_number s) seats.new.items ≡ map (λ t. t.number) tallies.new.items }
    ensures counts { map (λ s. length (own ⟦<Roll as Chronicle>⟧ (seat_number s) (seat_seen s))) seats.new.items
        ≡ map (λ t. t.signed) tallies.new.items }
{
    while let Some(worker) = workers.pop() {
        let Worker {
            seat,
            number,
            signed,
        } = worker;
        seats.push_reserved(seat.unwrap());
        tallies.push_reserved(Tally { number, signed });
    }
    workers.destroy_empty();
}

// Closes the lock: the roll has in each worker's name just the lines that it has signed.
fn finish(lock: TicketLock<Roll>, seats: Vec<Seat<Roll>>, tallies: &[Tally]) -> Roll
    requires own { All (IsSeatOf ⟦<Roll as Chronicle>⟧.head lock) seats.items × (vec_len seats ≡ seat_count lock) }
    requires numbers { map (λ s. seat_number s) seats.items ≡ map (λ t. t.number) tallies.now }
    requires counts { map (λ s. length (own ⟦<Roll as Chronicle>⟧ (seat_number s) (seat_seen s))) seats.items
        ≡ map (λ t. t.signed) tallies.now }
    ensures counts { All (λ t. length (own ⟦<Roll as Chronicle>⟧ t.number result.lines.items) ≡ t.signed) tallies.now }
{
    lock.close(seats)
}

// A worker for each seat, before any line is signed.
fn assemble(lock: &TicketLock<Roll>, mut seats: Vec<Seat<Roll>>, workers: &mut Vec<Worker>)
    requires own { All (λ s. IsSeatOf ⟦<Roll as Chronicle>⟧.head lock.now s × (seat_seen s ≡ [])) seats.items }
    requires space { (vec_len seats ≤ vec_capacity workers.old) × (workers.old.items ≡ []) }
    ensures ready { All (λ w. IsSome w.seat × (w.signed ≤ 0)
        × IfSome w.seat (λ s. IsSeatOf ⟦<Roll as Chronicle>⟧.head lock.now s × (seat_number s ≡ w.number)
        × (length (own ⟦<Roll as Chronicle>⟧ w.number (seat_seen s)) ≡ w.signed))) workers.new.items }
    ensures many { vec_len workers.new ≡ vec_len seats }
{
    while let Some(seat) = seats.pop() {
        let number = seat.number();
        workers.push_reserved(Worker {
            seat: Some(seat),
            number,
            signed: 0,
        });
    }
    seats.destroy_empty();
}

// Opens a lock with this many seats, whose workers sign once in each round. Returns the roll, after comparing it with what each worker has signed.
fn all_sign<R: Threads + Wait + Abort + Sync>(
    rt: &R,
    alloc: Global,
    turn: u64,
    count: u8,
    rounds: u32,
    crowd: u64,
) -> Result<Roll, AllocError>
    requires seats { (1 ≤ count) × (count ≤ 64) }
    requires rounds { rounds < 2 ^ 16 }
{
    let each = usize::from(count);
    let roll = Roll::blank(alloc, each * rounds as usize, turn)?;
    let mut tallies = Vec::with_capacity(alloc, each)?;
    let mut workers = Vec::with_capacity(alloc, each)?;
    let (lock, seats) = match opened(rt, alloc, roll, count) {
        Ok(made) => made,
        Err(refused) => {
            workers.destroy_empty();
            return Err(refused);
        }
    };
    assemble(&lock, seats, &mut workers);
    for round in 0..rounds {
        all_work(rt, &lock, workers.as_mut_slice(), round, crowd);
    }
    let mut seats = match Vec::with_capacity(alloc, each) {
        Ok(seats) => seats,
        Err(_) => panic!(rt; "there is memory for the seats"),
    };
    part(&lock, workers, &mut seats, &mut tallies);
    let roll = finish(lock, seats, tallies.as_slice());
    for tally in &tallies {
        assert!(rt;
            tally.signed == u64::from(rounds),
            "worker {}",
            tally.number
        );
    }
    Ok(roll)
}

#[test]
fn workers_sign_in_threads(rt: HostRuntime) -> Result<(), Fail> {
    for _ in 0..20 {
        let first = u64::MAX - 2;
        let roll = all_sign(&rt, rt.alloc(), first, 8, 1, 0)?;
        assert!(rt; roll.turn == 5 && roll.lines.len() == 8);
        let mut signed = [false; 8];
        for (k, line) in roll.lines.iter().enumerate() {
            assert_eq!(rt; line.number, first.wrapping_add(k as u64));
            assert!(rt; line.seat < 8, "the seats are numbered from 0 to 7");
            signed[usize::from(line.seat)] = true;
        }
        assert_eq!(rt; signed, [true; 8]);
    }
    Ok(())
}

// In each round the first to enter waits until all 64 numbers are out: all but a few of the others go to sleep, and each is woken by the seat that
// hands on before it. If a wake-up is lost, its worker stays asleep, and the test never ends.
#[test]
fn sixty_four_workers_sleep_and_wake(rt: HostRuntime) -> Result<(), Fail> {
    let first = u64::MAX - 63;
    let roll = all_sign(&rt, rt.alloc(), first, 64, 40, 64)?;
    assert!(rt; roll.turn == 39 * 64 && roll.lines.len() == 40 * 64);
    Ok(())
}

// Takes a number and looks once, on runtimes that may not wait.
fn take_and_look<'a, R: Threads>(
    rt: &R,
    lock: &'a TicketLock<Roll>,
    seat: Seat<Roll>,
) -> Look<'a, Roll>
    requires own { IsSeatOf ⟦<Roll as Chronicle>⟧.head lock.now seat }
    ensures entered { IfEntered result
        (λ g. (guard_lock g ≡ lock.now) × (guard_seat g ≡ seat_number seat) × KeepsHead ⟦<Roll as Chronicle>⟧.head g) }
    ensures roll { IfEntered result
        (λ g. ((guard_book g).capacity ≤ vec_capacity (guard_book g).lines)
        × ((guard_book g).capacity ≡ (opening_book lock.now).capacity) × ((guard_book g).turn ≡ guard_number g)
        × (guard_seen g ≡ (guard_book g).lines.items)) }
    ensures not_yet { IfNotYet result (λ t. IsTicketOf lock.now t × (ticket_seat t ≡ seat_number seat)) }
{
    thread::join(rt, || (), || ());
    lock.look(lock.take(seat))
}

#[test]
fn takes_and_looks_without_waiting(rt: HostRuntime) -> Result<(), Fail> {
    let alloc = rt.alloc();
    let (lock, mut seats) = opened(&rt, alloc, Roll::blank(alloc, 1, 3)?, 1)?;
    let seat = last_seat(&rt, &lock, &mut seats);
    let number = seat.number();
    match take_and_look(&rt, &lock, seat) {
        Look::Entered(guard) => seats.push_reserved(sign(guard, number)),
        Look::NotYet(_ticket) => panic!(&rt; "the number is served"),
    }
    let roll = lock.close(seats);
    assert!(rt; roll.turn == 4 && roll.lines.len() == 1);
    Ok(())
}
