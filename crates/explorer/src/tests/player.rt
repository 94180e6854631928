//! A player: a seat of the lock, and the steps that it makes.
ghost use Rattle.std.specs.Prelude.{◌≡◌, ◌<◌, Some, box_value};
ghost use Rattle.ticket_lock.specs.Tokens.{opening_book, guard_lock};
ghost use Rattle.hull_pool.specs.Work.{workers_of};
ghost use Rattle.explorer.specs.Places.{IsSeatAt, IsGuardAt, IsPlaced};

use hull_book::{Answer, Book, Call, Ledger, Line};
use hull_pool::{BookLock, BookSeat};
use hull_set::HullSet;
use hull_tree::HullTree;
use std::process::Abort;
use ticket_lock::{Guard, Look, Ticket};

/// The result of a step.
#[derive(Clone, Copy, PartialEq, Eq, Debug)]
pub(super) enum Step {
    /// A number was taken.
    Took(u64),
    /// The number was not served.
    Missed,
    /// The number was served: the book's turn, and the number and the seat of its last line.
    Entered(u64, Option<(u64, u8)>),
    /// The call was served, and the book handed on.
    HandedOn,
}

/// A seat of the lock, or its ticket, or its guard, with its ledger and its answers.
pub(super) struct Player<'a> {
    pub(super) number: u8,
    pub(super) seat: Option<BookSeat<HullTree>>,
    pub(super) ticket: Option<Ticket<Box<Book<HullTree>>>>,
    pub(super) guard: Option<Guard<'a, Box<Book<HullTree>>>>,
    pub(super) ledger: Ledger,
    pub(super) answers: Vec<Answer>,
    /// How many numbers were taken before its last one.
    pub(super) place: usize,
}

// Puts the value into an empty place.
fn put<T>(rt: &impl Abort, place: &mut Option<T>, value: T)
    ensures { place.new ≡ Some value }
{
    match place.replace(value) {
        None => (),
        Some(_other) => panic!(rt; "a player has one of seat, ticket and guard"),
    }
}

// Serves the call and hands the book on.
fn serve<'a>(
    guard: Guard<'a, Box<Book<HullTree>>>,
    number: u8,
    call: Call,
    ledger: &mut Ledger,
) -> (BookSeat<HullTree>, Answer)
    requires below { number < workers_of (box_value (opening_book (guard_lock guard))) }
    requires holds { IsGuardAt (guard_lock guard) number ledger.old ⟦<HullTree as HullSet>⟧ guard }
    ensures { IsSeatAt (guard_lock guard.entry) number ledger.new result.0 }
{
    let mut guard = guard;
    let book = guard.book();
    let answer = book.serve(number, call, ledger);
    (guard.hand_on(), answer)
}

// The number and the seat of the last line.
fn last_of(lines: &[Line]) -> Option<(u64, u8)> {
    match lines.last() {
        Some(line) => Some((line.number, line.seat)),
        None => None,
    }
}

// Returns the book's turn, and the number and the seat of its last line. The guard is returned unchanged.
fn look_in<'a>(
    guard: Guard<'a, Box<Book<HullTree>>>,
) -> (Guard<'a, Box<Book<HullTree>>>, u64, Option<(u64, u8)>)
    ensures { result.0 ≡ guard.entry }
{
    let mut guard = guard;
    let book: &Book<HullTree> = guard.book();
    let turn = book.turn();
    let last = last_of(book.lines());
    (guard, turn, last)
}

/// Makes the player's next step.
pub(super) fn make_step<'a>(
    rt: &impl Abort,
    lock: &'a BookLock<HullTree>,
    player: &mut Player<'a>,
    call: Call,
) -> Step
    requires { IsPlaced lock.now player.old.number player.old.ledger
        ⟦<HullTree as HullSet>⟧ player.old.seat player.old.ticket player.old.guard }
    ensures { IsPlaced lock.now player.new.number player.new.ledger
        ⟦<HullTree as HullSet>⟧ player.new.seat player.new.ticket player.new.guard }
{
    if let Some(seat) = player.seat.take() {
        let ticket = lock.take(seat);
        let number = ticket.number();
        put(rt, &mut player.ticket, ticket);
        return Step::Took(number);
    }
    if let Some(ticket) = player.ticket.take() {
        return match lock.look(ticket) {
            Look::Entered(guard) => {
                let (guard, turn, last) = look_in(guard);
                put(rt, &mut player.guard, guard);
                Step::Entered(turn, last)
            }
            Look::NotYet(ticket) => {
                put(rt, &mut player.ticket, ticket);
                Step::Missed
            }
        };
    }
    let Some(guard) = player.guard.take() else {
        panic!(rt; "a player has one of seat, ticket and guard")
    };
    let (seat, answer) = serve(guard, player.number, call, &mut player.ledger);
    put(rt, &mut player.seat, seat);
    let Ok(()) = player.answers.push(answer) else {
        panic!(rt; "there is memory for the answers")
    };
    Step::HandedOn
}
