//! A ticket lock (Mellor-Crummey and Scott, 1991) around a book that keeps a chronicle, in a form with eight grant words.
//!
//! Each call of a seat is one atomic step on one word. The promises of the lock are theorems about every order of such steps.
//!
//! # A worked example
//!
//! Two seats sign a roll, the example of a book in `roll.rt`:
//!
//! ```
//! let roll = Roll::blank(alloc, 64, 0)?;
//! let Ok((lock, mut seats)) = TicketLock::open(alloc, roll, 2) else { return refused };
//! let seat = seats.pop().unwrap();
//! let number = seat.number();
//! let mut guard = lock.enter(rt, seat); // takes a number, and waits until it is served
//! let roll = guard.book(); // borrows the book
//! roll.lines.push_reserved(Signature { seat: number, number: roll.turn });
//! roll.turn = roll.turn.wrapping_add(1);
//! seats.push_reserved(guard.hand_on()); // the next number is served
//! let roll = lock.close(seats); // with all seats, at the end
//! ```
//!
//! The contracts of `enter` and `hand_on` say what the seat finds in the book, and what it must leave there: one line more, in this seat's name and
//! with its number. A thread that may not wait does the same in two steps, `take` and `look`. A type must implement `Chronicle` to be the book of a
//! lock.
#![tactic(auto)]

mod book;
mod chronicle;
mod close;
mod enter;
mod guard;
mod law;
mod lock;
mod open;
mod plays;
pub mod roll;
mod rule;
mod seat;
mod seat_state;
mod sleepers;
#[cfg(test)]
mod tests;
mod ticket;

pub use chronicle::Chronicle;
pub use guard::Guard;
pub use law::{
    other_steps_are_outside, partitioned_schedules_are_linearizable,
    partitioned_schedules_are_never_stuck, partitioned_schedules_hold, resting_tables_are_good,
    resting_turn_is_next, schedules_hold, steps_are_events,
};
pub use lock::TicketLock;
pub use open::{OpenFault, SEAT_LIMIT};
pub use seat::Seat;
pub use ticket::{Look, Ticket};
