//! Workers that share one book under a ticket lock: each makes its calls one by one, in a thread of its own. The results are proved for every order
//! of the threads' steps.
//!
//! # A book shared by your own threads
//!
//! ```
//! let Ok((book, ledgers)) = Book::open(alloc, HullTree::new(alloc, 1000), 0, 64, 2) else { return refused };
//! let Ok((lock, seats)) = TicketLock::open(alloc, Box::new(alloc, book)?, 2) else { return refused };
//! // in the thread of worker 0, with seat 0 and ledger 0; the other thread does so with number 1
//! let (seat, answer) = make_call(rt, &lock, seat, 0, Call::Add(point), &mut ledger, ());
//! // when both are joined, with the seats and the ledgers in the order of their numbers
//! let (book, count) = close_book(lock, seats, ledgers);
//! let journal = book.into_journal();
//! ```
//!
//! `Book::open` (crate `hull_book`) makes a book around an empty set, and a ledger for each worker. `TicketLock::open` (crate `ticket_lock`) makes a
//! lock around the book, boxed, and a seat for each worker. [`make_call`] waits for the book, serves a call and hands the book on. [`close_book`]
//! closes the lock and gathers the ledgers: it returns the book, and how many calls have their line. The test `two_threads_share_a_book` does all of
//! it. A caller that may not wait uses `TicketLock::look`, and ends with [`serve_and_hand_on`], as `make_call` does.
//!
//! # A book that is open for a long time
//!
//! You share a `LongBook` of `hull_book` in the same way, with [`make_call`] and [`close_book`]. One of its seats takes the lines out, with a call by
//! `AfterCall::Drain`: under the lock only the lists change owners. If the book has as many lines as it may, calls with `AfterCall::Keep` are refused until
//! then. If you want no journal, make the calls of all seats with `AfterCall::Discard`. [`two_seats_share`] is the whole flow for two seats, to copy.
//!
//! # A whole script
//!
//! [`run_phases`] does all of it for a script: [`Workers`] has the ledgers and the answers, and each phase has its own lock and threads.
//! [`run_phase`] runs one phase. `specs/Runs.antt` defines the result of phases, over all calls of each worker, for one phase as for many;
//! `specs/Scripts.antt` adds that they ran one after the other.
#![tactic(auto)]

mod cache_padded;
mod call;
mod close;
mod gate;
mod law;
mod phase;
mod two_seats;
mod worker;
mod worker_set;
mod workers;

pub use call::{
    BookGuard, BookLock, BookSeat, LongGuard, LongLock, LongSeat, make_call, serve_and_hand_on,
};
pub use close::close_book;
pub use gate::{Gate, NoGate};
pub use law::{answers_are_of_lines, long_answers_are_of_lines};
pub use phase::{PhaseEnd, PoolFault, run_phase, run_phases};
pub use two_seats::{Member, two_seats_share};
pub use workers::Workers;
