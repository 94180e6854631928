//! One hull for up to 64 threads of a program in C: a static library, whose header is `include/hull_shared.h`.
//!
//! A shared hull keeps a book (`hull_book`) behind a ticket lock (`ticket_lock`), with a seat for each thread. A
//! thread that acquired a seat takes a number for a call with it and looks whether that number is served; the thread
//! pauses between two looks, so nothing here waits. The caller provides the storage of a shared hull and of a seat.
//! Each call of the header is one export (`exports/`), which passes references to what the pointers point to on to one
//! plain function and returns its result: the export promises that function's contract.
//!
//! # A shared hull for two threads
//!
//! ```
//! open(&mut shared_hull, alloc, 1000, 0, 64, 2); // up to 1000 points, numbers from 0, 64 calls, 2 seats
//! acquire(&mut shared_hull, &mut seat, 0); // seat 0, for the thread that has the storage
//! take(&mut seat, 1, 3, 4); // a number for `add 3 4`
//! let reply = look(&mut seat); // until its code is not that of `NotYet`; `look_into` writes vertices to an array
//! release(&mut shared_hull, &mut seat);
//! close(&mut shared_hull); // once all seats are released
//! text(&mut shared_hull, &mut out); // the journal, which `hullbook check` judges
//! ```
#![tactic(auto)]

mod acquiring;
mod answer;
mod book;
mod closing;
mod continuing;
mod draining;
mod exports;
mod gate;
mod journal_files;
mod journal_lines_in;
mod law;
mod limits;
mod lock;
mod looking;
mod opening;
mod pieces;
mod place;
mod places;
mod publishing;
mod reader;
mod reading;
mod reopening;
mod seat;
mod seat_state;
mod segment;
mod segments;
mod service;
mod serving;
mod setting_readers;
mod setting_up;
mod shared_hull;
mod stored_file;
mod threads;

pub use law::{
    answers_at_shared_hulls_are_of_lines, headline_holds_of_shared_hulls,
    snapshots_are_of_the_journal,
};
pub use looking::SeatReply;
pub use reading::SnapshotReply;
pub use threads::storages_go_to_any_thread;
