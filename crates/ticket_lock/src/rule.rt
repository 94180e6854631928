//! The table of the lock: the words, a slot for the book, and a view for each seat.
use crate::chronicle::Chronicle;
use crate::seat_state::SeatState;
use atomic_table::{Seat as TableSeat, Table, TableRule};
use std::alloc::Global;
use std::snapshot::Snapshot;

/// The book at opening, and the number of seats.
pub struct Origin<B> {
    pub book: Snapshot<B>,
    pub seats: u64,
}

impl<B> Drop for Origin<B> {
    fn drop(self) {
        let Self { book, seats: _ } = self;
        drop(book);
    }
}

/// The rule of the lock.
pub struct Queue;

impl<B: Chronicle> TableRule<Option<B>, SeatState<B::Head, B::Line>, Origin<B>> for Queue {
    ghost use Rattle.ticket_lock.specs.Forms.{partitioned_form};
    ghost use Rattle.ticket_lock.specs.Standing.{Standing, keeper_of};

    ghost holds = { λ origin s. Standing B.Chronicle partitioned_form origin.seats origin.book.value s };

    ghost first = { λ origin. keeper_of (B.head origin.book.value) (B.lines origin.book.value) 0 origin.seats };
}

pub type Board<B> = Table<
    Option<B>,
    SeatState<<B as Chronicle>::Head, <B as Chronicle>::Line>,
    Origin<B>,
    Queue,
    Global,
>;

pub type Place<B> = TableSeat<Option<B>, SeatState<<B as Chronicle>::Head, <B as Chronicle>::Line>>;
