//! Closing a lock, which returns its book.
ghost use Rattle.std.specs.Prelude.{◌≡◌, ◌+◌, ◌<◌, [], length, All, map, vec_len};
ghost use Rattle.ticket_lock.specs.Standing.{stage_of, memos_of, idles, IsIdle};
ghost use Rattle.ticket_lock.specs.Forms.{partitioned_form};
ghost use Rattle.ticket_lock.specs.GoodWorld.{Shut};
ghost use Rattle.ticket_lock.specs.Tokens.{seat_count, opening_book, IsSeatOf, seat_state, seat_number, seat_seen};
ghost use Rattle.ticket_lock.specs.Tokens.{Stands};

use crate::chronicle::Chronicle;
use crate::lock::TicketLock;
use crate::plays::{Glue, Sit};
use crate::rule::{Board, Place};
use crate::seat::Seat;

// Joins all seats into the keeper.
fn gather<B: Chronicle>(board: &Board<B>, keeper: &mut Place<B>, mut seats: Vec<Seat<B>>)
    requires table { (keeper.old.table_id ≡ board.now.shared.table_id) × (0 < board.now.shared.table_id.words) }
    requires keeper { (stage_of keeper.old.me.0 ≡ 0) × (length (memos_of keeper.old.me.0) ≡ 0)
        × (keeper.old.me.1 ≡ []) }
    requires own { All (λ s. (s.place.table_id ≡ board.now.shared.table_id) × IsIdle s.number s.place.me) seats.items }
    ensures keeper { (keeper.new.table_id ≡ keeper.old.table_id) × (stage_of keeper.new.me.0 ≡ 0)
        × (keeper.new.me.1 ≡ []) }
    ensures memos { map (λ s. s.place.me.0) seats.items ≡ idles (memos_of keeper.new.me.0) }
{
    while let Some(seat) = seats.pop() {
        let Seat { place, number: _ } = seat;
        board.shared.join_seat::<Glue>(keeper, place);
    }
    seats.destroy_empty();
}

impl<B: Chronicle> TicketLock<B> {
    /// Ends the lock and returns its book. You pass all seats of this lock, idle.
    ///
    /// The lock ends in a good world whose seats are the ones that you pass, all idle. The book is lawful, its head is the one at opening, and its
    /// turn is word 0, the number that the next take would have had ([`close_with_next`](TicketLock::close_with_next) returns that word). Its journal
    /// begins with what each seat has seen, and in each seat's name it contains exactly the lines that the seat has seen in its name.
    pub fn close(self, seats: Vec<Seat<B>>) -> B
        requires all { vec_len seats ≡ seat_count self }
        requires own { All (IsSeatOf B.head self) seats.items }
        ensures lawful { B.lawful result }
        ensures head { B.head result ≡ B.head (opening_book self) }
        ensures world { Shut B.Chronicle partitioned_form (opening_book self)
            (map (λ s. seat_state s) seats.items) result (B.turn result) }
        ensures seen { All (λ s. Stands B.Chronicle (seat_number s) (seat_seen s) result) seats.items }
    {
        let (book, _next) = self.close_with_next(seats);
        book
    }

    /// Does what [`close`](TicketLock::close) does, and also returns word 0 of the table as it was when the table was taken down: the number that the
    /// next take would have had, which is the book's turn.
    pub fn close_with_next(self, seats: Vec<Seat<B>>) -> (B, u64)
        requires all { vec_len seats ≡ seat_count self }
        requires own { All (IsSeatOf B.head self) seats.items }
        ensures lawful { B.lawful result.0 }
        ensures head { B.head result.0 ≡ B.head (opening_book self) }
        ensures world { Shut B.Chronicle partitioned_form (opening_book self)
            (map (λ s. seat_state s) seats.items) result.0 result.1 }
        ensures seen { All (λ s. Stands B.Chronicle (seat_number s) (seat_seen s) result.0) seats.items }
    {
        let TicketLock {
            board,
            seats: _,
            sleepers,
        } = self;
        drop(sleepers);
        let mut keeper = board.shared.load_new_seat::<Sit>(0).1;
        gather(&board, &mut keeper, seats);
        let mut closed = board.close_with(keeper);
        let next = closed.word(0);
        let book = closed.take(0).unwrap();
        closed.free();
        (book, next)
    }
}
