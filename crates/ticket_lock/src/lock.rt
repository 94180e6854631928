//! The lock, and the two steps by which a seat acquires its book.
ghost use Rattle.std.specs.Prelude.{◌≡◌};

use crate::chronicle::Chronicle;
use crate::guard::Guard;
use crate::plays;
use crate::rule::Board;
use crate::seat::Seat;
use crate::sleepers::Sleepers;
use crate::ticket::{Look, Ticket};

/// A ticket lock around a book. `open` makes it and `close` ends it. It can't be dropped.
///
/// Of its board's sixteen words, word 0 is the next number, and grant word j is word j + 8: 64 bytes from word 0, so that a thread that takes a number
/// does not take the cache line of the grant words from the one that hands on.
pub struct TicketLock<B: Chronicle> {
    pub(crate) board: Board<B>,
    pub(crate) seats: u8,
    pub(crate) sleepers: Sleepers,
    ghost sized: { (board.shared.table_id.words ≡ 16) × (board.shared.table_id.slots ≡ 1)
        × (board.shared.key.seats ≡ seats) },
}

impl<B: Chronicle> TicketLock<B> {
    ghost use Rattle.std.specs.Prelude.{◌+◌};
    ghost use Rattle.ticket_lock.specs.Tokens.{opening_book, IsSeatOf, seat_number, seat_seen, IsTicketOf, ticket_seat};
    ghost use Rattle.ticket_lock.specs.Tokens.{ticket_number, ticket_seen, ticket_looks, guard_lock, guard_seat};
    ghost use Rattle.ticket_lock.specs.Tokens.{guard_number, guard_seen, guard_book, KeepsHead, Finds, IfEntered};
    ghost use Rattle.ticket_lock.specs.Tokens.{IfNotYet};

    /// Takes the next number: one fetch-and-add. It never waits.
    #[inline]
    pub fn take(&self, seat: Seat<B>) -> Ticket<B>
        requires own { IsSeatOf B.head self.now seat }
        ensures own { IsTicketOf self.now result }
        ensures seat { (ticket_seat result ≡ seat_number seat) × (ticket_seen result ≡ seat_seen seat) }
        ensures looks { ticket_looks result ≡ 0 }
    {
        let Seat { mut place, number } = seat;
        let taken = self.board.shared.fetch_add::<plays::Take>(&mut place, 0, 1);
        Ticket {
            place,
            seat: u64::from(number),
            number: taken,
        }
    }

    /// Tests once whether the ticket's number is served: one load of the grant word that its number selects. It never waits.
    #[inline]
    pub fn look(&self, ticket: Ticket<B>) -> Look<'_, B>
        requires own { IsTicketOf self.now ticket }
        ensures entered { IfEntered result
            (λ g. (guard_lock g ≡ self.now) × (guard_seat g ≡ ticket_seat ticket)
            × (guard_number g ≡ ticket_number ticket) × KeepsHead B.head g) }
        ensures finds { IfEntered result
            (λ g. Finds B.Chronicle (B.head (opening_book self.now)) (ticket_seat ticket) (ticket_seen ticket)
            (ticket_number ticket) (guard_book g)) }
        ensures seen { IfEntered result (λ g. guard_seen g ≡ B.lines (guard_book g)) }
        ensures not_yet { IfNotYet result
            (λ t. IsTicketOf self.now t × (ticket_seat t ≡ ticket_seat ticket)
            × (ticket_number t ≡ ticket_number ticket) × (ticket_seen t ≡ ticket_seen ticket)) }
        ensures one_more { IfNotYet result (λ t. ticket_looks t ≡ ticket_looks ticket + 1) }
    {
        let Ticket {
            mut place,
            seat,
            number,
        } = ticket;
        let word = (number % 8) as usize + 8;
        let found = self.board.shared.load::<plays::Look>(&mut place, word);
        if found != number {
            return Look::NotYet(Ticket {
                place,
                seat,
                number,
            });
        }
        let book = self.board.shared.exchange(&mut place, 0, None).unwrap();
        Look::Entered(Guard {
            lock: self,
            place,
            seat,
            number,
            book,
        })
    }
}
