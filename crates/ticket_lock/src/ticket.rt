//! A ticket: a seat that has taken a number and waits until that number is served.
ghost use Rattle.std.specs.Prelude.{◌≡◌, ◌<◌, []};
ghost use Rattle.ticket_lock.specs.Standing.{stage_of, seat_of, number_of};

use crate::chronicle::Chronicle;
use crate::guard::Guard;
use crate::rule::Place;

/// A seat with a number. It can't be dropped: `TicketLock::look` consumes it.
pub struct Ticket<B: Chronicle> {
    pub(crate) place: Place<B>,
    pub(crate) seat: u64,
    pub(crate) number: u64,
    ghost waiting: { (stage_of place.me.0 ≡ 2) × (seat_of place.me.0 ≡ seat) × (number_of place.me.0 ≡ number)
        × (place.me.1 ≡ []) },
    ghost few: { seat < 256 },
}

/// The result of one look at the lock.
pub enum Look<'a, B: Chronicle> {
    /// The ticket's number is served: its seat holds the book.
    Entered(Guard<'a, B>),
    /// Another number is served: the ticket waits on.
    NotYet(Ticket<B>),
}

impl<B: Chronicle> Ticket<B> {
    ghost use Rattle.ticket_lock.specs.Tokens.{ticket_number};

    /// Returns the number that was taken. Numbers go up by one with each take, and begin again at 0 after 18446744073709551615. At most 64 are out at
    /// one time, and no two of those are the same.
    pub fn number(&self) -> u64
        ensures { result ≡ ticket_number self.now }
    {
        self.number
    }
}
