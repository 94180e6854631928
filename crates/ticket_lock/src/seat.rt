//! A seat: the right to take a number.
ghost use Rattle.std.specs.Prelude.{◌≡◌};
ghost use Rattle.ticket_lock.specs.Tokens.{seat_number};

use crate::chronicle::Chronicle;
use crate::rule::Place;

/// A seat of one lock, with no number. Only `TicketLock::open` makes seats. A seat can't be dropped: `TicketLock::close` takes it back.
pub struct Seat<B: Chronicle> {
    pub(crate) place: Place<B>,
    pub(crate) number: u8,
}

impl<B: Chronicle> Seat<B> {
    /// Returns which seat of its lock it is, counted from 0.
    pub fn number(&self) -> u8
        ensures { result ≡ seat_number self.now }
    {
        self.number
    }
}
