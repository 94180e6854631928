//! Waiting for the book: a seat near its turn spins for a while, then sleeps.
ghost use Rattle.std.specs.Prelude.{◌≡◌};
ghost use Rattle.ticket_lock.specs.Tokens.{opening_book, IsSeatOf, seat_number, seat_seen, guard_lock, guard_seat};
ghost use Rattle.ticket_lock.specs.Tokens.{guard_number, guard_seen, guard_book, KeepsHead, Finds};

use crate::chronicle::Chronicle;
use crate::guard::Guard;
use crate::lock::TicketLock;
use crate::seat::Seat;
use crate::sleepers::NEAR;
use crate::ticket::Look;
use crossbeam_utils::Backoff;
use std::sync::Wait;

impl<B: Chronicle> TicketLock<B> {
    /// Takes a number and waits until it is served. Near its turn the seat pauses between two looks, for longer each time, and after some time it
    /// sleeps; far from its turn it sleeps at once. The seat that hands its number on wakes it.
    ///
    /// It never yields the processor: on a busy machine a yield costs milliseconds, but a thread that is woken runs soon.
    pub fn enter<R: Wait>(&self, rt: &R, seat: Seat<B>) -> Guard<'_, B>
        requires own { IsSeatOf B.head self.now seat }
        ensures entered { (guard_lock result ≡ self.now) × (guard_seat result ≡ seat_number seat)
            × KeepsHead B.head result }
        ensures finds { Finds B.Chronicle (B.head (opening_book self.now)) (seat_number seat) (seat_seen seat)
            (guard_number result) (guard_book result) }
        ensures seen { guard_seen result ≡ B.lines (guard_book result) }
    {
        let backoff = Backoff::new();
        let mut looks = 0;
        let mut ticket = self.take(seat);
        for _ in rt.forever() {
            match self.look(ticket) {
                Look::Entered(guard) => return guard,
                Look::NotYet(same) => ticket = same,
            }
            if looks < self.sleepers.patience() && self.is_near(ticket.number) {
                backoff.spin();
                looks += 1;
            } else {
                self.sleep(rt, ticket.number);
            }
        }
        unreachable!()
    }

    // Whether a waiting number is at most NEAR numbers from its turn. The grant word of the number NEAR before it shows this: from the hand-over of
    // that number until the seat has entered, the word contains that number; before, a smaller one or the first.
    fn is_near(&self, number: u64) -> bool {
        let before = number.wrapping_sub(NEAR);
        let found = self.board.shared.peek((before % 8) as usize + 8);
        number.wrapping_sub(found) <= NEAR
    }

    // Sleeps until the number is served. The seat announces itself and then looks again: a hand-over that this look does not see is stored after the
    // announcement, so it finds the announcement and wakes the seat.
    fn sleep<R: Wait>(&self, rt: &R, number: u64) {
        let announced = self.sleepers.announce(number);
        if self.board.shared.peek((number % 8) as usize + 8) != number {
            announced.wait(rt);
        }
    }
}
