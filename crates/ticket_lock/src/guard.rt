//! A guard: a seat that holds the book.
ghost use Rattle.std.specs.Prelude.{◌≡◌, ◌<◌, [], ◌∷◌, None};
ghost use Rattle.ticket_lock.specs.Standing.{stage_of, seat_of, number_of};

use crate::chronicle::Chronicle;
use crate::lock::TicketLock;
use crate::plays;
use crate::rule::Place;
use crate::seat::Seat;

/// A seat that holds the book. It can't be dropped: `hand_on` consumes it.
pub struct Guard<'a, B: Chronicle> {
    pub(crate) lock: &'a TicketLock<B>,
    pub(crate) place: Place<B>,
    pub(crate) seat: u64,
    pub(crate) number: u64,
    pub(crate) book: B,
    ghost own: { place.table_id ≡ lock.now.board.shared.table_id },
    ghost holding: { (stage_of place.me.0 ≡ 3) × (seat_of place.me.0 ≡ seat) × (number_of place.me.0 ≡ number)
        × (place.me.1 ≡ (0, None) ∷ []) },
    ghost few: { seat < 256 },
}

impl<'a, B: Chronicle> Guard<'a, B> {
    ghost use Rattle.ticket_lock.specs.World.{memo, HandsOn};
    ghost use Rattle.ticket_lock.specs.Tokens.{guard_lock, guard_seat, guard_number, guard_seen, guard_book};
    ghost use Rattle.ticket_lock.specs.Tokens.{opening_book, KeepsHead, IsSeatOf, seat_number, seat_seen};

    /// Hands the book on: the next number is served, and the seat that waits for it is woken if it sleeps. The seat that is returned has seen the
    /// lines handed on.
    ///
    /// It requires that the book is lawful, that its head is the one at opening, that its turn is one more than the number served, and that its lines
    /// are those at entry and one line of this seat with this number, or only those at entry if they filled the capacity.
    pub fn hand_on(self) -> Seat<B>
        requires head { KeepsHead B.head self }
        requires hands { HandsOn B.Chronicle
            (memo (guard_seat self) (B.head (opening_book (guard_lock self))) (guard_seen self)) (guard_number self)
            (guard_book self) }
        ensures own { IsSeatOf B.head (guard_lock self.entry) result }
        ensures seat { seat_number result ≡ guard_seat self.entry }
        ensures seen { seat_seen result ≡ B.lines (guard_book self.entry) }
    {
        let lock = self.lock;
        let next = self.number.wrapping_add(1);
        let seat = self.hand_on_awake();
        lock.sleepers.wake(next);
        seat
    }

    /// Does the same for a lock whose seats all look for themselves: it wakes no seat. A seat that sleeps in `TicketLock::enter` would sleep on, so
    /// use it only if callers only `take` and `look`, as in a library that may not wake threads.
    #[inline]
    pub fn hand_on_awake(self) -> Seat<B>
        requires head { KeepsHead B.head self }
        requires hands { HandsOn B.Chronicle
            (memo (guard_seat self) (B.head (opening_book (guard_lock self))) (guard_seen self)) (guard_number self)
            (guard_book self) }
        ensures own { IsSeatOf B.head (guard_lock self.entry) result }
        ensures seat { seat_number result ≡ guard_seat self.entry }
        ensures seen { seat_seen result ≡ B.lines (guard_book self.entry) }
    {
        let Guard {
            lock,
            mut place,
            seat,
            number,
            book,
        } = self;
        let shared = &lock.board.shared;
        let left = shared.exchange(&mut place, 0, Some(book));
        let None = left else { unreachable!() };
        let next = number.wrapping_add(1);
        shared.store::<plays::HandOn>(&mut place, (next % 8) as usize + 8, next);
        Seat {
            place,
            number: seat as u8,
        }
    }
}
