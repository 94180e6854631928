//! What a seat does when its number is served.
ghost use Rattle.hull_pool.specs.Handing.{HasCome, HoldsBook};
ghost use Rattle.ticket_lock.specs.Tokens.{guard_book, guard_lock, guard_number, guard_seen, seat_seen};
ghost use Rattle.hull_shared.specs.Locks.{boxed_head, shared_hull, lines_at};
ghost use Rattle.hull_shared.specs.SharedHullBooks.{Serves};
ghost use Rattle.hull_shared.specs.declared.book.SharedHullHead.{SharedHullHead};

use crate::answer::StateAfter;
use crate::lock::{SharedHullGuard, SharedHullSeat};
use hull_book::Ledger;
use hull_set::Call;

/// A way to serve the call of the seat that holds the book.
pub(crate) trait Service {
    /// The answer to the call.
    type Answer;

    // whether it can serve a call on a shared hull with this head
    ghost fits: { Self → SharedHullHead → Type 0 };

    // the result of a call, at the whole journal found
    ghost served: { Self → Serves Self.Answer };

    /// Serves one call of the seat that holds the book, and hands the book on. Returns the seat, the answer, and what
    /// follows the call. All seats of a shared hull look by themselves, and a library may wake no thread, so it wakes
    /// none.
    fn serve_and_hand_on(
        self,
        guard: SharedHullGuard<'_>,
        number: u8,
        call: Call,
        ledger: &mut Ledger,
    ) -> (SharedHullSeat, Self::Answer, StateAfter)
        requires may { HoldsBook shared_hull guard number ledger.old }
        requires fits { fits self (boxed_head (guard_book guard)) }
        ensures back { HasCome shared_hull (guard_lock guard.entry) number (guard_seen guard.entry) result.0 ledger.new }
        ensures served { let found = guard_book guard.entry in
            served self (boxed_head found) (guard_number guard.entry) number call (lines_at found) (seat_seen result.0)
            result.1 result.2 };
}
