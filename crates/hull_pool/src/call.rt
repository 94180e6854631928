//! One call of a seat: it enters the lock, serves the call, and hands the book on.
ghost use Rattle.std.specs.Prelude.{box_value};
ghost use Rattle.ticket_lock.specs.Tokens.{guard_book, guard_lock, guard_number, guard_seen, opening_book, seat_seen};
ghost use Rattle.hull_book.specs.Kinds.{kind_of};
ghost use Rattle.hull_book.specs.Served.{AddsLine};
ghost use Rattle.hull_pool.specs.Handing.{Found, HasCome, HoldsBook, MayCall};

use hull_book::{Book, JournaledBook, Ledger, LongBook};
use hull_set::Call;
use std::sync::Wait;
use ticket_lock::{Guard, Seat, TicketLock};

/// The lock round a book on the heap, which is cheap to hand on.
pub type BookLock<S> = TicketLock<Box<Book<S>>>;

/// A seat of that lock.
pub type BookSeat<S> = Seat<Box<Book<S>>>;

/// A seat that holds the book of that lock.
pub type BookGuard<'a, S> = Guard<'a, Box<Book<S>>>;

/// The lock around a book on the heap that may be drained.
pub type LongLock<S> = TicketLock<Box<LongBook<S>>>;

/// A seat of that lock.
pub type LongSeat<S> = Seat<Box<LongBook<S>>>;

/// A seat that holds the book of that lock.
pub type LongGuard<'a, S> = Guard<'a, Box<LongBook<S>>>;

/// Serves one call for the seat that holds the book, and hands the book on. The book must be as the seat found it; a caller that waited for the lock
/// and one that looked once both end with this function. `number` is the seat's number, and `ledger` the ledger of that seat; `then` says what
/// becomes of the book's lines after the call.
///
/// The result is what the book's `served` states of the lines found and of those handed on, which the returned seat has seen. For a [`Book`] it is
/// the reply, which is allowed at the set that the seat found and has its line after the lines found, with the number that was served; or that the
/// journal is full. For a [`LongBook`] it is the reply and the segment that was taken out, which contains the lines of the journal that were not
/// taken out before, the call's own as the last of them; or that there was no space: if the lines do not stay, there is a spare line for the call's
/// own, however many the book has. In this case journal and capacity are those of the whole journal, including the lines that were taken out. The
/// journal handed on is legal.
pub fn serve_and_hand_on<B: JournaledBook>(
    guard: Guard<'_, Box<B>>,
    number: u8,
    call: Call,
    ledger: &mut Ledger,
    then: B::AfterCall,
) -> (Seat<Box<B>>, B::Answer)
    requires may { HoldsBook (kind_of B.Chronicle B.whole B.plain) guard number ledger.old }
    requires space { B.space (B.head (box_value (guard_book guard))) then }
    ensures back { HasCome (kind_of B.Chronicle B.whole B.plain) (guard_lock guard.entry) number (guard_seen guard.entry)
        result.0 ledger.new }
    ensures served { let found = box_value (guard_book guard.entry) in
        B.served (B.head found) then (guard_number guard.entry) number call (B.lines found) (seat_seen result.0) result.1 }
    ensures line { AddsLine number call (B.plain (B.lines (box_value (guard_book guard.entry)))) (B.plain (seat_seen result.0))
        (B.line_reply result.1) }
{
    let mut guard = guard;
    let book: &mut B = guard.book();
    let answer = book.serve(number, call, ledger, then);
    let seat = guard.hand_on();
    (seat, answer)
}

/// Makes one call: waits until the seat holds the book, serves the call, and hands the book on. `number` is the seat's number, and `ledger` the
/// ledger of that seat; `then` says what becomes of the book's lines after the call: the lines of a book that may be drained stay, are discarded for
/// callers that want no journal, or are taken out into storage for the maximal number of lines.
///
/// The result is that of [`serve_and_hand_on`], at lines that begin with those that the seat had seen before and have no other line in its name: the
/// reply, whose line is in the journal, in this seat's name, and with it the segment that was taken out; or that there was no space for the line,
/// which leaves the journal unchanged. The returned seat has seen the whole journal as it handed it on, which is a legal history and begins with the
/// lines that it had seen before.
pub fn make_call<R: Wait, B: JournaledBook>(
    rt: &R,
    lock: &TicketLock<Box<B>>,
    seat: Seat<Box<B>>,
    number: u8,
    call: Call,
    ledger: &mut Ledger,
    then: B::AfterCall,
) -> (Seat<Box<B>>, B::Answer)
    requires may { MayCall (kind_of B.Chronicle B.whole B.plain) lock.now number seat ledger.old }
    requires space { B.space (B.head (box_value (opening_book lock.now))) then }
    ensures back { HasCome (kind_of B.Chronicle B.whole B.plain) lock.now number (seat_seen seat) result.0 ledger.new }
    ensures served { Found B.plain number (seat_seen seat) (λ t found.
        B.served (B.head (box_value (opening_book lock.now))) then t number call found (seat_seen result.0) result.1) }
    ensures line { Found B.plain number (seat_seen seat) (λ t found.
        AddsLine number call (B.plain found) (B.plain (seat_seen result.0)) (B.line_reply result.1)) }
{
    let guard = lock.enter(rt, seat);
    serve_and_hand_on(guard, number, call, ledger, then)
}
