//! A lock is opened around a book.
ghost use Rattle.std.specs.Prelude.{◌≡◌};
ghost use Rattle.hull_set.specs.Held.{nothing_held};

use crate::findings::Findings;
use crate::stage::Stage;
use hull_book::{Book, gather};
use hull_set::HullSet;
use std::alloc::Global;
use ticket_lock::{OpenFault, TicketLock};

/// Opens a lock with three seats around a book, and closes it. If memory is refused, the book is returned, and the next attempt opens the lock.
pub fn try_lock<S: HullSet + Drop>(alloc: Global, set: S) -> Result<Stage, &'static str>
    requires empty { S.held set ≡ nothing_held }
{
    let mut findings = Findings::new();
    let Ok((book, ledgers)) = Book::open(alloc, set, 7, 4, 3) else {
        return Ok(Stage::SetUp);
    };
    findings.expect(gather(&book, ledgers) == 0, "no line was served");
    let (stage, opened) = match TicketLock::open(alloc, book, 3) {
        Ok(opened) => (Stage::Whole, Ok(opened)),
        Err((fault, book)) => {
            findings.expect(fault == OpenFault::NoMemory, "the fault is want of memory");
            let seen = (book.turn(), book.first(), book.set().count());
            findings.expect(seen == (7, 7, 0), "the book comes back");
            (Stage::Refused, TicketLock::open(alloc, book, 3))
        }
    };
    let book = match opened {
        Ok((lock, seats)) => lock.close(seats),
        Err((_, book)) => {
            findings.expect(false, "the next attempt has its memory");
            book
        }
    };
    let seen = (book.turn(), book.lines().len(), book.workers());
    findings.expect(seen == (7, 0, 3), "the book is as it was");
    drop(book);
    findings.returned(stage)
}
