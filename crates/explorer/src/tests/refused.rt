//! Locks that are refused: the book is returned unchanged.
ghost use Rattle.std.specs.Prelude.{◌≡◌, ◌<◌, ◌⊎◌};

use hull_book::{Book, gather};
use hull_tree::HullTree;
use std::alloc::Global;
use std::process::Abort;
use std::test::Fail;
use ticket_lock::{OpenFault, TicketLock};

// No lock has this many seats, and the book that is returned is the one that was passed.
fn is_refused(rt: &impl Abort, alloc: Global, seats: u8) {
    let Ok((book, ledgers)) = Book::open(alloc, HullTree::new(alloc, 16), 9, 3, 2) else {
        panic!(rt; "there is memory for the book")
    };
    let Ok(book) = Box::new(alloc, book) else {
        panic!(rt; "there is memory for the book")
    };
    match TicketLock::open(alloc, book, seats) {
        Ok(_made) => panic!(rt; "{seats} seats are refused"),
        Err((fault, book)) => {
            assert_eq!(rt; fault, OpenFault::SeatCount);
            let book = Box::into_inner(book);
            assert_eq!(rt;
                (book.turn(), book.capacity(), book.lines().len()),
                (9, 3, 0)
            );
            assert_eq!(rt; gather(&book, ledgers), 0);
        }
    }
}

/// A lock with no seats and one with 65 is refused for the number of its seats, and the book is returned: a hundred times.
#[test]
fn no_seats_and_sixty_five_are_refused(rt: HostRuntime) -> Result<(), Fail> {
    for _ in 0..100 {
        is_refused(&rt, rt.alloc(), 0);
        is_refused(&rt, rt.alloc(), 65);
    }
    Ok(())
}
