//! A book that is full refuses all calls except questions that need no line, and continues after it is drained.
ghost use Rattle.std.specs.Prelude.{◌≡◌, ◌≤◌, length};
ghost use Rattle.hull_plain.specs.Sets.{plain_set};
ghost use Rattle.hull_book.specs.Answers.{HasSpace};
ghost use Rattle.hull_book.specs.Books.{IsLawful};
ghost use Rattle.hull_book.specs.Ledgers.{AreLedgers};
ghost use Rattle.hull_book.specs.LongBooks.{whole};

use hull_book::{
    AfterCall, Book, Call, Journal, Ledger, LongAnswer, LongBook, Reply, Space, gather,
};
use hull_plain::PlainSet;
use lattice::Point;
use std::alloc::Global;
use std::process::Abort;
use std::test::Fail;

// Opens a book of one seat that has at most this many lines, and the seat's ledger.
fn opened(rt: &impl Abort, alloc: Global, capacity: u32) -> (LongBook<PlainSet>, Vec<Ledger>)
    ensures lawful { IsLawful plain_set (whole result.0) }
    ensures ledgers { AreLedgers (whole result.0) result.1.items }
    ensures one { length result.1.items ≡ 1 }
    ensures capacity { result.0.head.journal.capacity ≡ capacity }
{
    let Ok((book, ledgers)) = Book::open(alloc, PlainSet::new(alloc, 9), 7, capacity, 1) else {
        panic!(rt; "there is memory for the book")
    };
    match LongBook::new(book) {
        Ok(book) => (book, ledgers),
        Err(_) => panic!(rt; "there is memory for the spare line"),
    }
}

// Serves a call of the only seat.
fn serve(
    book: &mut LongBook<PlainSet>,
    ledgers: &mut Vec<Ledger>,
    call: Call,
    then: AfterCall,
) -> LongAnswer
    requires lawful { IsLawful plain_set (whole book.old) }
    requires space { HasSpace then book.old.head.journal.capacity }
    requires ledgers { AreLedgers (whole book.old) ledgers.old.items }
    requires one { length ledgers.old.items ≡ 1 }
    ensures lawful { IsLawful plain_set (whole book.new) }
    ensures ledgers { AreLedgers (whole book.new) ledgers.new.items }
    ensures one { length ledgers.new.items ≡ 1 }
    ensures capacity { book.new.head.journal.capacity ≡ book.old.head.journal.capacity }
{
    book.serve(0, call, &mut ledgers[0], then)
}

// Asks for the number of points, with no line.
fn count_unwritten(book: &mut LongBook<PlainSet>, ledgers: &Vec<Ledger>) -> Reply
    requires lawful { IsLawful plain_set (whole book.old) }
    requires ledgers { AreLedgers (whole book.old) ledgers.now.items }
    ensures lawful { IsLawful plain_set (whole book.new) }
    ensures ledgers { AreLedgers (whole book.new) ledgers.now.items }
    ensures capacity { book.new.head.journal.capacity ≡ book.old.head.journal.capacity }
{
    let _ = ledgers.len();
    book.answer(Call::Count)
}

// The sum of the ledgers.
fn sum_of(book: &LongBook<PlainSet>, ledgers: Vec<Ledger>) -> u64
    requires lawful { IsLawful plain_set (whole book.now) }
    requires ledgers { AreLedgers (whole book.now) ledgers.items }
{
    gather(book, ledgers)
}

// Returns how many lines the book has, the number of the next one, and the turn.
fn marks_of(book: &LongBook<PlainSet>) -> (u32, u64, u64) {
    (book.held(), book.line_number(), book.turn())
}

// Returns the segment that was taken out and the reply, which is the number of points.
fn drained_of(rt: &impl Abort, drained: LongAnswer) -> (Reply, Journal) {
    let Ok((reply, segment)) = drained else {
        panic!(rt; "a line is spare for a drain")
    };
    match segment {
        Some(segment) => (reply, segment),
        None => panic!(rt; "lines are taken out"),
    }
}

#[test]
fn a_full_book_goes_on(rt: HostRuntime) -> Result<(), Fail> {
    let alloc = rt.alloc();
    let p = Point::new(3, 4)?;
    let space = Space::reserve(alloc, 2)?;
    let (mut book, mut ledgers) = opened(&rt, alloc, 2);
    let added = serve(&mut book, &mut ledgers, Call::Add(p), AfterCall::Keep);
    let again = serve(&mut book, &mut ledgers, Call::Add(p), AfterCall::Keep);
    let refused = serve(&mut book, &mut ledgers, Call::Count, AfterCall::Keep);
    let asked = count_unwritten(&mut book, &ledgers);
    let before = marks_of(&book);
    let drained = serve(
        &mut book,
        &mut ledgers,
        Call::Count,
        AfterCall::Drain(space),
    );
    let left = serve(&mut book, &mut ledgers, Call::Remove(p), AfterCall::Keep);
    let after = marks_of(&book);
    let sum = sum_of(&book, ledgers);
    drop(book);
    assert!(rt; matches!(added, Ok((Reply::Added, None))));
    assert!(rt; matches!(again, Ok((Reply::Again(2), None))));
    assert!(rt; matches!(refused, Err(AfterCall::Keep)) && asked == Reply::PointCount(1));
    assert!(rt; matches!(left, Ok((Reply::Left(1), None))));
    assert_eq!(rt; (before, after, sum), ((2, 9, 11), (1, 11, 13), 4));
    let (counted, segment) = drained_of(&rt, drained);
    assert!(rt; counted == Reply::PointCount(1));
    assert_eq!(rt;
        (segment.first(), segment.capacity(), segment.lines().len()),
        (7, 3, 3)
    );
    Ok(())
}
