//! Books that continue a journal, and the seats and workers that they need.
ghost use Rattle.std.specs.Prelude.{◌≡◌, ◌≤◌, ◌<◌, IfOk};
ghost use Rattle.std.specs.List.{All};
ghost use Rattle.hull_plain.specs.Sets.{plain_set};
ghost use Rattle.hull_book.specs.Books.{IsGoneOnFrom, IsLawful};
ghost use Rattle.hull_book.specs.Ledgers.{AreLedgers};

use hull_book::{
    Book, BookFault, CAPACITY_LIMIT, Call, CheckResult, Journal, JournalFull, Ledger, Line,
    ReplayFault, Reply, check, gather, replay,
};
use hull_plain::PlainSet;
use hull_set::{HullSet, Rules};
use lattice::Point;
use std::alloc::Global;
use std::process::Abort;
use std::test::Fail;

// The journal of these lines, the first of which has the greatest number.
fn journal_of<const N: usize>(alloc: Global, lines: [Line; N]) -> Result<Journal, Fail> {
    let lines = Vec::from_array(alloc, lines)?;
    Ok(Journal::new(u64::MAX, 4, 4, lines, Rules::Counted).ok_or("a limit")?)
}

// Returns a journal of three lines by seats 0 and 2, whose numbers wrap past the greatest.
fn journal(alloc: Global) -> Result<Journal, Fail> {
    let p = Point::new(5, 5)?;
    let lines = [
        Line::new(18446744073709551615, 2, Call::Add(p), Reply::Added),
        Line::new(0, 0, Call::Add(p), Reply::Again(2)),
        Line::new(1, 2, Call::Count, Reply::PointCount(1)),
    ];
    journal_of(alloc, lines)
}

// Returns a plain set with the points that a journal left, and the journal, by three workers.
fn replayed(alloc: Global, journal: Journal) -> Result<(PlainSet, Journal), Fail>
    ensures { IfOk result (λ x. IsGoneOnFrom plain_set x.0 3 x.1) }
{
    if journal.rules() != Rules::Counted || journal.seats() > 3 {
        return Err(Fail::new("another journal"));
    }
    let set = PlainSet::new(alloc, journal.limit());
    match replay(set, journal.head(), journal.lines()) {
        Ok(set) => Ok((set, journal)),
        Err(ReplayFault::Wrong(_)) => Err(Fail::new("it is legal")),
        Err(ReplayFault::NoMemory) => Err(Fail::new("memory was refused")),
    }
}

// Serves a call of a seat.
fn serve_at(
    book: &mut Book<PlainSet>,
    ledgers: &mut Vec<Ledger>,
    seat: u8,
    call: Call,
) -> Result<Reply, JournalFull>
    requires lawful { IsLawful plain_set book.old }
    requires ledgers { AreLedgers book.old ledgers.old.items }
    requires seat { seat < book.old.head.workers }
    ensures lawful { IsLawful plain_set book.new }
    ensures ledgers { AreLedgers book.new ledgers.new.items }
    ensures workers { book.new.head.workers ≡ book.old.head.workers }
{
    book.serve(seat, call, &mut ledgers[usize::from(seat)])
}

/// The lines of the journal are before the new ones, which have the next numbers, and the ledgers count both.
#[test]
fn a_book_goes_on_where_its_journal_ends(rt: HostRuntime) -> Result<(), Fail> {
    let p = Point::new(5, 5)?;
    let (set, journal) = replayed(rt.alloc(), journal(rt.alloc())?)?;
    let Ok((mut book, mut ledgers)) = Book::reopen(rt.alloc(), set, journal, 5, 3) else {
        return Err(Fail::new("memory was refused"));
    };
    assert_eq!(rt; (book.first(), book.limit()), (18446744073709551615, 4));
    assert_eq!(rt; (book.capacity(), book.workers(), book.turn()), (5, 3, 2));
    assert_eq!(rt; book.set().count(), 1);
    assert_eq!(rt; ledgers.len(), 3);
    assert_eq!(rt;
        (ledgers[0].count(), ledgers[1].count(), ledgers[2].count()),
        (1, 0, 2)
    );
    let left = serve_at(&mut book, &mut ledgers, 1, Call::Remove(p));
    assert!(rt; left == Ok(Reply::Left(1)));
    let counted = serve_at(&mut book, &mut ledgers, 0, Call::Count);
    assert!(rt; counted == Ok(Reply::PointCount(1)));
    let full = serve_at(&mut book, &mut ledgers, 0, Call::Count);
    assert!(rt; full == Err(JournalFull));
    assert_eq!(rt; gather(&book, ledgers), 5);
    let journal = book.into_journal();
    assert_eq!(rt; journal.lines().len(), 5);
    let last = &journal.lines()[4];
    assert_eq!(rt; (last.number, last.seat), (3, 0));
    assert_eq!(rt; check(rt.alloc(), &journal), CheckResult::Legal);
    Ok(())
}

// Returns how a book of this capacity is refused, the number of points of its set then, and the lines and the capacity of its journal.
fn refusal(
    rt: &impl Abort,
    alloc: Global,
    capacity: u32,
) -> Result<(BookFault, u32, usize, u32), Fail> {
    let (set, journal) = replayed(alloc, journal(alloc)?)?;
    match Book::reopen(alloc, set, journal, capacity, 3) {
        Ok(_) => panic!(rt; "a capacity of {capacity} is refused"),
        Err((fault, set, journal)) => Ok((
            fault,
            set.count(),
            journal.lines().len(),
            journal.capacity(),
        )),
    }
}

/// Set and journal are returned if the capacity is refused.
#[test]
fn a_capacity_that_is_not_enough_is_refused(rt: HostRuntime) -> Result<(), Fail> {
    for capacity in [0, 2, CAPACITY_LIMIT + 1] {
        let refused = refusal(&rt, rt.alloc(), capacity)?;
        assert!(rt; refused == (BookFault::Capacity, 1, 3, 4), "{capacity}");
    }
    Ok(())
}

#[test]
fn seats_are_one_more_than_the_greatest(rt: HostRuntime) -> Result<(), Fail> {
    assert_eq!(rt; journal(rt.alloc())?.seats(), 3);
    let none = Journal::new(0, 1, 1, Vec::new(rt.alloc()), Rules::Counted).ok_or("a limit")?;
    assert_eq!(rt; none.seats(), 0);
    let mut lines = Vec::new(rt.alloc());
    lines.push(Line::new(0, 63, Call::Count, Reply::PointCount(0)))?;
    let last = Journal::new(0, 1, 1, lines, Rules::Counted).ok_or("a limit")?;
    assert_eq!(rt; last.seats(), 64);
    Ok(())
}
