//! Books and journals with known values, and memory that is refused.
ghost use Rattle.std.specs.Prelude.{◌≡◌, ◌≤◌, ◌<◌};
ghost use Rattle.hull_set.specs.Held.{nothing_held};
ghost use Rattle.hull_plain.specs.Sets.{plain_set};
ghost use Rattle.hull_book.specs.Books.{IsLawful};
ghost use Rattle.hull_book.specs.Ledgers.{AreLedgers};

use hull_book::{
    Book, BookFault, CAPACITY_LIMIT, Call, CheckResult, Journal, JournalFull, Ledger, Line,
    PointList, Reply, check, gather,
};
use hull_plain::PlainSet;
use hull_set::{AddReply, HullSet, MULTIPLICITY_LIMIT, POINT_LIMIT, Place, Rules};
use lattice::{Direction, Point};
use std::alloc::Global;
use std::process::Abort;
use std::test::Fail;

fn at(x: i64, y: i64) -> Result<Point, Fail> {
    Ok(Point::new(x, y)?)
}

// Opens a book over an empty set. If memory is refused, the set is returned and is used for the second attempt.
fn opened(
    rt: &impl Abort,
    set: PlainSet,
    alloc: Global,
    first: u64,
    capacity: u32,
    workers: u8,
) -> (Book<PlainSet>, Vec<Ledger>)
    requires empty { ⟦<PlainSet as HullSet>⟧.held set ≡ nothing_held }
    requires workers { (1 ≤ workers) × (workers ≤ 64) }
    ensures lawful { IsLawful plain_set result.0 }
    ensures ledgers { AreLedgers result.0 result.1.items }
    ensures workers { result.0.head.workers ≡ workers }
{
    let (fault, set) = match Book::open(alloc, set, first, capacity, workers) {
        Ok(made) => return made,
        Err(refused) => refused,
    };
    assert_eq!(rt; fault, BookFault::NoMemory);
    assert_eq!(rt; set.count(), 0);
    match Book::open(alloc, set, first, capacity, workers) {
        Ok(made) => made,
        Err(_) => panic!(rt; "memory is refused once"),
    }
}

// A call of a seat.
fn serve_at(
    book: &mut Book<PlainSet>,
    ledgers: &mut Vec<Ledger>,
    seat: u8,
    call: Call,
) -> Result<Reply, JournalFull>
    requires lawful { IsLawful plain_set book.old }
    requires ledgers { AreLedgers book.old ledgers.old.items }
    requires seat { seat < book.old.head.workers }
    ensures lawful { IsLawful plain_set book.new }
    ensures ledgers { AreLedgers book.new ledgers.new.items }
    ensures workers { book.new.head.workers ≡ book.old.head.workers }
{
    book.serve(seat, call, &mut ledgers[usize::from(seat)])
}

#[test]
fn capacity_two_by_values(rt: HostRuntime) -> Result<(), Fail> {
    let p = at(0, 0)?;
    let set = PlainSet::new(rt.alloc(), 4);
    let (mut book, mut ledgers) = opened(&rt, set, rt.alloc(), 7, 2, 2);
    let added = serve_at(&mut book, &mut ledgers, 1, Call::Add(p));
    assert!(rt; added == Ok(Reply::Added));
    let removed = serve_at(&mut book, &mut ledgers, 0, Call::Remove(p));
    assert!(rt; removed == Ok(Reply::Removed));
    let refused = serve_at(&mut book, &mut ledgers, 1, Call::Count);
    assert!(rt; refused == Err(JournalFull));
    assert_eq!(rt; book.turn(), 10);
    assert_eq!(rt; ledgers.len(), 2);
    assert!(rt; ledgers[0].count() == 1 && ledgers[1].count() == 1);
    assert!(rt; ledgers[0].seat() == 0 && ledgers[1].seat() == 1);
    assert_eq!(rt; gather(&book, ledgers), 2);
    let journal = book.into_journal();
    let lines = journal.lines();
    assert_eq!(rt; lines.len(), 2);
    assert!(rt; lines[0].number == 7 && lines[0].seat == 1);
    assert!(rt; lines[1].number == 8 && lines[1].seat == 0);
    assert_eq!(rt; journal.rules(), Rules::Counted);
    assert_eq!(rt; check(rt.alloc(), &journal), CheckResult::Legal);
    Ok(())
}

#[test]
fn capacity_out_of_range(rt: HostRuntime) -> Result<(), Fail> {
    for capacity in [0, CAPACITY_LIMIT + 1] {
        let set = PlainSet::new(rt.alloc(), 4);
        let (fault, mut set) = match Book::open(rt.alloc(), set, 0, capacity, 1) {
            Ok(_) => panic!(rt; "{capacity} lines are refused"),
            Err(refused) => refused,
        };
        assert_eq!(rt; fault, BookFault::Capacity);
        assert_eq!(rt; set.count(), 0);
        assert_eq!(rt; set.add(at(1, 2)?), AddReply::Added);
    }
    Ok(())
}

// A book of this many lines for this many workers is opened if there is memory.
#[test]
fn opens_for_all_seats(rt: HostRuntime) -> Result<(), Fail> {
    for (capacity, workers) in [(1, 64), (65536, 1)] {
        let set = PlainSet::new(rt.alloc(), 4);
        let (book, ledgers) = opened(&rt, set, rt.alloc(), 0, capacity, workers);
        let encoded = (book.capacity(), book.workers(), ledgers.len());
        let count = gather(&book, ledgers);
        drop(book);
        let expected = (capacity, workers, usize::from(workers));
        assert!(rt; encoded == expected && count == 0);
    }
    Ok(())
}

// Returns the journal of these lines with the first number 0, under the rules.
fn journal_of<const N: usize>(
    alloc: Global,
    limit: u32,
    capacity: u32,
    lines: [Line; N],
    rules: Rules,
) -> Result<Journal, Fail> {
    let lines = Vec::from_array(alloc, lines)?;
    Ok(Journal::new(0, limit, capacity, lines, rules).ok_or("beyond a limit")?)
}

#[test]
fn stored_refusal(rt: HostRuntime) -> Result<(), Fail> {
    let add = Call::Add(at(0, 0)?);
    for (last, expected) in [
        (Reply::NoMemory, CheckResult::Illegal(2)),
        (Reply::Already, CheckResult::Legal),
    ] {
        let lines = [
            Line::new(0, 0, add, Reply::NoMemory),
            Line::new(1, 0, add, Reply::Added),
            Line::new(2, 0, add, last),
        ];
        let journal = journal_of(rt.alloc(), 1, 4, lines, Rules::Set)?;
        assert_eq!(rt; check(rt.alloc(), &journal), expected);
    }
    Ok(())
}

// A journal of a set is judged by the rules of a set: a point that was added twice is not in the set after it was removed once.
#[test]
fn each_journal_by_its_own_rules(rt: HostRuntime) -> Result<(), Fail> {
    let p = at(5, 5)?;
    for (rules, second, third, count, expected) in [
        (
            Rules::Set,
            Reply::Already,
            Reply::Removed,
            0,
            CheckResult::Legal,
        ),
        (
            Rules::Set,
            Reply::Already,
            Reply::Removed,
            1,
            CheckResult::Illegal(3),
        ),
        (
            Rules::Counted,
            Reply::Again(2),
            Reply::Left(1),
            1,
            CheckResult::Legal,
        ),
        (
            Rules::Counted,
            Reply::Again(2),
            Reply::Left(1),
            0,
            CheckResult::Illegal(3),
        ),
    ] {
        let lines = [
            Line::new(0, 0, Call::Add(p), Reply::Added),
            Line::new(1, 0, Call::Add(p), second),
            Line::new(2, 0, Call::Remove(p), third),
            Line::new(3, 0, Call::Count, Reply::PointCount(count)),
        ];
        let journal = journal_of(rt.alloc(), 1, 4, lines, rules)?;
        assert_eq!(rt; check(rt.alloc(), &journal), expected);
    }
    Ok(())
}

#[test]
fn a_wrong_multiplicity(rt: HostRuntime) -> Result<(), Fail> {
    let p = at(5, 5)?;
    for (second, third, expected) in [
        (Reply::Again(3), Reply::Left(1), CheckResult::Illegal(1)),
        (Reply::Added, Reply::Left(1), CheckResult::Illegal(1)),
        (Reply::TooMany, Reply::Left(1), CheckResult::Illegal(1)),
        (Reply::NoMemory, Reply::Left(1), CheckResult::Illegal(1)),
        (Reply::Again(2), Reply::Left(2), CheckResult::Illegal(2)),
        (Reply::Again(2), Reply::Removed, CheckResult::Illegal(2)),
        (Reply::Again(2), Reply::Absent, CheckResult::Illegal(2)),
        (Reply::Again(2), Reply::Left(1), CheckResult::Legal),
    ] {
        let lines = [
            Line::new(0, 0, Call::Add(p), Reply::Added),
            Line::new(1, 0, Call::Add(p), second),
            Line::new(2, 0, Call::Remove(p), third),
        ];
        let journal = journal_of(rt.alloc(), 1, 4, lines, Rules::Counted)?;
        assert_eq!(rt; check(rt.alloc(), &journal), expected);
    }
    Ok(())
}

// A journal accepts only replies of its rules, with numbers that a multiplicity may be.
#[test]
fn replies_of_the_rules(rt: HostRuntime) -> Result<(), Fail> {
    let add = Call::Add(at(1, 2)?);
    for (rules, reply, expected) in [
        (Rules::Set, Reply::Added, true),
        (Rules::Set, Reply::Already, true),
        (Rules::Set, Reply::Again(2), false),
        (Rules::Set, Reply::Left(1), false),
        (Rules::Counted, Reply::Added, true),
        (Rules::Counted, Reply::Already, false),
        (Rules::Counted, Reply::Again(MULTIPLICITY_LIMIT), true),
        (Rules::Counted, Reply::Again(MULTIPLICITY_LIMIT + 1), false),
        (Rules::Counted, Reply::Left(MULTIPLICITY_LIMIT), true),
        (Rules::Counted, Reply::Left(MULTIPLICITY_LIMIT + 1), false),
    ] {
        let lines = Vec::from_array(rt.alloc(), [Line::new(0, 0, add, reply)])?;
        let journal = Journal::new(0, 1, 1, lines, rules);
        assert_eq!(rt; journal.is_some(), expected);
    }
    Ok(())
}

#[test]
fn wrong_first_number(rt: HostRuntime) -> Result<(), Fail> {
    let lines = [Line::new(1, 0, Call::Count, Reply::PointCount(0))];
    let journal = journal_of(rt.alloc(), 1, 4, lines, Rules::Counted)?;
    assert_eq!(rt; check(rt.alloc(), &journal), CheckResult::Illegal(0));
    Ok(())
}

// Serves the calls of the lines by their seats; the reply of each is that of its line.
fn serve_lines(
    rt: &impl Abort,
    book: &mut Book<PlainSet>,
    ledgers: &mut Vec<Ledger>,
    lines: &[Line],
)
    requires lawful { IsLawful plain_set book.old }
    requires ledgers { AreLedgers book.old ledgers.old.items }
    ensures lawful { IsLawful plain_set book.new }
    ensures ledgers { AreLedgers book.new ledgers.new.items }
{
    for line in lines {
        assert!(rt; line.seat < book.workers());
        match serve_at(book, ledgers, line.seat, line.call) {
            Ok(given) => assert_eq!(rt; given, line.reply),
            Err(JournalFull) => panic!(rt; "the journal has room"),
        }
    }
}

// Returns the journal of a book with one seat that served the calls of the lines, and no other.
fn played(rt: &impl Abort, alloc: Global, first: u64, limit: u32, lines: &[Line]) -> Journal
    requires { (1 ≤ limit) × (limit ≤ 4) }
{
    let set = PlainSet::new(alloc, limit);
    let (mut book, mut ledgers) = opened(rt, set, alloc, first, 16, 1);
    serve_lines(rt, &mut book, &mut ledgers, lines);
    assert_eq!(rt; gather(&book, ledgers), lines.len() as u64);
    let journal = book.into_journal();
    assert_eq!(rt; journal.lines().len(), lines.len());
    for (kept, line) in journal.lines().iter().zip(lines) {
        assert_eq!(rt; (kept.number, kept.seat), (line.number, line.seat));
        assert_eq!(rt; kept.call, line.call);
        assert_eq!(rt; kept.reply, line.reply);
    }
    journal
}

#[test]
fn numbers_across_the_wrap(rt: HostRuntime) -> Result<(), Fail> {
    let p = at(5, 5)?;
    let lines = [
        Line::new(u64::MAX, 0, Call::Add(p), Reply::Added),
        Line::new(0, 0, Call::Count, Reply::PointCount(1)),
        Line::new(1, 0, Call::Remove(p), Reply::Removed),
    ];
    let journal = played(&rt, rt.alloc(), u64::MAX, 4, &lines);
    assert_eq!(rt; check(rt.alloc(), &journal), CheckResult::Legal);
    Ok(())
}

#[test]
fn journal_limits(rt: HostRuntime) -> Result<(), Fail> {
    for (limit, capacity, seat, expected) in [
        (1, 1, 0, true),
        (POINT_LIMIT, CAPACITY_LIMIT, 63, true),
        (0, 1, 0, false),
        (POINT_LIMIT + 1, 1, 0, false),
        (1, 0, 0, false),
        (1, CAPACITY_LIMIT + 1, 0, false),
        (1, 1, 64, false),
    ] {
        let lines = [Line::new(9, seat, Call::Count, Reply::PointCount(0))];
        let lines = Vec::from_array(rt.alloc(), lines)?;
        let journal = Journal::new(9, limit, capacity, lines, Rules::Counted);
        assert_eq!(rt; journal.is_some(), expected, "{limit} {capacity} {seat}");
    }
    Ok(())
}

// The vertices of a small square, one of them with multiplicity two for a while.
fn square_changes() -> Result<[(Call, Reply); 7], Fail> {
    let last = at(2, 0)?;
    Ok([
        (Call::Add(at(0, 0)?), Reply::Added),
        (Call::Add(at(2, 2)?), Reply::Added),
        (Call::Add(at(0, 2)?), Reply::Added),
        (Call::Remove(last), Reply::Absent),
        (Call::Add(last), Reply::Added),
        (Call::Add(last), Reply::Again(2)),
        (Call::Remove(last), Reply::Left(1)),
    ])
}

// Each of the questions about it.
fn square_questions(alloc: Global, count: u32) -> Result<[(Call, Reply); 7], Fail> {
    let (low, high) = (at(2, 0)?, at(2, 2)?);
    let vertices = [at(0, 0)?, low, high, at(0, 2)?];
    let vertices = PointList::new(Vec::from_array(alloc, vertices)?);
    let right = Direction::new(1, 0)?;
    let (middle, side, away) = (at(1, 1)?, at(2, 1)?, at(4, 1)?);
    Ok([
        (Call::Extreme(right), Reply::Farthest(low)),
        (Call::Place(middle), Reply::Lies(Place::Inside)),
        (Call::Place(side), Reply::Lies(Place::On)),
        (Call::Tangents(away), Reply::TangentPoints(low, high)),
        (Call::Vertices, Reply::VertexList(vertices)),
        (Call::Area, Reply::DoubledArea(8)),
        (Call::Count, Reply::PointCount(count)),
    ])
}

// Each of the eight calls on a small square, as lines with the numbers from 0.
fn square_lines(alloc: Global, count: u32) -> Result<Vec<Line>, Fail> {
    let mut lines = Vec::new(alloc);
    for (call, reply) in square_changes()? {
        lines.push(Line::new(lines.len() as u64, 0, call, reply))?;
    }
    for (call, reply) in square_questions(alloc, count)? {
        lines.push(Line::new(lines.len() as u64, 0, call, reply))?;
    }
    Ok(lines)
}

#[test]
fn every_call_once(rt: HostRuntime) -> Result<(), Fail> {
    let lines = square_lines(rt.alloc(), 4)?;
    let journal = played(&rt, rt.alloc(), 0, 4, &lines);
    assert_eq!(rt; check(rt.alloc(), &journal), CheckResult::Legal);
    let altered = square_lines(rt.alloc(), 5)?;
    let journal = Journal::new(0, 4, 16, altered, Rules::Counted).ok_or("beyond a limit")?;
    assert_eq!(rt; check(rt.alloc(), &journal), CheckResult::Illegal(13));
    Ok(())
}

// Adds the point and asks for the vertices. If memory is refused, the reply is that, the set is as it was, and the second attempt succeeds.
fn serve_again(rt: &impl Abort, book: &mut Book<PlainSet>, ledgers: &mut Vec<Ledger>, p: Point)
    requires lawful { IsLawful plain_set book.old }
    requires ledgers { AreLedgers book.old ledgers.old.items }
    requires workers { book.old.head.workers ≡ 1 }
    ensures lawful { IsLawful plain_set book.new }
    ensures ledgers { AreLedgers book.new ledgers.new.items }
{
    let mut added = serve_at(book, ledgers, 0, Call::Add(p));
    if added == Ok(Reply::NoMemory) {
        assert_eq!(rt; book.set().count(), 0);
        added = serve_at(book, ledgers, 0, Call::Add(p));
    }
    assert!(rt; added == Ok(Reply::Added));
    let mut listed = serve_at(book, ledgers, 0, Call::Vertices);
    if listed == Ok(Reply::NoMemory) {
        assert_eq!(rt; book.set().count(), 1);
        listed = serve_at(book, ledgers, 0, Call::Vertices);
    }
    match listed {
        Ok(Reply::VertexList(list)) => assert_eq!(rt; list.as_slice(), [p].as_slice()),
        _ => panic!(rt; "memory is refused once"),
    }
}

// Returns the journal of a book that served one point and its vertices: of two lines, and one more if memory was refused.
fn refused_once(rt: &impl Abort, alloc: Global, p: Point) -> Journal {
    let set = PlainSet::new(alloc, 4);
    let (mut book, mut ledgers) = opened(rt, set, alloc, 7, 4, 1);
    serve_again(rt, &mut book, &mut ledgers, p);
    let count = gather(&book, ledgers);
    assert_eq!(rt; count, book.lines().len() as u64);
    assert_eq!(rt; book.turn(), 7 + count);
    let journal = book.into_journal();
    let refusals = journal
        .lines()
        .iter()
        .filter(|line| line.reply == Reply::NoMemory);
    assert_eq!(rt; refusals.count() as u64 + 2, count);
    journal
}

// `rt try --test --fail-alloc N` at N = 1 and 2 refuses the storage for the lines, and the ledgers.
#[test]
fn refused_memory_open(rt: HostRuntime) -> Result<(), Fail> {
    let set = PlainSet::new(rt.alloc(), 4);
    let (book, ledgers) = opened(&rt, set, rt.alloc(), 7, 2, 3);
    let seats = ledgers.len();
    let head = (book.first(), book.limit(), book.capacity());
    let state = (book.workers(), book.turn(), book.lines().len());
    let count = gather(&book, ledgers);
    drop(book);
    assert!(rt; seats == 3 && count == 0);
    assert!(rt; head == (7, 4, 2) && state == (3, 7, 0));
    Ok(())
}

// The same at N = 1 to 8: also the storage for the new point, for the vertices, and for their copy in the journal.
#[test]
fn refused_memory_serve(rt: HostRuntime) -> Result<(), Fail> {
    let journal = refused_once(&rt, rt.alloc(), at(3, 4)?);
    assert!(rt; journal.lines().len() == 2 || journal.lines().len() == 3);
    Ok(())
}

// The same for the checker, which returns no verdict if its own set or list is refused memory.
#[test]
fn refused_memory_check(rt: HostRuntime) -> Result<(), Fail> {
    let journal = refused_once(&rt, rt.alloc(), at(3, 4)?);
    let mut found = check(rt.alloc(), &journal);
    if found == CheckResult::NoMemory {
        assert_eq!(rt; journal.lines().len(), 2);
        found = check(rt.alloc(), &journal);
    }
    assert_eq!(rt; found, CheckResult::Legal);
    Ok(())
}
