//! Opening a book, serving calls, and checking its journal.
ghost use Rattle.std.specs.Prelude.{◌≡◌, ◌≤◌};
ghost use Rattle.hull_set.specs.Held.{nothing_held};
ghost use Rattle.hull_book.specs.Books.{IsLawful};
ghost use Rattle.hull_book.specs.Ledgers.{AreLedgers};

use crate::findings::Findings;
use crate::stage::Stage;
use hull_book::{
    Answer, Book, BookFault, CheckResult, Journal, JournalFull, Ledger, Line, check, gather,
};
use hull_set::{Call, HullSet, PointList, Reply, Rules};
use lattice::Point;
use std::alloc::{AllocError, Global};

/// Ends a book and its ledgers, which must sum to `lines`.
pub fn give_up<S: HullSet + Drop>(
    book: Book<S>,
    ledgers: Vec<Ledger>,
    lines: u64,
    findings: &mut Findings,
)
    requires lawful { IsLawful S.HullSet book }
    requires ledgers { AreLedgers book ledgers.items }
{
    let sum = gather(&book, ledgers);
    findings.expect(sum == lines, "the ledgers sum to the lines");
    drop(book);
}

/// Tests a book that was opened with first 7, capacity 4 and three workers.
fn expect_new<S: HullSet + Drop>(book: Book<S>, ledgers: Vec<Ledger>, findings: &mut Findings)
    requires lawful { IsLawful S.HullSet book }
    requires ledgers { AreLedgers book ledgers.items }
{
    let seen = (book.first(), book.turn(), book.capacity(), book.workers());
    findings.expect(seen == (7, 7, 4, 3), "the book is as it was asked for");
    findings.expect(ledgers.len() == 3, "there is a ledger for each worker");
    give_up(book, ledgers, 0, findings);
}

/// Opens a book over the set, at the second attempt.
fn open_again<S: HullSet + Drop>(alloc: Global, set: S, findings: &mut Findings)
    requires empty { S.held set ≡ nothing_held }
{
    match Book::open(alloc, set, 7, 4, 3) {
        Ok((book, ledgers)) => expect_new(book, ledgers, findings),
        Err(_) => findings.expect(false, "the next attempt has its memory"),
    }
}

/// Opens a book over the set. If memory is refused, the set is returned, and the next attempt opens the book.
pub fn try_open<S: HullSet + Drop>(alloc: Global, set: S) -> Result<Stage, &'static str>
    requires empty { S.held set ≡ nothing_held }
{
    let mut findings = Findings::new();
    let limit = set.limit();
    let stage = match Book::open(alloc, set, 7, 4, 3) {
        Ok((book, ledgers)) => {
            expect_new(book, ledgers, &mut findings);
            Stage::Whole
        }
        Err((fault, set)) => {
            findings.expect(fault == BookFault::NoMemory, "the fault is want of memory");
            findings.expect(set.count() == 0, "the set comes back empty");
            findings.expect(set.limit() == limit, "the set comes back with its limit");
            open_again(alloc, set, &mut findings);
            Stage::Refused
        }
    };
    findings.returned(stage)
}

/// Serves one call of seat 0.
pub fn serve<S: HullSet + Drop>(
    book: &mut Book<S>,
    ledgers: &mut Vec<Ledger>,
    call: Call,
) -> Result<Reply, JournalFull>
    requires lawful { IsLawful S.HullSet book.old }
    requires ledgers { AreLedgers book.old ledgers.old.items }
    ensures lawful { IsLawful S.HullSet book.new }
    ensures ledgers { AreLedgers book.new ledgers.new.items }
{
    let _workers = book.workers();
    book.serve(0, call, &mut ledgers[0])
}

/// The same. If memory is refused, the reply and the line are that, the set has as many points as before, and the next attempt succeeds.
fn serve_again<S: HullSet + Drop>(
    book: &mut Book<S>,
    ledgers: &mut Vec<Ledger>,
    call: Call,
    findings: &mut Findings,
) -> (Stage, Result<Reply, JournalFull>)
    requires lawful { IsLawful S.HullSet book.old }
    requires ledgers { AreLedgers book.old ledgers.old.items }
    ensures lawful { IsLawful S.HullSet book.new }
    ensures ledgers { AreLedgers book.new ledgers.new.items }
{
    let points = book.set().count();
    let lines = book.lines().len();
    let answer = serve(book, ledgers, call);
    if !matches!(answer, Ok(Reply::NoMemory)) {
        return (Stage::Whole, answer);
    }
    findings.expect(book.set().count() == points, "the set is as it was");
    findings.expect(
        book.lines().len() == lines.saturating_add(1),
        "the refusal has its line",
    );
    (Stage::Refused, serve(book, ledgers, call))
}

/// Returns the later of two stages of a trial in which one request is refused.
fn either(one: Stage, other: Stage) -> Stage {
    if one == Stage::Refused { one } else { other }
}

/// Serves an add and the vertices over the set.
pub fn try_serve<S: HullSet + Drop>(alloc: Global, set: S, p: Point) -> Result<Stage, &'static str>
    requires empty { S.held set ≡ nothing_held }
{
    let mut findings = Findings::new();
    let Ok((mut book, mut ledgers)) = Book::open(alloc, set, 7, 4, 1) else {
        return Ok(Stage::SetUp);
    };
    let (one, added) = serve_again(&mut book, &mut ledgers, Call::Add(p), &mut findings);
    findings.expect(added == Ok(Reply::Added), "the point is put in");
    let (other, listed) = serve_again(&mut book, &mut ledgers, Call::Vertices, &mut findings);
    findings.expect(lists(&listed, &[p]), "the vertices are the point");
    let stage = either(one, other);
    let lines = if stage == Stage::Refused { 3 } else { 2 };
    findings.expect(book.turn() == 7 + lines, "each call has its number");
    give_up(book, ledgers, lines, &mut findings);
    findings.returned(stage)
}

/// Whether the answer is a list of these points.
pub fn lists(answer: &Answer, points: &[Point]) -> bool {
    match answer {
        Ok(Reply::VertexList(list)) => list.as_slice() == points,
        _ => false,
    }
}

/// Returns a legal journal of two lines, whose replay asks for memory twice; `None` for a limit that no journal has.
pub fn journal_of(alloc: Global, p: Point, limit: u32) -> Result<Option<Journal>, AllocError> {
    let list = PointList::new(Vec::from_array(alloc, [p])?);
    let add = Line::new(7, 0, Call::Add(p), Reply::Added);
    let ask = Line::new(8, 0, Call::Vertices, Reply::VertexList(list));
    let lines = Vec::from_array(alloc, [add, ask])?;
    Ok(Journal::new(7, limit, 4, lines, Rules::Counted))
}

/// Checks a journal.
pub fn try_check(alloc: Global, p: Point) -> Result<Stage, &'static str> {
    let Ok(journal) = journal_of(alloc, p, 4) else {
        return Ok(Stage::SetUp);
    };
    let Some(journal) = journal else {
        return Err("the journal is within the limits");
    };
    let mut findings = Findings::new();
    let (stage, found) = match check(alloc, &journal) {
        CheckResult::NoMemory => (Stage::Refused, check(alloc, &journal)),
        found => (Stage::Whole, found),
    };
    findings.expect(found == CheckResult::Legal, "the journal is legal");
    findings.returned(stage)
}
