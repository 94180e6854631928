//! Continuing a journal, compacting, draining, and judging it in segments.
ghost use Rattle.std.specs.Prelude.{◌≡◌, ◌<◌, ◌≤◌, ◌-◌, ◌^◌, IfSome, length};
ghost use Rattle.hull_set.specs.Held.{nothing_held};
ghost use Rattle.hull_book.specs.Answers.{HasSpace};
ghost use Rattle.hull_book.specs.Books.{IsGoneOnFrom, IsLawful};
ghost use Rattle.hull_book.specs.declared.limits.TheConstants.{SEAT_LIMIT};
ghost use Rattle.hull_book.specs.Ledgers.{AreLedgers};
ghost use Rattle.hull_book.specs.LongBooks.{whole};

use crate::books::{give_up, journal_of};
use crate::findings::Findings;
use crate::stage::Stage;
use crate::texts::is_memory;
use hull_book::{
    AfterCall, Book, BookFault, CompactRefusal, Journal, Ledger, LongAnswer, LongBook, ReplayFault,
    SegmentsChecker, Space, gather, replay,
};
use hull_plain::PlainSet;
use hull_set::{Call, HullSet, Reply, Rules};
use hull_text::{CompactFault, Sink, Source, compact, read_journal};
use lattice::Point;
use std::alloc::Global;
use text_io::Counted;
use text_io::testing::{Pieces, Spout};

/// The first segment of a journal.
const FIRST: &[u8] = b"hullbook journal 3 first 7 limit 4 capacity 4\n7 0 add 3 4 = added\nend 1\n";

/// The second, whose replay asks for memory.
const SECOND: &[u8] =
    b"hullbook journal 3 first 8 limit 4 capacity 4\n8 0 vertices = list 1 3 4\nend 1\n";

/// A journal of two lines.
const LONG: &[u8] =
    b"hullbook journal 3 first 7 limit 4 capacity 4\n7 0 add 3 4 = added\n8 0 vertices = list 1 3 4\nend 2\n";

/// The compacted one that leaves the same point.
const SHORT: &[u8] = b"hullbook journal 3 first 9 limit 4 capacity 4\n9 0 add 3 4 = added\nend 1\n";

/// Whether the fault is a lack of memory.
fn is_want(fault: CompactFault) -> bool {
    match fault {
        CompactFault::Text(fault) => is_memory(fault, 4),
        CompactFault::Refused(refusal) => refusal == CompactRefusal::NoMemory,
        CompactFault::Write(_) => false,
    }
}

/// Tests a book that continues the journal of two lines, and ends it.
fn expect_reopened<S: HullSet + Drop>(book: Book<S>, ledgers: Vec<Ledger>, findings: &mut Findings)
    requires lawful { IsLawful S.HullSet book }
    requires ledgers { AreLedgers book ledgers.items }
{
    let seen = (
        book.first(),
        book.turn(),
        book.lines().len(),
        book.capacity(),
    );
    findings.expect(seen == (7, 9, 2, 6), "the book goes on with the journal");
    give_up(book, ledgers, 2, findings);
}

/// Opens the book at the second attempt, with the set and the journal that were returned.
fn reopen_again<S: HullSet + Drop>(
    alloc: Global,
    set: S,
    journal: Journal,
    workers: u8,
    findings: &mut Findings,
)
    requires goes_on { IsGoneOnFrom S.HullSet set workers journal }
    requires some { 1 ≤ workers }
    requires most { workers ≤ SEAT_LIMIT }
{
    let seen = (set.count(), journal.first(), journal.lines().len());
    findings.expect(seen == (1, 7, 2), "set and journal come back");
    match Book::reopen(alloc, set, journal, 6, workers) {
        Ok((book, ledgers)) => expect_reopened(book, ledgers, findings),
        Err(_) => findings.expect(false, "the next attempt has its memory"),
    }
}

/// Opens a book that continues a journal of two lines. If memory is refused, set and journal are returned, and the next attempt opens it.
pub fn try_reopen<S: HullSet + Drop>(alloc: Global, set: S, p: Point) -> Result<Stage, &'static str>
    requires empty { S.held set ≡ nothing_held }
{
    let mut findings = Findings::new();
    let Ok(made) = journal_of(alloc, p, set.limit()) else {
        return Ok(Stage::SetUp);
    };
    let Some(journal) = made else {
        return Err("the journal is within the limits");
    };
    let workers = journal.seats();
    if journal.rules() == Rules::Set || workers == 0 || journal.limit() != set.limit() {
        return Err("the journal is as it was made");
    }
    let set = match replay(set, journal.head(), journal.lines()) {
        Ok(set) => set,
        Err(ReplayFault::NoMemory) => return Ok(Stage::SetUp),
        Err(ReplayFault::Wrong(_)) => return Err("the journal is legal"),
    };
    match Book::reopen(alloc, set, journal, 6, workers) {
        Ok((book, ledgers)) => {
            expect_reopened(book, ledgers, &mut findings);
            findings.returned(Stage::Whole)
        }
        Err((fault, set, journal)) => {
            findings.expect(fault == BookFault::NoMemory, "the fault is want of memory");
            reopen_again(alloc, set, journal, workers, &mut findings);
            findings.returned(Stage::Refused)
        }
    }
}

/// Serves one call of seat 0.
fn serve_long<S: HullSet + Drop>(
    book: &mut LongBook<S>,
    ledgers: &mut Vec<Ledger>,
    call: Call,
    then: AfterCall,
) -> LongAnswer
    requires lawful { IsLawful S.HullSet (whole book.old) }
    requires space { HasSpace then book.old.head.journal.capacity }
    requires ledgers { AreLedgers (whole book.old) ledgers.old.items }
    requires some { 1 ≤ length ledgers.old.items }
    ensures lawful { IsLawful S.HullSet (whole book.new) }
    ensures ledgers { AreLedgers (whole book.new) ledgers.new.items }
    ensures number { length ledgers.new.items ≡ length ledgers.old.items }
    ensures space { book.new.head.journal.capacity ≡ book.old.head.journal.capacity }
{
    book.serve(0, call, &mut ledgers[0], then)
}

/// Drains a book with a call of seat 0; `None` if it is full.
fn drain<S: HullSet + Drop>(
    book: &mut LongBook<S>,
    ledgers: &mut Vec<Ledger>,
    call: Call,
    space: Space,
) -> Option<(Reply, Option<Journal>)>
    requires lawful { IsLawful S.HullSet (whole book.old) }
    requires ledgers { AreLedgers (whole book.old) ledgers.old.items }
    requires some { 1 ≤ length ledgers.old.items }
    requires space { book.old.head.journal.capacity ≤ space }
    ensures lawful { IsLawful S.HullSet (whole book.new) }
    ensures ledgers { AreLedgers (whole book.new) ledgers.new.items }
{
    match serve_long(book, ledgers, call, AfterCall::Drain(space)) {
        Ok(drained) => Some(drained),
        Err(_) => None,
    }
}

/// Allocates storage for four lines. If memory is refused, nothing is taken out of the book, and the next attempt allocates it.
fn reserve<S: HullSet + Drop>(
    alloc: Global,
    book: &LongBook<S>,
    findings: &mut Findings,
) -> (Stage, Option<Space>)
    ensures { IfSome result.1 (λ space. 4 ≤ space) }
{
    match Space::reserve(alloc, 4) {
        Ok(space) => (Stage::Whole, Some(space)),
        Err(_) => {
            let seen = (book.drained(), book.lines().len());
            findings.expect(seen == (0, 1), "nothing is taken out");
            (Stage::Refused, Space::reserve(alloc, 4).ok())
        }
    }
}

/// Ends a book that was drained, and its ledgers, which must sum to the two lines of the segment.
fn give_up_long<S: HullSet + Drop>(
    book: LongBook<S>,
    ledgers: Vec<Ledger>,
    segment: Option<Journal>,
    findings: &mut Findings,
)
    requires lawful { IsLawful S.HullSet (whole book) }
    requires ledgers { AreLedgers (whole book) ledgers.items }
{
    let seen = (book.drained(), book.turn(), book.lines().len());
    findings.expect(seen == (2, 9, 0), "the book goes on behind the part");
    let segment = segment.map(|segment| (segment.first(), segment.lines().len()));
    findings.expect(segment == Some((7, 2)), "the part has all lines");
    let sum = gather(&book, ledgers);
    findings.expect(sum == 2, "the ledgers sum to the lines");
    drop(book);
}

/// Drains a book of one line with the call that lists the vertices. If memory for the storage is refused, nothing is taken out, and the next attempt
/// succeeds; if it is refused to the call, the segment has its line all the same.
pub fn try_drain<S: HullSet + Drop>(alloc: Global, set: S, p: Point) -> Result<Stage, &'static str>
    requires empty { S.held set ≡ nothing_held }
{
    let mut findings = Findings::new();
    let Ok((book, mut ledgers)) = Book::open(alloc, set, 7, 4, 1) else {
        return Ok(Stage::SetUp);
    };
    let mut book = match LongBook::new(book) {
        Ok(book) => book,
        Err((_, book)) => {
            give_up(book, ledgers, 0, &mut findings);
            return findings.returned(Stage::SetUp);
        }
    };
    let added = serve_long(&mut book, &mut ledgers, Call::Add(p), AfterCall::Keep);
    let (stage, space) = reserve(alloc, &book, &mut findings);
    let drained = match space {
        Some(space) => drain(&mut book, &mut ledgers, Call::Vertices, space),
        None => None,
    };
    let (listed, segment) = match drained {
        Some((reply, segment)) => (reply == Reply::NoMemory, segment),
        None => (false, None),
    };
    give_up_long(book, ledgers, segment, &mut findings);
    let stage = match added {
        Ok((Reply::NoMemory, _)) => Stage::SetUp,
        _ if listed => Stage::Vertices,
        _ => stage,
    };
    findings.returned(stage)
}

/// Returns the number after the two segments, if they are those of a legal journal.
fn judged(alloc: Global, first: &Journal, second: &Journal) -> Result<u64, ReplayFault> {
    let _limits = first.lines();
    let set = PlainSet::new(alloc, first.limit());
    let checker = SegmentsChecker::new(set, first).check_next(first)?;
    Ok(checker.check_next(second)?.next())
}

/// Judges two segments. If memory is refused, the next attempt begins with the first.
pub fn try_segments(alloc: Global) -> Result<Stage, &'static str> {
    let mut findings = Findings::new();
    let first = read_journal(alloc, &mut Counted::new(Pieces::new(FIRST, 4096)));
    let second = read_journal(alloc, &mut Counted::new(Pieces::new(SECOND, 4096)));
    let (Ok(first), Ok(second)) = (first, second) else {
        return Ok(Stage::SetUp);
    };
    let (stage, found) = match judged(alloc, &first, &second) {
        Err(ReplayFault::NoMemory) => (Stage::Refused, judged(alloc, &first, &second)),
        found => (Stage::Whole, found),
    };
    findings.expect(found == Ok(9), "the parts are legal");
    findings.returned(stage)
}

/// Compacts a text by a replay on a plain set.
fn make_short<R: Source, W: Sink>(
    alloc: Global,
    source: &mut R,
    out: &mut W,
) -> Result<(), CompactFault>
    requires reads { R.failed source.old < 2 ^ 64 - 1 }
    requires writes { W.failed out.old < 2 ^ 64 - 1 }
{
    compact(alloc, |limit| PlainSet::new(alloc, limit), source, out)
}

/// Compacts the text of a journal, in pieces of that size.
pub fn try_compact(alloc: Global, size: usize) -> Result<Stage, &'static str> {
    let mut findings = Findings::new();
    let Ok(device) = Spout::new(alloc, SHORT.len(), size) else {
        return Ok(Stage::SetUp);
    };
    let mut out = Counted::new(device);
    let mut source = Counted::new(Pieces::new(LONG, size));
    let (stage, done) = match make_short(alloc, &mut source, &mut out) {
        Ok(()) => (Stage::Whole, Ok(())),
        Err(fault) => {
            findings.expect(is_want(fault), "the fault is want of memory");
            findings.expect(out.get_ref().bytes().is_empty(), "nothing is written");
            if out.failures() > 0 {
                return Err("the device serves");
            }
            let mut source = Counted::new(Pieces::new(LONG, size));
            (Stage::Refused, make_short(alloc, &mut source, &mut out))
        }
    };
    findings.expect(done.is_ok(), "the next attempt has its memory");
    findings.expect(out.get_ref().bytes() == SHORT, "the short journal is whole");
    findings.returned(stage)
}
