//! Books, journals, ledgers and the checker, with known values.
ghost use Rattle.std.specs.Prelude.{◌≡◌, ◌≤◌, ◌<◌, ◌⊎◌};
ghost use Rattle.hull_plain.specs.Sets.{plain_set};
ghost use Rattle.hull_book.specs.Books.{IsLawful};
ghost use Rattle.hull_book.specs.Ledgers.{AreLedgers};

use crate::plane::at;
use hull_book::{
    Book, BookFault, Call, CheckResult, Journal, JournalFull, Ledger, Line, Phase, Reply, Report,
    Script, check, gather,
};
use hull_plain::{HullSet, PlainSet, Rules};
use std::alloc::{AllocError, Global};
use std::process::Abort;
use std::test::Fail;

// Opens a book over an empty plain set. If memory is refused, the set is returned and is used for the second attempt.
fn opened(
    rt: &impl Abort,
    alloc: Global,
    first: u64,
    capacity: u32,
    workers: u8,
) -> (Book<PlainSet>, Vec<Ledger>)
    requires workers { (1 ≤ workers) × (workers ≤ 64) }
    ensures lawful { IsLawful plain_set result.0 }
    ensures ledgers { AreLedgers result.0 result.1.items }
    ensures workers { result.0.head.workers ≡ workers }
{
    let set = PlainSet::new(alloc, 4);
    let made: Result<(Book<PlainSet>, Vec<Ledger>), (BookFault, PlainSet)> = Book::open(
        alloc, set, first, capacity, workers,
    );
    let (fault, set) = match made {
        Ok(made) => return made,
        Err(refused) => refused,
    };
    assert_eq!(rt; fault, BookFault::NoMemory);
    match Book::open(alloc, set, first, capacity, workers) {
        Ok(made) => made,
        Err(_) => panic!(rt; "memory is refused once"),
    }
}

// A call of a seat.
fn serve_at(
    book: &mut Book<PlainSet>,
    ledgers: &mut Vec<Ledger>,
    seat: u8,
    call: Call,
) -> Result<Reply, JournalFull>
    requires lawful { IsLawful plain_set book.old }
    requires ledgers { AreLedgers book.old ledgers.old.items }
    requires seat { seat < book.old.head.workers }
    ensures lawful { IsLawful plain_set book.new }
    ensures ledgers { AreLedgers book.new ledgers.new.items }
    ensures workers { book.new.head.workers ≡ book.old.head.workers }
{
    let ledger: &mut Ledger = &mut ledgers[usize::from(seat)];
    book.serve(seat, call, ledger)
}

#[test]
fn capacity_two(rt: HostRuntime) -> Result<(), Fail> {
    let p = at(0, 0)?;
    let (mut book, mut ledgers) = opened(&rt, rt.alloc(), 7, 2, 2);
    let added = serve_at(&mut book, &mut ledgers, 1, Call::Add(p));
    assert!(rt; added == Ok(Reply::Added));
    let removed = serve_at(&mut book, &mut ledgers, 0, Call::Remove(p));
    assert!(rt; removed == Ok(Reply::Removed));
    let full = serve_at(&mut book, &mut ledgers, 1, Call::Count);
    assert!(rt; full == Err(JournalFull));
    let numbers: (u64, u64, u32, u32) = (book.first(), book.turn(), book.limit(), book.capacity());
    assert_eq!(rt; numbers, (7, 10, 4, 2));
    let lines: &[Line] = book.lines();
    assert_eq!(rt; lines.len(), 2);
    assert!(rt; lines[0].number == 7 && lines[0].seat == 1 && lines[0].call == Call::Add(p));
    assert!(rt; lines[1].number == 8 && lines[1].seat == 0 && lines[1].reply == Reply::Removed);
    let counts: (u32, u32) = (ledgers[0].count(), ledgers[1].count());
    assert_eq!(rt; counts, (1, 1));
    let sum: u64 = gather(&book, ledgers);
    assert_eq!(rt; sum, 2);
    let journal: Journal = book.into_journal();
    let legal: CheckResult = check(rt.alloc(), &journal);
    assert_eq!(rt; legal, CheckResult::Legal);
    Ok(())
}

#[test]
fn absent_removal(rt: HostRuntime) -> Result<(), Fail> {
    let p = at(7, 7)?;
    let (mut book, mut ledgers) = opened(&rt, rt.alloc(), 0, 65536, 1);
    let absent = serve_at(&mut book, &mut ledgers, 0, Call::Remove(p));
    assert!(rt; absent == Ok(Reply::Absent));
    assert_eq!(rt; gather(&book, ledgers), 1);
    let journal = book.into_journal();
    let lines = journal.lines();
    assert_eq!(rt; lines.len(), 1);
    assert!(rt; lines[0].number == 0 && lines[0].seat == 0);
    assert!(rt; lines[0].call == Call::Remove(p) && lines[0].reply == Reply::Absent);
    Ok(())
}

// Opens a book with this capacity. Returns whether it was refused for that, and the set was returned empty.
fn is_refused(alloc: Global, capacity: u32) -> bool
    requires { (capacity ≡ 0) ⊎ (16777216 < capacity) }
{
    match Book::open(alloc, PlainSet::new(alloc, 4), 0, capacity, 1) {
        Ok((book, ledgers)) => {
            let _none = gather(&book, ledgers);
            false
        }
        Err((fault, set)) => fault == BookFault::Capacity && set.count() == 0,
    }
}

#[test]
fn capacities_out_of_range(rt: HostRuntime) {
    let refused = (is_refused(rt.alloc(), 0), is_refused(rt.alloc(), 16777217));
    assert_eq!(rt; refused, (true, true));
}

// The journal of these lines.
fn journal_of(alloc: Global, limit: u32, lines: [Line; 3]) -> Result<Option<Journal>, AllocError> {
    let lines: Vec<Line> = Vec::from_array(alloc, lines)?;
    let journal: Option<Journal> = Journal::new(0, limit, 4, lines, Rules::Set);
    Ok(journal)
}

// Returns the checker's verdict on a journal whose memory was refused and whose point was then added, if the third reply is this.
fn refused_and_added(alloc: Global, third: Reply) -> Result<Option<CheckResult>, Fail> {
    let add = Call::Add(at(0, 0)?);
    let lines = [
        Line::new(0, 0, add, Reply::NoMemory),
        Line::new(1, 0, add, Reply::Added),
        Line::new(2, 0, add, third),
    ];
    match journal_of(alloc, 1, lines)? {
        Some(journal) => Ok(Some(check(alloc, &journal))),
        None => Ok(None),
    }
}

#[test]
fn stored_refusal(rt: HostRuntime) -> Result<(), Fail> {
    let refused = refused_and_added(rt.alloc(), Reply::NoMemory)?;
    let already = refused_and_added(rt.alloc(), Reply::Already)?;
    assert_eq!(rt; refused, Some(CheckResult::Illegal(2)));
    assert_eq!(rt; already, Some(CheckResult::Legal));
    Ok(())
}

#[test]
fn wrong_first_number(rt: HostRuntime) -> Result<(), Fail> {
    let lines = Vec::from_array(
        rt.alloc(),
        [Line::new(1, 0, Call::Count, Reply::PointCount(0))],
    )?;
    let found = match Journal::new(0, 1, 4, lines, Rules::Set) {
        Some(journal) => Some(check(rt.alloc(), &journal)),
        None => None,
    };
    assert_eq!(rt; found, Some(CheckResult::Illegal(0)));
    Ok(())
}

/// You make a script and its phase from their parts, and can read these again.
#[test]
fn parts_of_a_script(rt: HostRuntime) -> Result<(), Fail> {
    let calls: Vec<Call> = Vec::from_array(rt.alloc(), [Call::Count])?;
    let jobs: Vec<Vec<Call>> = Vec::from_array(rt.alloc(), [calls])?;
    let phase = Phase { jobs };
    let phases: Vec<Phase> = Vec::from_array(rt.alloc(), [phase])?;
    let workers: u8 = 1;
    let script = Script { workers, phases };
    assert_eq!(rt; script.workers, 1);
    assert_eq!(rt; script.phases.len(), 1);
    let first: &Phase = &script.phases[0];
    assert_eq!(rt; first.jobs.len(), 1);
    let own: &Vec<Call> = &first.jobs[0];
    assert!(rt; own.len() == 1 && own[0] == Call::Count);
    Ok(())
}

/// A report is a struct of what its text contains.
pub(super) fn report_of<'a>(
    script: &'a Script,
    answers: &'a [Vec<Result<Reply, JournalFull>>],
    ledgers: &'a [u32],
    journal: &'a Journal,
) -> Report<'a>
    ensures script { result.script.now ≡ script.now }
    ensures answers { result.answers.now ≡ answers.now }
    ensures ledgers { result.ledgers.now ≡ ledgers.now }
    ensures journal { result.journal.now ≡ journal.now }
{
    Report {
        script,
        answers,
        ledgers,
        journal,
    }
}
