//! Scripts that are run over a plain set, with known values.
ghost use Rattle.std.specs.Prelude.{◌≡◌, ◌≤◌, [], IfOk, length};
ghost use Rattle.hull_plain.specs.Sets.{plain_set};
ghost use Rattle.hull_book.specs.Books.{IsLawful};
ghost use Rattle.hull_book.specs.Ledgers.{AreLedgers};
ghost use Rattle.hull_pool.specs.Runs.{MayRunAll};

mod draining;
mod gates;
mod hostile;
mod letting_go;
mod refused;
mod scripts;
mod sharing;

use hull_book::{
    Answer, Book, Call, CheckResult, Journal, JournalFull, Ledger, Phase, Reply, Script, check,
    gather,
};
use hull_plain::PlainSet;
use hull_pool::{Gate, NoGate, PhaseEnd, Workers, run_phase, run_phases};
use lattice::Point;
use scripts::{one_phase, two_phases};
use std::alloc::{AllocError, Global};
use std::process::Abort;
use std::sync::Wait;
use std::test::Fail;
use std::thread::Threads;

/// The result of a run: each worker's answers, the sum of the ledgers, and the journal.
#[derive(Drop)]
struct Outcome {
    answers: Vec<Vec<Answer>>,
    sum: u64,
    journal: Journal,
}

fn at(rt: &impl Abort, x: i64, y: i64) -> Point {
    match Point::new(x, y) {
        Ok(point) => point,
        Err(_) => panic!(rt; "{x} {y} is a point"),
    }
}

// Opens a book over an empty set, with its ledgers. If memory is refused, the second attempt opens it.
fn opened(
    rt: &impl Abort,
    alloc: Global,
    first: u64,
    capacity: u32,
    workers: u8,
) -> (Book<PlainSet>, Vec<Ledger>)
    requires workers { (1 ≤ workers) × (workers ≤ 64) }
    ensures lawful { IsLawful plain_set result.0 }
    ensures ledgers { AreLedgers result.0 result.1.items }
    ensures workers { result.0.head.workers ≡ workers }
    ensures capacity { result.0.head.journal.capacity ≡ capacity }
    ensures empty { result.0.lines ≡ [] }
{
    let set = PlainSet::new(alloc, 64);
    let set = match Book::open(alloc, set, first, capacity, workers) {
        Ok(made) => return made,
        Err((_, set)) => set,
    };
    match Book::open(alloc, set, first, capacity, workers) {
        Ok(made) => made,
        Err(_) => panic!(rt; "memory is refused once"),
    }
}

// Makes a book and workers that may run the script. If memory is refused, the second attempt makes them.
#[tactic(auto, using(hull_pool::proofs::Fronts::few_each))]
fn ready(
    rt: &impl Abort,
    alloc: Global,
    first: u64,
    capacity: u32,
    script: &Script,
) -> (Book<PlainSet>, Workers)
    ensures { MayRunAll plain_set result.0 result.1 script.now.phases }
{
    let (book, ledgers) = opened(rt, alloc, first, capacity, script.workers());
    let ledgers = match Workers::new(alloc, ledgers, script) {
        Ok(workers) => return (book, workers),
        Err((_, ledgers)) => ledgers,
    };
    match Workers::new(alloc, ledgers, script) {
        Ok(workers) => (book, workers),
        Err(_) => panic!(rt; "memory is refused once"),
    }
}

// Returns the result of the run that ended with this book and these workers.
fn outcome_of(book: Book<PlainSet>, workers: Workers) -> Outcome
    requires lawful { IsLawful plain_set book }
    requires ledgers { AreLedgers book workers.ledgers }
{
    let (answers, ledgers) = workers.into_parts();
    let sum = gather(&book, ledgers);
    let journal = book.into_journal();
    Outcome {
        answers,
        sum,
        journal,
    }
}

// Runs the whole script over an empty set.
fn run_script<R: Threads + Wait + Abort + Sync, G: Gate>(
    rt: &R,
    alloc: Global,
    first: u64,
    capacity: u32,
    script: &Script,
    gate: &G,
) -> Outcome {
    let (book, workers) = ready(rt, alloc, first, capacity, script);
    let PhaseEnd {
        book,
        workers,
        ended,
    } = run_phases(rt, alloc, book, workers, script, gate);
    match ended {
        Ok(()) => outcome_of(book, workers),
        Err(_fault) => panic!(rt; "there is memory for the phases"),
    }
}

// Runs the first phase of the script over an empty set.
fn run_first<R: Threads + Wait + Abort + Sync, G: Gate>(
    rt: &R,
    alloc: Global,
    script: &Script,
    gate: &G,
) -> Outcome
    requires { 1 ≤ length script.now.phases }
{
    let (book, workers) = ready(rt, alloc, 0, 8, script);
    let phase = &script.phases()[0];
    let PhaseEnd {
        book,
        workers,
        ended,
    } = run_phase(rt, alloc, book, workers, phase, gate);
    match ended {
        Ok(()) => outcome_of(book, workers),
        Err(_fault) => panic!(rt; "there is memory for the phase"),
    }
}

// Returns the sum of the ledgers and the length of the journal, whether that is a legal history, and whether its numbers go up from the first without
// a gap.
fn returned_of(alloc: Global, first: u64, end: &Outcome) -> (u64, usize, bool, bool) {
    let legal = check(alloc, &end.journal) == CheckResult::Legal;
    let mut runs_on = true;
    for (k, line) in end.journal.lines().iter().enumerate() {
        runs_on = runs_on && line.number == first.wrapping_add(k as u64);
    }
    (end.sum, end.journal.lines().len(), legal, runs_on)
}

// The number and the seat of a line.
fn mark_of(journal: &Journal, place: usize) -> Option<(u64, u8)> {
    match journal.lines().get(place) {
        Some(line) => Some((line.number, line.seat)),
        None => None,
    }
}

// Three workers add a vertex each, and then the first asks for the vertices.
fn three_vertices(rt: &impl Abort, alloc: Global) -> Result<Script, AllocError> {
    let adds = [
        (0, Call::Add(at(rt, 0, 0))),
        (1, Call::Add(at(rt, 4, 0))),
        (2, Call::Add(at(rt, 0, 4))),
    ];
    two_phases(alloc, 3, &adds, &[(0, Call::Vertices)])
}

// Whether the points are added, and the first worker's second answer lists them.
fn are_of_vertices(answers: &[Vec<Answer>], vertices: &[Point]) -> bool {
    let [zero, one, two] = answers else {
        return false
    };
    let added = matches!(one.as_slice(), [Ok(Reply::Added)])
        && matches!(two.as_slice(), [Ok(Reply::Added)]);
    match zero.as_slice() {
        [Ok(Reply::Added), Ok(Reply::VertexList(list))] => added && list.as_slice() == vertices,
        _ => false,
    }
}

/// A question after a join is answered for all points that were added before it.
#[test]
fn three_workers(rt: HostRuntime) -> Result<(), Fail> {
    let vertices = [at(&rt, 0, 0), at(&rt, 4, 0), at(&rt, 0, 4)];
    let script = three_vertices(&rt, rt.alloc())?;
    let end = run_script(&rt, rt.alloc(), 7, 8, &script, &NoGate);
    let returned = (end.sum, end.journal.lines().len());
    let answered = are_of_vertices(&end.answers, &vertices);
    drop(end);
    drop(script);
    assert_eq!(rt; returned, (4, 4));
    assert!(rt; answered);
    Ok(())
}

/// Workers with no calls, and phases with none, are run like others: the last of three workers counts, and then none
/// has a call.
#[test]
fn workers_without_calls(rt: HostRuntime) -> Result<(), Fail> {
    let script = two_phases(rt.alloc(), 3, &[(2, Call::Count)], &[])?;
    let end = run_script(&rt, rt.alloc(), 0, 8, &script, &NoGate);
    let returned = (end.sum, end.journal.lines().len(), end.answers.len());
    let mark = mark_of(&end.journal, 0);
    drop(end);
    drop(script);
    assert_eq!(rt; returned, (1, 1, 3));
    assert_eq!(rt; mark, Some((0, 2)));
    Ok(())
}

// In each of two phases each of three workers adds a point, counts, and removes the point.
fn three_at_once(rt: &impl Abort, alloc: Global) -> Result<Script, AllocError> {
    let (p, q) = (at(rt, 0, 0), at(rt, 4, 0));
    let (r, s) = (at(rt, 0, 4), at(rt, 4, 4));
    let once = [
        (0, Call::Add(p)),
        (0, Call::Count),
        (0, Call::Remove(p)),
        (1, Call::Add(q)),
        (1, Call::Count),
        (1, Call::Remove(q)),
        (2, Call::Add(r)),
        (2, Call::Count),
        (2, Call::Remove(r)),
    ];
    let again = [
        (0, Call::Add(s)),
        (0, Call::Count),
        (0, Call::Remove(s)),
        (1, Call::Add(s)),
        (1, Call::Count),
        (1, Call::Remove(s)),
        (2, Call::Add(s)),
        (2, Call::Count),
        (2, Call::Remove(s)),
    ];
    two_phases(alloc, 3, &once, &again)
}

// Whether each worker's points were added and removed. In the second phase all three add the same point and remove it: each addition is counted.
fn came_and_went(answers: &[Vec<Answer>]) -> bool {
    let mut all = true;
    for own in answers {
        let right = match own.as_slice() {
            [first, _, third, fourth, _, sixth] => {
                matches!(first, Ok(Reply::Added))
                    && matches!(third, Ok(Reply::Removed))
                    && matches!(fourth, Ok(Reply::Added | Reply::Again(2 | 3)))
                    && matches!(sixth, Ok(Reply::Removed | Reply::Left(1 | 2)))
            }
            _ => false,
        };
        all = all && right;
    }
    all
}

/// Three workers that race, 50 times: each call has its line, each worker's lines are in the order of its calls, the
/// numbers run on without a gap, and the journal is a legal history.
#[test]
fn three_workers_fifty_times(rt: HostRuntime) -> Result<(), Fail> {
    let script = three_at_once(&rt, rt.alloc())?;
    for round in 0..50u64 {
        let end = run_script(&rt, rt.alloc(), round, 32, &script, &NoGate);
        let returned = returned_of(rt.alloc(), round, &end);
        let answered = came_and_went(&end.answers);
        drop(end);
        assert_eq!(rt; returned, (18, 18, true, true));
        assert!(rt; answered);
    }
    Ok(())
}

// One worker adds two points and then counts them.
fn two_and_a_count(rt: &impl Abort, alloc: Global) -> Result<Script, AllocError>
    ensures { IfOk result (λ s. length s.phases ≡ 1) }
{
    let calls = [
        (0, Call::Add(at(rt, 0, 0))),
        (0, Call::Add(at(rt, 4, 0))),
        (0, Call::Count),
    ];
    one_phase(alloc, 1, &calls)
}

// Whether the only worker's points were added, and its third call found the journal full.
fn are_two_and_full(answers: &[Vec<Answer>]) -> bool {
    match answers {
        [own] => {
            matches!(
                own.as_slice(),
                [Ok(Reply::Added), Ok(Reply::Added), Err(JournalFull)]
            )
        }
        _ => false,
    }
}

/// A journal of two lines takes two calls, and the result of the third is that it is full.
#[test]
fn capacity_two(rt: HostRuntime) -> Result<(), Fail> {
    let script = two_and_a_count(&rt, rt.alloc())?;
    let end = run_script(&rt, rt.alloc(), 7, 2, &script, &NoGate);
    let returned = (end.sum, end.journal.lines().len());
    let answered = are_two_and_full(&end.answers);
    drop(end);
    drop(script);
    assert_eq!(rt; returned, (2, 2));
    assert!(rt; answered);
    Ok(())
}

// Whether the reply of the last line is two points.
fn counts_two(journal: &Journal) -> bool {
    match journal.lines().last() {
        Some(line) => matches!(line.reply, Reply::PointCount(2)),
        None => false,
    }
}

/// The number after 2^64 - 1 is 0.
#[test]
fn wrapping_numbers(rt: HostRuntime) -> Result<(), Fail> {
    let script = two_and_a_count(&rt, rt.alloc())?;
    let end = run_script(&rt, rt.alloc(), u64::MAX, 8, &script, &NoGate);
    let returned = (end.sum, end.journal.lines().len());
    let marks = [
        mark_of(&end.journal, 0),
        mark_of(&end.journal, 1),
        mark_of(&end.journal, 2),
    ];
    let counted = counts_two(&end.journal);
    drop(end);
    drop(script);
    assert_eq!(rt; returned, (3, 3));
    assert_eq!(rt; marks, [Some((u64::MAX, 0)), Some((0, 0)), Some((1, 0))]);
    assert!(rt; counted);
    Ok(())
}

// How many answers are that no point is there, and how many that the journal is full. No worker has a reply after one of those.
fn counted_and_full(answers: &[Vec<Answer>]) -> Option<(u32, u32)> {
    let (mut counted, mut full) = (0u32, 0u32);
    for own in answers {
        let (more, less) = match own.as_slice() {
            [Ok(Reply::PointCount(0)), Ok(Reply::PointCount(0))] => (2, 0),
            [Ok(Reply::PointCount(0)), Err(JournalFull)] => (1, 1),
            [Err(JournalFull), Err(JournalFull)] => (0, 2),
            _ => return None,
        };
        counted = counted.wrapping_add(more);
        full = full.wrapping_add(less);
    }
    Some((counted, full))
}

// Three workers count twice at once, and then none has a call.
fn six_counts(alloc: Global) -> Result<Script, AllocError> {
    let calls = [
        (0, Call::Count),
        (0, Call::Count),
        (1, Call::Count),
        (1, Call::Count),
        (2, Call::Count),
        (2, Call::Count),
    ];
    two_phases(alloc, 3, &calls, &[])
}

/// Three workers race for four lines whose numbers pass the greatest one, 100 times: the numbers are the two greatest and then 0 and 1, four answers
/// are that no point is there and two that the journal is full, and no worker has a reply after one of those.
#[test]
fn six_calls_for_four_lines_across_the_wrap(rt: HostRuntime) -> Result<(), Fail> {
    let script = six_counts(rt.alloc())?;
    for _ in 0..100u8 {
        let end = run_script(&rt, rt.alloc(), 18446744073709551614, 4, &script, &NoGate);
        let returned = returned_of(rt.alloc(), 18446744073709551614, &end);
        let answered = (end.answers.len(), counted_and_full(&end.answers));
        drop(end);
        assert_eq!(rt; returned, (4, 4, true, true));
        assert_eq!(rt; answered, (3, Some((4, 2))));
    }
    Ok(())
}

// Returns how many lists of answers new workers of the script have, and how many calls their ledgers count.
fn new_workers(rt: &impl Abort, alloc: Global, script: &Script) -> (usize, u64) {
    let (book, ledgers) = opened(rt, alloc, 0, 4, script.workers());
    let workers = match Workers::new(alloc, ledgers, script) {
        Ok(workers) => workers,
        Err(_) => panic!(rt; "there is memory for the answers"),
    };
    let (answers, ledgers) = workers.into_parts();
    (answers.len(), gather(&book, ledgers))
}

/// If there is memory, workers are made, a phase runs, and so do the phases of a script. A body that always refuses satisfies its contract; here it
/// fails.
#[test]
fn constructor_always_refuses(rt: HostRuntime) -> Result<(), Fail> {
    let script = two_and_a_count(&rt, rt.alloc())?;
    let made = new_workers(&rt, rt.alloc(), &script);
    let by_phase = run_first(&rt, rt.alloc(), &script, &NoGate).sum;
    let by_script = run_script(&rt, rt.alloc(), 0, 8, &script, &NoGate).sum;
    drop(script);
    assert_eq!(rt; made, (1, 0));
    assert_eq!(rt; (by_phase, by_script), (3, 3));
    Ok(())
}
