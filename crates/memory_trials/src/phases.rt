//! A phase, and a script of one phase, are run by one worker.
ghost use Rattle.std.specs.Prelude.{◌≡◌, ◌≤◌, [], ◌∷◌, IfSome, OnErr, OnOk, length};
ghost use Rattle.hull_set.specs.Held.{nothing_held};
ghost use Rattle.hull_book.specs.Books.{IsLawful};
ghost use Rattle.hull_book.specs.Ledgers.{AreLedgers};
ghost use Rattle.hull_pool.specs.Runs.{HasRunAll, MayRunAll};

use crate::books::{give_up, lists};
use crate::findings::Findings;
use crate::stage::Stage;
use hull_book::{Answer, Book, CheckResult, Phase, Script, check, gather};
use hull_pool::{NoGate, PhaseEnd, PoolFault, Workers, run_phase, run_phases};
use hull_set::{HullSet, Reply};
use hull_text::read_script;
use lattice::Point;
use std::alloc::Global;
use std::sync::Wait;
use std::thread::Threads;
use text_io::Counted;
use text_io::testing::Pieces;

/// The calls of the worker.
const SCRIPT: &[u8] = b"0 add 0 0\n0 add 1 1\n0 vertices\n0 count\n";

/// Returns the script of this text; `None` if memory is refused to its reader.
pub fn script_of(alloc: Global, text: &[u8]) -> Option<Script> {
    read_script(alloc, &mut Counted::new(Pieces::new(text, 4096))).ok()
}

/// Returns which call was refused memory, by the worker's answers; `None` if they are none of the possible ones.
fn stage_of(answers: &[Answer], zero: Point, one: Point) -> Option<Stage> {
    let [first, second, third, fourth] = answers else {
        return None;
    };
    let added = Ok(Reply::Added);
    let refused = Ok(Reply::NoMemory);
    let ones = *fourth == Ok(Reply::PointCount(1));
    let twos = *fourth == Ok(Reply::PointCount(2));
    if *first == refused && *second == added && lists(third, &[one]) && ones {
        Some(Stage::FirstAdd)
    } else if *first == added && *second == refused && lists(third, &[zero]) && ones {
        Some(Stage::SecondAdd)
    } else if *first == added && *second == added && *third == refused && twos {
        Some(Stage::Vertices)
    } else if *first == added && *second == added && lists(third, &[zero, one]) && twos {
        Some(Stage::Whole)
    } else {
        None
    }
}

/// Allocates the storage for the answers of a script. If memory is refused, the ledgers are returned with their counts, and the next attempt
/// allocates it.
pub fn try_workers<S: HullSet + Drop>(alloc: Global, set: S) -> Result<Stage, &'static str>
    requires empty { S.held set ≡ nothing_held }
{
    let mut findings = Findings::new();
    let Some(script) = script_of(alloc, SCRIPT) else {
        return Ok(Stage::SetUp);
    };
    let Ok((book, ledgers)) = Book::open(alloc, set, 7, 4, script.workers()) else {
        return Ok(Stage::SetUp);
    };
    let (stage, made) = match Workers::new(alloc, ledgers, &script) {
        Ok(workers) => (Stage::Whole, Ok(workers)),
        Err((_, ledgers)) => {
            findings.expect(
                ledgers.len() == usize::from(script.workers()),
                "the ledgers come back",
            );
            (Stage::Refused, Workers::new(alloc, ledgers, &script))
        }
    };
    let ledgers = match made {
        Ok(workers) => workers.into_parts().1,
        Err((_, ledgers)) => {
            findings.expect(false, "the next attempt has its memory");
            ledgers
        }
    };
    give_up(book, ledgers, 0, &mut findings);
    findings.returned(stage)
}

/// Tests the result of a run that ended well: the answers, the ledgers, and the journal.
fn judge<S: HullSet + Drop>(
    alloc: Global,
    book: Book<S>,
    workers: Workers,
    findings: &mut Findings,
) -> Option<Stage>
    requires lawful { IsLawful S.HullSet book }
    requires ledgers { AreLedgers book workers.ledgers }
{
    let (answers, ledgers) = workers.into_parts();
    let zero = Point::new(0, 0).ok();
    let one = Point::new(1, 1).ok();
    let stage = match (answers.first(), zero, one) {
        (Some(given), Some(zero), Some(one)) => stage_of(given, zero, one),
        _ => None,
    };
    findings.expect(stage.is_some(), "the answers are one of the four rows");
    let sum = gather(&book, ledgers);
    findings.expect(sum == 4, "the ledgers sum to four");
    let journal = book.into_journal();
    // The one refused request may be the checker's.
    let legal = check(alloc, &journal) == CheckResult::Legal
        || check(alloc, &journal) == CheckResult::Legal;
    findings.expect(legal, "the journal is legal");
    stage
}

/// Makes a book over the set, and workers that may run the script; `None` if memory is refused to them.
#[tactic(auto, using(hull_pool::proofs::Fronts::few_each))]
pub fn prepared<S: HullSet + Drop>(
    alloc: Global,
    set: S,
    script: &Script,
) -> Option<(Book<S>, Workers)>
    requires empty { S.held set ≡ nothing_held }
    ensures { IfSome result (λ r. MayRunAll S.HullSet r.0 r.1 script.now.phases) }
{
    let Ok((book, ledgers)) = Book::open(alloc, set, 7, 4, script.workers()) else {
        return None;
    };
    match Workers::new(alloc, ledgers, script) {
        Ok(workers) => Some((book, workers)),
        Err((_, ledgers)) => {
            let _lines = gather(&book, ledgers);
            None
        }
    }
}

/// Runs the whole script. If the setup is refused memory, nothing of it ran.
pub fn try_phases<R: Threads + Wait + Sync, S: HullSet + Drop + Send + Sync>(
    rt: &R,
    alloc: Global,
    set: S,
) -> Result<Stage, &'static str>
    requires empty { S.held set ≡ nothing_held }
{
    let mut findings = Findings::new();
    let Some(script) = script_of(alloc, SCRIPT) else {
        return Ok(Stage::SetUp);
    };
    let Some((book, workers)) = prepared(alloc, set, &script) else {
        return Ok(Stage::SetUp);
    };
    let PhaseEnd {
        book,
        workers,
        ended,
    } = run_phases(rt, alloc, book, workers, &script, &NoGate);
    match ended {
        Ok(()) => {
            let stage = judge(alloc, book, workers, &mut findings);
            findings.returned(stage.unwrap_or(Stage::Whole))
        }
        Err(fault) => {
            findings.expect(fault == PoolFault::NoMemory, "the fault is want of memory");
            let (answers, ledgers) = workers.into_parts();
            let given = answers.first().map_or(1, |list| list.len());
            findings.expect(given == 0, "nothing was answered");
            give_up(book, ledgers, 0, &mut findings);
            findings.returned(Stage::Refused)
        }
    }
}

/// Runs the phase. If its setup is refused memory, nothing of it ran, and the next attempt runs it.
fn run_again<R: Threads + Wait + Sync, S: HullSet + Drop + Send + Sync>(
    rt: &R,
    alloc: Global,
    book: Book<S>,
    workers: Workers,
    phase: &Phase,
    findings: &mut Findings,
) -> (Stage, PhaseEnd<S>)
    requires { MayRunAll S.HullSet book workers (phase.now ∷ []) }
    ensures ran { OnOk result.1.ended
        (HasRunAll S.HullSet book workers (phase.now ∷ []) result.1.book result.1.workers) }
    ensures refused { OnErr result.1.ended ((result.1.book ≡ book) × (result.1.workers ≡ workers)) }
{
    let PhaseEnd {
        book,
        workers,
        ended,
    } = run_phase(rt, alloc, book, workers, phase, &NoGate);
    match ended {
        Ok(()) => (
            Stage::Whole,
            PhaseEnd {
                book,
                workers,
                ended,
            },
        ),
        Err(_) => {
            let seen = (book.turn(), book.lines().len());
            findings.expect(seen == (7, 0), "nothing of it ran");
            let end = run_phase(rt, alloc, book, workers, phase, &NoGate);
            (Stage::Refused, end)
        }
    }
}

/// Runs the first phase of the script so.
fn run_first<R: Threads + Wait + Sync, S: HullSet + Drop + Send + Sync>(
    rt: &R,
    alloc: Global,
    set: S,
    script: &Script,
) -> Result<Stage, &'static str>
    requires empty { S.held set ≡ nothing_held }
    requires some { 1 ≤ length script.now.phases }
{
    let mut findings = Findings::new();
    let Some((book, workers)) = prepared(alloc, set, script) else {
        return Ok(Stage::SetUp);
    };
    let phase = &script.phases()[0];
    let (stage, end) = run_again(rt, alloc, book, workers, phase, &mut findings);
    let PhaseEnd {
        book,
        workers,
        ended,
    } = end;
    let (_answers, ledgers) = workers.into_parts();
    match ended {
        Ok(()) => give_up(book, ledgers, 4, &mut findings),
        Err(_) => {
            findings.expect(false, "the next attempt has its memory");
            give_up(book, ledgers, 0, &mut findings);
        }
    }
    findings.returned(stage)
}

/// Runs the one phase of the script.
pub fn try_phase<R: Threads + Wait + Sync, S: HullSet + Drop + Send + Sync>(
    rt: &R,
    alloc: Global,
    set: S,
) -> Result<Stage, &'static str>
    requires empty { S.held set ≡ nothing_held }
{
    let Some(script) = script_of(alloc, SCRIPT) else {
        return Ok(Stage::SetUp);
    };
    if script.phases().is_empty() {
        return Err("the script has a phase");
    }
    run_first(rt, alloc, set, &script)
}
