//! A script of two phases is run by one worker.
ghost use Rattle.std.specs.Prelude.{◌≡◌};
ghost use Rattle.hull_set.specs.Held.{nothing_held};
ghost use Rattle.hull_book.specs.Books.{IsLawful};
ghost use Rattle.hull_book.specs.Ledgers.{AreLedgers};

use crate::books::{give_up, serve};
use crate::findings::Findings;
use crate::phases::{prepared, script_of};
use crate::stage::Stage;
use hull_book::{Answer, Book};
use hull_pool::{NoGate, PhaseEnd, PoolFault, Workers, run_phases};
use hull_set::{Call, HullSet, Reply};
use std::alloc::Global;
use std::sync::Wait;
use std::thread::Threads;

/// The calls of the worker.
const SCRIPT: &[u8] = b"0 add 0 0\n0 add 1 1\njoin\n0 count\n";

/// Tests what a refused phase left: those before it ran completely and nothing of it did, and the book continues.
fn serve_on<S: HullSet + Drop>(book: Book<S>, workers: Workers, findings: &mut Findings) -> Stage
    requires lawful { IsLawful S.HullSet book }
    requires ledgers { AreLedgers book workers.ledgers }
{
    let mut book = book;
    let lines = book.lines().len();
    let (answers, mut ledgers) = workers.into_parts();
    let given = answers.first().map_or(1, |list| list.len());
    findings.expect(
        given == lines && (lines == 0 || lines == 2),
        "the phases before it ran whole",
    );
    let counted = serve(&mut book, &mut ledgers, Call::Count);
    findings.expect(
        counted == Ok(Reply::PointCount(lines as u32)),
        "the book serves on",
    );
    give_up(book, ledgers, lines as u64 + 1, findings);
    if lines == 0 {
        Stage::Refused
    } else {
        Stage::LaterPhase
    }
}

/// Returns which call of a script that was run completely was refused memory, by the worker's answers; `None` if they are none of the possible ones.
fn stage_of(answers: &[Answer]) -> Option<Stage> {
    let [first, second, third] = answers else {
        return None;
    };
    let added = Ok(Reply::Added);
    let refused = Ok(Reply::NoMemory);
    if *first == added && *second == added && *third == Ok(Reply::PointCount(2)) {
        return Some(Stage::Whole);
    }
    if *third != Ok(Reply::PointCount(1)) {
        return None;
    }
    if *first == refused && *second == added {
        Some(Stage::FirstAdd)
    } else if *first == added && *second == refused {
        Some(Stage::SecondAdd)
    } else {
        None
    }
}

/// Runs a script of two phases. If the second is refused memory, the first ran completely, nothing of the second did, and the book continues.
pub fn try_later<R: Threads + Wait + Sync, S: HullSet + Drop + Send + Sync>(
    rt: &R,
    alloc: Global,
    set: S,
) -> Result<Stage, &'static str>
    requires empty { S.held set ≡ nothing_held }
{
    let mut findings = Findings::new();
    let Some(script) = script_of(alloc, SCRIPT) else {
        return Ok(Stage::SetUp);
    };
    let Some((book, workers)) = prepared(alloc, set, &script) else {
        return Ok(Stage::SetUp);
    };
    let PhaseEnd {
        book,
        workers,
        ended,
    } = run_phases(rt, alloc, book, workers, &script, &NoGate);
    let stage = match ended {
        Ok(()) => {
            let (answers, ledgers) = workers.into_parts();
            let stage = answers.first().and_then(|given| stage_of(given));
            findings.expect(stage.is_some(), "the answers are one of the three rows");
            give_up(book, ledgers, 3, &mut findings);
            stage.unwrap_or(Stage::Whole)
        }
        Err(fault) => {
            findings.expect(fault == PoolFault::NoMemory, "the fault is want of memory");
            serve_on(book, workers, &mut findings)
        }
    };
    findings.returned(stage)
}
