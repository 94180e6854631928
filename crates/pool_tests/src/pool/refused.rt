//! Phases that are refused memory. `rt try --test --fail-alloc N` refuses the Nth allocation of each test.
ghost use Rattle.std.specs.Prelude.{◌≡◌, ◌≤◌, [], ◌∷◌, OnOk, length};
ghost use Rattle.hull_plain.specs.Sets.{plain_set};
ghost use Rattle.hull_book.specs.Books.{IsLawful};
ghost use Rattle.hull_book.specs.Ledgers.{AreLedgers};
ghost use Rattle.hull_pool.specs.Runs.{MayRunAll, HasRunAll};

use super::{Outcome, outcome_of, ready, three_vertices};
use hull_book::{Book, Call, CheckResult, Journal, Ledger, Phase, Reply, Script, check, gather};
use hull_plain::PlainSet;
use hull_pool::{Gate, PhaseEnd, PoolFault, Workers, run_phase, run_phases};
use std::alloc::{AllocError, Global};
use std::process::Abort;
use std::sync::Wait;
use std::sync::atomic::{AtomicU64, Ordering};
use std::test::Fail;
use std::thread::Threads;

/// Counts the calls that were begun and ended.
#[derive(Drop)]
struct Calls {
    begun: AtomicU64,
    ended: AtomicU64,
}

impl Calls {
    fn new() -> Calls {
        Calls {
            begun: AtomicU64::new(0),
            ended: AtomicU64::new(0),
        }
    }

    // Returns how many calls were begun, and how many have ended.
    fn counts(&self) -> (u64, u64) {
        let begun = self.begun.load(Ordering::SeqCst);
        (begun, self.ended.load(Ordering::SeqCst))
    }
}

impl Gate for Calls {
    fn before_call(&self, _worker: u8, _index: u32) {
        self.begun.fetch_add(1, Ordering::SeqCst);
    }

    fn after_call(&self, _worker: u8, _index: u32) {
        self.ended.fetch_add(1, Ordering::SeqCst);
    }
}

// Returns the script of three vertices. If memory is refused, the second attempt returns it.
fn vertices(rt: &impl Abort, alloc: Global) -> Result<Script, AllocError> {
    match three_vertices(rt, alloc) {
        Ok(script) => Ok(script),
        Err(AllocError) => three_vertices(rt, alloc),
    }
}

// Runs the phase. If it is refused, the book has no line more and its turn is the same, no call was begun, and the phase runs at the second attempt.
fn runs_again<R: Threads + Wait + Abort + Sync>(
    rt: &R,
    alloc: Global,
    book: Book<PlainSet>,
    workers: Workers,
    phase: &Phase,
    calls: &Calls,
) -> PhaseEnd<PlainSet>
    requires { MayRunAll plain_set book workers (phase.now ∷ []) }
    ensures { OnOk result.ended (HasRunAll plain_set book workers (phase.now ∷ []) result.book result.workers) }
{
    let before = (book.turn(), book.lines().len());
    let end = run_phase(rt, alloc, book, workers, phase, calls);
    let PhaseEnd {
        book,
        workers,
        ended,
    } = end;
    match ended {
        Ok(()) => PhaseEnd {
            book,
            workers,
            ended,
        },
        Err(fault) => {
            assert_eq!(rt; fault, PoolFault::NoMemory);
            assert_eq!(rt; (book.turn(), book.lines().len()), before);
            assert_eq!(rt; calls.counts(), (0, 0));
            run_phase(rt, alloc, book, workers, phase, calls)
        }
    }
}

// Runs the first phase of the script so.
fn runs_first<R: Threads + Wait + Abort + Sync>(
    rt: &R,
    alloc: Global,
    script: &Script,
    calls: &Calls,
) -> Outcome
    requires { 1 ≤ length script.now.phases }
{
    let (book, workers) = ready(rt, alloc, 7, 8, script);
    let phase = &script.phases()[0];
    let PhaseEnd {
        book,
        workers,
        ended,
    } = runs_again(rt, alloc, book, workers, phase, calls);
    match ended {
        Ok(()) => outcome_of(book, workers),
        Err(_) => panic!(rt; "memory is refused once"),
    }
}

// Whether the journal is legal. If the checker is refused memory, the second attempt checks it.
fn is_legal(alloc: Global, journal: &Journal) -> bool {
    check(alloc, journal) == CheckResult::Legal || check(alloc, journal) == CheckResult::Legal
}

/// A phase that is refused memory fails with `NoMemory`: nothing of it ran, its book has no line more, and serves the phase at the second attempt.
#[test]
fn refused_phase(rt: HostRuntime) -> Result<(), Fail> {
    let script = vertices(&rt, rt.alloc())?;
    assert_eq!(rt; script.phases().len(), 2);
    let calls = Calls::new();
    let end = runs_first(&rt, rt.alloc(), &script, &calls);
    assert_eq!(rt; calls.counts(), (3, 3));
    assert_eq!(rt; (end.sum, end.journal.lines().len()), (3, 3));
    assert!(rt; is_legal(rt.alloc(), &end.journal));
    Ok(())
}

// The seat counts the points once more. Returns how many lines the journal has then.
fn count_on(rt: &impl Abort, book: &mut Book<PlainSet>, ledgers: &mut Vec<Ledger>) -> u64
    requires lawful { IsLawful plain_set book.old }
    requires ledgers { AreLedgers book.old ledgers.old.items }
    requires some { 1 ≤ book.old.head.workers }
    ensures lawful { IsLawful plain_set book.new }
    ensures ledgers { AreLedgers book.new ledgers.new.items }
{
    match book.serve(0, Call::Count, &mut ledgers[0]) {
        Ok(Reply::PointCount(_)) => book.lines().len() as u64,
        _ => panic!(rt; "the points are counted"),
    }
}
