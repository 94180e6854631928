//! Workers that run the phases of a script over a book.
ghost use Rattle.std.specs.Prelude.{◌≡◌, ◌≤◌, [], IfOk, length};
ghost use Rattle.hull_plain.specs.Sets.{plain_set};
ghost use Rattle.hull_book.specs.Books.{IsLawful};
ghost use Rattle.hull_book.specs.Ledgers.{AreLedgers};
ghost use Rattle.hull_pool.specs.Runs.{MayRunAll};

use hull_book::{
    Book, Call, CheckResult, JournalFull, Ledger, Phase, Reply, Script, check, gather,
};
use hull_plain::{NoMemory, PlainSet};
use hull_pool::{Gate, NoGate, PhaseEnd, PoolFault, Workers, run_phase, run_phases};
use std::alloc::{AllocError, Global};
use std::process::Abort;
use std::sync::Wait;
use std::sync::atomic::{AtomicBool, Ordering};
use std::test::Fail;
use std::thread;
use std::thread::Threads;

/// How often a worker looks for the other's flag.
const LOOKS: u32 = 10_000_000;

/// A flag for each of two workers, and whether each has seen the other's.
#[derive(Drop)]
struct Flags {
    zero: AtomicBool,
    one: AtomicBool,
    zero_met: AtomicBool,
    one_met: AtomicBool,
}

// Raises its own flag and looks for the other.
fn meet(own: &AtomicBool, other: &AtomicBool, met: &AtomicBool) {
    own.store(true, Ordering::SeqCst);
    for _ in 0..LOOKS {
        if other.load(Ordering::SeqCst) {
            met.store(true, Ordering::SeqCst);
            return;
        }
        thread::yield_now();
    }
}

impl Flags {
    fn new() -> Flags {
        Flags {
            zero: AtomicBool::new(false),
            one: AtomicBool::new(false),
            zero_met: AtomicBool::new(false),
            one_met: AtomicBool::new(false),
        }
    }

    // Whether each has seen the other's flag.
    fn met(&self) -> (bool, bool) {
        let zero = self.zero_met.load(Ordering::SeqCst);
        (zero, self.one_met.load(Ordering::SeqCst))
    }
}

impl Gate for Flags {
    fn before_call(&self, worker: u8, _index: u32) {
        if worker == 0 {
            meet(&self.zero, &self.one, &self.zero_met);
        } else {
            meet(&self.one, &self.zero, &self.one_met);
        }
    }

    fn after_call(&self, _worker: u8, _index: u32) {}
}

// Two workers with one call each, in one phase.
fn two_counts(alloc: Global) -> Result<Script, AllocError>
    ensures { IfOk result (λ s. (s.workers ≡ 2) × (length s.phases ≡ 1)) }
{
    let zero = Vec::from_array(alloc, [Call::Count])?;
    let one = Vec::from_array(alloc, [Call::Count])?;
    let phase = Phase {
        jobs: Vec::from_array(alloc, [zero, one])?,
    };
    let phases = Vec::from_array(alloc, [phase])?;
    Ok(Script { workers: 2, phases })
}

// A book over an empty set and the workers of a script.
#[tactic(auto, using(hull_pool::proofs::Fronts::few_each))]
fn ready(rt: &impl Abort, alloc: Global, script: &Script) -> (Book<PlainSet>, Workers)
    ensures { MayRunAll plain_set result.0 result.1 script.now.phases }
{
    let Ok((book, ledgers)) = Book::open(alloc, PlainSet::new(alloc, 64), 0, 8, script.workers())
    else {
        panic!(rt; "there is memory for the book")
    };
    let made: Result<Workers, (NoMemory, Vec<Ledger>)> = Workers::new(alloc, ledgers, script);
    match made {
        Ok(workers) => (book, workers),
        Err(_) => panic!(rt; "there is memory for the workers"),
    }
}

// How many lines the journal of a run has, by the sum of the ledgers, and whether it is legal.
fn ended(rt: &impl Abort, alloc: Global, end: PhaseEnd<PlainSet>) -> (u64, usize, CheckResult)
    requires lawful { IsLawful plain_set end.book }
    requires ledgers { AreLedgers end.book end.workers.ledgers }
{
    let PhaseEnd {
        book,
        workers,
        ended: how,
    } = end;
    let how: Result<(), PoolFault> = how;
    assert!(rt; how.is_ok());
    let parts: (Vec<Vec<Result<Reply, JournalFull>>>, Vec<Ledger>) = workers.into_parts();
    let (answers, ledgers) = parts;
    let sum = gather(&book, ledgers);
    let journal = book.into_journal();
    (sum, answers.len(), check(alloc, &journal))
}

// The first phase of the script, by `run_phase`.
fn by_phase<R: Threads + Wait + Abort + Sync, G: Gate>(
    rt: &R,
    alloc: Global,
    script: &Script,
    gate: &G,
) -> (u64, usize, CheckResult)
    requires { 1 ≤ length script.now.phases }
{
    let (book, workers) = ready(rt, alloc, script);
    let phase: &Phase = &script.phases()[0];
    let end: PhaseEnd<PlainSet> = run_phase(rt, alloc, book, workers, phase, gate);
    if end.ended.is_err() {
        panic!(rt; "there is memory for the phase")
    }
    ended(rt, alloc, end)
}

// The whole script, by `run_phases`.
fn by_phases<R: Threads + Wait + Abort + Sync, G: Gate>(
    rt: &R,
    alloc: Global,
    script: &Script,
    gate: &G,
) -> (u64, usize, CheckResult) {
    let (book, workers) = ready(rt, alloc, script);
    let end: PhaseEnd<PlainSet> = run_phases(rt, alloc, book, workers, script, gate);
    if end.ended.is_err() {
        panic!(rt; "there is memory for the phases")
    }
    ended(rt, alloc, end)
}

/// Both workers run at once: each sees the other's flag before its call.
#[test]
fn two_flags(rt: HostRuntime) -> Result<(), Fail> {
    let script = two_counts(rt.alloc())?;
    let flags = Flags::new();
    let end = by_phase(&rt, rt.alloc(), &script, &flags);
    let met = flags.met();
    let again = Flags::new();
    let all = by_phases(&rt, rt.alloc(), &script, &again);
    let met_again = again.met();
    assert_eq!(rt; (end, met), ((2, 2, CheckResult::Legal), (true, true)));
    assert_eq!(rt;
        (all, met_again),
        ((2, 2, CheckResult::Legal), (true, true))
    );
    Ok(())
}

#[test]
fn no_gate(rt: HostRuntime) -> Result<(), Fail> {
    let script = two_counts(rt.alloc())?;
    let end = by_phases(&rt, rt.alloc(), &script, &NoGate);
    assert_eq!(rt; end, (2, 2, CheckResult::Legal));
    Ok(())
}
