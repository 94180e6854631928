//! Hostile schedules: races for the last lines, 64 workers at once, flags both ways, and a very long list of calls.
ghost use Rattle.std.specs.Prelude.{◌≡◌, ◌≤◌, IfOk, length};

use super::gates::Meeting;
use super::scripts::{one_phase, two_phases};
use super::{at, mark_of, returned_of, run_first, run_script};
use hull_book::{Answer, Call, JournalFull, Line, Phase, Reply, Script};
use hull_pool::{Gate, NoGate};
use lattice::Point;
use std::alloc::{AllocError, Global};
use std::process::Abort;
use std::sync::Wait;
use std::sync::atomic::{AtomicBool, AtomicU64, Ordering};
use std::test::Fail;
use std::thread;
use std::thread::Threads;

/// How often a race is run.
const RACES: u32 = 100;

/// How often a worker looks for another's flag.
const LOOKS: u32 = 10_000_000;

// The point k of a parabola.
fn on_parabola(rt: &impl Abort, k: u8) -> Point {
    let x = i64::from(k);
    at(rt, x, x.wrapping_mul(x))
}

// 64 workers add a point of a parabola each, and then the first asks questions about the result.
fn sixty_four_points(rt: &impl Abort, alloc: Global) -> Result<Script, AllocError> {
    let mut adds = [(0, Call::Count); 64];
    for k in 0..64u8 {
        adds[usize::from(k)] = (k, Call::Add(on_parabola(rt, k)));
    }
    let asks = [(0, Call::Vertices), (0, Call::Area), (0, Call::Count)];
    two_phases(alloc, 64, &adds, &asks)
}

// Whether the points are the 64 of the parabola, in their order.
fn is_parabola(rt: &impl Abort, points: &[Point]) -> bool {
    let mut right = points.len() == 64;
    for k in 0..64u8 {
        right = right && points.get(usize::from(k)).copied() == Some(on_parabola(rt, k));
    }
    right
}

// Whether the first of 64 workers got the answers for that parabola, by values worked out by hand.
fn returned_of_parabola(rt: &impl Abort, answers: &[Vec<Answer>]) -> bool {
    let [zero, ..] = answers else { return false };
    match zero.as_slice() {
        [Ok(Reply::Added), Ok(Reply::VertexList(list)), area, count] => {
            is_parabola(rt, list.as_slice())
                && matches!(area, Ok(Reply::DoubledArea(83328)))
                && matches!(count, Ok(Reply::PointCount(64)))
        }
        _ => false,
    }
}

// Whether all lines after the 64th are the first worker's.
fn asks_last(lines: &[Line]) -> bool {
    let mut all = true;
    for (k, line) in lines.iter().enumerate() {
        all = all && (k < 64 || line.seat == 0);
    }
    all
}

/// 64 workers race to add a point of a parabola each, 100 times: each time all 64 are its vertices, the doubled area is 83328, and the numbers go up
/// without a gap.
#[test]
fn sixty_four_workers_on_a_parabola(rt: HostRuntime) -> Result<(), Fail> {
    let script = sixty_four_points(&rt, rt.alloc())?;
    for _ in 0..RACES {
        let end = run_script(&rt, rt.alloc(), 0, 128, &script, &NoGate);
        let returned = returned_of(rt.alloc(), 0, &end);
        let workers = end.answers.len();
        let right = returned_of_parabola(&rt, &end.answers) && asks_last(end.journal.lines());
        drop(end);
        assert_eq!(rt; returned, (67, 67, true, true));
        assert_eq!(rt; (workers, right), (64, true));
    }
    Ok(())
}

/// All 64 workers of a phase run at once: they wait at the gate until all have come. A body that runs fewer at a time fails here.
#[test]
fn sixty_four_workers_meet(rt: HostRuntime) -> Result<(), Fail> {
    let mut calls = [(0, Call::Count); 64];
    for worker in 0..64u8 {
        calls[usize::from(worker)] = (worker, Call::Count);
    }
    let script = one_phase(rt.alloc(), 64, &calls)?;
    let meeting = Meeting::new(64);
    let sum = run_script(&rt, rt.alloc(), 0, 64, &script, &meeting).sum;
    assert_eq!(rt; (sum, meeting.met()), (64, 64));
    Ok(())
}

/// One of two workers looks at its gate for the flag that the other raises after its call.
#[derive(Drop)]
struct Flag {
    looker: u8,
    raised: AtomicBool,
    seen: AtomicBool,
}

impl Gate for Flag {
    fn before_call(&self, worker: u8, _index: u32) {
        if worker != self.looker {
            return;
        }
        for _ in 0..LOOKS {
            if self.raised.load(Ordering::SeqCst) {
                self.seen.store(true, Ordering::SeqCst);
                return;
            }
            thread::yield_now();
        }
    }

    fn after_call(&self, worker: u8, _index: u32) {
        if worker != self.looker {
            self.raised.store(true, Ordering::SeqCst);
        }
    }
}

// Of two workers the looker counts, and the other adds the point (5, 5).
fn count_and_add(alloc: Global, p: Point, looker: u8) -> Result<Script, AllocError>
    requires { looker ≤ 1 }
    ensures { IfOk result (λ s. length s.phases ≡ 1) }
{
    one_phase(
        alloc,
        2,
        &[(looker, Call::Count), (1 - looker, Call::Add(p))],
    )
}

// Whether the point was added, and then counted.
fn added_and_counted(lines: &[Line], p: Point) -> bool {
    let [add, count] = lines else { return false };
    let added = matches!(add.reply, Reply::Added) && add.call == Call::Add(p);
    added && matches!(count.reply, Reply::PointCount(1)) && count.call == Call::Count
}

// Runs the script once, in which the looker counts after the other's call. Returns whether the looker saw the flag and the point was added and then
// counted, the sum of the ledgers, and the numbers and seats of the two lines.
fn looks_once<R: Threads + Wait + Abort + Sync>(
    rt: &R,
    alloc: Global,
    script: &Script,
    looker: u8,
    p: Point,
) -> (bool, u64, [Option<(u64, u8)>; 2])
    requires { 1 ≤ length script.now.phases }
{
    let flag = Flag {
        looker,
        raised: AtomicBool::new(false),
        seen: AtomicBool::new(false),
    };
    let end = run_first(rt, alloc, script, &flag);
    let seen = flag.seen.load(Ordering::SeqCst) && added_and_counted(end.journal.lines(), p);
    let marks = [mark_of(&end.journal, 0), mark_of(&end.journal, 1)];
    (seen, end.sum, marks)
}

/// Two flags: a worker whose gate looks for the flag that the other raises after its call sees it, whichever of the two it is, 100 times each. A body
/// that runs the workers one after another fails one of the two.
#[test]
fn workers_one_after_another(rt: HostRuntime) -> Result<(), Fail> {
    let p = at(&rt, 5, 5);
    for looker in [0u8, 1] {
        let script = count_and_add(rt.alloc(), p, looker)?;
        for _ in 0..RACES {
            let found = looks_once(&rt, rt.alloc(), &script, looker, p);
            assert_eq!(rt;
                found,
                (true, 2, [Some((0, 1 - looker)), Some((1, looker))])
            );
        }
    }
    Ok(())
}

/// How many calls the long list has.
const MANY: u32 = 70_000;

/// How many calls the gate was called for, and whether it was ever called for another than the next one.
#[derive(Drop)]
struct Count {
    returned: AtomicU64,
    out_of_turn: AtomicBool,
}

impl Gate for Count {
    fn before_call(&self, _worker: u8, index: u32) {
        if self.returned.load(Ordering::SeqCst) != u64::from(index) {
            self.out_of_turn.store(true, Ordering::SeqCst);
        }
    }

    fn after_call(&self, _worker: u8, index: u32) {
        if self.returned.fetch_add(1, Ordering::SeqCst) != u64::from(index) {
            self.out_of_turn.store(true, Ordering::SeqCst);
        }
    }
}

// One worker counts 70000 times.
fn long_list(alloc: Global) -> Result<Script, AllocError>
    ensures { IfOk result (λ s. length s.phases ≡ 1) }
{
    let mut calls = Vec::new(alloc);
    for _made in 0..MANY {
        calls.push(Call::Count)?;
    }
    let mut jobs = Vec::with_capacity(alloc, 1)?;
    let mut phases = Vec::with_capacity(alloc, 1)?;
    jobs.push_reserved(calls);
    phases.push_reserved(Phase::new(jobs));
    Ok(Script::new(1, phases))
}

// How many answers the only worker has, and whether the eighth is that no point is there and the ninth that the journal
// is full.
fn filled(answers: &[Vec<Answer>]) -> Option<(usize, bool)> {
    let [own] = answers else { return None };
    let eighth = matches!(own.get(7), Some(Ok(Reply::PointCount(0))));
    Some((
        own.len(),
        eighth && matches!(own.get(8), Some(Err(JournalFull))),
    ))
}

/// The gate is called for every call of a list of 70000, each by its own index: a count in 16 bits fails here.
#[test]
fn gate_returned_of_seventy_thousand_calls(rt: HostRuntime) -> Result<(), Fail> {
    let script = long_list(rt.alloc())?;
    let count = Count {
        returned: AtomicU64::new(0),
        out_of_turn: AtomicBool::new(false),
    };
    let end = run_first(&rt, rt.alloc(), &script, &count);
    let (sum, answered) = (end.sum, filled(&end.answers));
    drop(end);
    drop(script);
    let returned = count.returned.load(Ordering::SeqCst);
    let out_of_turn = count.out_of_turn.load(Ordering::SeqCst);
    assert_eq!(rt; (sum, returned, out_of_turn), (8, 70_000, false));
    assert_eq!(rt; answered, Some((70_000, true)));
    Ok(())
}
