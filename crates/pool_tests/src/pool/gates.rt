//! Gates by which two workers test for each other, and wait for each other.
ghost use Rattle.std.specs.Prelude.{◌≡◌, IfOk, length};

use super::scripts::one_phase;
use super::{mark_of, run_first, run_script, three_at_once};
use hull_book::{Call, Script};
use hull_pool::Gate;
use std::alloc::{AllocError, Global};
use std::sync::atomic::{AtomicBool, AtomicU64, Ordering};
use std::test::Fail;
use std::thread;

/// How often the two workers test for each other.
const RACES: u32 = 100;

/// How often a worker looks for the other's flag.
const LOOKS: u32 = 10_000_000;

/// A flag for each of two workers, and whether each has seen the other's.
#[derive(Drop)]
struct Flags {
    zero: AtomicBool,
    one: AtomicBool,
    zero_met: AtomicBool,
    one_met: AtomicBool,
}

// Raises its own flag and looks for the other.
fn meet(own: &AtomicBool, other: &AtomicBool, met: &AtomicBool) {
    own.store(true, Ordering::SeqCst);
    for _ in 0..LOOKS {
        if other.load(Ordering::SeqCst) {
            met.store(true, Ordering::SeqCst);
            return;
        }
        thread::yield_now();
    }
}

impl Flags {
    fn new() -> Flags {
        Flags {
            zero: AtomicBool::new(false),
            one: AtomicBool::new(false),
            zero_met: AtomicBool::new(false),
            one_met: AtomicBool::new(false),
        }
    }

    // Whether each has seen the other's flag.
    fn met(&self) -> (bool, bool) {
        let zero = self.zero_met.load(Ordering::SeqCst);
        (zero, self.one_met.load(Ordering::SeqCst))
    }
}

impl Gate for Flags {
    fn before_call(&self, worker: u8, _index: u32) {
        if worker == 0 {
            meet(&self.zero, &self.one, &self.zero_met);
        } else {
            meet(&self.one, &self.zero, &self.one_met);
        }
    }

    fn after_call(&self, _worker: u8, _index: u32) {}
}

/// One of two workers waits at its gate until the other's call has ended.
#[derive(Drop)]
struct Behind {
    waits: u8,
    ended: AtomicBool,
}

impl Gate for Behind {
    fn before_call(&self, worker: u8, _index: u32) {
        if worker != self.waits {
            return;
        }
        for _ in 0..LOOKS {
            if self.ended.load(Ordering::SeqCst) {
                return;
            }
            thread::yield_now();
        }
    }

    fn after_call(&self, worker: u8, _index: u32) {
        if worker != self.waits {
            self.ended.store(true, Ordering::SeqCst);
        }
    }
}

// Two workers count once each, at once.
fn two_counts(alloc: Global) -> Result<Script, AllocError>
    ensures { IfOk result (λ s. length s.phases ≡ 1) }
{
    one_phase(alloc, 2, &[(0, Call::Count), (1, Call::Count)])
}

/// `run_phase` runs both workers at once, 100 times: each sees the other's flag before its call. A body that runs the workers one after another ends
/// with a flag that was not seen, and fails here.
#[test]
fn two_flags_by_run_phase(rt: HostRuntime) -> Result<(), Fail> {
    let script = two_counts(rt.alloc())?;
    for _ in 0..RACES {
        let flags = Flags::new();
        let sum = run_first(&rt, rt.alloc(), &script, &flags).sum;
        let met = flags.met();
        assert_eq!(rt; (sum, met), (2, (true, true)));
    }
    Ok(())
}

/// The same of `run_phases`.
#[test]
fn two_flags_by_run_phases(rt: HostRuntime) -> Result<(), Fail> {
    let script = two_counts(rt.alloc())?;
    for _ in 0..RACES {
        let flags = Flags::new();
        let sum = run_script(&rt, rt.alloc(), 0, 8, &script, &flags).sum;
        let met = flags.met();
        assert_eq!(rt; (sum, met), (2, (true, true)));
    }
    Ok(())
}

/// The gate is around each call: a worker that waits at it until the other's call has ended is the second in the journal, whichever of them it is, 20
/// times each. A body that opens the gate before a call too late, or after it too soon, fails here.
#[test]
fn gate_round_each_call(rt: HostRuntime) -> Result<(), Fail> {
    let script = two_counts(rt.alloc())?;
    for round in 0..40u8 {
        let waits = round % 2;
        let gate = Behind {
            waits,
            ended: AtomicBool::new(false),
        };
        let end = run_first(&rt, rt.alloc(), &script, &gate);
        let marks = (mark_of(&end.journal, 0), mark_of(&end.journal, 1));
        let count = end.journal.lines().len();
        drop(end);
        assert_eq!(rt;
            (count, marks),
            (2, (Some((0, 1 - waits)), Some((1, waits))))
        );
    }
    Ok(())
}

/// A gate at which this many workers wait for one another before their calls.
#[derive(Drop)]
pub(super) struct Meeting {
    size: u64,
    arrived: AtomicU64,
    met: AtomicU64,
}

impl Meeting {
    pub(super) fn new(size: u64) -> Meeting {
        Meeting {
            size,
            arrived: AtomicU64::new(0),
            met: AtomicU64::new(0),
        }
    }

    /// How many workers have met all others.
    pub(super) fn met(&self) -> u64 {
        self.met.load(Ordering::SeqCst)
    }
}

impl Gate for Meeting {
    fn before_call(&self, _worker: u8, _index: u32) {
        self.arrived.fetch_add(1, Ordering::SeqCst);
        for _ in 0..LOOKS {
            if self.arrived.load(Ordering::SeqCst) == self.size {
                self.met.fetch_add(1, Ordering::SeqCst);
                return;
            }
            thread::yield_now();
        }
    }

    fn after_call(&self, _worker: u8, _index: u32) {}
}

/// All workers run at once: eight of them wait at the gate until all have come. A body that runs fewer at a time fails here.
#[test]
fn eight_workers_meet(rt: HostRuntime) -> Result<(), Fail> {
    let mut calls = [(0, Call::Count); 8];
    for worker in 0..8u8 {
        calls[usize::from(worker)] = (worker, Call::Count);
    }
    let script = one_phase(rt.alloc(), 8, &calls)?;
    let meeting = Meeting::new(8);
    let sum = run_first(&rt, rt.alloc(), &script, &meeting).sum;
    assert_eq!(rt; (sum, meeting.met()), (8, 8));
    Ok(())
}

/// How often the gate was called for each of three workers that make three calls in each phase, and whether it was ever called for another call than
/// the next one.
#[derive(Drop)]
struct Returned {
    zero: AtomicU64,
    one: AtomicU64,
    two: AtomicU64,
    out_of_turn: AtomicBool,
}

impl Returned {
    fn new() -> Returned {
        Returned {
            zero: AtomicU64::new(0),
            one: AtomicU64::new(0),
            two: AtomicU64::new(0),
            out_of_turn: AtomicBool::new(false),
        }
    }

    // The worker's call begins, or has ended.
    fn report(&self, worker: u8, index: u32, has_ended: bool) {
        let times = match worker {
            0 => &self.zero,
            1 => &self.one,
            _ => &self.two,
        };
        let before = times.fetch_add(1, Ordering::SeqCst);
        if before % 6 != 2 * u64::from(index) + u64::from(has_ended) {
            self.out_of_turn.store(true, Ordering::SeqCst);
        }
    }
}

impl Gate for Returned {
    fn before_call(&self, worker: u8, index: u32) {
        self.report(worker, index, false);
    }

    fn after_call(&self, worker: u8, index: u32) {
        self.report(worker, index, true);
    }
}

/// The gate is called for each worker's calls in their order, counted from 0 in each phase: when a call begins, and when it has ended.
#[test]
fn gate_returned_of_each_call(rt: HostRuntime) -> Result<(), Fail> {
    let script = three_at_once(&rt, rt.alloc())?;
    let returned = Returned::new();
    let sum = run_script(&rt, rt.alloc(), 0, 32, &script, &returned).sum;
    let out_of_turn = returned.out_of_turn.load(Ordering::SeqCst);
    let zero = returned.zero.load(Ordering::SeqCst);
    let one = returned.one.load(Ordering::SeqCst);
    let two = returned.two.load(Ordering::SeqCst);
    assert_eq!(rt; (sum, out_of_turn), (18, false));
    assert_eq!(rt; (zero, one, two), (12, 12, 12));
    Ok(())
}
