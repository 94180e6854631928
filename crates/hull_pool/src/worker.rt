//! A worker: its seat, its ledger and its answers, and how it makes the calls of a phase.
ghost use Rattle.std.specs.Prelude.{◌≡◌, ℕ, ◌<◌, length, slice_index_or, vec_len, reverse, box_value, All};
ghost use Rattle.std.specs.List.{AllZip};
ghost use Rattle.ticket_lock.specs.Tokens.{opening_book};
ghost use Rattle.hull_pool.specs.Crews.{IsReady, HasRun};

use super::cache_padded::CachePadded;
use super::call::{BookLock, make_call};
use super::gate::Gate;
use hull_book::{Answer, Book, Ledger, Phase};
use hull_set::HullSet;
use std::sync::Wait;
use std::thread;
use std::thread::Threads;
use ticket_lock::{Chronicle, Seat};

/// A worker of a phase. Its seat is present whenever it does not work. The workers of a set are in one list, and each writes its ledger while it
/// holds the book and its answers afterwards: none of that shares a cache line with another worker's.
pub(crate) struct Worker<B: Chronicle> {
    pub(crate) number: u8,
    pub(crate) seat: Option<Seat<B>>,
    pub(crate) ledger: Ledger,
    pub(crate) answers: Vec<Answer>,
    pub(crate) cache_padded: CachePadded,
}

/// Makes the worker's calls of the phase in their order, with the gate around each.
pub(crate) fn work<R: Wait, S: HullSet + Drop, G: Gate>(
    rt: &R,
    lock: &BookLock<S>,
    phase: &Phase,
    gate: &G,
    worker: &mut Worker<Box<Book<S>>>,
)
    requires { IsReady lock.now (box_value (opening_book lock.now)) phase.now worker.old }
    ensures { HasRun lock.now (box_value (opening_book lock.now)) phase.now worker.old worker.new }
{
    let number = worker.number;
    let mut seat = worker.seat.take().unwrap();
    let mut index = 0u32;
    for call in phase.calls(number) {
        gate.before_call(number, index);
        let (next, answer) = make_call(rt, lock, seat, number, *call, &mut worker.ledger, ());
        worker.answers.push_reserved(answer);
        seat = next;
        gate.after_call(number, index);
        index += 1;
    }
    let none = worker.seat.replace(seat);
    let None = none else { unreachable!() };
}

/// Each worker works on the phase, in a thread of its own if the system starts that many.
fn work_each<R: Threads + Wait + Sync, S: HullSet + Drop + Send + Sync, G: Gate>(
    rt: &R,
    lock: &BookLock<S>,
    phase: &Phase,
    gate: &G,
    worker_set: &mut [Worker<Box<Book<S>>>],
)
    requires some { 0 < length worker_set.old }
    requires ready { All (IsReady lock.now (box_value (opening_book lock.now)) phase.now) worker_set.old }
    ensures { (i : ℕ) (d : _) → i < length worker_set.old
        → HasRun lock.now (box_value (opening_book lock.now)) phase.now (slice_index_or worker_set.old i d)
        (slice_index_or worker_set.new i d) }
{
    let threads = worker_set.len();
    let each = |_: usize, worker: &mut Worker<Box<Book<S>>>|
        requires { IsReady lock.now (box_value (opening_book lock.now)) phase.now worker.now }
        ensures { HasRun lock.entry.now
            (box_value (opening_book lock.entry.now)) phase.entry.now worker.entry.now worker.exit.now }
    { work(rt, lock, phase, gate, worker) };
    thread::for_each_mut(rt, worker_set, threads, &each);
}

/// All workers of a set work on the phase at once.
pub(crate) fn work_all<R: Threads + Wait + Sync, S: HullSet + Drop + Send + Sync, G: Gate>(
    rt: &R,
    lock: &BookLock<S>,
    phase: &Phase,
    gate: &G,
    worker_set: &mut Vec<Worker<Box<Book<S>>>>,
)
    requires some { 0 < vec_len worker_set.old }
    requires ready { All (IsReady lock.now (box_value (opening_book lock.now)) phase.now) (reverse worker_set.old.items) }
    ensures ran { AllZip (HasRun lock.now (box_value (opening_book lock.now)) phase.now) (reverse worker_set.old.items)
        (reverse worker_set.new.items) }
    ensures many { vec_len worker_set.new ≡ vec_len worker_set.old }
{
    work_each(rt, lock, phase, gate, worker_set.as_mut_slice());
}
