//! One phase: a lock is opened around the book, the workers run, and the lock is closed.
ghost use Rattle.std.specs.Prelude.{◌≡◌, ◌≤◌, [], ◌∷◌, IfOk, IfErr, OnOk, OnErr, Err, All, box_value, vec_len};
ghost use Rattle.std.specs.Prelude.{vec_capacity};
ghost use Rattle.ticket_lock.specs.Tokens.{seat_count, opening_book, IsSeatOf, AreNumbered, seat_seen};
ghost use Rattle.hull_book.specs.Books.{IsLawful};
ghost use Rattle.hull_pool.specs.Answers.{shown_workers};
ghost use Rattle.hull_pool.specs.Crews.{book_head};
ghost use Rattle.hull_pool.specs.Work.{workers_of};
ghost use Rattle.hull_pool.specs.Runs.{MayRunAll, HasRunAll};
ghost use Rattle.hull_pool.specs.Scripts.{Runs, RunsFront};

use super::call::{BookLock, BookSeat};
use super::gate::Gate;
use super::worker::{Worker, work_all};
use super::worker_set::{assemble, disband};
use super::workers::Workers;
use hull_book::{Answer, Book, Ledger, Phase, Script};
use hull_set::HullSet;
use std::alloc::Global;
use std::sync::Wait;
use std::thread::Threads;
use ticket_lock::TicketLock;

/// Why a phase was not run.
#[derive(Clone, Copy, PartialEq, Eq, Debug)]
pub enum PoolFault {
    /// Memory for the lock or for setting the phase up was refused.
    NoMemory,
}

/// The result of a run: the book, which is closed, the workers, and how it ended.
pub struct PhaseEnd<S: HullSet + Drop> {
    /// The book, lawful in every case.
    pub book: Book<S>,
    /// The workers with their answers and ledgers.
    pub workers: Workers,
    /// Whether all was run; if not, the phase that was refused was not run at all.
    pub ended: Result<(), PoolFault>,
}

/// The requirements of a phase besides its workers: a lock around the book, its seats, and storage for a worker set.
struct SetUp<S: HullSet + Drop> {
    lock: BookLock<S>,
    seats: Vec<BookSeat<S>>,
    worker_set: Vec<Worker<Box<Book<S>>>>,
}

/// Runs the workers over the phase under a lock that was opened for them, and closes it.
fn run_locked<R: Threads + Wait + Sync, S: HullSet + Drop + Send + Sync, G: Gate>(
    rt: &R,
    lock: BookLock<S>,
    mut seats: Vec<BookSeat<S>>,
    answers: &mut Vec<Vec<Answer>>,
    ledgers: &mut Vec<Ledger>,
    mut worker_set: Vec<Worker<Box<Book<S>>>>,
    phase: &Phase,
    gate: &G,
) -> Box<Book<S>>
    requires worker_set { (worker_set.items ≡ []) × (vec_len seats ≤ vec_capacity worker_set) }
    requires some { 1 ≤ vec_len seats }
    requires seats { (seat_count lock ≡ workers_of (box_value (opening_book lock))) × (vec_len seats ≡ seat_count lock)
        × (vec_len seats ≤ vec_capacity seats) × All (IsSeatOf book_head lock) seats.items × AreNumbered seats.items
        × All (λ s. seat_seen s ≡ (box_value (opening_book lock)).lines) seats.items }
    requires may { MayRunAll S.HullSet (box_value (opening_book lock))
        (shown_workers answers.old.items ledgers.old.items) (phase.now ∷ []) }
    ensures { HasRunAll S.HullSet (box_value (opening_book lock)) (shown_workers answers.old.items ledgers.old.items)
        (phase.now ∷ []) (box_value result) (shown_workers answers.new.items ledgers.new.items) }
{
    assemble(&mut seats, answers, ledgers, &mut worker_set);
    work_all(rt, &lock, phase, gate, &mut worker_set);
    disband(&mut worker_set, &mut seats, answers, ledgers);
    worker_set.destroy_empty();
    lock.close(seats)
}

/// Returns the end of a phase of which nothing ran.
fn refused<S: HullSet + Drop>(book: Book<S>, workers: Workers) -> PhaseEnd<S>
    ensures book { result.book ≡ book }
    ensures workers { result.workers ≡ workers }
    ensures ended { result.ended ≡ Err PoolFault.NoMemory }
{
    PhaseEnd {
        book,
        workers,
        ended: Err(PoolFault::NoMemory),
    }
}

/// Makes a lock around the book, its seats, and storage for a worker set. Returns the book if memory was refused.
fn set_up<S: HullSet + Drop>(alloc: Global, book: Book<S>) -> Result<SetUp<S>, Book<S>>
    requires lawful { IsLawful S.HullSet book }
    ensures lock { IfOk result (λ r. (box_value (opening_book r.lock) ≡ book) × (seat_count r.lock ≡ workers_of book)) }
    ensures worker_set { IfOk result (λ r. (r.worker_set.items ≡ []) × (vec_len r.seats ≤ vec_capacity r.worker_set)) }
    ensures seats { IfOk result
        (λ r. (1 ≤ vec_len r.seats) × (vec_len r.seats ≡ seat_count r.lock) × (vec_len r.seats ≤ vec_capacity r.seats)
        × All (IsSeatOf book_head r.lock) r.seats.items × AreNumbered r.seats.items
        × All (λ s. seat_seen s ≡ book.lines) r.seats.items) }
    ensures back { IfErr result (λ b. b ≡ book) }
{
    let workers = book.workers();
    let Ok(worker_set) = Vec::with_capacity(alloc, usize::from(workers)) else {
        return Err(book);
    };
    let boxed = match Box::new(alloc, book) {
        Ok(boxed) => boxed,
        Err(back) => {
            worker_set.destroy_empty();
            return Err(back.value);
        }
    };
    match TicketLock::open(alloc, boxed, workers) {
        Ok((lock, seats)) => Ok(SetUp {
            lock,
            seats,
            worker_set,
        }),
        Err((_, boxed)) => {
            worker_set.destroy_empty();
            Err(Box::into_inner(boxed))
        }
    }
}

/// Runs the workers over one phase of calls: opens a lock with a seat for each worker around the book, runs the workers, each in a thread of its own
/// if the system starts that many, and closes the lock.
///
/// Fails with `NoMemory` if the lock or the setup was refused; then nothing of the phase ran.
pub fn run_phase<R: Threads + Wait + Sync, S: HullSet + Drop + Send + Sync, G: Gate>(
    rt: &R,
    alloc: Global,
    book: Book<S>,
    workers: Workers,
    phase: &Phase,
    gate: &G,
) -> PhaseEnd<S>
    requires { MayRunAll S.HullSet book workers (phase.now ∷ []) }
    ensures ran { OnOk result.ended (HasRunAll S.HullSet book workers (phase.now ∷ []) result.book result.workers) }
    ensures refused { OnErr result.ended ((result.book ≡ book) × (result.workers ≡ workers)) }
{
    let SetUp {
        lock,
        seats,
        worker_set,
    } = match set_up(alloc, book) {
        Ok(made) => made,
        Err(book) => return refused(book, workers),
    };
    let Workers {
        mut answers,
        mut ledgers,
    } = workers;
    let boxed = run_locked(
        rt,
        lock,
        seats,
        &mut answers,
        &mut ledgers,
        worker_set,
        phase,
        gate,
    );
    PhaseEnd {
        book: Box::into_inner(boxed),
        workers: Workers { answers, ledgers },
        ended: Ok(()),
    }
}

/// Runs the phases of a script in their order, and stops at the first that is refused.
///
/// Fails with `NoMemory` if a phase was refused; then those before it ran completely, and nothing of it did.
pub fn run_phases<R: Threads + Wait + Sync, S: HullSet + Drop + Send + Sync, G: Gate>(
    rt: &R,
    alloc: Global,
    book: Book<S>,
    workers: Workers,
    script: &Script,
    gate: &G,
) -> PhaseEnd<S>
    requires { MayRunAll S.HullSet book workers script.now.phases }
    ensures ran { OnOk result.ended (Runs S.HullSet book workers script.now.phases result.book result.workers) }
    ensures refused { OnErr result.ended
        (RunsFront S.HullSet book workers script.now.phases result.book result.workers) }
{
    let mut book = book;
    let mut workers = workers;
    for phase in script.phases() {
        let end = run_phase(rt, alloc, book, workers, phase, gate);
        let PhaseEnd {
            book: after,
            workers: with,
            ended,
        } = end;
        book = after;
        workers = with;
        if let Err(fault) = ended {
            return PhaseEnd {
                book,
                workers,
                ended: Err(fault),
            };
        }
    }
    PhaseEnd {
        book,
        workers,
        ended: Ok(()),
    }
}
