//! The worker set of a phase: assembled from seats, answers and ledgers, and disbanded again.
ghost use Rattle.std.specs.Prelude.{◌≡◌, ◌+◌, ◌<◌, ◌≤◌, ℕ, List, [], ◌∷◌, ◌++◌, Some, IsSome, IfSome, length, reverse};
ghost use Rattle.std.specs.Prelude.{slice_index_or, vec_len, vec_capacity, All};
ghost use Rattle.ticket_lock.specs.Tokens.{seat_number};
ghost use Rattle.hull_pool.specs.Crews.{team, worker_of};

use super::cache_padded::CachePadded;
use super::worker::Worker;
use hull_book::{Answer, Ledger};
use ticket_lock::{Chronicle, Seat};

/// Makes a worker of each seat, with its answers and its ledger. The worker of the last seat is the first.
pub(crate) fn assemble<B: Chronicle>(
    seats: &mut Vec<Seat<B>>,
    answers: &mut Vec<Vec<Answer>>,
    ledgers: &mut Vec<Ledger>,
    worker_set: &mut Vec<Worker<B>>,
)
    requires answers { vec_len answers.old ≡ vec_len seats.old }
    requires ledgers { vec_len ledgers.old ≡ vec_len seats.old }
    requires worker_set { worker_set.old.items ≡ [] }
    requires space { vec_len seats.old ≤ vec_capacity worker_set.old }
    ensures empty { (seats.new.items ≡ []) × (answers.new.items ≡ []) × (ledgers.new.items ≡ []) }
    ensures space { (vec_capacity seats.new ≡ vec_capacity seats.old)
        × (vec_capacity answers.new ≡ vec_capacity answers.old)
        × (vec_capacity ledgers.new ≡ vec_capacity ledgers.old) }
    ensures worker_set { reverse worker_set.new.items ≡ team worker_of seats.old.items answers.old.items ledgers.old.items }
{
    while let Some(seat) = seats.pop() {
        let number = seat.number();
        worker_set.push_reserved(Worker {
            number,
            seat: Some(seat),
            ledger: ledgers.pop().unwrap(),
            answers: answers.pop().unwrap(),
            cache_padded: CachePadded::new(),
        });
    }
}

/// Separates the workers into their seats, answers and ledgers, beginning with the last worker's.
pub(crate) fn disband<B: Chronicle>(
    worker_set: &mut Vec<Worker<B>>,
    seats: &mut Vec<Seat<B>>,
    answers: &mut Vec<Vec<Answer>>,
    ledgers: &mut Vec<Ledger>,
)
    requires seated { All (λ w. IsSome w.seat) worker_set.old.items }
    requires numbered { All (λ w. IfSome w.seat (λ s. seat_number s ≡ w.number)) worker_set.old.items }
    requires empty { (seats.old.items ≡ []) × (answers.old.items ≡ []) × (ledgers.old.items ≡ []) }
    requires space { (vec_len worker_set.old ≤ vec_capacity seats.old) × (vec_len worker_set.old ≤ vec_capacity answers.old)
        × (vec_len worker_set.old ≤ vec_capacity ledgers.old) }
    ensures worker_set { worker_set.new.items ≡ [] }
    ensures team { team worker_of seats.new.items answers.new.items ledgers.new.items ≡ reverse worker_set.old.items }
    ensures long { (vec_len seats.new ≡ vec_len worker_set.old) × (vec_len answers.new ≡ vec_len worker_set.old)
        × (vec_len ledgers.new ≡ vec_len worker_set.old) }
{
    while let Some(worker) = worker_set.pop() {
        let Worker {
            number: _,
            seat,
            ledger,
            answers: given,
            cache_padded: _,
        } = worker;
        seats.push_reserved(seat.unwrap());
        answers.push_reserved(given);
        ledgers.push_reserved(ledger);
    }
}
