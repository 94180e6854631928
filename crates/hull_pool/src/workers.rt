ghost use Rattle.std.specs.Prelude.{◌≡◌, ◌≤◌, ◌<◌, All, IfOk, IfErr, length, map, vec_len};
ghost use Rattle.hull_book.specs.Scripts.{calls_of, calls_in_all};
ghost use Rattle.hull_book.specs.declared.limits.TheConstants.{TEXT_LINE_LIMIT};
ghost use Rattle.hull_book.specs.Answers.{answers_in};
ghost use Rattle.hull_pool.specs.Answers.{HasSpaceFor, shown};

use hull_book::{Answer, Ledger, Phase, Script};
use hull_set::NoMemory;
use std::alloc::{AllocError, Global};
use std::marker::Model;

/// The answers and the ledgers of the workers of a book, with storage for every answer of a script.
pub struct Workers {
    pub(crate) answers: Vec<Vec<Answer>>,
    pub(crate) ledgers: Vec<Ledger>,
}

impl Model for Workers {
    ghost use Rattle.hull_pool.specs.Answers.{WorkersValue, shown_workers};

    ghost Value = { WorkersValue };

    ghost view = { λ w. shown_workers w.answers.items w.ledgers.items };
}

/// Returns how many calls a worker has in these phases.
fn count_of(phases: &[Phase], worker: u8) -> usize
    requires jobs { All (λ phase. worker < length phase) phases.now }
    requires few { calls_in_all phases.now ≤ TEXT_LINE_LIMIT }
    ensures { result ≡ length (calls_of worker phases.now) }
{
    let mut count = 0;
    let mut rest = phases;
    while let Some((phase, after)) = rest.split_first() {
        count += phase.calls(worker).len();
        rest = after;
    }
    count
}

/// Makes a list for each worker, with storage for its answers.
fn lists_for(alloc: Global, script: &Script) -> Result<Vec<Vec<Answer>>, AllocError>
    ensures { IfOk result (λ lists. HasSpaceFor script.now.workers script.now.phases (map (λ v. shown v) lists.items)) }
{
    let workers = script.workers();
    let mut lists = Vec::with_capacity(alloc, usize::from(workers))?;
    for worker in 0..workers {
        lists.push_reserved(Vec::with_capacity(alloc, count_of(script.phases(), worker))?);
    }
    Ok(lists)
}

impl Workers {
    /// Makes workers with these ledgers, in the order of their seats, and with storage for every answer of the script.
    ///
    /// Fails with `NoMemory` if memory for that storage was refused, and returns the ledgers.
    pub fn new(
        alloc: Global,
        ledgers: Vec<Ledger>,
        script: &Script,
    ) -> Result<Workers, (NoMemory, Vec<Ledger>)>
        requires { vec_len ledgers ≡ script.now.workers }
        ensures ledgers { IfOk result (λ w. w.ledgers ≡ ledgers.items) }
        ensures space { IfOk result (λ w. HasSpaceFor script.now.workers script.now.phases w.answers) }
        ensures back { IfErr result (λ e. e.1 ≡ ledgers) }
    {
        match lists_for(alloc, script) {
            Ok(answers) => Ok(Workers { answers, ledgers }),
            Err(_) => Err((NoMemory, ledgers)),
        }
    }

    /// Returns each worker's answers in their order, and the ledgers. It allocates no memory.
    pub fn into_parts(self) -> (Vec<Vec<Answer>>, Vec<Ledger>)
        ensures answers { answers_in result.0.items ≡ map (λ a. a.answers) self.answers }
        ensures ledgers { result.1.items ≡ self.ledgers }
    {
        let Workers { answers, ledgers } = self;
        (answers, ledgers)
    }
}
