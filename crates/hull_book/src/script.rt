ghost use Rattle.std.specs.Prelude.{◌≡◌, ◌<◌, ◌≤◌, List, length, map, slice_index_or, [], IfOk, IfSome, IfNone, OnOk};
ghost use Rattle.std.specs.List.{All};
ghost use Rattle.hull_book.specs.Scripts.{IsScript, lists_of, widened, with_idle};
ghost use Rattle.hull_book.specs.declared.limits.TheConstants.{SEAT_LIMIT};

use hull_set::Call;
use std::alloc::{AllocError, Global};
use std::marker::Model;

/// The calls between two barriers: a list for each worker.
#[derive(Debug, Drop)]
pub struct Phase {
    /// A list of calls for each worker.
    pub jobs: Vec<Vec<Call>>,
}

impl Model for Phase {
    ghost use Rattle.std.specs.Prelude.{List};
    ghost use Rattle.hull_book.specs.Scripts.{PhaseValue};
    ghost use Rattle.hull_book.specs.Scripts.{lists_of};

    ghost Value = { PhaseValue };

    ghost view = { λ p. lists_of p.jobs.items };
}

impl Phase {
    /// Makes the phase of these lists of calls, one for each worker.
    pub fn new(jobs: Vec<Vec<Call>>) -> Phase
        ensures { result ≡ lists_of jobs.items }
    {
        Phase { jobs }
    }

    /// Gives the phase an empty list of calls for each further worker, up to this many.
    fn widen(&mut self, alloc: Global, workers: u8) -> Result<(), AllocError>
        ensures { OnOk result (self.new ≡ with_idle workers self.old) }
    {
        for _ in self.jobs.len()..usize::from(workers) {
            self.jobs.push(Vec::new(alloc))?;
        }
        Ok(())
    }

    /// Returns how many lists of calls the phase has.
    pub fn workers(&self) -> usize
        ensures { result ≡ length self.now }
    {
        self.jobs.len()
    }

    /// Returns the calls of a worker in their order.
    pub fn calls(&self, worker: u8) -> &[Call]
        requires { worker < length self.now }
        ensures { result.now ≡ slice_index_or self.now worker [] }
    {
        let calls = &self.jobs[usize::from(worker)];
        calls.as_slice()
    }
}

/// Phases of calls for a number of workers: one to [`SEAT_LIMIT`](crate::SEAT_LIMIT) workers, a list of calls for each worker in each phase, and at
/// most [`TEXT_LINE_LIMIT`](crate::TEXT_LINE_LIMIT) calls in all.
#[derive(Debug, Drop)]
pub struct Script {
    /// How many workers the script has, from 1 to 64.
    pub workers: u8,
    /// The phases in their order.
    pub phases: Vec<Phase>,
}

impl Model for Script {
    ghost use Rattle.hull_book.specs.Scripts.{ScriptValue, IsScript};

    ghost Value = { ScriptValue };

    ghost view = { λ s. record { workers = s.workers; phases = s.phases.items } };

    ghost invariant = { λ s. IsScript s.workers s.phases.items };
}

impl Script {
    /// Makes the script of these phases.
    pub fn new(workers: u8, phases: Vec<Phase>) -> Script
        requires { IsScript workers phases.items }
        ensures { result ≡ record { workers = workers; phases = phases.items } }
    {
        Script { workers, phases }
    }

    /// Returns the same calls for this many workers, if that is more: the new ones have no calls. If memory is refused, the script is dropped.
    pub fn widened(self, alloc: Global, workers: u8) -> Result<Script, AllocError>
        requires { workers ≤ SEAT_LIMIT }
        ensures { IfOk result (λ script. script ≡ widened workers self) }
    {
        let Script {
            workers: own,
            mut phases,
        } = self;
        let wide = own.max(workers);
        for i in 0..phases.len() {
            phases[i].widen(alloc, wide)?;
        }
        Ok(Script {
            workers: wide,
            phases,
        })
    }

    /// Returns how many workers the script has, from 1 to 64.
    pub fn workers(&self) -> u8
        ensures workers { result ≡ self.now.workers }
        ensures limits { IsScript self.now.workers self.now.phases }
    {
        self.workers
    }

    /// Returns the phases in their order.
    pub fn phases(&self) -> &[Phase]
        ensures phases { result.now ≡ self.now.phases }
        ensures limits { IsScript self.now.workers self.now.phases }
    {
        &self.phases
    }
}
