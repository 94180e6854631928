//! Scripts from tables of calls with their workers: one table for each phase, proved once for all tests.
ghost use Rattle.std.specs.Prelude.{◌≡◌, ◌≤◌, ◌*◌, IfOk, length};
ghost use Rattle.hull_book.specs.Scripts.{calls_in};

use hull_book::{Call, Phase, Script};
use std::alloc::{AllocError, Global};

// The calls of one worker, in the order of the table.
fn calls_of(alloc: Global, worker: u8, table: &[(u8, Call)]) -> Result<Vec<Call>, AllocError>
    ensures { IfOk result (λ v. length v.items ≤ length table.now) }
{
    let mut own = Vec::new(alloc);
    for entry in table {
        let (who, call) = *entry;
        if who == worker {
            own.push(call)?;
        }
    }
    Ok(own)
}

// Makes a phase of this many workers, each of which makes its calls of the table.
fn phase_of(alloc: Global, workers: u8, table: &[(u8, Call)]) -> Result<Phase, AllocError>
    requires few { length table.now ≤ 64 }
    ensures { IfOk result (λ p. (length p ≡ workers) × (calls_in p ≤ 64 * workers)) }
{
    let mut jobs = Vec::new(alloc);
    for worker in 0..workers {
        jobs.push(calls_of(alloc, worker, table)?)?;
    }
    Ok(Phase::new(jobs))
}

/// The script of one phase.
pub(super) fn one_phase(
    alloc: Global,
    workers: u8,
    table: &[(u8, Call)],
) -> Result<Script, AllocError>
    requires workers { (1 ≤ workers) × (workers ≤ 64) }
    requires few { length table.now ≤ 64 }
    ensures { IfOk result (λ s. length s.phases ≡ 1) }
{
    let mut phases = Vec::with_capacity(alloc, 1)?;
    phases.push_reserved(phase_of(alloc, workers, table)?);
    Ok(Script::new(workers, phases))
}

/// The script of two phases.
pub(super) fn two_phases(
    alloc: Global,
    workers: u8,
    first: &[(u8, Call)],
    second: &[(u8, Call)],
) -> Result<Script, AllocError>
    requires workers { (1 ≤ workers) × (workers ≤ 64) }
    requires few { (length first.now ≤ 64) × (length second.now ≤ 64) }
{
    let mut phases = Vec::with_capacity(alloc, 2)?;
    phases.push_reserved(phase_of(alloc, workers, first)?);
    phases.push_reserved(phase_of(alloc, workers, second)?);
    Ok(Script::new(workers, phases))
}
