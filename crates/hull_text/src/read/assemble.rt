ghost use Rattle.std.specs.Prelude.{◌≡◌, ◌≤◌, ◌<◌, ◌+◌, ◌++◌, [], ◌∷◌, ℕ, List, IfOk, length, map, MatchOption, Option};
ghost use Rattle.std.specs.Prelude.{Some, replicate};
ghost use Rattle.hull_book.specs.Scripts.{IsScript, lists_of};
ghost use Rattle.hull_book.specs.declared.limits.TheConstants.{TEXT_LINE_LIMIT};
ghost use Rattle.hull_text.specs.ScriptValue.{calls_by, jobs_below, parts, parts_left, script_of, workers_from};
ghost use Rattle.hull_text.specs.ScriptValue.{workers_in};

use super::item::Item;
use hull_book::{Phase, Script};
use hull_set::Call;
use std::alloc::{AllocError, Global};

/// Makes a list with no calls for each worker.
fn no_calls(alloc: Global, workers: u8) -> Result<Vec<Vec<Call>>, AllocError>
    ensures { IfOk result (λ v. lists_of v.items ≡ replicate workers []) }
{
    let mut jobs = Vec::with_capacity(alloc, usize::from(workers))?;
    for _ in 0..workers {
        jobs.push(Vec::new(alloc))?;
    }
    Ok(jobs)
}

/// Returns the calls of each worker of a phase, in one pass over its items.
fn phase_of(alloc: Global, items: &[Item], workers: u8) -> Result<Phase, AllocError>
    ensures { IfOk result (λ phase. phase ≡ jobs_below workers items.now) }
{
    let mut jobs = no_calls(alloc, workers)?;
    for item in items {
        if let Some((worker, call)) = item {
            if let Some(calls) = jobs.get_mut(usize::from(*worker)) {
                calls.push(*call)?;
            }
        }
    }
    Ok(Phase::new(jobs))
}

/// Returns one more than the greatest worker, or 1 if there is no call.
#[tactic(auto, using(crate::proofs::Workers::workers_least), unfolding(crate::specs::ScriptValue::workers_from))]
fn count_workers(items: &[Item]) -> u8
    requires { workers_in items.now ≤ 64 }
    ensures { result ≡ workers_in items.now }
{
    let mut workers = 1;
    let mut rest = items;
    while let [item, after @ ..] = rest {
        if let Some((worker, _)) = item {
            workers = workers.max(*worker + 1);
        }
        rest = after;
    }
    workers
}

/// Returns the items of the first phase, and those of the phases after it.
#[tactic(auto, using(crate::proofs::Parts::part_at, crate::proofs::Parts::part_last))]
fn cut_phase(items: &[Item]) -> (&[Item], Option<&[Item]>)
    ensures { parts items.now ≡ result.0.now ∷ parts_left result.1 }
{
    for (i, item) in items.iter().enumerate() {
        if item.is_none() {
            let (front, back) = items.split_at(i);
            let (_, after) = back.split_at(1);
            return (front, Some(after));
        }
    }
    (items, None)
}

fn phases_of(alloc: Global, items: &[Item], workers: u8) -> Result<Vec<Phase>, AllocError>
    ensures { IfOk result (λ phases. phases.items ≡ map (jobs_below workers) (parts items.now)) }
{
    let mut phases = Vec::new(alloc);
    let mut rest = Some(items);
    while let Some(left) = rest {
        let (part, after) = cut_phase(left);
        phases.push(phase_of(alloc, part, workers)?)?;
        rest = after;
    }
    Ok(phases)
}

/// Returns the script that the items make.
#[tactic(auto, using(crate::proofs::Parts::items_make_script))]
pub(crate) fn script_from(alloc: Global, items: &[Item]) -> Result<Script, AllocError>
    requires workers { workers_in items.now ≤ 64 }
    requires few { length items.now ≤ TEXT_LINE_LIMIT }
    ensures { IfOk result (λ script. script ≡ script_of items.now) }
{
    let workers = count_workers(items);
    let phases = phases_of(alloc, items, workers)?;
    Ok(Script::new(workers, phases))
}
