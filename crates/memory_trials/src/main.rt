//! Tests the replies when memory is refused, and the state after a refusal.
//!
//! `memory_trials NAME..` makes each of the named trials, or all of them without a name, and writes a line for each: its name, and the stage in which
//! memory was refused (`whole` if none was that it needs), or `wrong:` and the condition that was false. The status is 0 if nothing was wrong, 1 if
//! something was, and 4 if the words could not be read for lack of memory. Nothing is refused unless something outside the program does it:
//! `tests/memory/run.sh` refuses each request for memory in turn, below the C library.
//!
//! After a refusal a trial tests what its function returns or leaves, and then makes a second attempt, which must succeed.
#![tactic(auto)]

mod books;
mod findings;
mod journals;
mod later;
mod locks;
mod phases;
mod sets;
mod stage;
mod texts;

use hull_plain::PlainSet;
use hull_tree::HullTree;
use lattice::Point;
use stage::Stage;
use std::alloc::Global;
use std::env;
use std::process::ExitCode;
use std::rt::Env;
use std::sync::Wait;
use std::thread::Threads;

/// The names of the trials, in the order in which they are made if no name is given.
const NAMES: [&str; 29] = [
    "plain_add",
    "tree_add",
    "plain_again",
    "tree_again",
    "plain_vertices",
    "tree_vertices",
    "plain_open",
    "tree_open",
    "plain_serve",
    "tree_serve",
    "check",
    "plain_lock",
    "tree_lock",
    "workers",
    "plain_phase",
    "tree_phase",
    "plain_phases",
    "tree_phases",
    "script",
    "journal",
    "upgrade",
    "plain_later_phase",
    "tree_later_phase",
    "plain_reopen",
    "tree_reopen",
    "plain_drain",
    "tree_drain",
    "parts",
    "compact",
];

/// Makes the trial of that name; `None` if there is no such trial.
fn trial<R: Threads + Wait + Sync>(
    rt: &R,
    alloc: Global,
    name: &str,
    p: Point,
) -> Option<Result<Stage, &'static str>> {
    Some(match name {
        "plain_add" => sets::try_add(PlainSet::new(alloc, 12)).1,
        "tree_add" => sets::try_add(HullTree::new(alloc, 12)).1,
        "plain_again" => sets::try_again(PlainSet::new(alloc, 12)).1,
        "tree_again" => sets::try_again(HullTree::new(alloc, 12)).1,
        "plain_vertices" => sets::try_vertices(PlainSet::new(alloc, 12)).1,
        "tree_vertices" => sets::try_vertices(HullTree::new(alloc, 12)).1,
        "plain_open" => books::try_open(alloc, PlainSet::new(alloc, 12)),
        "tree_open" => books::try_open(alloc, HullTree::new(alloc, 12)),
        "plain_serve" => books::try_serve(alloc, PlainSet::new(alloc, 12), p),
        "tree_serve" => books::try_serve(alloc, HullTree::new(alloc, 12), p),
        "check" => books::try_check(alloc, p),
        "plain_lock" => locks::try_lock(alloc, PlainSet::new(alloc, 12)),
        "tree_lock" => locks::try_lock(alloc, HullTree::new(alloc, 12)),
        "workers" => phases::try_workers(alloc, HullTree::new(alloc, 12)),
        "plain_phase" => phases::try_phase(rt, alloc, PlainSet::new(alloc, 12)),
        "tree_phase" => phases::try_phase(rt, alloc, HullTree::new(alloc, 12)),
        "plain_phases" => phases::try_phases(rt, alloc, PlainSet::new(alloc, 12)),
        "tree_phases" => phases::try_phases(rt, alloc, HullTree::new(alloc, 12)),
        "script" => texts::try_script(alloc, 1),
        "journal" => texts::try_journal(alloc, 1),
        "upgrade" => texts::try_upgrade(alloc, 1),
        "plain_later_phase" => later::try_later(rt, alloc, PlainSet::new(alloc, 12)),
        "tree_later_phase" => later::try_later(rt, alloc, HullTree::new(alloc, 12)),
        "plain_reopen" => journals::try_reopen(alloc, PlainSet::new(alloc, 12), p),
        "tree_reopen" => journals::try_reopen(alloc, HullTree::new(alloc, 12), p),
        "plain_drain" => journals::try_drain(alloc, PlainSet::new(alloc, 12), p),
        "tree_drain" => journals::try_drain(alloc, HullTree::new(alloc, 12), p),
        "parts" => journals::try_segments(alloc),
        "compact" => journals::try_compact(alloc, 1),
        _ => return None,
    })
}

/// Makes the trial of that name and writes its line. Returns `false` if something was wrong.
fn returned<R: Threads + Wait + Sync + Print + AllocGlobal>(rt: &R, name: &str) -> bool {
    let Ok(p) = Point::new(3, 4) else {
        return false;
    };
    match trial(rt, rt.alloc(), name, p) {
        Some(Ok(stage)) => println!(rt; "{name} {stage}").is_ok(),
        Some(Err(what)) => {
            let _ = println!(rt; "{name} wrong: {what}");
            false
        }
        None => {
            let _ = println!(rt; "{name} wrong: there is no such trial");
            false
        }
    }
}

fn main(rt: HostRuntime) -> ExitCode {
    let Ok(words) = env::args(&rt) else {
        return ExitCode::from(4);
    };
    let mut named = false;
    let mut right = true;
    for word in words.skip(1) {
        named = true;
        right = returned(&rt, word.as_str()) && right;
    }
    if !named {
        for name in &NAMES {
            right = returned(&rt, name) && right;
        }
    }
    if right {
        ExitCode::SUCCESS
    } else {
        ExitCode::from(1)
    }
}
