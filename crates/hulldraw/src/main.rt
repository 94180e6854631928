//! `hulldraw`: draws the set that a journal of `hullbook` leaves, or a film of the journal, as SVG on standard output.
#![tactic(auto)]

ghost use Rattle.std.specs.Prelude.{◌≡◌, IfOk};
ghost use Rattle.hulldraw.specs.Faults.{refusal_of_drawing};
ghost use Rattle.hulldraw.specs.Tasks.{IsWithinLimits};

mod options;

use hull_draw::{DrawFault, draw, film};
use hull_program::{Refusal, block_writer, open_file, texts_of, words_given};
use options::{Task, options};
use std::process::ExitCode;
use std::rt::{Env, Files};
use text_io::Counted;

/// Returns the refusal of the program for a failed drawing.
fn refusal_of_drawing(fault: DrawFault) -> Refusal
    ensures { result ≡ refusal_of_drawing fault }
{
    match fault {
        DrawFault::Text(fault) => Refusal::Text(fault),
        DrawFault::Memory => Refusal::Memory,
        DrawFault::Write => Refusal::Write,
    }
}

/// Returns the task that the words after the program's name request.
fn task_of<R: Env + AllocGlobal>(rt: &R) -> Result<Task, Refusal>
    ensures { IfOk result IsWithinLimits }
{
    let words = words_given(rt)?;
    let texts = texts_of(rt.alloc(), &words)?;
    Ok(options(rt.alloc(), &texts)?)
}

/// Draws the journal at the path on standard output.
fn work<R: Env + Files + Print + AllocGlobal>(rt: &R) -> Result<(), Refusal> {
    let task = task_of(rt)?;
    let mut input = Counted::new(open_file(rt, &task.path)?);
    let mut output = Counted::new(block_writer(rt)?);
    let done = if task.film {
        film(rt.alloc(), &mut input, &mut output, task.options.size)
    } else {
        draw(rt.alloc(), &mut input, &mut output, &task.options)
    };
    done.map_err(refusal_of_drawing)
}

fn main(rt: HostRuntime) -> ExitCode {
    match work(&rt) {
        Ok(()) => ExitCode::SUCCESS,
        Err(refusal) => {
            let _ = eprintln!(rt; "hulldraw: {refusal}");
            ExitCode::from(refusal.status())
        }
    }
}
