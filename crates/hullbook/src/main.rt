//! `hullbook`: runs a script of calls on a shared convex hull, checks a journal of such a run, whole or in segments,
//! compacts it, and upgrades old journals.
#![tactic(auto)]

ghost use Rattle.std.specs.Prelude.{IfOk};
ghost use Rattle.hullbook.specs.Tasks.{AreStatedWithinLimits, AreWithinLimits, IsRequestWithinLimits, IsWithinLimits};

mod after;
mod check;
mod explain;
mod fault;
mod options;
mod progress;
mod run;
mod segment_files;
mod segments;
#[cfg(test)]
mod tests;
mod with_progress;

use after::run_after;
use check::{check_text_with, check_whole_text};
use explain::{Unexplained, explain};
use fault::{Failure, Fault};
use hull_plain::PlainSet;
use hull_program::{Refusal, block_writer, open_file, texts_of, words_given};
use hull_text::{compact, upgrade};
use options::{Options, Request, Stated, Task, request};
use progress::{Progress, TerminalLine};
use run::{run, run_bucketed};
use segment_files::SegmentFiles;
use segments::{SegmentsFault, check_segments};
use std::alloc::Global;
use std::io;
use std::process::ExitCode;
use std::rt::{Env, Files};
use std::sync::Wait;
use std::thread::Threads;
use text_io::Counted;
use with_progress::WithProgress;

/// Returns the task that the words after the program's name request.
fn request_of<R: Env + AllocGlobal>(rt: &R) -> Result<Request, Refusal>
    ensures { IfOk result IsRequestWithinLimits }
{
    let words = words_given(rt)?;
    let texts = texts_of(rt.alloc(), &words)?;
    Ok(request(rt.alloc(), &texts)?)
}

/// Runs the script at the path and writes to standard output.
fn run_file<R: Threads + Wait + Sync + Files + Print + AllocGlobal>(
    rt: &R,
    path: &str,
    options: &Options,
) -> Result<(), Failure>
    requires { AreWithinLimits options.now }
{
    let mut input = Counted::new(open_file(rt, path)?);
    let mut output = Counted::new(block_writer(rt)?);
    run(rt, rt.alloc(), &mut input, &mut output, options).map_err(Failure::from)
}

/// Runs the script at the path on a tree over buckets and writes to standard output.
fn run_file_bucketed<R: Threads + Wait + Sync + Files + Print + AllocGlobal>(
    rt: &R,
    path: &str,
    options: &Options,
) -> Result<(), Failure>
    requires { AreWithinLimits options.now }
{
    let mut input = Counted::new(open_file(rt, path)?);
    let mut output = Counted::new(block_writer(rt)?);
    run_bucketed(rt, rt.alloc(), &mut input, &mut output, options).map_err(Failure::from)
}

/// Runs the script at the path on the book that continues the journal at the other, and writes to standard output.
fn run_files<R: Threads + Wait + Sync + Files + Print + AllocGlobal, P: Progress>(
    rt: &R,
    path: &str,
    journal: &str,
    stated: &Stated,
    progress: &P,
) -> Result<(), Failure>
    requires { AreStatedWithinLimits stated.now }
{
    let mut input = Counted::new(open_file(rt, path)?);
    let mut before = Counted::new(WithProgress::new(open_file(rt, journal)?, progress));
    let mut output = Counted::new(block_writer(rt)?);
    run_after(
        rt,
        rt.alloc(),
        &mut input,
        &mut before,
        &mut output,
        stated,
        progress,
    )
    .map_err(Failure::from)
}

/// Checks the journal at the path and writes to standard output. Returns `true` for legal.
fn check_file<R: Files + Print + AllocGlobal, P: Progress>(
    rt: &R,
    path: &str,
    progress: &P,
) -> Result<bool, Failure> {
    let mut input = Counted::new(WithProgress::new(open_file(rt, path)?, progress));
    let mut output = Counted::new(io::writer(rt));
    let wrong = check_text_with(rt.alloc(), &mut input, &mut output, progress).map_err(
        Failure::from,
    )?;
    Ok(wrong.is_none())
}

/// Does the same, and explains on standard error why an illegal journal is so.
fn explain_file<R: Files + Print + AllocGlobal, E: Print, P: Progress>(
    rt: &R,
    error: &E,
    path: &str,
    progress: &P,
) -> Result<bool, Failure> {
    let mut input = Counted::new(WithProgress::new(open_file(rt, path)?, progress));
    let mut output = Counted::new(io::writer(rt));
    let checked = check_whole_text(rt.alloc(), &mut input, &mut output, progress).map_err(
        Failure::from,
    )?;
    let Some(place) = checked.wrong else {
        return Ok(true);
    };
    let mut notes = Counted::new(io::writer(error));
    let returned = explain(rt.alloc(), &checked.journal, place, &mut notes);
    if returned == Err(Unexplained::Memory) {
        let _ = error.println("hullbook: memory");
    }
    Ok(false)
}

/// Checks the segments of a journal at the paths and writes to standard output. Returns `true` for legal.
fn check_files<R: Files + Print + AllocGlobal, P: Progress>(
    rt: &R,
    mut paths: Vec<String>,
    progress: &P,
) -> Result<bool, Failure> {
    let mut output = Counted::new(io::writer(rt));
    let checked = check_segments(
        rt.alloc(),
        &SegmentFiles::new(rt, &paths, progress),
        &mut output,
    );
    match checked {
        Ok(wrong) => Ok(wrong.is_none()),
        Err(SegmentsFault::Segment(segment, fault)) => Err(Failure::Segment(
            paths.swap_remove(segment),
            fault,
        )),
        Err(SegmentsFault::Write) => Err(Failure::from(Fault::Write)),
    }
}

/// Writes the journal at the path to standard output, in the newest version that has its rules.
fn upgrade_file<R: Files + Print + AllocGlobal, P: Progress>(
    rt: &R,
    path: &str,
    progress: &P,
) -> Result<(), Failure> {
    let mut input = Counted::new(WithProgress::new(open_file(rt, path)?, progress));
    let mut output = Counted::new(block_writer(rt)?);
    upgrade(rt.alloc(), &mut input, &mut output).map_err(Failure::from)
}

/// Writes to standard output a short journal that leaves the same points as the journal at the path.
fn compact_file<R: Files + Print + AllocGlobal, P: Progress>(
    rt: &R,
    path: &str,
    progress: &P,
) -> Result<(), Failure> {
    let mut input = Counted::new(WithProgress::new(open_file(rt, path)?, progress));
    let mut output = Counted::new(block_writer(rt)?);
    let alloc = rt.alloc();
    let empty = |limit| PlainSet::new(alloc, limit);
    compact(alloc, empty, &mut input, &mut output).map_err(Failure::from)
}

/// Does one of the tasks. Returns `false` for an illegal journal.
fn perform<R: Threads + Wait + Sync + Files + Print + AllocGlobal, P: Progress>(
    rt: &R,
    task: Task,
    progress: &P,
) -> Result<bool, Failure>
    requires { IsWithinLimits task }
{
    match task {
        Task::Run(path, options) => {
            run_file(rt, &path, &options)?;
            Ok(true)
        }
        Task::Check(path) => check_file(rt, &path, progress),
        Task::Upgrade(path) => {
            upgrade_file(rt, &path, progress)?;
            Ok(true)
        }
    }
}

/// Does the task that the words after the program's name request. Returns `false` for an illegal journal.
fn work<R: Threads + Wait + Sync + Env + Files + Print + AllocGlobal, E: Print, P: Progress>(
    rt: &R,
    error: &E,
    progress: &P,
) -> Result<bool, Failure> {
    match request_of(rt)? {
        Request::Task(task) => perform(rt, task, progress),
        Request::RunBucketed(path, options) => {
            run_file_bucketed(rt, &path, &options)?;
            Ok(true)
        }
        Request::RunAfter(path, journal, stated) => {
            run_files(rt, &path, &journal, &stated, progress)?;
            Ok(true)
        }
        Request::Explain(path) => explain_file(rt, error, &path, progress),
        Request::CheckSegments(paths) => check_files(rt, paths, progress),
        Request::Compact(path) => {
            compact_file(rt, &path, progress)?;
            Ok(true)
        }
    }
}

fn main(rt: HostRuntime) -> ExitCode {
    let error = rt.stderr();
    let line = TerminalLine::new(&rt, &error);
    match work(&rt, &error, &line) {
        Ok(true) => ExitCode::SUCCESS,
        Ok(false) => ExitCode::from(1),
        Err(failure) => {
            line.wiped();
            let status = failure.status();
            let _ = eprintln!(rt; "{failure}");
            ExitCode::from(status)
        }
    }
}
