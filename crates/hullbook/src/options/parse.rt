ghost use Rattle.std.specs.Prelude.{◌≡◌, ◌≤◌, ◌↔◌, ◌∷◌, IfOk, IfSome, IsTrue};
ghost use Rattle.hull_program.specs.Words.{texts_of, words_as_texts};
ghost use Rattle.hullbook.specs.Tasks.{AreAfterCheck, AreStatedWithinLimits, AreWithinLimits, IsRequestWithinLimits};
ghost use Rattle.hullbook.specs.Tasks.{IsWithinLimits, NamesWords, RequestNamesWords};

use super::{Options, Request, Stated, Task};
use clap::{Arg, ArgAction, ArgMatches, Command};
use hull_book::CAPACITY_LIMIT;
use hull_program::{OptionFault, fault_of_words, path_of, word_of};
use hull_set::POINT_LIMIT;
use std::alloc::{AllocError, Global};

/// The capacity of the journal if none is given.
const DEFAULT_CAPACITY: u32 = 65536;

/// Makes an option that takes a value.
fn valued<'a>(alloc: Global, name: &'a str) -> Arg<'a> {
    Arg::new(alloc, name).long(name).action(ArgAction::Set)
}

/// Makes an option that takes none.
fn flag<'a>(alloc: Global, name: &'a str) -> Arg<'a> {
    Arg::new(alloc, name).long(name).action(ArgAction::SetTrue)
}

/// Adds the options of a run that are numbers.
fn with_numbers<'a>(alloc: Global, command: Command<'a>) -> Result<Command<'a>, AllocError> {
    let capacity = clap::value_parser!(u32).range(1..=16777216);
    let limit = clap::value_parser!(u32).range(1..=1048576);
    command
        .arg(valued(alloc, "capacity").value_parser(capacity))?
        .arg(valued(alloc, "limit").value_parser(limit))?
        .arg(valued(alloc, "first").value_parser(clap::value_parser!(u64)))
}

fn run_command<'a>(alloc: Global) -> Result<Command<'a>, AllocError> {
    let script = Arg::new(alloc, "script")
        .required(true)
        .action(ArgAction::Set);
    let command = Command::new(alloc, "run").arg(script)?;
    with_numbers(alloc, command)?
        .arg(flag(alloc, "journal"))?
        .arg(flag(alloc, "buckets"))?
        .arg(valued(alloc, "after"))
}

/// Makes a command that has a journal as its only word.
fn journal_command<'a>(alloc: Global, name: &'a str) -> Result<Command<'a>, AllocError> {
    let journal = Arg::new(alloc, "journal")
        .required(true)
        .action(ArgAction::Set);
    Command::new(alloc, name).arg(journal)
}

/// Makes the command that checks a journal, or the segments of one.
fn check_command<'a>(alloc: Global) -> Result<Command<'a>, AllocError> {
    let segments = Arg::new(alloc, "part")
        .required(true)
        .num_args(1..)
        .action(ArgAction::Append);
    Command::new(alloc, "check")
        .arg(segments)?
        .arg(flag(alloc, "explain"))
}

fn command<'a>(alloc: Global) -> Result<Command<'a>, AllocError> {
    Command::new(alloc, "hullbook")
        .no_binary_name(true)
        .subcommand_required(true)
        .subcommand(run_command(alloc)?)?
        .subcommand(check_command(alloc)?)?
        .subcommand(journal_command(alloc, "upgrade")?)?
        .subcommand(journal_command(alloc, "compact")?)
}

/// Whether a number, if one is stated, is from 1 to the limit.
fn is_within(number: Option<u32>, limit: u32) -> bool
    ensures { IsTrue result ↔ IfSome number (λ n. (1 ≤ n) × (n ≤ limit)) }
{
    match number {
        Some(n) => n > 0 && n <= limit,
        None => true,
    }
}

/// Returns the stated numbers, or `None` if one could not be read or is outside the limits.
fn stated_of(matches: &ArgMatches<'_>) -> Option<Stated>
    ensures { IfSome result AreStatedWithinLimits }
{
    let capacity = if matches.contains_id("capacity") {
        Some(matches.get_one::<u32>("capacity")?)
    } else {
        None
    };
    let limit = if matches.contains_id("limit") {
        Some(matches.get_one::<u32>("limit")?)
    } else {
        None
    };
    let first = if matches.contains_id("first") {
        Some(matches.get_one::<u64>("first")?)
    } else {
        None
    };
    let journal = matches.get_flag("journal");
    let bucketed = matches.get_flag("buckets");
    if !is_within(capacity, CAPACITY_LIMIT) || !is_within(limit, POINT_LIMIT) {
        return None;
    }
    Some(Stated {
        capacity,
        limit,
        first,
        journal,
        bucketed,
    })
}

/// Returns the numbers of a run, with the defaults of those that are not stated.
fn options_of(stated: &Stated) -> Options
    requires { AreStatedWithinLimits stated.now }
    ensures { AreWithinLimits result }
{
    Options {
        capacity: stated.capacity.unwrap_or(DEFAULT_CAPACITY),
        limit: stated.limit.unwrap_or(POINT_LIMIT),
        first: stated.first.unwrap_or(0),
        journal: stated.journal,
    }
}

/// Returns the task that the words after `run` request.
fn run_task(alloc: Global, given: &ArgMatches<'_>, words: &[&str]) -> Result<Request, OptionFault>
    ensures limits { IfOk result IsRequestWithinLimits }
    ensures paths { IfOk result (RequestNamesWords (texts_of words.now)) }
{
    let Some(stated) = stated_of(given) else {
        return Err(OptionFault::Usage);
    };
    let script = path_of(alloc, given, "script", words)?;
    if given.contains_id("after") {
        let journal = path_of(alloc, given, "after", words)?;
        return Ok(Request::RunAfter(script, journal, stated));
    }
    let options = options_of(&stated);
    if stated.bucketed {
        return Ok(Request::RunBucketed(script, options));
    }
    Ok(Request::Task(Task::Run(script, options)))
}

/// Returns the words as strings, in their order.
fn strings_of(alloc: Global, words: &[&str]) -> Result<Vec<String>, OptionFault>
    ensures { IfOk result (λ found. words_as_texts found.items ≡ texts_of words.now) }
{
    let Ok(mut found) = Vec::with_capacity(alloc, words.len()) else {
        return Err(OptionFault::Memory);
    };
    for word in words {
        let Ok(text) = String::from_str(alloc, word) else {
            return Err(OptionFault::Memory);
        };
        found.push_reserved(text);
    }
    Ok(found)
}

/// Whether a word is this text.
fn is_word(word: &str, text: &str) -> bool
    ensures { IsTrue result ↔ (word.now ≡ text.now) }
{
    word == text
}

/// Returns the words after this one, if it is the first.
fn words_after<'a>(text: &str, words: &'a [&'a str]) -> Option<&'a [&'a str]>
    ensures { IfSome result (λ rest. texts_of words.now ≡ text.now ∷ texts_of rest.now) }
{
    let (first, rest) = words.split_first()?;
    if !is_word(first, text) {
        return None;
    }
    Some(rest)
}

/// Returns the words after `check`, and after a mark that ends the options.
fn segments_after<'a>(words: &'a [&'a str]) -> Option<&'a [&'a str]>
    ensures { IfSome result (λ segments. AreAfterCheck (texts_of words.now) (texts_of segments.now)) }
{
    let behind = words_after("check", words)?;
    match words_after("--", behind) {
        Some(segments) => Some(segments),
        None => Some(behind),
    }
}

/// Returns the segments after `check`, of which there must be so many, two or more: all words there, in their order.
fn segments_task(alloc: Global, number: usize, words: &[&str]) -> Result<Request, OptionFault>
    ensures limits { IfOk result IsRequestWithinLimits }
    ensures paths { IfOk result (RequestNamesWords (texts_of words.now)) }
{
    let Some(segments) = segments_after(words) else {
        return Err(OptionFault::Usage);
    };
    if segments.len() < 2 || segments.len() != number {
        return Err(OptionFault::Usage);
    }
    Ok(Request::CheckSegments(strings_of(alloc, segments)?))
}

/// Returns the task that the words after `check` request. A wrong line can be explained only for one path.
fn check_task(alloc: Global, given: &ArgMatches<'_>, words: &[&str]) -> Result<Request, OptionFault>
    ensures limits { IfOk result IsRequestWithinLimits }
    ensures paths { IfOk result (RequestNamesWords (texts_of words.now)) }
{
    let Some(paths) = given.get_strs("part") else {
        return Err(OptionFault::Usage);
    };
    let explains = given.get_flag("explain");
    if let [path] = paths {
        let path = word_of(alloc, path, words)?;
        return Ok(if explains {
            Request::Explain(path)
        } else {
            Request::Task(Task::Check(path))
        });
    }
    if explains {
        return Err(OptionFault::Usage);
    }
    segments_task(alloc, paths.len(), words)
}

/// Returns the request of the words after the program's name: a task of [`options`], `run SCRIPT` with `--bucketed` or
/// with `--after JOURNAL`, `check JOURNAL --explain`, `check` with two segments of a journal or more, or `compact
/// JOURNAL`.
///
/// Each path is one of the words, as it was written.
///
/// # Errors
///
/// Fails with `Usage` for any other words and for a number outside its limits; a request for help counts as one.
/// Fails with `Memory` if memory was refused.
pub fn request(alloc: Global, words: &[&str]) -> Result<Request, OptionFault>
    ensures limits { IfOk result IsRequestWithinLimits }
    ensures paths { IfOk result (RequestNamesWords (texts_of words.now)) }
{
    let Ok(command) = command(alloc) else {
        return Err(OptionFault::Memory);
    };
    let matches = match command.try_get_matches_from(words) {
        Ok(matches) => matches,
        Err(error) => return Err(fault_of_words(&error)),
    };
    match matches.subcommand() {
        Some(("run", given)) => run_task(alloc, given, words),
        Some(("check", given)) => check_task(alloc, given, words),
        Some(("upgrade", given)) => {
            let path = path_of(alloc, given, "journal", words)?;
            Ok(Request::Task(Task::Upgrade(path)))
        }
        Some(("compact", given)) => Ok(Request::Compact(path_of(alloc, given, "journal", words)?)),
        _ => Err(OptionFault::Usage),
    }
}

/// Returns the task that the words after the program's name request: `run SCRIPT` with `--capacity`, `--limit`,
/// `--first` and `--journal`, `check JOURNAL`, or `upgrade JOURNAL`.
///
/// The path is one of the words, as it was written.
///
/// # Errors
///
/// Fails with `Usage` for any other words, also for those of a [`request`] that is no task, and for a number outside
/// its limits. Fails with `Memory` if memory was refused.
pub fn options(alloc: Global, words: &[&str]) -> Result<Task, OptionFault>
    ensures limits { IfOk result IsWithinLimits }
    ensures paths { IfOk result (NamesWords (texts_of words.now)) }
{
    match request(alloc, words)? {
        Request::Task(task) => Ok(task),
        _ => Err(OptionFault::Usage),
    }
}
