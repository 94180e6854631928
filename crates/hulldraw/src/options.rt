ghost use Rattle.std.specs.Prelude.{◌≤◌, IfOk, IfSome, string_bytes};
ghost use Rattle.hull_program.specs.Words.{IsOneOf, texts_of};
ghost use Rattle.hulldraw.specs.Tasks.{IsWithinLimits};

use clap::{Arg, ArgAction, ArgMatches, Command};
use hull_draw::DrawOptions;
use hull_program::{OptionFault, fault_of_words, path_of};
use std::alloc::{AllocError, Global};

/// The least side of a picture.
pub const SIZE_LEAST: u64 = 240;

/// The greatest side of a picture.
pub const SIZE_LIMIT: u64 = 10000;

/// The side of a picture if none is given.
const DEFAULT_SIZE: u64 = 640;

/// The requested task.
#[derive(Debug, Drop)]
pub struct Task {
    /// The path of the journal to draw.
    pub path: String,
    /// The lines that are replayed, what is drawn, and its size.
    pub options: DrawOptions,
    /// Whether to draw a film of that size, in place of one picture.
    pub film: bool,
}

fn command<'a>(alloc: Global) -> Result<Command<'a>, AllocError> {
    let journal = Arg::new(alloc, "journal")
        .required(true)
        .action(ArgAction::Set);
    let line = Arg::new(alloc, "line")
        .long("line")
        .action(ArgAction::Set)
        .value_parser(clap::value_parser!(u32));
    let bridges = Arg::new(alloc, "bridges")
        .long("bridges")
        .action(ArgAction::SetTrue);
    let film = Arg::new(alloc, "film")
        .long("film")
        .action(ArgAction::SetTrue);
    let size = Arg::new(alloc, "size")
        .long("size")
        .action(ArgAction::Set)
        .value_parser(clap::value_parser!(u64).range(240..=10000));
    Command::new(alloc, "hulldraw")
        .no_binary_name(true)
        .arg(journal)?
        .arg(line)?
        .arg(bridges)?
        .arg(film)?
        .arg(size)
}

/// Returns the numbers that were given, or `None` if one could not be read or is outside its limits.
fn options_of(matches: &ArgMatches<'_>) -> Option<DrawOptions>
    ensures { IfSome result (λ o. (SIZE_LEAST ≤ o.size) × (o.size ≤ SIZE_LIMIT)) }
{
    let line = if matches.contains_id("line") {
        Some(matches.get_one::<u32>("line")?)
    } else {
        None
    };
    let size = if matches.contains_id("size") {
        matches.get_one::<u64>("size")?
    } else {
        DEFAULT_SIZE
    };
    if size < SIZE_LEAST || size > SIZE_LIMIT {
        return None;
    }
    Some(DrawOptions {
        line,
        bridges: matches.get_flag("bridges"),
        size,
    })
}

/// Returns the task that the words after the program's name request: `JOURNAL` with `--line N`, `--bridges` and
/// `--size PIXELS`, or with `--film` and `--size PIXELS`. The path is one of the words, as it was written.
///
/// Fails with `Usage` for any other words, for a number outside its limits, and for a film with `--line` or
/// `--bridges`; a request for help counts as one. Fails with `Memory` if memory was refused.
pub fn options(alloc: Global, words: &[&str]) -> Result<Task, OptionFault>
    ensures limits { IfOk result IsWithinLimits }
    ensures path { IfOk result (λ task. IsOneOf (texts_of words.now) (string_bytes task.path)) }
{
    let Ok(command) = command(alloc) else {
        return Err(OptionFault::Memory);
    };
    let matches = match command.try_get_matches_from(words) {
        Ok(matches) => matches,
        Err(error) => return Err(fault_of_words(&error)),
    };
    let Some(options) = options_of(&matches) else {
        return Err(OptionFault::Usage);
    };
    let film = matches.get_flag("film");
    if film && (options.line.is_some() || options.bridges) {
        return Err(OptionFault::Usage);
    }
    let path = path_of(alloc, &matches, "journal", words)?;
    Ok(Task {
        path,
        options,
        film,
    })
}
