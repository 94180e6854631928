//! The program's own functions by their exact signatures, each type written out, and the worked examples that they show.
ghost use Rattle.std.specs.Prelude.{◌<◌, ◌-◌, ◌^◌};
ghost use Rattle.hullbook.specs.Tasks.{AreWithinLimits};

use crate::check::check_text;
use crate::fault::Fault;
use crate::options::{Options, Task, options};
use crate::run::{RunFault, run};
use hull_program::OptionFault;
use hull_text::TextFault;
use std::alloc::Global;
use std::sync::Wait;
use std::test::Fail;
use std::thread::Threads;
use text_io::testing::{Pieces, Spout};
use text_io::{Counted, Sink, Source};

// Returns the task that the words request, its path as the one result and its numbers as the other.
fn asked(alloc: Global, words: &[&str], path: &str) -> Result<Option<Options>, OptionFault> {
    let task: Result<Task, OptionFault> = options(alloc, words);
    match task? {
        Task::Run(script, numbers) => Ok((script.as_str() == path).then_some(numbers)),
        Task::Check(_) | Task::Upgrade(_) => Ok(None),
    }
}

// Whether the words request a check of the journal at this path, and whether an upgrade.
fn journal_task(alloc: Global, words: &[&str], path: &str) -> (bool, bool) {
    match options(alloc, words) {
        Ok(Task::Check(journal)) => (journal.as_str() == path, false),
        Ok(Task::Upgrade(journal)) => (false, journal.as_str() == path),
        _ => (false, false),
    }
}

#[test]
fn words_ask_for_tasks(rt: HostRuntime) {
    let alloc = rt.alloc();
    let capacity: u32 = 65536;
    let limit: u32 = 1048576;
    let first: u64 = 0;
    let journal: bool = false;
    let plain = Options {
        capacity,
        limit,
        first,
        journal,
    };
    assert_eq!(rt; asked(alloc, &["run", "S"], "S"), Ok(Some(plain)));
    assert_eq!(rt;
        asked(alloc, &["run", "S", "--capacity", "0"], "S"),
        Err(OptionFault::Usage)
    );
    assert_eq!(rt;
        asked(alloc, &["run", "S", "--buckets"], "S"),
        Err(OptionFault::Usage)
    );
    assert_eq!(rt; journal_task(alloc, &["check", "J"], "J"), (true, false));
    assert_eq!(rt; journal_task(alloc, &["upgrade", "J"], "J"), (false, true));
}

// Returns the status of a fault, and whether it has these words.
fn returned(alloc: Global, fault: Fault, words: &str) -> Result<(u8, bool), Fail> {
    let status: u8 = fault.status();
    let text = format!(in alloc; "{fault}")?;
    Ok((status, text.as_str() == words))
}

#[test]
fn faults_of_the_program(rt: HostRuntime) -> Result<(), Fail> {
    let alloc = rt.alloc();
    let text: TextFault = TextFault { number: 3, line: 1 };
    let refused = TextFault { number: 8, line: 2 };
    let memory = TextFault {
        number: 10,
        line: 2,
    };
    assert_eq!(rt;
        returned(alloc, Fault::Usage, "hullbook: usage")?,
        (2, true)
    );
    assert_eq!(rt; returned(alloc, Fault::Open, "hullbook: open")?, (3, true));
    assert_eq!(rt;
        returned(alloc, Fault::Memory, "hullbook: memory")?,
        (4, true)
    );
    assert_eq!(rt;
        returned(alloc, Fault::Write, "hullbook: write")?,
        (3, true)
    );
    assert_eq!(rt;
        returned(alloc, Fault::Text(text), "hullbook: line 1: fault 3")?,
        (2, true)
    );
    assert_eq!(rt;
        returned(alloc, Fault::Text(refused), "hullbook: line 2: fault 8")?,
        (3, true)
    );
    assert_eq!(rt;
        returned(alloc, Fault::Text(memory), "hullbook: line 2: fault 10")?,
        (4, true)
    );
    Ok(())
}

// Returns the outcome of a run of the script over any reader and any writer.
fn runs<R: Threads + Wait + Sync, I: Source, O: Sink>(
    rt: &R,
    alloc: Global,
    input: &mut I,
    output: &mut O,
    options: &Options,
) -> Result<(), RunFault>
    requires within { AreWithinLimits options.now }
    requires reads { I.failed input.old < 2 ^ 64 - 1 }
    requires writes { O.failed output.old < 2 ^ 64 - 1 }
{
    let ended: Result<(), RunFault> = run(rt, alloc, input, output, options);
    ended
}

// Returns the outcome of a run of the script, and whether it wrote this.
fn run_of<R: Threads + Wait + Sync>(
    rt: &R,
    alloc: Global,
    script: &str,
    options: &Options,
    wanted: &str,
) -> Result<(Result<(), RunFault>, bool), Fail>
    requires { AreWithinLimits options.now }
{
    let mut input = Counted::new(Pieces::new(script.as_bytes(), 7));
    let mut output = Counted::new(Spout::new(alloc, 4096, 5)?);
    let ended = runs(rt, alloc, &mut input, &mut output, options);
    Ok((ended, output.get_ref().bytes() == wanted.as_bytes()))
}

#[test]
fn worked_runs(rt: HostRuntime) -> Result<(), Fail> {
    let two = Options {
        capacity: 2,
        limit: 1048576,
        first: 0,
        journal: false,
    };
    let full =
        "0 add 0 0 = added\n0 add 1 0 = added\n0 count = full\nledger 0 2\nsum 2 journal 2 capacity 2\n";
    let script = "0 add 0 0\n0 add 1 0\n0 count\n";
    assert_eq!(rt;
        run_of(&rt, rt.alloc(), script, &two, full)?,
        (Ok(()), true)
    );
    let wrapping = Options {
        capacity: 4,
        limit: 4,
        first: 18446744073709551615,
        journal: true,
    };
    let journal =
        "hullbook journal 3 first 18446744073709551615 limit 4 capacity 4\n18446744073709551615 0 add 5 5 = added\n0 0 count = count 1\n1 0 remove 5 5 = removed\nend 3\n";
    let script = "0 add 5 5\n0 count\n0 remove 5 5\n";
    assert_eq!(rt;
        run_of(&rt, rt.alloc(), script, &wrapping, journal)?,
        (Ok(()), true)
    );
    let plain = Options {
        capacity: 65536,
        limit: 1048576,
        first: 0,
        journal: false,
    };
    let range = RunFault::Text(TextFault { number: 3, line: 1 });
    assert_eq!(rt;
        run_of(&rt, rt.alloc(), "0 add 1099511627777 0\n", &plain, "")?,
        (Err(range), true)
    );
    Ok(())
}

#[test]
fn three_workers_and_no_call(rt: HostRuntime) -> Result<(), Fail> {
    let plain = Options {
        capacity: 65536,
        limit: 1048576,
        first: 0,
        journal: false,
    };
    let report =
        "0 add 0 0 = added\n0 vertices = list 3 0 0 4 0 0 4\n1 add 4 0 = added\n2 add 0 4 = added\nledger 0 2\nledger 1 1\nledger 2 1\nsum 4 journal 4 capacity 65536\n";
    let script = "0 add 0 0\n1 add 4 0\n2 add 0 4\njoin\n0 vertices\n";
    assert_eq!(rt;
        run_of(&rt, rt.alloc(), script, &plain, report)?,
        (Ok(()), true)
    );
    let empty = "ledger 0 0\nsum 0 journal 0 capacity 65536\n";
    assert_eq!(rt; run_of(&rt, rt.alloc(), "", &plain, empty)?, (Ok(()), true));
    let journal = Options {
        capacity: 65536,
        limit: 1048576,
        first: 0,
        journal: true,
    };
    let none = "hullbook journal 3 first 0 limit 1048576 capacity 65536\nend 0\n";
    assert_eq!(rt;
        run_of(&rt, rt.alloc(), "", &journal, none)?,
        (Ok(()), true)
    );
    Ok(())
}

// Returns the outcome of a check of the journal, and whether it wrote this.
fn check_of(
    alloc: Global,
    journal: &str,
    wanted: &str,
) -> Result<(Result<bool, RunFault>, bool), Fail> {
    let mut input = Counted::new(Pieces::new(journal.as_bytes(), 7));
    let mut output = Counted::new(Spout::new(alloc, 64, 5)?);
    let legal: Result<bool, RunFault> = check_text(alloc, &mut input, &mut output);
    Ok((legal, output.get_ref().bytes() == wanted.as_bytes()))
}

#[test]
fn checked_journals(rt: HostRuntime) -> Result<(), Fail> {
    let legal = "hullbook journal 2 first 0 limit 4 capacity 4\n0 0 add 1048577 0 = added\nend 1\n";
    let older = "hullbook journal 1 first 0 limit 4 capacity 4\n0 0 add 1048577 0 = added\nend 1\n";
    let wrong = "hullbook journal 1 first 0 limit 1 capacity 4\n1 0 count = count 0\nend 1\n";
    let range = RunFault::Text(TextFault { number: 3, line: 2 });
    assert_eq!(rt; check_of(rt.alloc(), legal, "legal\n")?, (Ok(true), true));
    assert_eq!(rt;
        check_of(rt.alloc(), wrong, "illegal 2\n")?,
        (Ok(false), true)
    );
    assert_eq!(rt; check_of(rt.alloc(), older, "")?, (Err(range), true));
    Ok(())
}
