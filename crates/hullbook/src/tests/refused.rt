//! Memory that is refused. `rt try --test --fail-alloc N` refuses the Nth allocation of each test.
use super::{FIVE, FIVE_REPORT, JOURNAL, PLAIN, judges, runs_to};
use crate::check::check_text;
use crate::options::options;
use crate::run::{RunFault, run};
use hull_program::OptionFault;
use hull_text::TextFault;
use std::alloc::Global;
use std::process::Abort;
use std::sync::Wait;
use std::test::Fail;
use std::thread::Threads;
use text_io::Counted;
use text_io::testing::{Pieces, Spout};

/// The report of the five calls if memory for the first point was refused.
const FIRST_REFUSED: &str =
    "0 add 0 2 = nomemory\n0 add 2 2 = added\n0 extreme 0 1 = point 2 2\n0 remove 0 2 = absent\n0 extreme 0 1 = point 2 2\nledger 0 5\nsum 5 journal 5 capacity 65536\n";

// Makes a writer with capacity for a report. If memory is refused, the second attempt succeeds.
fn spout(rt: &impl Abort, alloc: Global) -> Spout {
    if let Ok(spout) = Spout::new(alloc, 4096, 5) {
        return spout;
    }
    match Spout::new(alloc, 4096, 5) {
        Ok(spout) => spout,
        Err(_) => panic!(rt; "memory is refused once"),
    }
}

// Returns the line of a text that its reader is reading after so many calls that returned a byte each, or found the
// end.
fn line_in_hand(text: &str, calls: u64) -> u32 {
    let mut line = 1u32;
    for (i, b) in text.as_bytes().iter().enumerate() {
        if *b == b'\n' && (i as u64).saturating_add(1) < calls {
            line = line.saturating_add(1);
        }
    }
    line
}

// Whether the fault is that memory was refused: to the reader, in the line that it was reading, or elsewhere.
fn is_memory(fault: RunFault, text: &str, calls: u64) -> bool {
    match fault {
        RunFault::Memory => true,
        RunFault::Text(TextFault { number, line }) => {
            number == 10 && line == line_in_hand(text, calls)
        }
        RunFault::Write => false,
    }
}

// Returns the outcome of a run of the five calls, how many bytes it wrote, whether they are its report or that of a
// refused point, and how often it read.
fn five_run<R: Threads + Wait + Sync + Abort>(
    rt: &R,
    alloc: Global,
) -> (Result<(), RunFault>, usize, bool, u64) {
    let mut input = Counted::new(Pieces::new(FIVE.as_bytes(), 1));
    let mut output = Counted::new(spout(rt, alloc));
    let ended = run(rt, alloc, &mut input, &mut output, &PLAIN);
    let written = output.get_ref().bytes();
    let reported = written == FIVE_REPORT.as_bytes() || written == FIRST_REFUSED.as_bytes();
    (ended, written.len(), reported, input.get_ref().calls())
}

/// A run to which memory is refused writes nothing and reports that, and the next run succeeds. If it is memory for a
/// point that is refused, the run continues with that reply.
#[test]
fn refused_memory_run(rt: HostRuntime) -> Result<(), Fail> {
    let (ended, written, reported, calls) = five_run(&rt, rt.alloc());
    match ended {
        Ok(()) => assert!(rt; reported),
        Err(fault) => {
            assert!(rt; is_memory(fault, FIVE, calls));
            assert_eq!(rt; written, 0);
            assert!(rt; runs_to(&rt, rt.alloc(), FIVE, &PLAIN, FIVE_REPORT)?);
        }
    }
    Ok(())
}

// Returns the outcome of a check of the journal, how many bytes it wrote, whether they are `legal`, and how often it
// read.
fn journal_check(rt: &impl Abort, alloc: Global) -> (Result<bool, RunFault>, usize, bool, u64) {
    let mut input = Counted::new(Pieces::new(JOURNAL.as_bytes(), 1));
    let mut output = Counted::new(spout(rt, alloc));
    let ended = check_text(alloc, &mut input, &mut output);
    let written = output.get_ref().bytes();
    let legal = written == "legal\n".as_bytes();
    (ended, written.len(), legal, input.get_ref().calls())
}

/// A check to which memory is refused writes nothing and reports that, and the next check succeeds.
#[test]
fn refused_memory_check(rt: HostRuntime) -> Result<(), Fail> {
    let (ended, written, legal, calls) = journal_check(&rt, rt.alloc());
    match ended {
        Ok(found) => {
            assert!(rt; found && legal);
        }
        Err(fault) => {
            assert!(rt; is_memory(fault, JOURNAL, calls));
            assert_eq!(rt; written, 0);
            assert_eq!(rt; judges(rt.alloc(), JOURNAL, "legal\n")?, Some(true));
        }
    }
    Ok(())
}

/// Words for which memory is refused are not refused as words.
#[test]
fn refused_memory_options(rt: HostRuntime) -> Result<(), Fail> {
    let words = ["run", "x", "--limit", "7"];
    match options(rt.alloc(), &words) {
        Ok(_) => {}
        Err(fault) => {
            assert_eq!(rt; fault, OptionFault::Memory);
            assert!(rt; options(rt.alloc(), &words).is_ok());
        }
    }
    Ok(())
}
