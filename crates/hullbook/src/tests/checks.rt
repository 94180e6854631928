//! The end of a check if its input or its output has a fault.
use super::{JOURNAL, Silence};
use crate::check::{check_text, check_text_with, check_whole_text};
use crate::run::RunFault;
use hull_text::TextFault;
use std::alloc::Global;
use std::io::BufWriter;
use std::test::Fail;
use text_io::Counted;
use text_io::testing::{Pieces, Spout};

/// Texts that are no journals, each with the number and the line of its first fault.
const FAULTY: [(&str, u8, u32); 8] = [
    ("", 6, 1),
    (
        "hullbook journal 4 first 0 limit 4 capacity 4\nend 0\n",
        7,
        1,
    ),
    (
        "hullbook journal 1 first 0 limit 4 capacity 4\n0 0 add 1048577 0 = added\nend 1\n",
        3,
        2,
    ),
    (
        "hullbook journal 1 first 0 limit 4 capacity 4\n0 0 hull = empty\n",
        5,
        2,
    ),
    (
        "hullbook journal 3 first 0 limit 4 capacity 4\n0 0 add 0 0 = already\n",
        5,
        2,
    ),
    (
        "hullbook journal 2 first 0 limit 4 capacity 4\n0 0 add 0 0 = again 2\n",
        5,
        2,
    ),
    (
        "hullbook journal 1 first 0 limit 4 capacity 4\nend 1\n",
        1,
        2,
    ),
    // after a wrong line
    (
        "hullbook journal 1 first 0 limit 4 capacity 4\n0 0 add 5 5 = absent\nend 2\n",
        1,
        3,
    ),
];

// Returns the outcome of a check of the journal, and how many bytes it wrote.
fn ends(
    alloc: Global,
    journal: &str,
    reads: u64,
    writes: u64,
) -> Result<(Result<bool, RunFault>, usize), Fail> {
    let mut input = Counted::new(Pieces::new(journal.as_bytes(), 7).failing_at(reads));
    let mut output = Counted::new(Spout::new(alloc, 64, 5)?.failing_at(writes));
    let ended = check_text(alloc, &mut input, &mut output);
    Ok((ended, output.get_ref().bytes().len()))
}

/// A text that is no journal is reported with its fault, and not as an illegal journal or refused memory.
#[test]
fn faults_of_a_journal_are_returned(rt: HostRuntime) -> Result<(), Fail> {
    for (journal, number, line) in FAULTY {
        let fault = TextFault { number, line };
        assert_eq!(rt;
            ends(rt.alloc(), journal, 0, 0)?,
            (Err(RunFault::Text(fault)), 0)
        );
    }
    Ok(())
}

// Returns the first wrong line that each of the two checks finds, if both write nothing else.
fn wrong_lines(alloc: Global, journal: &str, wanted: &str) -> Result<[Option<u32>; 2], Fail> {
    let mut output = Counted::new(Spout::new(alloc, 64, 5)?);
    let mut input = Counted::new(Pieces::new(journal.as_bytes(), 7));
    let returned = check_text_with(alloc, &mut input, &mut output, &Silence);
    let mut input = Counted::new(Pieces::new(journal.as_bytes(), 7));
    let kept = check_whole_text(alloc, &mut input, &mut output, &Silence);
    if output.get_ref().bytes() != wanted.as_bytes() {
        return Ok([None; 2]);
    }
    let kept = kept.map(|checked| checked.wrong);
    Ok([returned.unwrap_or(None), kept.unwrap_or(None)])
}

/// The first wrong line is reported, whether the lines are kept or not, and none after it.
#[test]
fn the_first_wrong_line_is_returned(rt: HostRuntime) -> Result<(), Fail> {
    let journal =
        "hullbook journal 1 first 0 limit 4 capacity 4\n0 0 count = count 0\n1 0 count = count 1\n5 0 count = count 2\nend 3\n";
    assert_eq!(rt;
        wrong_lines(rt.alloc(), journal, "illegal 3\nillegal 3\n")?,
        [Some(1); 2]
    );
    Ok(())
}

#[test]
fn input_of_a_check_fails_midway(rt: HostRuntime) -> Result<(), Fail> {
    let fault = TextFault { number: 8, line: 2 };
    assert_eq!(rt;
        ends(rt.alloc(), JOURNAL, 12, 0)?,
        (Err(RunFault::Text(fault)), 0)
    );
    Ok(())
}

#[test]
fn output_of_a_check_fails_midway(rt: HostRuntime) -> Result<(), Fail> {
    assert_eq!(rt; ends(rt.alloc(), JOURNAL, 0, 1)?, (Err(RunFault::Write), 0));
    assert_eq!(rt; ends(rt.alloc(), JOURNAL, 0, 2)?, (Err(RunFault::Write), 5));
    Ok(())
}

// Whether a check that succeeds leaves this, and nothing else, at the device after a block.
fn reaches_the_device(alloc: Global, journal: &str, wanted: &str) -> Result<bool, Fail> {
    let mut input = Counted::new(Pieces::new(journal.as_bytes(), 7));
    let device = Spout::new(alloc, 64, 64)?;
    let mut output = Counted::new(BufWriter::with_capacity(alloc, 64, device)?);
    let ended = check_text(alloc, &mut input, &mut output);
    Ok(ended.is_ok() && output.get_ref().get_ref().bytes() == wanted.as_bytes())
}

/// No contract sees a flush: a buffered writer would keep what it was not asked to write.
#[test]
fn a_verdict_reaches_the_device_behind_a_block(rt: HostRuntime) -> Result<(), Fail> {
    let wrong = "hullbook journal 1 first 0 limit 4 capacity 4\n0 0 add 5 5 = absent\nend 1\n";
    assert!(rt; reaches_the_device(rt.alloc(), JOURNAL, "legal\n")?);
    assert!(rt; reaches_the_device(rt.alloc(), wrong, "illegal 2\n")?);
    Ok(())
}
