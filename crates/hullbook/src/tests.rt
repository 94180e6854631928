//! The program's engines over texts, and the words that it takes.
ghost use Rattle.hullbook.specs.Tasks.{AreWithinLimits};

mod afters;
mod answers;
mod asked;
mod checks;
mod refused;
mod segments;

use crate::check::check_text;
use crate::fault::{Failure, Fault};
use crate::options::{Options, Request, Stated, Task, options, request};
use crate::progress::Progress;
use crate::run::{RunFault, run};
use crate::segments::SegmentFault;
use hull_program::{OptionFault, Refusal};
use hull_text::{TextFault, UpgradeFault, WriteFault};
use std::alloc::Global;
use std::io;
use std::io::ErrorKind;
use std::sync::Wait;
use std::test::Fail;
use std::thread::Threads;
use text_io::Counted;
use text_io::testing::{Pieces, Spout};

/// Reports nothing.
struct Silence;

impl Progress for Silence {
    fn read(&self, _bytes: usize) {}

    fn replayed(&self) {}

    fn wiped(&self) {}
}

const PLAIN: Options = Options {
    capacity: 65536,
    limit: 1048576,
    first: 0,
    journal: false,
};

const FIVE: &str = "0 add 0 2\n0 add 2 2\n0 extreme 0 1\n0 remove 0 2\n0 extreme 0 1\n";

const FIVE_REPORT: &str =
    "0 add 0 2 = added\n0 add 2 2 = added\n0 extreme 0 1 = point 0 2\n0 remove 0 2 = removed\n0 extreme 0 1 = point 2 2\nledger 0 5\nsum 5 journal 5 capacity 65536\n";

const JOURNAL: &str =
    "hullbook journal 3 first 18446744073709551615 limit 4 capacity 4\n18446744073709551615 0 add 5 5 = added\n0 0 count = count 1\n1 0 remove 5 5 = removed\nend 3\n";

// Whether a run of the script, read and written in small pieces, succeeds with this text.
fn runs_to<R: Threads + Wait + Sync>(
    rt: &R,
    alloc: Global,
    script: &str,
    options: &Options,
    wanted: &str,
) -> Result<bool, Fail>
    requires { AreWithinLimits options.now }
{
    let mut input = Counted::new(Pieces::new(script.as_bytes(), 7));
    let mut output = Counted::new(Spout::new(alloc, 4096, 5)?);
    let ended = run(rt, alloc, &mut input, &mut output, options);
    Ok(ended == Ok(()) && output.get_ref().bytes() == wanted.as_bytes())
}

// Returns the outcome of a run of the script, and how many bytes it wrote.
fn ends<R: Threads + Wait + Sync>(
    rt: &R,
    alloc: Global,
    script: &str,
    reads: u64,
    writes: u64,
) -> Result<(Result<(), RunFault>, usize), Fail> {
    let mut input = Counted::new(Pieces::new(script.as_bytes(), 7).failing_at(reads));
    let mut output = Counted::new(Spout::new(alloc, 4096, 5)?.failing_at(writes));
    let ended = run(rt, alloc, &mut input, &mut output, &PLAIN);
    Ok((ended, output.get_ref().bytes().len()))
}

// Returns the outcome of a check of the journal; an output without capacity takes nothing.
fn judges(alloc: Global, journal: &str, wanted: &str) -> Result<Option<bool>, Fail> {
    let mut input = Counted::new(Pieces::new(journal.as_bytes(), 7));
    let mut output = Counted::new(Spout::new(alloc, 64, 5)?);
    let ended = check_text(alloc, &mut input, &mut output);
    if output.get_ref().bytes() != wanted.as_bytes() {
        return Ok(None);
    }
    Ok(ended.ok())
}

#[test]
fn five_line_script(rt: HostRuntime) -> Result<(), Fail> {
    assert!(rt; runs_to(&rt, rt.alloc(), FIVE, &PLAIN, FIVE_REPORT)?);
    Ok(())
}

#[test]
fn empty_script(rt: HostRuntime) -> Result<(), Fail> {
    let wanted = "ledger 0 0\nsum 0 journal 0 capacity 65536\n";
    assert!(rt; runs_to(&rt, rt.alloc(), "", &PLAIN, wanted)?);
    Ok(())
}

#[test]
fn square_questions(rt: HostRuntime) -> Result<(), Fail> {
    let script =
        "0 add 0 0\n0 add 2 0\n0 add 2 2\n0 add 0 2\n0 extreme 0 1\n0 extreme 1 0\n0 tangents 4 1\n0 tangents 4 0\n0 tangents 1 1\n0 place 1 1\n0 vertices\n0 area\n0 count\n";
    let wanted =
        "0 add 0 0 = added\n0 add 2 0 = added\n0 add 2 2 = added\n0 add 0 2 = added\n0 extreme 0 1 = point 0 2\n0 extreme 1 0 = point 2 0\n0 tangents 4 1 = tangents 2 0 2 2\n0 tangents 4 0 = tangents 0 0 2 2\n0 tangents 1 1 = notangent\n0 place 1 1 = inside\n0 vertices = list 4 0 0 2 0 2 2 0 2\n0 area = area 8\n0 count = count 4\nledger 0 13\nsum 13 journal 13 capacity 65536\n";
    assert!(rt; runs_to(&rt, rt.alloc(), script, &PLAIN, wanted)?);
    Ok(())
}

#[test]
fn three_workers_and_a_join(rt: HostRuntime) -> Result<(), Fail> {
    let script = "0 add 0 0\n1 add 4 0\n2 add 0 4\njoin\n0 vertices\n";
    let wanted =
        "0 add 0 0 = added\n0 vertices = list 3 0 0 4 0 0 4\n1 add 4 0 = added\n2 add 0 4 = added\nledger 0 2\nledger 1 1\nledger 2 1\nsum 4 journal 4 capacity 65536\n";
    assert!(rt; runs_to(&rt, rt.alloc(), script, &PLAIN, wanted)?);
    Ok(())
}

/// All lines of a phase come before those of the next: worker 1 counts before worker 0 adds its point.
#[test]
fn second_worker_first(rt: HostRuntime) -> Result<(), Fail> {
    let script = "1 count\njoin\n0 add 5 5\n";
    let report =
        "0 add 5 5 = added\n1 count = count 0\nledger 0 1\nledger 1 1\nsum 2 journal 2 capacity 65536\n";
    assert!(rt; runs_to(&rt, rt.alloc(), script, &PLAIN, report)?);
    let options = Options {
        capacity: 4,
        limit: 4,
        first: 7,
        journal: true,
    };
    let journal =
        "hullbook journal 3 first 7 limit 4 capacity 4\n7 1 count = count 0\n8 0 add 5 5 = added\nend 2\n";
    assert!(rt; runs_to(&rt, rt.alloc(), script, &options, journal)?);
    Ok(())
}

#[test]
fn full_journal(rt: HostRuntime) -> Result<(), Fail> {
    let options = Options {
        capacity: 2,
        limit: 1048576,
        first: 0,
        journal: false,
    };
    let wanted =
        "0 add 0 0 = added\n0 add 1 0 = added\n0 count = full\nledger 0 2\nsum 2 journal 2 capacity 2\n";
    assert!(rt;
        runs_to(
            &rt,
            rt.alloc(),
            "0 add 0 0\n0 add 1 0\n0 count\n",
            &options,
            wanted
        )?
    );
    Ok(())
}

#[test]
fn wrapping_journal(rt: HostRuntime) -> Result<(), Fail> {
    let options = Options {
        capacity: 4,
        limit: 4,
        first: 18446744073709551615,
        journal: true,
    };
    assert!(rt;
        runs_to(
            &rt,
            rt.alloc(),
            "0 add 5 5\n0 count\n0 remove 5 5\n",
            &options,
            JOURNAL
        )?
    );
    Ok(())
}

#[test]
fn coordinate_out_of_range(rt: HostRuntime) -> Result<(), Fail> {
    let fault = TextFault { number: 3, line: 1 };
    assert_eq!(rt;
        ends(&rt, rt.alloc(), "0 add 1099511627777 0\n", 0, 0)?,
        (Err(RunFault::Text(fault)), 0)
    );
    Ok(())
}

#[test]
fn input_fails_midway(rt: HostRuntime) -> Result<(), Fail> {
    let fault = TextFault { number: 8, line: 1 };
    assert_eq!(rt;
        ends(&rt, rt.alloc(), FIVE, 1, 0)?,
        (Err(RunFault::Text(fault)), 0)
    );
    Ok(())
}

#[test]
fn output_fails_midway(rt: HostRuntime) -> Result<(), Fail> {
    assert_eq!(rt;
        ends(&rt, rt.alloc(), FIVE, 0, 1)?,
        (Err(RunFault::Write), 0)
    );
    assert_eq!(rt; ends(&rt, rt.alloc(), FIVE, 0, 2)?.0, Err(RunFault::Write));
    Ok(())
}

#[test]
fn journals_are_judged(rt: HostRuntime) -> Result<(), Fail> {
    let wrong =
        "hullbook journal 3 first 0 limit 4 capacity 4\n0 0 add 5 5 = added\n1 0 count = count 2\nend 2\n";
    assert_eq!(rt; judges(rt.alloc(), JOURNAL, "legal\n")?, Some(true));
    assert_eq!(rt; judges(rt.alloc(), wrong, "illegal 3\n")?, Some(false));
    Ok(())
}

/// A journal follows the rules of its version: there a second adding is counted, or changes nothing.
#[test]
fn journals_are_judged_by_their_rules(rt: HostRuntime) -> Result<(), Fail> {
    let counted =
        "hullbook journal 3 first 0 limit 1 capacity 4\n0 0 add 5 5 = added\n1 0 add 5 5 = again 2\n2 0 remove 5 5 = left 1\n3 0 count = count 1\nend 4\n";
    let miscounted =
        "hullbook journal 3 first 0 limit 1 capacity 4\n0 0 add 5 5 = added\n1 0 add 5 5 = again 3\nend 2\n";
    let set =
        "hullbook journal 2 first 0 limit 1 capacity 4\n0 0 add 5 5 = added\n1 0 add 5 5 = already\n2 0 remove 5 5 = removed\n3 0 count = count 0\nend 4\n";
    assert_eq!(rt; judges(rt.alloc(), counted, "legal\n")?, Some(true));
    assert_eq!(rt; judges(rt.alloc(), miscounted, "illegal 3\n")?, Some(false));
    assert_eq!(rt; judges(rt.alloc(), set, "legal\n")?, Some(true));
    Ok(())
}

// Whether the words are refused as no use of the program.
fn is_refused(alloc: Global, words: &[&str]) -> bool {
    match request(alloc, words) {
        Ok(_) => false,
        Err(fault) => fault == OptionFault::Usage,
    }
}

// Returns the numbers of the run of the script at this path, if the words request that.
fn run_of(alloc: Global, words: &[&str], wanted: &str) -> Option<Options> {
    let Ok(Task::Run(path, numbers)) = options(alloc, words) else {
        return None;
    };
    (path.as_str() == wanted).then_some(numbers)
}

// Returns the numbers of the run of the script at this path on a tree over buckets, if the words request that.
fn bucketed_run_of(alloc: Global, words: &[&str], wanted: &str) -> Option<Options> {
    let Ok(Request::RunBucketed(path, numbers)) = request(alloc, words) else {
        return None;
    };
    (path.as_str() == wanted).then_some(numbers)
}

// Returns the stated numbers of the run of the script at the first path after the journal at the second, if the words
// request that.
fn run_after_of(alloc: Global, words: &[&str], wanted: (&str, &str)) -> Option<Stated> {
    let Ok(Request::RunAfter(script, journal, stated)) = request(alloc, words) else {
        return None;
    };
    ((script.as_str(), journal.as_str()) == wanted).then_some(stated)
}

// Whether the words request an upgrade of the journal at this path.
fn is_upgrade_of(alloc: Global, words: &[&str], wanted: &str) -> bool {
    let Ok(Task::Upgrade(path)) = options(alloc, words) else {
        return false;
    };
    path.as_str() == wanted
}

// Whether the words request a short journal in place of that at this path.
fn is_compact_of(alloc: Global, words: &[&str], wanted: &str) -> bool {
    let Ok(Request::Compact(path)) = request(alloc, words) else {
        return false;
    };
    path.as_str() == wanted
}

// Whether the check of the journal at this path explains, if the words request that check.
fn check_of(alloc: Global, words: &[&str], wanted: &str) -> Option<bool> {
    let (path, explains) = match request(alloc, words) {
        Ok(Request::Task(Task::Check(path))) => (path, false),
        Ok(Request::Explain(path)) => (path, true),
        _ => return None,
    };
    (path.as_str() == wanted).then_some(explains)
}

// Whether the words request a check of three segments at these paths.
fn is_check_of_segments(alloc: Global, words: &[&str], wanted: (&str, &str, &str)) -> bool {
    let Ok(Request::CheckSegments(paths)) = request(alloc, words) else {
        return false;
    };
    if paths.len() != 3 {
        return false;
    }
    (paths[0].as_str(), paths[1].as_str(), paths[2].as_str()) == wanted
}

#[test]
fn words_that_are_taken(rt: HostRuntime) {
    let words = [
        "run",
        "a b.txt",
        "--capacity",
        "16777216",
        "--limit",
        "1",
        "--first",
        "18446744073709551615",
        "--journal",
    ];
    let wanted = Options {
        capacity: 16777216,
        limit: 1,
        first: 18446744073709551615,
        journal: true,
    };
    let alloc = rt.alloc();
    let numbers = run_of(alloc, &words, "a b.txt");
    let plain = run_of(alloc, &["run", "x"], "x");
    let bucketed = bucketed_run_of(alloc, &["run", "--buckets", "x"], "x");
    let upgrade = is_upgrade_of(alloc, &["upgrade", "a b"], "a b");
    let compact = is_compact_of(alloc, &["compact", "a b"], "a b");
    assert_eq!(rt; numbers, Some(wanted));
    assert_eq!(rt; plain, Some(PLAIN));
    assert_eq!(rt; bucketed, Some(PLAIN));
    assert!(rt; upgrade && compact);
}

#[test]
fn words_of_a_check(rt: HostRuntime) {
    let alloc = rt.alloc();
    let plain = check_of(alloc, &["check", "x"], "x");
    let explained = check_of(alloc, &["check", "--explain", "x"], "x");
    let segments = is_check_of_segments(alloc, &["check", "y", "x", "y"], ("y", "x", "y"));
    assert_eq!(rt; (plain, explained), (Some(false), Some(true)));
    assert!(rt; segments);
}

/// Numbers that are not stated for a run after a journal are taken from the journal.
#[test]
fn words_of_a_run_after_a_journal(rt: HostRuntime) {
    let words = ["run", "--after", "j", "s", "--limit", "7", "--buckets"];
    let wanted = Stated {
        capacity: None,
        limit: Some(7),
        first: None,
        journal: false,
        bucketed: true,
    };
    let stated = run_after_of(rt.alloc(), &words, ("s", "j"));
    assert_eq!(rt; stated, Some(wanted));
}

// Returns the index of the first of these that is not refused as no use of the program.
fn first_taken(alloc: Global, rows: &[&[&str]]) -> Option<usize> {
    for i in 0..rows.len() {
        if !is_refused(alloc, rows[i]) {
            return Some(i);
        }
    }
    None
}

#[test]
fn words_that_are_refused(rt: HostRuntime) {
    let rows: [&[&str]; 19] = [
        &[],
        &["run"],
        &["check"],
        &["run", "x", "y"],
        &["run", "x", "--capacity", "0"],
        &["run", "x", "--capacity", "16777217"],
        &["run", "x", "--limit", "1048577"],
        &["run", "x", "--first", "18446744073709551616"],
        &["check", "x", "--journal"],
        &["check", "x", "y", "--explain"],
        &["upgrade"],
        &["upgrade", "x", "--journal"],
        &["compact"],
        &["compact", "x", "--journal"],
        &["run", "x", "--after"],
        &["run", "--after", "x"],
        &["run", "x", "--after", "y", "--capacity", "0"],
        &["check", "x", "--after", "y"],
        &["downgrade", "x"],
    ];
    assert_eq!(rt; first_taken(rt.alloc(), &rows), None);
}

/// A journal of no lines is refused as a word, with status 2.
#[test]
fn zero_capacity(rt: HostRuntime) -> Result<(), Fail> {
    let words = ["run", "x", "--capacity", "0"];
    let fault = match options(rt.alloc(), &words) {
        Ok(_) => return Err(Fail::new("capacity 0 was taken")),
        Err(fault) => Fault::from(fault),
    };
    assert_eq!(rt; fault.status(), 2);
    let text = format!(in rt.alloc(); "{fault}")?;
    assert_eq!(rt; text.as_str(), "hullbook: usage");
    Ok(())
}

/// A system call to which memory was refused is reported as that, and not as refused words or a file that does not
/// exist.
#[test]
fn refused_memory_of_the_system(rt: HostRuntime) -> Result<(), Fail> {
    let refused = io::Error::from(ErrorKind::OutOfMemory);
    assert_eq!(rt; Refusal::of_system(&refused, Refusal::Usage).status(), 4);
    assert_eq!(rt; Refusal::of_system(&refused, Refusal::Open).status(), 4);
    let absent = io::Error::from(ErrorKind::NotFound);
    assert_eq!(rt; Refusal::of_system(&absent, Refusal::Usage).status(), 2);
    assert_eq!(rt; Refusal::of_system(&absent, Refusal::Open).status(), 3);
    Ok(())
}

// Whether the two faults end the program with the same status, and with the same words.
fn alike(alloc: Global, one: Failure, other: Failure) -> Result<(bool, bool), Fail> {
    let same_status = one.status() == other.status();
    let (returned, wanted) = (format!(in alloc; "{one}")?, format!(in alloc; "{other}")?);
    Ok((same_status, returned.as_str() == wanted.as_str()))
}

/// A journal that was not upgraded ends the program as a journal that was not checked.
#[test]
fn faults_of_an_upgrade_are_those_of_a_check(rt: HostRuntime) -> Result<(), Fail> {
    let text = TextFault { number: 8, line: 2 };
    for (upgrade, check) in [
        (UpgradeFault::Text(text), RunFault::Text(text)),
        (UpgradeFault::Write(WriteFault), RunFault::Write),
    ] {
        let (same_status, same_words) = alike(
            rt.alloc(),
            Failure::from(upgrade),
            Failure::from(check),
        )?;
        assert!(rt; same_status && same_words);
    }
    Ok(())
}

// Whether the program ends with these words by this fault, which is dropped here.
fn reports(alloc: Global, fault: Failure, words: &str) -> bool {
    match format!(in alloc; "{fault}") {
        Ok(returned) => returned.as_str() == words,
        Err(_) => false,
    }
}

/// The line that each fault ends the program with.
#[test]
fn faults_have_their_words(rt: HostRuntime) {
    let text = TextFault { number: 3, line: 2 };
    let alloc = rt.alloc();
    let returned = [
        reports(alloc, Failure::Refused(Fault::Usage), "hullbook: usage"),
        reports(alloc, Failure::Refused(Fault::Open), "hullbook: open"),
        reports(alloc, Failure::Refused(Fault::Memory), "hullbook: memory"),
        reports(alloc, Failure::Refused(Fault::Write), "hullbook: write"),
        reports(
            alloc,
            Failure::Refused(Fault::Text(text)),
            "hullbook: line 2: fault 3",
        ),
        reports(
            alloc,
            Failure::Journal(text),
            "hullbook: journal: line 2: fault 3",
        ),
        reports(
            alloc,
            Failure::Rules,
            "hullbook: points are not counted before version 3, and upgrade keeps that",
        ),
        reports(
            alloc,
            Failure::Illegal(4294967297),
            "hullbook: illegal 4294967297",
        ),
        reports(
            alloc,
            Failure::First(18446744073709551615),
            "hullbook: the journal's first number is 18446744073709551615",
        ),
        reports(
            alloc,
            Failure::Limit(4),
            "hullbook: the journal's limit is 4",
        ),
        reports(
            alloc,
            Failure::Lines(3),
            "hullbook: the journal has 3 lines",
        ),
    ];
    assert_eq!(rt; returned, [true; 11]);
}

// Returns the status of a program that ends with this fault, which is dropped here: a test that owned it would drop
// it at each assertion.
fn status_of(fault: Failure) -> u8 {
    fault.status()
}

// Makes the fault of this number in the first line of a text.
fn at_first_line(number: u8) -> TextFault {
    TextFault { number, line: 1 }
}

#[test]
fn faults_have_their_statuses(rt: HostRuntime) {
    let plain = [
        status_of(Failure::Refused(Fault::Usage)),
        status_of(Failure::Refused(Fault::Open)),
        status_of(Failure::Refused(Fault::Write)),
        status_of(Failure::Refused(Fault::Memory)),
        status_of(Failure::Illegal(2)),
        status_of(Failure::Rules),
        status_of(Failure::First(0)),
        status_of(Failure::Limit(4)),
        status_of(Failure::Lines(3)),
        status_of(Failure::Segment(String::new(rt.alloc()), SegmentFault::Open)),
    ];
    let journals = [
        status_of(Failure::Journal(at_first_line(7))),
        status_of(Failure::Journal(at_first_line(8))),
        status_of(Failure::Journal(at_first_line(10))),
    ];
    let texts = [
        status_of(Failure::Refused(Fault::Text(at_first_line(7)))),
        status_of(Failure::Refused(Fault::Text(at_first_line(8)))),
        status_of(Failure::Refused(Fault::Text(at_first_line(10)))),
    ];
    assert_eq!(rt; plain, [2, 3, 3, 4, 1, 2, 2, 2, 2, 3]);
    assert_eq!(rt; journals, [2, 3, 4]);
    assert_eq!(rt; texts, [2, 3, 4]);
}
