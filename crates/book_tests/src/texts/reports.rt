ghost use Rattle.std.specs.Prelude.{◌<◌};

use crate::devices::{Got, device, got, in_blocks, is_cut, is_whole};
use hull_book::{Answer, Journal, JournalFull, Report, Script};
use hull_set::{Place, PointList, Reply};
use hull_text::{Counted, WriteFault, read_journal, read_script, report_fits, write_report};
use lattice::Point;
use std::alloc::{AllocError, Global};
use std::io::BufWriter;
use std::process::Abort;
use std::test::Fail;
use text_io::testing::{Pieces, Spout};

const SCRIPT: &[u8] = b"1 place 0 0\n0 add 0 0\njoin\n0 vertices\n1 tangents 3 0\n0 area\n";

const JOURNAL: &[u8] =
    b"hullbook journal 1 first 0 limit 8 capacity 4\n0 1 place 0 0 = outside\n1 0 add 0 0 = added\n2 0 vertices = list 1 0 0\n3 1 tangents 3 0 = tangents 0 0 0 0\nend 4\n";

const TEXT: &[u8] =
    b"0 add 0 0 = added\n0 vertices = list 1 0 0\n0 area = full\n1 place 0 0 = outside\n1 tangents 3 0 = tangents 0 0 0 0\nledger 0 2\nledger 1 2\nsum 4 journal 4 capacity 4\n";

// A script and a journal of these texts.
fn texts(rt: &impl Abort, alloc: Global, script: &[u8], journal: &[u8]) -> (Script, Journal) {
    let script = read_script(alloc, &mut Counted::new(Pieces::new(script, 3)));
    let journal = read_journal(alloc, &mut Counted::new(Pieces::new(journal, 3)));
    match (script, journal) {
        (Ok(script), Ok(journal)) => (script, journal),
        _ => panic!(rt; "a script and a journal"),
    }
}

// The list of these points.
fn list_of<const N: usize>(alloc: Global, points: [Point; N]) -> Result<Reply, AllocError>
    requires { N < 16 }
{
    Ok(Reply::VertexList(PointList::new(Vec::from_array(alloc, points)?)))
}

fn answers(alloc: Global, origin: Point) -> Result<Vec<Vec<Answer>>, AllocError> {
    let list = list_of(alloc, [origin])?;
    let first = Vec::from_array(alloc, [Ok(Reply::Added), Ok(list), Err(JournalFull)])?;
    let touched = Reply::TangentPoints(origin, origin);
    let second = Vec::from_array(alloc, [Ok(Reply::Lies(Place::Outside)), Ok(touched)])?;
    Ok(Vec::from_array(alloc, [first, second])?)
}

// Returns the result of writing a report to a device, if it fits.
fn sent(report: &Report<'_>, device: Spout, want: &[u8]) -> Option<(Result<(), WriteFault>, Got)> {
    if report_fits(report) {
        let mut out = Counted::new(device);
        let outcome = write_report(report, &mut out);
        Some((outcome, got(&out, want)))
    } else {
        None
    }
}

// Returns whether a report is written completely in pieces of this size, by how many calls.
fn sent_whole(alloc: Global, report: &Report<'_>, size: usize, want: &[u8]) -> Option<u64> {
    let (outcome, got) = sent(report, device(alloc, 512, size, 0, false)?, want)?;
    let (_, _, calls, _) = got;
    if outcome == Ok(()) && is_whole(got, want) {
        Some(calls)
    } else {
        None
    }
}

// Whether a report is written completely in pieces of each size.
fn is_sent_whole(alloc: Global, report: &Report<'_>, want: &[u8]) -> bool {
    let mut all = true;
    for size in [1, 2, 3, 4096] {
        all = sent_whole(alloc, report, size, want).is_some() && all;
    }
    all
}

#[test]
fn a_report_reports_answers_ledgers_and_their_sum(rt: HostRuntime) -> Result<(), Fail> {
    let origin = Point::new(0, 0)?;
    let answers = answers(rt.alloc(), origin)?;
    let (script, journal) = texts(&rt, rt.alloc(), SCRIPT, JOURNAL);
    let report = Report {
        script: &script,
        answers: &answers,
        ledgers: &[2, 2],
        journal: &journal,
    };
    let is_sent = is_sent_whole(rt.alloc(), &report, TEXT);
    assert!(rt; is_sent);
    Ok(())
}

/// A point with multiplicity two for a while: the script, its journal and its report.
const HELD_SCRIPT: &[u8] = b"0 add 3 4\n0 add 3 4\n0 remove 3 4\n";

const HELD_JOURNAL: &[u8] =
    b"hullbook journal 3 first 0 limit 1 capacity 3\n0 0 add 3 4 = added\n1 0 add 3 4 = again 2\n2 0 remove 3 4 = left 1\nend 3\n";

const HELD_REPORT: &[u8] =
    b"0 add 3 4 = added\n0 add 3 4 = again 2\n0 remove 3 4 = left 1\nledger 0 3\nsum 3 journal 3 capacity 3\n";

fn held_answers(alloc: Global) -> Result<Vec<Vec<Answer>>, AllocError> {
    let only = [Ok(Reply::Added), Ok(Reply::Again(2)), Ok(Reply::Left(1))];
    let only = Vec::from_array(alloc, only)?;
    Ok(Vec::from_array(alloc, [only])?)
}

#[test]
fn a_report_reports_how_often_a_point_is_held(rt: HostRuntime) -> Result<(), Fail> {
    let answers = held_answers(rt.alloc())?;
    let (script, journal) = texts(&rt, rt.alloc(), HELD_SCRIPT, HELD_JOURNAL);
    let report = Report {
        script: &script,
        answers: &answers,
        ledgers: &[3],
        journal: &journal,
    };
    let calls = sent_whole(rt.alloc(), &report, 3, HELD_REPORT);
    assert!(rt; calls.is_some());
    Ok(())
}

/// The script of the example journal, which has a removal that uncovers an inner point, and its report.
const EXAMPLE_SCRIPT: &[u8] =
    b"# a removal uncovers an inner point\n0 add 0 0\n0 add 4 0\n0 add 2 3\n0 add 2 1\n0 remove 2 3\n0 vertices\n0 area\n";

const EXAMPLE_JOURNAL: &[u8] =
    b"hullbook journal 1 first 0 limit 8 capacity 8\n0 0 add 0 0 = added\n1 0 add 4 0 = added\n2 0 add 2 3 = added\n3 0 add 2 1 = added\n4 0 remove 2 3 = removed\n5 0 vertices = list 3 0 0 4 0 2 1\n6 0 area = area 4\nend 7\n";

const EXAMPLE_REPORT: &[u8] =
    b"0 add 0 0 = added\n0 add 4 0 = added\n0 add 2 3 = added\n0 add 2 1 = added\n0 remove 2 3 = removed\n0 vertices = list 3 0 0 4 0 2 1\n0 area = area 4\nledger 0 7\nsum 7 journal 7 capacity 8\n";

fn example_answers(alloc: Global, points: [Point; 3]) -> Result<Vec<Vec<Answer>>, AllocError> {
    let list = list_of(alloc, points)?;
    let only = Vec::from_array(
        alloc,
        [
            Ok(Reply::Added),
            Ok(Reply::Added),
            Ok(Reply::Added),
            Ok(Reply::Added),
            Ok(Reply::Removed),
            Ok(list),
            Ok(Reply::DoubledArea(4)),
        ],
    )?;
    Ok(Vec::from_array(alloc, [only])?)
}

// Whether the report of the example is cut short at this call of a device that takes pieces of this size.
fn is_cut_at(
    alloc: Global,
    report: &Report<'_>,
    size: usize,
    call: u64,
    refuses: bool,
) -> Option<bool> {
    let device = device(alloc, 512, size, call, refuses)?;
    let (outcome, got) = sent(report, device, EXAMPLE_REPORT)?;
    Some(outcome == Err(WriteFault) && is_cut(got, call))
}

// Whether the report of the example is written completely to a device that takes pieces of this size, and each failing call cuts it short: each time
// with the write fault, after a prefix of the text.
fn is_cut_short_at_each_call(
    alloc: Global,
    report: &Report<'_>,
    size: usize,
    refuses: bool,
) -> Option<bool> {
    let calls = sent_whole(alloc, report, size, EXAMPLE_REPORT)?;
    let mut all = calls > 0;
    for call in 1..=calls {
        all = is_cut_at(alloc, report, size, call, refuses)? && all;
    }
    Some(all)
}

// Whether that is so in pieces of each size.
fn is_cut_short(alloc: Global, report: &Report<'_>, refuses: bool) -> Option<bool> {
    let mut all = true;
    for size in [1, 2, 3, 4096] {
        all = is_cut_short_at_each_call(alloc, report, size, refuses)? && all;
    }
    Some(all)
}

#[test]
fn each_failing_write_of_the_example_report_leaves_a_beginning(
    rt: HostRuntime,
) -> Result<(), Fail> {
    let points = [Point::new(0, 0)?, Point::new(4, 0)?, Point::new(2, 1)?];
    let answers = example_answers(rt.alloc(), points)?;
    let (script, journal) = texts(&rt, rt.alloc(), EXAMPLE_SCRIPT, EXAMPLE_JOURNAL);
    let report = Report {
        script: &script,
        answers: &answers,
        ledgers: &[7],
        journal: &journal,
    };
    let failing = is_cut_short(rt.alloc(), &report, false);
    let refusing = is_cut_short(rt.alloc(), &report, true);
    assert!(rt; (failing, refusing) == (Some(true), Some(true)));
    Ok(())
}

// Whether a report fits and is written completely through a buffer.
fn is_sent_in_blocks(report: &Report<'_>, blocks: BufWriter<Spout>) -> bool {
    if report_fits(report) {
        let mut out = Counted::new(blocks);
        let outcome = write_report(report, &mut out);
        outcome == Ok(()) && out.get_ref().get_ref().bytes() == TEXT
    } else {
        false
    }
}

// No contract sees a flush: a writer with a buffer would hold back what it was not asked to pass on.
#[test]
fn a_written_report_reaches_the_device_behind_a_block(rt: HostRuntime) -> Result<(), Fail> {
    let origin = Point::new(0, 0)?;
    let answers = answers(rt.alloc(), origin)?;
    let (script, journal) = texts(&rt, rt.alloc(), SCRIPT, JOURNAL);
    let report = Report {
        script: &script,
        answers: &answers,
        ledgers: &[2, 2],
        journal: &journal,
    };
    let is_sent = is_sent_in_blocks(&report, in_blocks(&rt, rt.alloc(), 512, 0));
    assert!(rt; is_sent);
    Ok(())
}

#[test]
fn a_report_without_a_ledger_for_each_worker_does_not_fit(rt: HostRuntime) -> Result<(), Fail> {
    let origin = Point::new(0, 0)?;
    let answers = answers(rt.alloc(), origin)?;
    let (script, journal) = texts(&rt, rt.alloc(), SCRIPT, JOURNAL);
    let report = Report {
        script: &script,
        answers: &answers,
        ledgers: &[2],
        journal: &journal,
    };
    let fits = report_fits(&report);
    assert!(rt; !fits);
    Ok(())
}
