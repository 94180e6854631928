//! Scripts, journals and reports as texts.
ghost use Rattle.std.specs.Prelude.{◌≡◌, ◌<◌, ◌-◌, ◌^◌};

use crate::books::report_of;
use hull_book::{CheckResult, Journal, JournalFull, Reply, Script, check};
use hull_text::{
    Counted, Pieces, Sink, Source, Spout, TextFault, UpgradeFault, WriteFault, read_journal,
    read_script, report_fits, texts_hold, upgrade, write_journal, write_report,
};
use std::alloc::Global;
use std::test::Fail;

/// The example journal.
const EXAMPLE: &str =
    "hullbook journal 1 first 0 limit 8 capacity 8\n0 0 add 0 0 = added\n1 0 add 4 0 = added\n2 0 add 2 3 = added\n3 0 add 2 1 = added\n4 0 remove 2 3 = removed\n5 0 vertices = list 3 0 0 4 0 2 1\n6 0 area = area 4\nend 7\n";

/// The same with another area.
const MISTAKEN: &str =
    "hullbook journal 1 first 0 limit 8 capacity 8\n0 0 add 0 0 = added\n1 0 add 4 0 = added\n2 0 add 2 3 = added\n3 0 add 2 1 = added\n4 0 remove 2 3 = removed\n5 0 vertices = list 3 0 0 4 0 2 1\n6 0 area = area 5\nend 7\n";

/// The same without its last byte.
const CUT: &str =
    "hullbook journal 1 first 0 limit 8 capacity 8\n0 0 add 0 0 = added\n1 0 add 4 0 = added\n2 0 add 2 3 = added\n3 0 add 2 1 = added\n4 0 remove 2 3 = removed\n5 0 vertices = list 3 0 0 4 0 2 1\n6 0 area = area 4\nend 7";

// Returns the checker's verdict on the journal that is read from the text, or the fault.
fn judged(alloc: Global, text: &str) -> Result<CheckResult, TextFault> {
    let mut source = Counted::new(Pieces::new(text.as_bytes(), 7));
    let journal: Result<Journal, TextFault> = read_journal(alloc, &mut source);
    Ok(check(alloc, &journal?))
}

#[test]
fn journals_are_read_and_judged(rt: HostRuntime) {
    let alloc = rt.alloc();
    let refusal =
        "hullbook journal 1 first 0 limit 1 capacity 4\n0 0 add 0 0 = nomemory\n1 0 add 0 0 = added\n2 0 add 0 0 = nomemory\nend 3\n";
    let number = "hullbook journal 1 first 0 limit 1 capacity 4\n1 0 count = count 0\nend 1\n";
    let truncated: TextFault = TextFault { number: 6, line: 9 };
    assert_eq!(rt; judged(alloc, EXAMPLE), Ok(CheckResult::Legal));
    assert_eq!(rt; judged(alloc, MISTAKEN), Ok(CheckResult::Illegal(6)));
    assert_eq!(rt; judged(alloc, CUT), Err(truncated));
    assert_eq!(rt; judged(alloc, refusal), Ok(CheckResult::Illegal(2)));
    assert_eq!(rt; judged(alloc, number), Ok(CheckResult::Illegal(0)));
    let header: TextFault = TextFault { number: 7, line: 1 };
    assert_eq!(rt;
        judged(
            alloc,
            "hullbook journal 9 first 0 limit 1 capacity 4\nend 0\n"
        ),
        Err(header)
    );
}

// The fault of a script, or how many workers and phases it has.
fn script_of(alloc: Global, text: &str) -> Result<(u8, usize), TextFault> {
    let mut source = Counted::new(Pieces::new(text.as_bytes(), 3));
    let script: Result<Script, TextFault> = read_script(alloc, &mut source);
    let script = script?;
    Ok((script.workers, script.phases.len()))
}

#[test]
fn scripts_are_read(rt: HostRuntime) {
    let alloc = rt.alloc();
    assert_eq!(rt;
        script_of(alloc, "1 count\n0 add 0 0\njoin\n0 count\n"),
        Ok((2, 2))
    );
    let range = TextFault { number: 3, line: 1 };
    assert_eq!(rt; script_of(alloc, "0 add 1099511627777 0\n"), Err(range));
}

// The count of failures of a reader and of a writer.
fn failures<R: Source, W: Sink>(source: &R, sink: &W) -> (u64, u64) {
    let (reads, writes): (u64, u64) = (source.failures(), sink.failures());
    (reads, writes)
}

// Writes and upgrades the journal of the text. Returns whether both are this text.
fn written(alloc: Global, text: &str, wanted: &str) -> Result<(bool, bool), Fail> {
    let mut source = Counted::new(Pieces::new(text.as_bytes(), 7));
    let Ok(journal) = read_journal(alloc, &mut source) else {
        return Err(Fail::new("it is a journal"));
    };
    let mut out = Counted::new(Spout::new(alloc, 4096, 5)?);
    let done: Result<(), WriteFault> = write_journal(&journal, &mut out);
    let same = done.is_ok() && out.get_ref().bytes() == wanted.as_bytes();
    let mut again = Counted::new(Pieces::new(text.as_bytes(), 1));
    let mut newer = Counted::new(Spout::new(alloc, 4096, 5)?);
    let upgraded: Result<(), UpgradeFault> = upgrade(alloc, &mut again, &mut newer);
    let alike = upgraded == Ok(()) && newer.get_ref().bytes() == wanted.as_bytes();
    Ok((same, alike && failures(&again, &newer) == (0, 0)))
}

#[test]
fn journals_are_written(rt: HostRuntime) -> Result<(), Fail> {
    let older = "hullbook journal 1 first 0 limit 4 capacity 4\n0 0 count = count 0\nend 1\n";
    let wanted = "hullbook journal 2 first 0 limit 4 capacity 4\n0 0 count = count 0\nend 1\n";
    assert_eq!(rt; written(rt.alloc(), older, wanted)?, (true, true));
    Ok(())
}

// The report of a script with no call, with an empty journal.
fn empty_report(alloc: Global, wanted: &str) -> Result<bool, Fail> {
    let mut source = Counted::new(Pieces::new(b"", 1));
    let Ok(script) = read_script(alloc, &mut source) else {
        return Err(Fail::new("it is a script"));
    };
    let text = "hullbook journal 3 first 0 limit 1048576 capacity 65536\nend 0\n";
    let mut journals = Counted::new(Pieces::new(text.as_bytes(), 1));
    let Ok(journal) = read_journal(alloc, &mut journals) else {
        return Err(Fail::new("it is a journal"));
    };
    let answers: Vec<Vec<Result<Reply, JournalFull>>> = Vec::from_array(alloc, [Vec::new(alloc)])?;
    let report = report_of(&script, &answers, &[0], &journal);
    if !report_fits(&report) {
        return Ok(false);
    }
    let mut out = Counted::new(Spout::new(alloc, 64, 5)?);
    let done: Result<(), WriteFault> = write_report(&report, &mut out);
    Ok(done == Ok(()) && out.get_ref().bytes() == wanted.as_bytes())
}

#[test]
fn empty_script(rt: HostRuntime) -> Result<(), Fail> {
    texts_hold();
    let wanted = "ledger 0 0\nsum 0 journal 0 capacity 65536\n";
    assert!(rt; empty_report(rt.alloc(), wanted)?);
    Ok(())
}
