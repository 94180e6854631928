//! A script and a journal are read, and a journal is upgraded.
use crate::findings::Findings;
use crate::stage::Stage;
use hull_text::{TextFault, UpgradeFault, read_journal, read_script, upgrade};
use std::alloc::Global;
use text_io::Counted;
use text_io::testing::{Pieces, Spout};

/// A script of three lines, the last of which ends without a newline.
const SCRIPT: &[u8] = b"0 add 0 0\n1 count\n0 vertices";

/// A journal of two lines.
const JOURNAL: &[u8] =
    b"hullbook journal 1 first 0 limit 4 capacity 4\n0 0 add 3 4 = added\n1 0 vertices = list 1 3 4\nend 2\n";

/// Whether the fault is a lack of memory, in one of the lines or after the last.
pub fn is_memory(fault: TextFault, lines: u32) -> bool {
    fault.number == 10 && 1 <= fault.line && fault.line <= lines.saturating_add(1)
}

/// Reads the script in pieces of that size.
pub fn try_script(alloc: Global, size: usize) -> Result<Stage, &'static str> {
    let mut findings = Findings::new();
    let (stage, read) = match read_script(alloc, &mut Counted::new(Pieces::new(SCRIPT, size))) {
        Ok(script) => (Stage::Whole, Ok(script)),
        Err(fault) => {
            findings.expect(
                is_memory(fault, 3),
                "the fault is want of memory, in its line",
            );
            let again = read_script(alloc, &mut Counted::new(Pieces::new(SCRIPT, size)));
            (Stage::Refused, again)
        }
    };
    match read {
        Ok(script) => findings.expect(
            (script.workers(), script.phases().len()) == (2, 1),
            "the script is whole",
        ),
        Err(_) => findings.expect(false, "the next attempt has its memory"),
    }
    findings.returned(stage)
}

/// Reads the journal in pieces of that size.
pub fn try_journal(alloc: Global, size: usize) -> Result<Stage, &'static str> {
    let mut findings = Findings::new();
    let (stage, read) = match read_journal(alloc, &mut Counted::new(Pieces::new(JOURNAL, size))) {
        Ok(journal) => (Stage::Whole, Ok(journal)),
        Err(fault) => {
            findings.expect(
                is_memory(fault, 4),
                "the fault is want of memory, in its line",
            );
            let again = read_journal(alloc, &mut Counted::new(Pieces::new(JOURNAL, size)));
            (Stage::Refused, again)
        }
    };
    match read {
        Ok(journal) => findings.expect(
            (journal.first(), journal.lines().len()) == (0, 2),
            "the journal is whole",
        ),
        Err(_) => findings.expect(false, "the next attempt has its memory"),
    }
    findings.returned(stage)
}

/// Upgrades the journal in pieces of that size.
pub fn try_upgrade(alloc: Global, size: usize) -> Result<Stage, &'static str> {
    let mut findings = Findings::new();
    let Ok(device) = Spout::new(alloc, JOURNAL.len(), size) else {
        return findings.returned(Stage::SetUp);
    };
    let mut out = Counted::new(device);
    let mut source = Counted::new(Pieces::new(JOURNAL, size));
    let (stage, done) = match upgrade(alloc, &mut source, &mut out) {
        Ok(()) => (Stage::Whole, Ok(())),
        Err(fault) => {
            let UpgradeFault::Text(fault) = fault else {
                return Err("the device serves");
            };
            findings.expect(
                is_memory(fault, 4),
                "the fault is want of memory, in its line",
            );
            findings.expect(out.get_ref().bytes().is_empty(), "nothing is written");
            let mut source = Counted::new(Pieces::new(JOURNAL, size));
            (Stage::Refused, upgrade(alloc, &mut source, &mut out))
        }
    };
    findings.expect(done.is_ok(), "the next attempt has its memory");
    findings.expect(
        out.get_ref().bytes().len() == JOURNAL.len(),
        "the journal is whole",
    );
    findings.returned(stage)
}
