//! The end of a run after a journal if an input or the output has a fault.
use super::Silence;
use crate::after::{AfterFault, run_after};
use crate::options::Stated;
use hull_text::TextFault;
use std::alloc::Global;
use std::sync::Wait;
use std::test::Fail;
use std::thread::Threads;
use text_io::Counted;
use text_io::testing::{Pieces, Spout};

const OWN: Stated = Stated {
    capacity: None,
    limit: None,
    first: None,
    journal: false,
    bucketed: false,
};

const SCRIPT: &str = "0 remove 5 5\n1 count\n";

const BEFORE: &str =
    "hullbook journal 3 first 18446744073709551615 limit 4 capacity 8\n18446744073709551615 0 add 5 5 = added\n0 2 add 5 5 = again 2\nend 2\n";

const REPORT: &str =
    "0 remove 5 5 = left 1\n1 count = count 1\nledger 0 2\nledger 1 1\nledger 2 1\nsum 4 journal 4 capacity 8\n";

/// The outcome of a run after a journal.
#[derive(Clone, Copy)]
struct Went {
    ended: Result<(), AfterFault>,
    /// How many bytes it wrote.
    written: usize,
    /// Whether these are a prefix of the report.
    begins: bool,
    /// How often the output failed.
    failures: u64,
    /// How often a read of the journal failed.
    unread: u64,
}

// Runs after the journal, while these reads of the script and of the journal fail, and this write.
fn goes<R: Threads + Wait + Sync>(
    rt: &R,
    alloc: Global,
    journal: &str,
    reads: (u64, u64),
    writes: u64,
) -> Result<Went, Fail> {
    let spout = Spout::new(alloc, 4096, 5)?;
    let mut input = Counted::new(Pieces::new(SCRIPT.as_bytes(), 7).failing_at(reads.0));
    let mut before = Counted::new(Pieces::new(journal.as_bytes(), 7).failing_at(reads.1));
    let mut output = Counted::new(spout.failing_at(writes));
    let ended = run_after(
        rt,
        alloc,
        &mut input,
        &mut before,
        &mut output,
        &OWN,
        &Silence,
    );
    Ok(Went {
        ended,
        written: output.get_ref().bytes().len(),
        begins: REPORT.as_bytes().starts_with(output.get_ref().bytes()),
        failures: output.failures(),
        unread: before.failures(),
    })
}

#[test]
fn a_report_is_that_of_the_whole(rt: HostRuntime) -> Result<(), Fail> {
    let went = goes(&rt, rt.alloc(), BEFORE, (0, 0), 0)?;
    assert_eq!(rt; went.ended, Ok(()));
    assert_eq!(rt;
        (went.failures, went.written, went.begins),
        (0, REPORT.len(), true)
    );
    Ok(())
}

/// A fault of the script is reported before the journal is touched, and one of the journal as the journal's.
#[test]
fn a_failing_read_reports_which_input(rt: HostRuntime) -> Result<(), Fail> {
    let fault = TextFault { number: 8, line: 1 };
    let of_script = goes(&rt, rt.alloc(), BEFORE, (1, 1), 0)?;
    let of_journal = goes(&rt, rt.alloc(), BEFORE, (0, 1), 0)?;
    assert_eq!(rt;
        (of_script.ended, of_journal.ended),
        (
            Err(AfterFault::Script(fault)),
            Err(AfterFault::Journal(fault))
        )
    );
    assert_eq!(rt;
        (of_script.written, of_script.failures, of_script.unread),
        (0, 0, 0)
    );
    assert_eq!(rt;
        (of_journal.written, of_journal.failures, of_journal.unread),
        (0, 0, 1)
    );
    Ok(())
}

/// A journal that is not continued is reported, and nothing is written.
#[test]
fn a_journal_that_is_not_gone_on_with(rt: HostRuntime) -> Result<(), Fail> {
    let rows = [
        (
            "hullbook journal 2 first 0 limit 4 capacity 8\n9 0 add 5 5 = added\nend 1\n",
            AfterFault::Rules,
        ),
        (
            "hullbook journal 3 first 0 limit 4 capacity 8\n0 0 add 5 5 = added\n2 0 count = count 1\nend 2\n",
            AfterFault::Wrong(1),
        ),
        (
            "hullbook journal 3 first 0 limit 4 capacity 8\n0 0 add 5 5 = added\n",
            AfterFault::Journal(TextFault { number: 6, line: 3 }),
        ),
    ];
    for (journal, fault) in rows {
        let went = goes(&rt, rt.alloc(), journal, (0, 0), 0)?;
        assert_eq!(rt; went.ended, Err(fault));
        assert_eq!(rt; (went.written, went.failures), (0, 0));
    }
    Ok(())
}

#[test]
fn each_failing_write_of_the_whole_leaves_a_beginning(rt: HostRuntime) -> Result<(), Fail> {
    for call in 1..=(REPORT.len() / 5) as u64 {
        let went = goes(&rt, rt.alloc(), BEFORE, (0, 0), call)?;
        assert_eq!(rt; went.ended, Err(AfterFault::Write));
        assert_eq!(rt; (went.failures, went.begins), (1, true));
    }
    Ok(())
}
