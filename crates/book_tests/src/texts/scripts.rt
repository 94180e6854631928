use super::line_in_hand;
use hull_book::Script;
use hull_set::Call;
use hull_text::{Counted, TextFault, read_script};
use std::alloc::Global;
use std::test::Fail;
use text_io::testing::Pieces;

// The result of reading a script: its workers, phases and calls, or its fault.
#[derive(Clone, Copy, Debug, PartialEq)]
enum Outcome {
    Script(u8, usize, usize),
    Fault(u8, u32),
}

fn read(alloc: Global, text: &[u8], size: usize, failing: u64) -> Outcome {
    let mut source = Counted::new(Pieces::new(text, size).failing_at(failing));
    match read_script(alloc, &mut source) {
        Ok(script) => {
            let mut calls = 0usize;
            for phase in script.phases() {
                for worker in 0..script.workers() {
                    if usize::from(worker) < phase.workers() {
                        calls = calls.saturating_add(phase.calls(worker).len());
                    }
                }
            }
            Outcome::Script(script.workers(), script.phases().len(), calls)
        }
        Err(TextFault { number, line }) => Outcome::Fault(number, line),
    }
}

// Whether this is the result of reading a text in pieces of any size.
fn is_read_so(alloc: Global, text: &[u8], want: Outcome) -> bool {
    for size in [1, 2, 3, 4096] {
        if read(alloc, text, size, 0) != want {
            return false;
        }
    }
    true
}

/// Texts that are no script: the number of their first fault, and its line.
const FAULTY_SCRIPTS: [(&str, u8, u32); 29] = [
    ("0 add 5\n", 1, 1),
    ("0  count\n", 1, 1),
    (" 0 count\n", 1, 1),
    ("0 count \n", 1, 1),
    ("0 count\r\n", 1, 1),
    (" \n", 1, 1),
    ("0 count 1\n", 1, 1),
    ("0\n", 1, 1),
    ("0 add 01 1\n", 2, 1),
    ("0 add -0 1\n", 2, 1),
    ("0 add +1 1\n", 2, 1),
    ("0 add x\n", 2, 1),
    ("+0 count\n", 2, 1),
    ("join 3\n", 2, 1),
    ("0 add 1099511627777 0\n", 3, 1),
    ("0 add 1 -1099511627777\n", 3, 1),
    ("0 add 18446744073709551616 01", 3, 1),
    ("0 add 99999999999999999999999999999999999999999999 1", 3, 1),
    ("0 extreme 0 0\n", 3, 1),
    ("0 extreme 0 0 0\n", 3, 1),
    ("64 count\n", 4, 1),
    ("64 hull\n", 4, 1),
    ("99999999999999999999999999999999999999999999 count", 4, 1),
    ("0 hull\n", 5, 1),
    ("0 Count\n", 5, 1),
    ("0 counts", 5, 1),
    ("\n\n# a\n0 counts", 5, 4),
    ("0 count\n0 count\n64 x\n1 y\n", 4, 3),
    ("0 count\n0 add 1", 1, 2),
];

#[test]
fn each_row_of_the_script_table_is_its_fault(rt: HostRuntime) {
    for (text, number, line) in FAULTY_SCRIPTS {
        let want = Outcome::Fault(number, line);
        assert!(rt; is_read_so(rt.alloc(), text.as_bytes(), want), "{text}");
    }
}

#[test]
fn scripts_are_read_with_their_workers_phases_and_calls(rt: HostRuntime) {
    let rows = [
        ("", 1, 1, 0),
        ("\n", 1, 1, 0),
        ("join\njoin", 1, 3, 0),
        ("1 count\n0 add 0 0\njoin\n0 count\n", 2, 2, 3),
        (
            "\n# a\n63 add -1099511627776 1099511627776\n0 remove 1 1\n",
            64,
            1,
            2,
        ),
        ("0 extreme 0 -1\n0 place 0 0\n0 tangents 0 0", 1, 1, 3),
        ("0 vertices\n0 area\n0 count\n", 1, 1, 3),
    ];
    for (text, workers, phases, calls) in rows {
        let want = Outcome::Script(workers, phases, calls);
        assert!(rt; is_read_so(rt.alloc(), text.as_bytes(), want), "{text}");
    }
}

#[test]
fn a_comment_may_hold_any_bytes(rt: HostRuntime) -> Result<(), Fail> {
    assert_eq!(rt;
        read(rt.alloc(), b"#\xff\n0 count", 1, 0),
        Outcome::Script(1, 1, 1)
    );
    Ok(())
}

// Whether a script has two phases of two workers with these calls: the first phase's of each, and the second's.
fn has_calls(script: &Script, first: [&[Call]; 2], second: [&[Call]; 2]) -> bool {
    let [one, other] = script.phases() else {
        return false;
    };
    if one.workers() != 2 || other.workers() != 2 {
        return false;
    }
    let calls = [one.calls(0), one.calls(1)] == first;
    calls && [other.calls(0), other.calls(1)] == second && script.workers() == 2
}

#[test]
fn the_calls_of_a_worker_keep_their_order(rt: HostRuntime) {
    let text = b"1 count\n0 area\n1 vertices\njoin\n1 area\n";
    let first: [&[Call]; 2] = [&[Call::Area], &[Call::Count, Call::Vertices]];
    let second: [&[Call]; 2] = [&[], &[Call::Area]];
    let has = match read_script(rt.alloc(), &mut Counted::new(Pieces::new(text, 3))) {
        Ok(script) => has_calls(&script, first, second),
        Err(_) => false,
    };
    assert!(rt; has);
}

#[test]
fn each_failing_read_is_fault_8_in_the_line_being_read(rt: HostRuntime) -> Result<(), Fail> {
    let text = b"0 count\n\n0 area\n0 count";
    let mut line = 1u32;
    for (i, b) in text.iter().enumerate() {
        assert_eq!(rt;
            read(rt.alloc(), text, 1, i as u64 + 1),
            Outcome::Fault(8, line)
        );
        if *b == b'\n' {
            line = line.saturating_add(1);
        }
    }
    assert_eq!(rt; read(rt.alloc(), text, 1, 24), Outcome::Fault(8, 4));
    // by twos: the third byte of the first line comes with the second read, and the second line's newline with the
    // fifth
    for (call, line) in [(1, 1), (2, 1), (5, 2), (6, 3), (9, 4), (13, 4)] {
        assert_eq!(rt; read(rt.alloc(), text, 2, call), Outcome::Fault(8, line));
    }
    assert_eq!(rt; read(rt.alloc(), text, 4096, 1), Outcome::Fault(8, 1));
    assert_eq!(rt; read(rt.alloc(), text, 4096, 2), Outcome::Fault(8, 4));
    assert_eq!(rt; read(rt.alloc(), b"0 hull\n0", 1, 8), Outcome::Fault(5, 1));
    Ok(())
}

#[test]
fn whichever_request_is_refused_the_script_is_read_or_fault_10(
    rt: HostRuntime,
) -> Result<(), Fail> {
    for text in [
        b"1 count\n0 add 0 0\njoin\n0 vertices\n".as_slice(),
        b"1 count\n0 add 0 0\njoin\n0 vertices".as_slice(),
    ] {
        let mut source = Counted::new(Pieces::new(text, 1));
        match read_script(rt.alloc(), &mut source) {
            Ok(script) => assert_eq!(rt; script.phases().len(), 2),
            Err(fault) => {
                let line = line_in_hand(text, source.get_ref().calls());
                assert_eq!(rt; fault, TextFault { number: 10, line });
                assert_eq!(rt; source.failures(), 0);
            }
        }
        assert_eq!(rt; read(rt.alloc(), text, 3, 0), Outcome::Script(2, 2, 3));
    }
    Ok(())
}
