ghost use Rattle.std.specs.Prelude.{◌<◌, ◌-◌, ◌^◌};

use super::line_in_hand;
use crate::devices::{Got, device, got, in_blocks, is_cut, is_whole};
use hull_book::Journal;
use hull_set::Rules;
use hull_text::{Counted, TextFault, WriteFault, read_journal, read_script, write_journal};
use std::alloc::Global;
use std::io::BufWriter;
use std::process::Abort;
use text_io::testing::{Pieces, Spout};

/// The journal of a removal that uncovers an inner point.
pub const EXAMPLE: &[u8] =
    b"hullbook journal 3 first 0 limit 8 capacity 8\n0 0 add 0 0 = added\n1 0 add 4 0 = added\n2 0 add 2 3 = added\n3 0 add 2 1 = added\n4 0 remove 2 3 = removed\n5 0 vertices = list 3 0 0 4 0 2 1\n6 0 area = area 4\nend 7\n";

// The result of reading a journal: how many lines, or its fault.
type Outcome = Result<usize, TextFault>;

// A fault by its number and its line.
fn fault(number: u8, line: u32) -> Outcome {
    Err(TextFault { number, line })
}

fn read(alloc: Global, text: &[u8], size: usize, failing: u64) -> Outcome {
    let mut source = Counted::new(Pieces::new(text, size).failing_at(failing));
    match read_journal(alloc, &mut source) {
        Ok(journal) => Ok(journal.lines().len()),
        Err(fault) => Err(fault),
    }
}

// Returns the pieces of a text, one after the other.
fn joined(alloc: Global, pieces: &[&[u8]]) -> Option<Vec<u8>> {
    let mut text = Vec::new(alloc);
    for piece in pieces {
        text.extend_from_slice(piece).ok()?;
    }
    Some(text)
}

// Returns a text before and after the end of its line with this number.
fn split_after(text: &[u8], number: u32) -> (&[u8], &[u8]) {
    let mut line = 0u32;
    let mut length = 0usize;
    for b in text {
        if line < number {
            length = length.saturating_add(1);
            if *b == b'\n' {
                line = line.saturating_add(1);
            }
        }
    }
    text.split_at(length.min(text.len()))
}

// Returns the example, read with ample memory.
fn example(rt: &impl Abort, alloc: Global) -> Journal {
    match read_journal(alloc, &mut Counted::new(Pieces::new(EXAMPLE, 4096))) {
        Ok(journal) => journal,
        Err(_) => panic!(rt; "the example is a journal"),
    }
}

// Returns the result of writing a journal to a device: the writer's, and what the device received.
fn sent(journal: &Journal, device: Spout) -> (Result<(), WriteFault>, Got) {
    let mut out = Counted::new(device);
    let outcome = write_journal(journal, &mut out);
    (outcome, got(&out, EXAMPLE))
}

// Whether the example is read in pieces of this size with its header, and written back in such pieces.
fn is_read_and_written_back(alloc: Global, size: usize) -> Option<bool> {
    let out = device(alloc, 256, size, 0, false)?;
    let mut source = Counted::new(Pieces::new(EXAMPLE, size));
    let Ok(journal) = read_journal(alloc, &mut source) else {
        return None;
    };
    let numbers = (journal.first(), journal.limit(), journal.capacity());
    let rules = journal.rules();
    let (outcome, got) = sent(&journal, out);
    let is_written = outcome == Ok(()) && is_whole(got, EXAMPLE);
    Some(is_written && numbers == (0, 8, 8) && rules == Rules::Counted)
}

#[test]
fn the_example_journal_is_read_and_written_back(rt: HostRuntime) {
    assert!(rt; EXAMPLE.len() == 209);
    for size in [1, 2, 3, 4096] {
        let is_back = is_read_and_written_back(rt.alloc(), size);
        assert!(rt; is_back == Some(true), "in pieces of {size}");
    }
}

// Whether this is the result of reading a text in pieces of any size.
fn is_read_so(alloc: Global, text: &[u8], want: Outcome) -> bool {
    for size in [1, 2, 3, 4096] {
        if read(alloc, text, size, 0) != want {
            return false;
        }
    }
    true
}

/// Faulty lines that replace one of the example: the line's number, its text, and the fault.
const FAULTY_LINES: [(u32, &str, u8); 37] = [
    (1, "hullbook journal 0 first 0 limit 8 capacity 8", 7),
    (1, "hullbook journal 4 first 0 limit 8 capacity 8", 7),
    (1, "hullbook journal 3 first 0 limit 0 capacity 8", 7),
    (1, "hullbook journal 3 first 0 limit 8 capacity 0", 7),
    (1, "hullbook journal 3 first 0 limit 8 capacity 16777217", 7),
    (1, "hullbook  journal 3 first 0 limit 8 capacity 8", 7),
    (1, "hullbook journal 3 first 00 limit 8 capacity 8", 7),
    (2, "0 0 vertices = list 1048577", 2),
    (3, "", 1),
    (3, "# a remark", 2),
    (3, "1 64 add 4 0 = added", 4),
    (3, "1 0 add 4 0 : added", 1),
    (3, "1 0 add 4 0 = ok", 5),
    (3, "1 0 add 4 0 = full", 5),
    (3, "1 0 add 4 0 = already", 5),
    (3, "1 0 add 4 0 = again", 1),
    (3, "1 0 add 4 0 = again x", 2),
    (3, "1 0 add 4 0 = again 02", 2),
    (3, "1 0 add 4 0 = again 65536", 2),
    (3, "1 0 add 4 0 = again 2 2", 1),
    (3, "1 0 remove 0 0 = left 65536", 2),
    (3, "01 0 add 4 0 = added", 2),
    (3, "18446744073709551616 0 add 4 0 = added", 2),
    (3, "1 0 extreme 0 0 = empty", 3),
    (3, "1 0 add 4 0 = point 1099511627777 0", 3),
    (3, "1 0 add 4 0 = tangents 0 0 0", 1),
    (
        3,
        "1 0 add 4 0 = area 340282366920938463463374607431768211456",
        2,
    ),
    (3, "1 0 add 4 0 = count 4294967296", 2),
    (3, "1 0 add 4 0 = added 4", 1),
    (3, "end", 1),
    (3, "end x", 2),
    (3, "end 2", 1),
    (7, "5 0 vertices = list 3 0 0 4 0 2", 1),
    (7, "5 0 vertices = list 3 0 0 4 0 2 1 0", 1),
    (9, "end 8", 1),
    (9, "end 33554433", 2),
    (9, "end 7 7", 1),
];

// Whether this is the result of reading the example with line `number` replaced.
fn is_changed_to(alloc: Global, number: u32, line: &str, want: Outcome) -> Option<bool> {
    let (front, rest) = split_after(EXAMPLE, number.saturating_sub(1));
    let (_, back) = split_after(rest, 1);
    let text = joined(alloc, &[front, line.as_bytes(), b"\n", back])?;
    Some(is_read_so(alloc, &text, want))
}

#[test]
fn each_change_of_the_example_journal_is_its_fault(rt: HostRuntime) {
    for (number, line, wrong) in FAULTY_LINES {
        let is_so = is_changed_to(rt.alloc(), number, line, fault(wrong, number));
        assert!(rt; is_so == Some(true), "line {number}: {line}");
    }
}

/// Lines that may replace one of the example.
const OTHER_LINES: [(u32, &str); 12] = [
    (3, "18446744073709551615 0 add 4 0 = added"),
    (3, "1 63 add 4 0 = added"),
    (3, "1 0 add 4 0 = inside"),
    (3, "1 0 add 4 0 = again 65535"),
    (3, "1 0 add 4 0 = left 0"),
    (3, "1 0 remove 0 0 = left 65535"),
    (3, "1 0 add 4 0 = tangents -1 0 0 -1099511627776"),
    (
        3,
        "1 0 add 4 0 = area 340282366920938463463374607431768211455",
    ),
    (3, "1 0 add 4 0 = count 4294967295"),
    (6, "4 0 remove 2 3 = absent"),
    (7, "5 0 vertices = list 3 4 0 2 1 0 0"),
    (7, "5 0 vertices = list 0"),
];

#[test]
fn other_changes_of_the_example_journal_are_read(rt: HostRuntime) {
    for (number, line) in OTHER_LINES {
        let is_so = is_changed_to(rt.alloc(), number, line, Ok(7));
        assert!(rt; is_so == Some(true), "line {number}: {line}");
    }
    let is_read = is_read_so(rt.alloc(), EXAMPLE, Ok(7));
    assert!(rt; is_read);
}

/// Second lines of a journal, and which of the versions have their replies.
const RULED_LINES: [(&str, [bool; 3]); 4] = [
    ("1 0 add 5 5 = already", [true, true, false]),
    ("1 0 add 5 5 = again 2", [false, false, true]),
    ("1 0 remove 5 5 = left 1", [false, false, true]),
    ("1 0 add 5 5 = toomany", [true, true, true]),
];

// A journal of this version with this line.
fn with_line(alloc: Global, version: &[u8], line: &str) -> Option<Vec<u8>> {
    let header = b" first 0 limit 1 capacity 4\n0 0 add 5 5 = added\n";
    joined(
        alloc,
        &[
            b"hullbook journal ",
            version,
            header,
            line.as_bytes(),
            b"\nend 2\n",
        ],
    )
}

// Whether a version has the reply of a line, or has not and reports so.
fn is_known(alloc: Global, version: &[u8], line: &str, known: bool) -> Option<bool> {
    let want = if known { Ok(2) } else { fault(5, 3) };
    let text = with_line(alloc, version, line)?;
    Some(is_read_so(alloc, &text, want))
}

#[test]
fn a_reply_is_one_of_the_rules_of_its_version(rt: HostRuntime) {
    for (line, known) in RULED_LINES {
        let [one, two, three] = known;
        let are_so = [
            is_known(rt.alloc(), b"1", line, one),
            is_known(rt.alloc(), b"2", line, two),
            is_known(rt.alloc(), b"3", line, three),
        ];
        assert!(rt; are_so == [Some(true); 3], "{line}");
    }
}

// The rules of a journal of this version.
fn rules_of(alloc: Global, version: &[u8]) -> Option<Rules> {
    let text = with_line(alloc, version, "1 0 count = count 1")?;
    let mut source = Counted::new(Pieces::new(&text, 4096));
    match read_journal(alloc, &mut source) {
        Ok(journal) => Some(journal.rules()),
        Err(_) => None,
    }
}

#[test]
fn the_version_reports_the_rules(rt: HostRuntime) {
    let first = rules_of(rt.alloc(), b"1");
    let second = rules_of(rt.alloc(), b"2");
    let third = rules_of(rt.alloc(), b"3");
    assert!(rt; first == Some(Rules::Set) && second == Some(Rules::Set));
    assert!(rt; third == Some(Rules::Counted));
}

// Whether this is the result of reading two pieces of a text together.
fn are_read_so(alloc: Global, front: &[u8], back: &[u8], want: Outcome) -> Option<bool> {
    let text = joined(alloc, &[front, back])?;
    Some(is_read_so(alloc, &text, want))
}

#[test]
fn the_example_journal_ends_with_its_end_line(rt: HostRuntime) {
    let (shorter, _) = split_after(EXAMPLE, 8);
    let is_shorter = is_read_so(rt.alloc(), shorter, fault(6, 9));
    assert!(rt; is_shorter);
    for more in ["x\n", "x", "\n", "end 7\n"] {
        let is_longer = are_read_so(rt.alloc(), EXAMPLE, more.as_bytes(), fault(1, 10));
        assert!(rt; is_longer == Some(true), "{more}");
    }
}

#[test]
fn each_proper_beginning_of_the_example_journal_is_truncated(rt: HostRuntime) {
    let mut line = 1u32;
    let mut all = true;
    for (length, b) in EXAMPLE.iter().enumerate() {
        let (front, _) = EXAMPLE.split_at(length);
        all = is_read_so(rt.alloc(), front, fault(6, line)) && all;
        if *b == b'\n' {
            line = line.saturating_add(1);
        }
    }
    assert!(rt; all);
}

// How many lines of the text end in its first bytes, and one more.
fn line_following(text: &[u8], bytes: usize) -> u32 {
    let mut line = 1u32;
    for (i, b) in text.iter().enumerate() {
        if i < bytes && *b == b'\n' {
            line = line.saturating_add(1);
        }
    }
    line
}

// Whether each failing read of the example in pieces of this size is fault 8 in the line being read, also for the call that finds the end, and a
// failure at a call that never comes is none.
fn fails_at_each_read(alloc: Global, size: usize) -> bool {
    let mut all = true;
    let mut taken = 0usize;
    let mut last = 0u64;
    for call in 1u64..210 {
        if taken < EXAMPLE.len() {
            let line = line_following(EXAMPLE, taken);
            all = read(alloc, EXAMPLE, size, call) == fault(8, line) && all;
            taken = taken.saturating_add(size);
            last = call;
        }
    }
    let ending = read(alloc, EXAMPLE, size, last.saturating_add(1));
    let never = read(alloc, EXAMPLE, size, last.saturating_add(2));
    all && ending == fault(8, 10) && never == Ok(7)
}

#[test]
fn each_failing_read_of_the_example_journal_is_fault_8(rt: HostRuntime) {
    for size in [1usize, 2, 3, 4096] {
        let all = fails_at_each_read(rt.alloc(), size);
        assert!(rt; all, "in pieces of {size}");
    }
}

// Whether a journal that is written to a device which takes pieces of this size and fails at each call in turn ends each time with the write fault,
// after a prefix of the text. A device that takes a byte at a call is called 209 times.
fn is_cut_short_at_each_call(
    alloc: Global,
    journal: &Journal,
    size: usize,
    refuses: bool,
) -> Option<bool> {
    let (outcome, (_, _, calls, _)) = sent(journal, device(alloc, 256, size, 0, false)?);
    let mut all = outcome == Ok(()) && calls > 0 && (size > 1 || calls == 209);
    for call in 1..=calls {
        let (outcome, got) = sent(journal, device(alloc, 256, size, call, refuses)?);
        all = outcome == Err(WriteFault) && is_cut(got, call) && all;
    }
    Some(all)
}

// Whether that is so in pieces of each size.
fn is_cut_short(alloc: Global, journal: &Journal, refuses: bool) -> Option<bool> {
    let mut all = true;
    for size in [1, 2, 3, 4096] {
        all = is_cut_short_at_each_call(alloc, journal, size, refuses)? && all;
    }
    Some(all)
}

#[test]
fn each_failing_write_of_the_example_journal_leaves_a_beginning(rt: HostRuntime) {
    let journal = example(&rt, rt.alloc());
    let failing = is_cut_short(rt.alloc(), &journal, false);
    let refusing = is_cut_short(rt.alloc(), &journal, true);
    drop(journal);
    assert!(rt; (failing, refusing) == (Some(true), Some(true)));
}

// Whether a journal is written completely through a buffer.
fn is_sent_in_blocks(journal: &Journal, blocks: BufWriter<Spout>) -> bool {
    let mut out = Counted::new(blocks);
    let outcome = write_journal(journal, &mut out);
    outcome == Ok(()) && out.get_ref().get_ref().bytes() == EXAMPLE
}

// No contract sees a flush: a writer with a buffer would hold back what it was not asked to pass on.
#[test]
fn a_written_journal_reaches_the_device_behind_a_block(rt: HostRuntime) {
    let blocks = in_blocks(&rt, rt.alloc(), 256, 4096);
    let journal = example(&rt, rt.alloc());
    let is_sent = is_sent_in_blocks(&journal, blocks);
    drop(journal);
    assert!(rt; is_sent);
}

#[test]
fn a_header_takes_the_greatest_numbers(rt: HostRuntime) {
    let text =
        b"hullbook journal 3 first 18446744073709551615 limit 1048576 capacity 16777216\nend 0\n";
    let is_read = read(rt.alloc(), text, 3, 0);
    let beyond =
        b"hullbook journal 3 first 18446744073709551616 limit 1048576 capacity 16777216\nend 0\n";
    let is_beyond = read(rt.alloc(), beyond, 3, 0);
    let wide = b"hullbook journal 3 first 0 limit 1048577 capacity 1\nend 0\n";
    let is_wide = read(rt.alloc(), wide, 3, 0);
    assert!(rt; (is_read, is_beyond, is_wide) == (Ok(0), fault(7, 1), fault(7, 1)));
}

#[test]
fn whichever_request_is_refused_the_journal_is_read_or_fault_10(rt: HostRuntime) {
    let mut source = Counted::new(Pieces::new(EXAMPLE, 1));
    let found = match read_journal(rt.alloc(), &mut source) {
        Ok(journal) => Ok(journal.lines().len()),
        Err(fault) => Err((fault, source.failures())),
    };
    let line = line_in_hand(EXAMPLE, source.get_ref().calls());
    let refused = TextFault { number: 10, line };
    let again = read(rt.alloc(), EXAMPLE, 3, 0);
    assert!(rt; found == Ok(7) || found == Err((refused, 0)));
    assert!(rt; again == Ok(7));
}

// A reader that always fails for lack of memory meets its contract; here memory is ample.
#[test]
fn reader_always_refuses(rt: HostRuntime) {
    let example = read(rt.alloc(), EXAMPLE, 4096, 0);
    let text =
        b"hullbook journal 2 first 18446744073709551615 limit 4 capacity 4\n18446744073709551615 0 add 5 5 = added\n0 0 count = count 1\n1 0 remove 5 5 = removed\nend 3\n";
    let wrapping = read(rt.alloc(), text, 4096, 0);
    let is_script = read_script(
        rt.alloc(),
        &mut Counted::new(Pieces::new(b"0 count\n", 4096)),
    )
    .is_ok();
    assert!(rt; (example, wrapping, is_script) == (Ok(7), Ok(3), true));
}
