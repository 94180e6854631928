use crate::devices::{Got, got, is_whole};
use hull_book::Journal;
use hull_set::Reply;
use hull_text::{Counted, TextFault, WriteFault, read_journal, write_journal};
use std::alloc::Global;
use std::io::BufWriter;
use std::process::Abort;
use text_io::testing::{Pieces, Spout};

/// How many points the list has: more than any reader would buffer by chance, and no power of two.
const COUNT: u32 = 5000;

// Appends the point (k, -k) to a text.
fn push_point(alloc: Global, text: &mut Vec<u8>, k: u32) -> Option<()> {
    let words = format!(in alloc; " {k} {}", 0i64 - i64::from(k)).ok()?;
    text.extend_from_slice(words.as_bytes()).ok()
}

// Appends a journal with one list of points (k, -k) to a text.
fn push_journal(alloc: Global, text: &mut Vec<u8>) -> Option<()> {
    let header = b"hullbook journal 2 first 0 limit 8 capacity 8\n0 0 vertices = list 5000";
    text.extend_from_slice(header).ok()?;
    for k in 0..COUNT {
        push_point(alloc, text, k)?;
    }
    text.extend_from_slice(b"\nend 1\n").ok()
}

// The text of that journal.
fn long_text(rt: &impl Abort, alloc: Global) -> Vec<u8> {
    let mut text = Vec::new(alloc);
    let pushed = push_journal(alloc, &mut text);
    assert!(rt; pushed.is_some());
    text
}

// Whether a journal has one line with a list of 5000 points, two of which are those of their numbers.
fn has_the_list(journal: &Journal) -> bool {
    let [line] = journal.lines() else {
        return false;
    };
    let Reply::VertexList(points) = &line.reply else {
        return false;
    };
    let points = points.as_slice();
    points.len() == 5000
        && points[4097].x() == 4097
        && points[4097].y() == -4097
        && points[4999].x() == 4999
        && points[4999].y() == -4999
}

// How a journal goes out to a device.
fn sent(journal: &Journal, device: Spout, text: &[u8]) -> (Result<(), WriteFault>, Got) {
    let mut out = Counted::new(device);
    let outcome = write_journal(journal, &mut out);
    (outcome, got(&out, text))
}

// The result of reading a text in pieces of this size and writing it to a device: whether the list is there, how it was written, and how many calls
// the reader made.
type Passed = (bool, Result<(), WriteFault>, Got, u64);

fn passed(alloc: Global, text: &[u8], size: usize, device: Spout) -> Result<Passed, TextFault> {
    let mut source = Counted::new(Pieces::new(text, size));
    let journal = read_journal(alloc, &mut source)?;
    let has_list = has_the_list(&journal);
    let (outcome, got) = sent(&journal, device, text);
    Ok((has_list, outcome, got, source.get_ref().calls()))
}

// The same of a device that takes pieces of another size, if there is memory for it.
fn passed_on(alloc: Global, text: &[u8], size: usize, taken: usize) -> Option<Passed> {
    let device = Spout::new(alloc, text.len(), taken).ok()?;
    passed(alloc, text, size, device).ok()
}

// Whether a text is read in pieces of this size and written back.
fn is_written_back(alloc: Global, text: &[u8], size: usize) -> bool {
    match passed_on(alloc, text, size, 4096) {
        Some((has_list, outcome, got, _)) => {
            has_list && outcome == Ok(()) && is_whole(got, text)
        }
        None => false,
    }
}

// A reader that fails for lack of memory at a list of more than 4096 points meets its contract.
#[test]
fn a_list_of_5000_points_is_read_and_written_back(rt: HostRuntime) {
    let text = long_text(&rt, rt.alloc());
    let are_back = [
        is_written_back(rt.alloc(), &text, 3),
        is_written_back(rt.alloc(), &text, 4096),
        is_written_back(rt.alloc(), &text, 1048576),
    ];
    drop(text);
    assert!(rt; are_back == [true; 3]);
}

// Returns whether a text is read and written through a buffer that has capacity for the whole of it, and how often the device is called then.
fn calls_behind_a_block(alloc: Global, text: &[u8], blocks: BufWriter<Spout>) -> Option<u64> {
    let Ok(journal) = read_journal(alloc, &mut Counted::new(Pieces::new(text, 1048576))) else {
        return None;
    };
    let mut out = Counted::new(blocks);
    let outcome = write_journal(&journal, &mut out);
    if outcome == Ok(()) {
        Some(out.get_ref().get_ref().calls())
    } else {
        None
    }
}

// The same, if there is memory for the block.
fn calls_of_a_block(alloc: Global, text: &[u8]) -> Option<u64> {
    let device = Spout::new(alloc, text.len(), 1048576).ok()?;
    let blocks = BufWriter::with_capacity(alloc, 65536, device).ok()?;
    calls_behind_a_block(alloc, text, blocks)
}

// A reader that takes a byte at a call, and a writer that passes a byte at a call, meet their contracts. A device that is wide enough is read in one
// call for a block of 65536 bytes, and once more for the end.
#[test]
fn a_wide_device_is_called_once_a_piece(rt: HostRuntime) {
    let text = long_text(&rt, rt.alloc());
    let length = text.len();
    let passed = passed_on(rt.alloc(), &text, 1048576, 1048576);
    let in_one = calls_of_a_block(rt.alloc(), &text);
    drop(text);
    assert!(rt; length > 49152 && length < 65536);
    // the header is written in 13 pieces, the line in 11 and its points in 4 each, and the end line in 4
    assert!(rt; passed == Some((true, Ok(()), (true, length, 20028, 0), 2)));
    // through a buffer for the whole text the device is called once
    assert!(rt; in_one == Some(1));
}
