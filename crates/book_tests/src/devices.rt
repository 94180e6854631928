//! Devices over bytes in memory, and what the writers and readers of texts count about them.
ghost use Rattle.std.specs.Prelude.{◌<◌, ◌-◌, ◌^◌};

use std::alloc::Global;
use std::io::{BufWriter, Read, Write};
use std::process::Abort;
use std::test::Fail;
use text_io::testing::{Pieces, Spout};
use text_io::*;

/// The bytes that a device received: whether they are a prefix of the expected text, how many, by how many calls, and how many of these failed.
pub(super) type Got = (bool, usize, u64, u64);

pub(super) fn got(out: &Counted<Spout>, want: &[u8]) -> Got {
    let spout = out.get_ref();
    let bytes = spout.bytes();
    (
        want.starts_with(bytes),
        bytes.len(),
        spout.calls(),
        out.failures(),
    )
}

/// Whether a device received the whole text, and no call failed.
pub(super) fn is_whole(got: Got, want: &[u8]) -> bool {
    let (begins, length, _, failures) = got;
    begins && length == want.len() && failures == 0
}

/// Whether a device received a prefix of the text up to this call, which was the only one to fail.
pub(super) fn is_cut(got: Got, call: u64) -> bool {
    let (begins, _, calls, failures) = got;
    begins && calls == call && failures == 1
}

/// Makes a device with this capacity, which takes pieces of this size, and at the call with this number fails or takes nothing; no call has the
/// number 0.
pub(super) fn device(
    alloc: Global,
    space: usize,
    size: usize,
    call: u64,
    refuses: bool,
) -> Option<Spout> {
    match Spout::new(alloc, space, size) {
        Ok(spout) if refuses => Some(spout.refusing_at(call)),
        Ok(spout) => Some(spout.failing_at(call)),
        Err(_) => None,
    }
}

/// Makes a device with this capacity through a buffer of 4096 bytes, which fails at the call with this number.
pub(super) fn in_blocks(
    rt: &impl Abort,
    alloc: Global,
    space: usize,
    call: u64,
) -> BufWriter<Spout> {
    let Some(spout) = device(alloc, space, 4096, call, false) else {
        panic!(rt; "there is memory for the device");
    };
    match BufWriter::with_capacity(alloc, 4096, spout) {
        Ok(blocks) => blocks,
        Err(_) => panic!(rt; "there is memory for the block"),
    }
}

// Writes a text of several pieces and numbers.
fn say<W: Sink>(out: &mut W) -> Result<(), WriteFault>
    requires { W.failed out.old < 2 ^ 64 - 1 }
{
    let done = put(out, b"count ");
    let done = number_after(done, out, 18446744073709551615u64);
    let done = put_after(done, out, b" at ");
    let done = number_after(done, out, -1048576i64);
    let done = put_after(done, out, b"\n");
    flush_after(done, out)
}

const SAID: &[u8] = b"count 18446744073709551615 at -1048576\n";

// Returns the result of writing it to a device, which has counted no failure before.
fn said(device: Spout) -> Option<(Result<(), WriteFault>, Got)> {
    let mut out = Counted::new(device);
    if out.failures() > 0 {
        return None;
    }
    let outcome = say(&mut out);
    Some((outcome, got(&out, SAID)))
}

// Does the same for a new device.
fn said_to(
    alloc: Global,
    space: usize,
    size: usize,
    call: u64,
    refuses: bool,
) -> Option<(Result<(), WriteFault>, Got)> {
    said(device(alloc, space, size, call, refuses)?)
}

#[test]
fn a_text_is_written_whole_in_pieces_of_any_size(rt: HostRuntime) {
    for size in [0, 1, 2, 3, 4096] {
        let is_said = match said_to(rt.alloc(), 64, size, 0, false) {
            Some((outcome, got)) => outcome == Ok(()) && is_whole(got, SAID),
            None => false,
        };
        assert!(rt; is_said, "in pieces of {size}");
    }
}

// Whether the text is cut short at this call.
fn is_cut_short(alloc: Global, call: u64, refuses: bool) -> bool {
    match said_to(alloc, 64, 3, call, refuses) {
        Some((outcome, got)) => outcome == Err(WriteFault) && is_cut(got, call),
        None => false,
    }
}

#[test]
fn a_failing_or_refusing_write_leaves_a_beginning_and_is_counted(rt: HostRuntime) {
    for call in 1..14 {
        let failing = is_cut_short(rt.alloc(), call, false);
        let refusing = is_cut_short(rt.alloc(), call, true);
        assert!(rt; failing && refusing, "call {call}");
    }
}

#[test]
fn a_full_device_takes_nothing(rt: HostRuntime) -> Result<(), Fail> {
    let mut out = Counted::new(Spout::new(rt.alloc(), 7, 4096)?);
    let outcome = say(&mut out);
    let failures = out.failures();
    let is_full = out.get_ref().bytes() == b"count 1".as_slice();
    drop(out);
    assert!(rt; (outcome, failures, is_full) == (Err(WriteFault), 1, true));
    Ok(())
}

// Returns how much one write takes, if it does not fail, and how many failures and calls are counted after it.
fn wrote(out: &mut Counted<Spout>, piece: &[u8]) -> (Option<usize>, u64, u64) {
    let taken = out.write(piece).ok();
    (taken, out.failures(), out.get_ref().calls())
}

#[test]
fn an_empty_piece_taken_by_no_byte_is_no_failure(rt: HostRuntime) -> Result<(), Fail> {
    let mut out = Counted::new(Spout::new(rt.alloc(), 0, 1)?);
    let (empty, none, _) = wrote(&mut out, b"");
    let (refused, one, _) = wrote(&mut out, b"x");
    drop(out);
    assert!(rt; (empty, none, refused, one) == (Some(0), 0, Some(0), 1));
    Ok(())
}

// A writer that passes one byte at a call meets its contract; here the device takes each piece at once.
#[test]
fn a_wide_device_is_called_once_a_piece(rt: HostRuntime) {
    let found = said_to(rt.alloc(), 64, 4096, 0, false);
    assert!(rt; found == Some((Ok(()), (true, SAID.len(), 5, 0))));
}

// A count that passes only a part of each piece meets its contract; here the device takes a piece at once.
#[test]
fn a_piece_is_handed_on_in_one_call(rt: HostRuntime) -> Result<(), Fail> {
    let mut out = Counted::new(Spout::new(rt.alloc(), 64, 4096)?);
    let (taken, _, calls) = wrote(&mut out, SAID);
    drop(out);
    assert!(rt; taken == Some(SAID.len()) && calls == 1);
    Ok(())
}

// Returns the result of writing it to a device through a buffer: the outcome and the failures, and whether the device received all of it, and by how
// many calls.
fn said_in_blocks(blocks: BufWriter<Spout>) -> (Result<(), WriteFault>, u64, bool, u64) {
    let mut out = Counted::new(blocks);
    let outcome = say(&mut out);
    let failures = out.failures();
    let spout = out.get_ref().get_ref();
    (outcome, failures, spout.bytes() == SAID, spout.calls())
}

#[test]
fn blocks_reach_the_device_by_the_last_flush(rt: HostRuntime) {
    let sound = said_in_blocks(in_blocks(&rt, rt.alloc(), 64, 0));
    let (outcome, failures, _, _) = said_in_blocks(in_blocks(&rt, rt.alloc(), 64, 1));
    assert!(rt; sound == (Ok(()), 0, true, 1));
    assert!(rt; outcome == Err(WriteFault) && failures == 1);
}

#[test]
fn numbers_of_every_width_are_printed(rt: HostRuntime) -> Result<(), Fail> {
    let mut out = Counted::new(Spout::new(rt.alloc(), 64, 4096)?);
    let done = number_after(Ok(()), &mut out, 0u8);
    let done = number_after(done, &mut out, 33554432u32);
    let done = number_after(done, &mut out, 340282366920938463463374607431768211455u128);
    let are_printed = out.get_ref().bytes()
        == b"033554432340282366920938463463374607431768211455".as_slice();
    drop(out);
    assert!(rt; done == Ok(()) && are_printed);
    Ok(())
}

// Returns how many bytes a read returns, or nothing if it fails, and how many failures are counted after it.
fn read_some(reader: &mut Counted<Pieces<'_>>, bytes: &mut [u8; 4]) -> (Option<usize>, u64) {
    let given = reader.read_counted(bytes).ok();
    (given, reader.failures())
}

// The same by the plain `read`.
fn read_plainly(reader: &mut Counted<Pieces<'_>>, bytes: &mut [u8; 4]) -> (Option<usize>, u64) {
    let given = reader.read(bytes).ok();
    (given, reader.failures())
}

#[test]
fn reads_come_in_pieces_and_failed_ones_are_counted(rt: HostRuntime) {
    let mut reader = Counted::new(Pieces::new(b"abcde", 2).failing_at(3));
    let mut bytes = [0; 4];
    let fresh = reader.failures();
    let first = read_some(&mut reader, &mut bytes);
    let front = bytes;
    let second = read_some(&mut reader, &mut bytes);
    let failed = read_some(&mut reader, &mut bytes);
    let calls = reader.get_ref().calls();
    let last = read_plainly(&mut reader, &mut bytes);
    let none = read_plainly(&mut reader, &mut bytes);
    assert!(rt; fresh == 0 && front == *b"ab\0\0" && bytes[0] == b'e');
    assert!(rt; [first, second, failed] == [(Some(2), 0), (Some(2), 0), (None, 1)]);
    assert!(rt; calls == 3 && [last, none] == [(Some(1), 1), (Some(0), 1)]);
}
