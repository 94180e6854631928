ghost use Rattle.std.specs.Prelude.{◌≡◌, ◌<◌, ◌-◌, ◌^◌, [], OnErr, OnOk};
ghost use Rattle.text_io.specs.Write.{WritesAfter, WritesText};

use super::device::Sink;
use itoa::{Buffer, Integer};

/// The writer failed, or took nothing of a piece. The bytes written before are a prefix of the text.
#[derive(Clone, Copy, Debug, PartialEq, Eq)]
pub struct WriteFault;

/// The outcome of what was written so far.
pub type Done = Result<(), WriteFault>;

/// Writes a piece, all of it unless the writer fails. It takes no memory.
///
/// The count of failures must be below its greatest value, so that a failure shows in it.
///
/// # Errors
///
/// Fails with `WriteFault` at the first failure, of any kind; a prefix of the piece was written then.
pub fn put<W: Sink>(out: &mut W, piece: &[u8]) -> Done
    requires { W.failed out.old < 2 ^ 64 - 1 }
    ensures { WritesText (W.contents out.old) (W.contents out.new) (W.failed out.old)
        (W.failed out.new) result piece.now }
{
    let mut rest = piece;
    while !rest.is_empty() {
        match out.write_counted(rest) {
            Ok(0) => return Err(WriteFault),
            Ok(n) => {
                let (_, after) = rest.split_at(n);
                rest = after;
            }
            Err(_) => return Err(WriteFault),
        }
    }
    Ok(())
}

/// Writes a piece after what was written so far. If that failed, it writes nothing and returns that fault.
pub fn put_after<W: Sink>(done: Done, out: &mut W, piece: &[u8]) -> Done
    requires { OnOk done (W.failed out.old < 2 ^ 64 - 1) }
    ensures wrote { WritesAfter W.contents W.failed done result out.old out.new piece.now }
    ensures alone { OnErr done (out.new ≡ out.old) }
{
    done?;
    put(out, piece)
}

/// Writes a number after what was written so far, as `put_after` does: its digits without leading zeros, after a
/// minus if it is negative.
pub fn number_after<W: Sink, N: Integer>(done: Done, out: &mut W, number: N) -> Done
    requires { OnOk done (W.failed out.old < 2 ^ 64 - 1) }
    ensures wrote { WritesAfter W.contents W.failed done result out.old out.new (N.text number) }
    ensures alone { OnErr done (out.new ≡ out.old) }
{
    let mut buffer = Buffer::new();
    put_after(done, out, buffer.format(number).as_bytes())
}

/// Flushes to the device all bytes of what was written so far that a buffered writer still has.
///
/// # Errors
///
/// Fails with the fault of before, or with `WriteFault` if the flush fails.
pub fn flush_after<W: Sink>(done: Done, out: &mut W) -> Done
    requires { OnOk done (W.failed out.old < 2 ^ 64 - 1) }
    ensures wrote { WritesAfter W.contents W.failed done result out.old out.new [] }
    ensures alone { OnErr done (out.new ≡ out.old) }
{
    match done {
        Ok(()) => match out.flush_counted() {
            Ok(()) => Ok(()),
            Err(_) => Err(WriteFault),
        },
        Err(fault) => Err(fault),
    }
}
