//! A caller of `text_io`.
ghost use Rattle.std.specs.Prelude.{◌<◌, ◌^◌, ◌-◌};

use text_io::{Done, Sink, flush_after, number_after, put, put_after};

/// Writes a line with a count, and flushes it; after the first failure nothing more is written.
pub fn write_count<W: Sink>(out: &mut W, count: u64) -> Done
    requires { W.failed out.old < 2 ^ 64 - 1 }
{
    let mut done = put(out, b"count = ");
    done = number_after(done, out, count);
    done = put_after(done, out, b"\n");
    flush_after(done, out)
}
