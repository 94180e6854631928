ghost use Rattle.std.specs.Prelude.{◌≡◌, ℕ, length};
ghost use Rattle.std.specs.Io.{ReadsAtMost, WritesAtMost};
ghost use Rattle.std.specs.Io.KnownBytes.{Keeps, ReadConsumes, WriteAppends};
ghost use Rattle.text_io.specs.Count.{CountsFailure, CountsWrite};

use std::io::{Read, Result, Write};

/// A reader that counts its failed reads. A reader of texts takes one, and calls only `read_counted`.
pub trait Source: Read {
    ghost failed: { Self → ℕ };

    /// Does what `read` does, and raises the count if it fails.
    ///
    /// # Errors
    ///
    /// Fails with the error of `read`; no byte was taken then.
    fn read_counted(&mut self, buf: &mut [u8]) -> Result<usize>
        ensures bound { ReadsAtMost result buf.new }
        ensures bytes { ReadConsumes (Self.remaining self.old) (Self.remaining self.new) result buf.new }
        ensures count { CountsFailure result (failed self.old) (failed self.new) };

    /// Returns how many reads have failed; at the greatest number of 64 bits the count stays.
    fn failures(&self) -> u64
        ensures { result ≡ failed self.now };
}

/// A writer that counts its failures. A write that takes nothing of a nonempty piece is one. A writer of texts takes
/// one, and calls only `write_counted` and `flush_counted`.
pub trait Sink: Write {
    ghost failed: { Self → ℕ };

    /// Does what `write` does, and raises the count if it fails or takes nothing of a nonempty piece.
    ///
    /// # Errors
    ///
    /// Fails with the error of `write`; no byte was taken then.
    fn write_counted(&mut self, buf: &[u8]) -> Result<usize>
        ensures bound { WritesAtMost result buf.now }
        ensures bytes { WriteAppends (Self.contents self.old) (Self.contents self.new) result buf.now }
        ensures count { CountsWrite result (length buf.now) (failed self.old) (failed self.new) };

    /// Does what `flush` does, and raises the count if it fails.
    ///
    /// # Errors
    ///
    /// Fails with the error of `flush`. The bytes that were taken are still known.
    fn flush_counted(&mut self) -> Result<()>
        ensures bytes { Keeps (Self.contents self.old) (Self.contents self.new) }
        ensures count { CountsFailure result (failed self.old) (failed self.new) };

    /// Returns how many calls have failed; at the greatest number of 64 bits the count stays.
    fn failures(&self) -> u64
        ensures { result ≡ failed self.now };
}
