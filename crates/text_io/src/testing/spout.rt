ghost use Rattle.std.specs.Prelude.{◌≡◌, ◌≢◌, ◌+◌, ◌-◌, ◌%◌, ◌^◌, [], length, max, min, Some, true, false, IsTrue};
ghost use Rattle.std.specs.Prelude.{IsOk, IsOkAnd, IfErr, IfOk, MatchResult};
ghost use Rattle.std.specs.Io.{WritesAtMost};
ghost use Rattle.std.specs.IoError.{error_kind};
ghost use Rattle.std.specs.Io.KnownBytes.{WriteAppends};

use std::alloc::{AllocError, Global};
use std::io;
use std::io::{ErrorKind, Write};
use std::marker::Model;

/// A writer into memory that takes bytes in pieces, and fails or takes nothing at a chosen call, for tests of writers
/// of texts. Its capacity is allocated when it is made: bytes that do not fit any more are refused as by a full
/// device.
#[derive(Drop)]
pub struct Spout {
    bytes: Vec<u8>,
    space: usize,
    size: usize,
    calls: u64,
    failing: u64,
    refusing: bool,
}

impl Model for Spout {
    ghost use Rattle.std.specs.Prelude.{◌≤◌, vec_capacity, vec_len};
    ghost use Rattle.text_io.specs.Device.{Filled};

    ghost Value = { Filled };

    ghost view = { λ s. record {
      bytes = s.bytes.items;
      space = s.space;
      size = s.size;
      calls = s.calls;
      failing =
          s.failing;
      refusing = s.refusing;
    } };

    ghost invariant = { λ s. (vec_len s.bytes ≤ s.space) × (s.space ≤ vec_capacity s.bytes) };
}

impl Spout {
    /// Makes an empty writer that holds up to `space` bytes, takes at most `size` of them at a call (0 counts as 1)
    /// and doesn't fail before it is full.
    ///
    /// # Errors
    ///
    /// Fails with `AllocError` if memory was refused.
    pub fn new(alloc: Global, space: usize, size: usize) -> Result<Spout, AllocError>
        ensures { IfOk result
            (λ s. s ≡ record { bytes = []; space = space; size = size; calls = 0; failing = 0; refusing = false }) }
    {
        Ok(Spout {
            bytes: Vec::with_capacity(alloc, space)?,
            space,
            size,
            calls: 0,
            failing: 0,
            refusing: false,
        })
    }

    /// Returns the same writer, which fails at the call of `write` with this number; calls are counted from 1.
    pub fn failing_at(self, call: u64) -> Spout
        ensures { result ≡ record self { failing = call; refusing = false } }
    {
        Spout {
            bytes: self.bytes,
            space: self.space,
            size: self.size,
            calls: self.calls,
            failing: call,
            refusing: false,
        }
    }

    /// Returns the same writer, which takes nothing at the call of `write` with this number.
    pub fn refusing_at(self, call: u64) -> Spout
        ensures { result ≡ record self { failing = call; refusing = true } }
    {
        Spout {
            bytes: self.bytes,
            space: self.space,
            size: self.size,
            calls: self.calls,
            failing: call,
            refusing: true,
        }
    }

    /// Returns the bytes that were taken so far.
    pub fn bytes(&self) -> &[u8]
        ensures { result.now ≡ self.now.bytes }
    {
        self.bytes.as_slice()
    }

    /// Returns how many calls of `write` there were so far.
    pub fn calls(&self) -> u64
        ensures { result ≡ self.now.calls }
    {
        self.calls
    }
}

impl Write for Spout {
    ghost contents = { λ s. Some s.bytes };

    fn write(&mut self, buf: &[u8]) -> io::Result<usize>
        ensures bound { WritesAtMost result buf.now }
        ensures bytes { WriteAppends (Some self.old.bytes) (Some self.new.bytes) result buf.now }
        ensures calls { self.new.calls ≡ (self.old.calls + 1) % (2 ^ 64) }
        ensures chosen { self.new.calls ≡ self.old.failing
            → MatchResult result (λ n. IsTrue self.old.refusing × (n ≡ 0)) (λ _. self.old.refusing ≡ false) }
        ensures kind { IfErr result (λ e. error_kind e ≡ ErrorKind.Other) }
        ensures other { self.new.calls ≢ self.old.failing
            → IsOkAnd result (λ n. n
            ≡ min (min (max self.old.size 1) (length buf.now)) (self.old.space - length self.old.bytes)) }
        ensures kept { self.new ≡ record self.old { bytes = self.new.bytes; calls = self.new.calls } }
    {
        self.calls = self.calls.wrapping_add(1);
        if self.calls == self.failing {
            if self.refusing {
                return Ok(0);
            }
            return Err(io::Error::new(ErrorKind::Other, "the chosen write"));
        }
        let space = self.space - self.bytes.len();
        let n = self.size.max(1).min(buf.len()).min(space);
        match self.bytes.extend_from_slice(&buf[..n]) {
            Ok(()) => Ok(n),
            Err(_) => unreachable!(),
        }
    }

    fn flush(&mut self) -> io::Result<()>
        ensures ok { IsOk result }
        ensures kept { self.new ≡ self.old }
    {
        Ok(())
    }
}
