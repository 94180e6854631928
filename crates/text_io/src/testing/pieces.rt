ghost use Rattle.std.specs.Prelude.{◌≡◌, ◌↔◌, ℕ, ◌+◌, ◌%◌, ◌^◌, [], length, take, drop, max, min, Some, OnOk, IsErr};
ghost use Rattle.std.specs.Prelude.{IfErr, IfOk};
ghost use Rattle.std.specs.Io.{ReadsAtMost};
ghost use Rattle.std.specs.IoError.{error_kind};
ghost use Rattle.std.specs.Io.KnownBytes.{ReadConsumes};

use std::io;
use std::io::{ErrorKind, Read};
use std::marker::Model;

/// A reader over bytes that returns them in pieces and fails at a chosen call, for tests of readers of texts.
#[derive(Drop)]
pub struct Pieces<'a> {
    rest: &'a [u8],
    size: usize,
    calls: u64,
    failing: u64,
}

impl<'a> Model for Pieces<'a> {
    ghost use Rattle.text_io.specs.Device.{Cut};

    ghost Value = { Cut };

    ghost view = { λ p. record { rest = p.rest.now; size = p.size; calls = p.calls; failing = p.failing } };
}

impl<'a> Pieces<'a> {
    /// Makes a reader of `bytes` that returns at most `size` of them at a call (0 counts as 1) and never fails.
    pub fn new(bytes: &'a [u8], size: usize) -> Pieces<'a>
        ensures rest { result.rest ≡ bytes.now }
        ensures size { result.size ≡ size }
        ensures calls { result.calls ≡ 0 }
        ensures failing { result.failing ≡ 0 }
    {
        Pieces {
            rest: bytes,
            size,
            calls: 0,
            failing: 0,
        }
    }

    /// Returns the same reader, which fails at the call with this number; calls are counted from 1.
    pub fn failing_at(self, call: u64) -> Pieces<'a>
        ensures { result ≡ record self.entry { failing = call } }
    {
        Pieces {
            rest: self.rest,
            size: self.size,
            calls: self.calls,
            failing: call,
        }
    }

    /// Returns how many calls there were so far.
    pub fn calls(&self) -> u64
        ensures { result ≡ self.now.calls }
    {
        self.calls
    }
}

impl Read for Pieces<'_> {
    ghost remaining = { λ p. Some p.rest };

    fn read(&mut self, buf: &mut [u8]) -> io::Result<usize>
        ensures bound { ReadsAtMost result buf.new }
        ensures bytes { ReadConsumes (Some self.old.rest) (Some self.new.rest) result buf.new }
        ensures calls { self.new.calls ≡ (self.old.calls + 1) % (2 ^ 64) }
        ensures fails { IsErr result ↔ (self.new.calls ≡ self.old.failing) }
        ensures kind { IfErr result (λ e. error_kind e ≡ ErrorKind.Other) }
        ensures count { IfOk result (λ n. n ≡ min (min (max self.old.size 1) (length buf.old)) (length self.old.rest)) }
        ensures kept { (self.new.size ≡ self.old.size) × (self.new.failing ≡ self.old.failing) }
    {
        self.calls = self.calls.wrapping_add(1);
        if self.calls == self.failing {
            return Err(io::Error::new(ErrorKind::Other, "the chosen read"));
        }
        let n = self.size.max(1).min(buf.len()).min(self.rest.len());
        let (front, after) = self.rest.split_at(n);
        buf[..n].copy_from_slice(front);
        self.rest = after;
        Ok(n)
    }
}
