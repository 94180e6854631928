ghost use Rattle.std.specs.Prelude.{◌≡◌, ℕ, length};
ghost use Rattle.std.specs.Io.{ReadsAtMost, WritesAtMost};
ghost use Rattle.std.specs.Io.KnownBytes.{Keeps, ReadConsumes, WriteAppends};
ghost use Rattle.text_io.specs.Count.{raised, CountsFailure, CountsWrite};

use super::device::{Sink, Source};
use std::io::{Read, Result, Write};
use std::marker::Model;

/// A reader or a writer with a count of its failures, which begins at 0.
#[derive(Drop)]
pub struct Counted<T> {
    inner: T,
    count: u64,
}

impl<T> Model for Counted<T> {
    ghost use Rattle.text_io.specs.Device.{WithProgress};

    ghost Value = { WithProgress T };

    ghost view = { λ s. record { device = s.inner; failures = s.count } };
}

impl<T> Counted<T> {
    /// Makes the device with no failure counted yet.
    pub fn new(inner: T) -> Counted<T>
        ensures device { result.device ≡ inner }
        ensures count { result.failures ≡ 0 }
    {
        Counted { inner, count: 0 }
    }

    /// Returns how many calls have failed so far.
    pub fn failures(&self) -> u64
        ensures { result ≡ self.now.failures }
    {
        self.count
    }

    /// Returns the device, in its present state.
    pub fn get_ref(&self) -> &T
        ensures { result.now ≡ self.now.device }
    {
        &self.inner
    }

    /// Returns the device without its count.
    pub fn into_inner(self) -> T
        ensures { result ≡ self.device }
    {
        let Counted { inner, count: _ } = self;
        inner
    }

    fn raise(&mut self)
        ensures count { self.new.failures ≡ raised self.old.failures }
        ensures device { self.new.device ≡ self.old.device }
    {
        let Counted { inner: _, count } = self;
        *count = count.saturating_add(1);
    }
}

impl<R: Read> Read for Counted<R> {
    ghost remaining = { λ s. R.remaining s.device };

    fn read(&mut self, buf: &mut [u8]) -> Result<usize>
        ensures bound { ReadsAtMost result buf.new }
        ensures bytes { ReadConsumes (R.remaining self.old.device) (R.remaining self.new.device) result buf.new }
        ensures count { CountsFailure result self.old.failures self.new.failures }
    {
        match self.inner.read(buf) {
            Ok(n) => Ok(n),
            Err(error) => {
                self.raise();
                Err(error)
            }
        }
    }
}

impl<R: Read> Source for Counted<R> {
    ghost failed = { λ s. s.failures };

    fn read_counted(&mut self, buf: &mut [u8]) -> Result<usize> {
        self.read(buf)
    }

    fn failures(&self) -> u64 {
        Counted::failures(self)
    }
}

impl<W: Write> Write for Counted<W> {
    ghost contents = { λ s. W.contents s.device };

    fn write(&mut self, buf: &[u8]) -> Result<usize>
        ensures bound { WritesAtMost result buf.now }
        ensures bytes { WriteAppends (W.contents self.old.device) (W.contents self.new.device) result buf.now }
        ensures count { CountsWrite result (length buf.now) self.old.failures self.new.failures }
    {
        match self.inner.write(buf) {
            Ok(n) => {
                if n == 0 && !buf.is_empty() {
                    self.raise();
                }
                Ok(n)
            }
            Err(error) => {
                self.raise();
                Err(error)
            }
        }
    }

    fn flush(&mut self) -> Result<()>
        ensures bytes { Keeps (W.contents self.old.device) (W.contents self.new.device) }
        ensures count { CountsFailure result self.old.failures self.new.failures }
    {
        match self.inner.flush() {
            Ok(()) => Ok(()),
            Err(error) => {
                self.raise();
                Err(error)
            }
        }
    }
}

impl<W: Write> Sink for Counted<W> {
    ghost failed = { λ s. s.failures };

    fn write_counted(&mut self, buf: &[u8]) -> Result<usize> {
        self.write(buf)
    }

    fn flush_counted(&mut self) -> Result<()> {
        self.flush()
    }

    fn failures(&self) -> u64 {
        Counted::failures(self)
    }
}
