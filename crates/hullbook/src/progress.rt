//! The progress of a long run: a line on a terminal, which is renewed and is wiped at the end.
use std::cell::Cell;
use std::fmt;
use std::io::IsTerminal;
use std::time::{Clock, Instant};

/// How long a run is silent, in milliseconds.
const PATIENCE: u64 = 2000;

/// How long a line is shown before it is renewed, in milliseconds.
const RENEWAL: u64 = 200;

/// How many calls are replayed between two looks at the clock.
const CALLS_A_LOOK: u64 = 1024;

/// A receiver of the progress of a run. No contract describes its effect.
pub trait Progress {
    /// Reports that so many bytes more were read; 0 at the end of the text, after which other words may be written.
    fn read(&self, bytes: usize);

    /// Reports that one call more was replayed.
    fn replayed(&self);

    /// Reports that nothing more follows for now: the line on the terminal is wiped.
    fn wiped(&self);
}

/// Reports no progress.
pub struct NoProgress;

impl Progress for NoProgress {
    fn read(&self, _bytes: usize) {}

    fn replayed(&self) {}

    fn wiped(&self) {}
}

/// How much was done.
#[derive(Clone, Copy)]
struct Done {
    bytes: u64,
    calls: u64,
}

impl fmt::Display for Done {
    fn fmt<W: fmt::Write>(&self, f: &mut fmt::Formatter<W>) -> fmt::Result {
        write!(f, "hullbook: {} MB read", self.bytes / 1000000)?;
        if self.calls > 0 {
            write!(f, ", {} calls replayed", self.calls)?;
        }
        Ok(())
    }
}

/// A line on a terminal that shows how much was read and replayed, if that takes longer than two seconds. If the
/// device is no terminal, nothing is written.
#[derive(Drop)]
pub struct TerminalLine<'a, C, E> {
    clock: &'a C,
    device: &'a E,
    begun: Option<Instant>,
    bytes: Cell<u64>,
    calls: Cell<u64>,
    due: Cell<u64>,
    is_shown: Cell<bool>,
}

impl<'a, C: Clock, E: Print + IsTerminal> TerminalLine<'a, C, E> {
    /// Makes the line on this device, of a run that begins now.
    pub fn new(clock: &'a C, device: &'a E) -> TerminalLine<'a, C, E> {
        let begun = if device.is_terminal() {
            Instant::now(clock).ok()
        } else {
            None
        };
        TerminalLine {
            clock,
            device,
            begun,
            bytes: Cell::new(0),
            calls: Cell::new(0),
            due: Cell::new(PATIENCE),
            is_shown: Cell::new(false),
        }
    }

    /// Writes the line again when it is time.
    fn renew(&self) {
        let Some(begun) = self.begun else {
            return;
        };
        let Ok(passed) = begun.elapsed(self.clock) else {
            return;
        };
        let seconds = passed.as_secs().saturating_mul(1000);
        let passed = seconds.saturating_add(u64::from(passed.subsec_millis()));
        if passed < self.due.get() {
            return;
        }
        self.due.set(passed.saturating_add(RENEWAL));
        self.is_shown.set(true);
        let done = Done {
            bytes: self.bytes.get(),
            calls: self.calls.get(),
        };
        let device = self.device;
        let _ = print!(device; "\r{done}\x1b[K");
    }
}

impl<C: Clock, E: Print + IsTerminal> Progress for TerminalLine<'_, C, E> {
    fn read(&self, bytes: usize) {
        if bytes == 0 {
            self.wiped();
            return;
        }
        self.bytes
            .set(self.bytes.get().saturating_add(bytes as u64));
        self.renew();
    }

    fn replayed(&self) {
        let calls = self.calls.get().saturating_add(1);
        self.calls.set(calls);
        if calls % CALLS_A_LOOK == 0 {
            self.renew();
        }
    }

    fn wiped(&self) {
        if self.is_shown.get() {
            self.is_shown.set(false);
            let device = self.device;
            let _ = print!(device; "\r\x1b[K");
        }
    }
}
