//! The reader registry of a shared hull.
ghost use Rattle.std.specs.Prelude.{◌≤◌};

use crate::reader::OutReader;
use hull_reply::Code;
use hull_snapshots::ReaderRegistry;

/// The reader registry of a shared hull that was opened for readers.
#[derive(Drop)]
pub(crate) struct Gate {
    pub(crate) reader_registry: ReaderRegistry,
    /// For how many readers the shared hull was opened.
    pub(crate) readers_set: u8,
    /// How many of them are acquired.
    pub(crate) out: u8,
    /// The number of the first line.
    pub(crate) first: u64,
    ghost few: { out ≤ readers_set },
}

impl Gate {
    ghost use Rattle.hull_shared.specs.Gates.{LetsIn, TakesIn};

    /// Makes one reader more. Fails with the reason if it makes none.
    pub(crate) fn let_in(&mut self) -> Result<OutReader, Code>
        ensures { LetsIn self.old self.new result }
    {
        if self.out == self.readers_set {
            return Err(Code::NoSeat);
        }
        match self.reader_registry.reader() {
            Some(reader) => {
                self.out += 1;
                Ok(OutReader {
                    reader,
                    first: self.first,
                })
            }
            None => Err(Code::NoMemory),
        }
    }

    /// Counts one reader as released, and returns whether one was acquired.
    pub(crate) fn take_in(&mut self) -> bool
        ensures { TakesIn self.old self.new result }
    {
        if self.out == 0 {
            return false;
        }
        self.out -= 1;
        true
    }
}
