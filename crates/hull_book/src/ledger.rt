ghost use Rattle.std.specs.Prelude.{◌≡◌, ◌<◌, ◌≤◌, ◌-◌, ◌^◌};

use std::marker::Model;

/// How many lines of a book's journal are a seat's. It is stored apart from the book.
///
/// A book's ledgers are made with the book, and a ledger cannot be made otherwise, copied or dropped: you consume them all together with
/// [`gather`](crate::gather).
#[derive(Debug)]
pub struct Ledger {
    pub(crate) seat: u8,
    pub(crate) count: u64,
}

impl Model for Ledger {
    ghost use Rattle.hull_book.specs.Ledgers.{LedgerValue};

    ghost Value = { LedgerValue };

    ghost view = { λ l. record { seat = l.seat; count = l.count } };
}

impl Ledger {
    /// Returns the seat whose lines it counts.
    pub fn seat(&self) -> u8
        ensures { result ≡ self.now.seat }
    {
        self.seat
    }

    /// Returns how many lines of the journal are that seat's, if they are fewer than 2^32, as they always are for a [`Book`](crate::Book); `u32::MAX`
    /// if they are more, which is possible only for a book that is drained: [`total`](Ledger::total) returns the exact number.
    pub fn count(&self) -> u32
        ensures exact { self.now.count < 2 ^ 32 → result ≡ self.now.count }
        ensures most { 2 ^ 32 ≤ self.now.count → result ≡ 2 ^ 32 - 1 }
    {
        if self.count < 4294967296 {
            self.count as u32
        } else {
            u32::MAX
        }
    }

    /// Returns how many lines of the journal are that seat's, including those that were taken out of a book that is drained.
    pub fn total(&self) -> u64
        ensures { result ≡ self.now.count }
    {
        self.count
    }
}
