//! The book of a guard, borrowed.
ghost use Rattle.std.specs.Prelude.{◌≡◌, []};
ghost use Rattle.std.specs.Borrow.{sem, Lends};
ghost use mir.Syntax.{named};
ghost use Rattle.ticket_lock.specs.contracts.guard.Guard.{the_row};
ghost use Rattle.ticket_lock.specs.Tokens.{guard_book, with_book};

use crate::chronicle::Chronicle;
use crate::guard::Guard;

impl<'a, B: Chronicle> Guard<'a, B> {
    /// Borrows the book. It is as it was found at entry until you write to it. When the borrow ends, the guard has what was written.
    pub fn book<'s>(&'s mut self) -> &'s mut B
        ensures* writes_back { sem 𝓛 (Lends
            (the_row (record { mir = named 1; lft = [] }) B.row B.Head.row B.Line.row B.Chronicle) B.row
            self.entry result (with_book self.old)) }
        ensures value { result.now ≡ guard_book self.old }
    {
        &mut self.book
    }
}
