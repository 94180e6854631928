//! The answer to a call on a shared hull.
ghost use Rattle.std.specs.Prelude.{◌≡◌};
ghost use Rattle.hull_shared.specs.SharedHullBooks.{shared_hull_answer_of};
ghost use Rattle.hull_shared.specs.Lines.{number_if_written};

use hull_book::LongAnswer;
use hull_set::Reply;

/// The answer to a call on a shared hull.
pub(crate) enum SharedHullAnswer {
    /// This reply; the call has its line.
    Written(Reply),
    /// This reply to a question, which has no line because the book is full.
    Unwritten(Reply),
    /// The book is full: the call was not made.
    Full,
}

/// The state after a call.
#[derive(Clone, Copy)]
pub(crate) struct StateAfter {
    /// The number of its line, if it has one.
    pub(crate) line: Option<u64>,
    /// How many lines the book contains.
    pub(crate) held: u32,
}

/// Returns the number of the call's line, if it has one.
pub(crate) fn line_of(answer: &SharedHullAnswer, number: u64) -> Option<u64>
    ensures { result ≡ number_if_written answer.now number }
{
    match answer {
        SharedHullAnswer::Written(_) => Some(number),
        _ => None,
    }
}

/// Returns the number of the line of a call that drained, if it has one.
pub(crate) fn line_of_drain(drained: &LongAnswer, number: u64) -> Option<u64>
    ensures { result ≡ number_if_written (shared_hull_answer_of drained.now) number }
{
    match drained {
        Ok(_) => Some(number),
        Err(_) => None,
    }
}
