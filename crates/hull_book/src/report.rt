use super::after_call::AfterCall;
use super::journal::Journal;
use super::script::Script;
use hull_set::Reply;

/// The journal has as many lines as its capacity: the call was not served.
#[derive(Clone, Copy, PartialEq, Eq, Debug)]
pub struct JournalFull;

/// The result of a call of a worker.
pub type Answer = Result<Reply, JournalFull>;

/// The result of a call on a book that may be drained: the reply and the segment, if lines were taken out; or, if it was not served, the `AfterCall` that
/// was passed, with its storage.
pub type LongAnswer = Result<(Reply, Option<Journal>), AfterCall>;

/// The result of running a script, borrowed for its text.
#[derive(Clone, Copy, Debug)]
pub struct Report<'a> {
    /// The script that was run.
    pub script: &'a Script,
    /// The results of each worker's calls, in the order of the script.
    pub answers: &'a [Vec<Answer>],
    /// The count of each worker's ledger.
    pub ledgers: &'a [u32],
    /// The journal of the closed book.
    pub journal: &'a Journal,
}
