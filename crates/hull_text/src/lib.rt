//! Scripts, journals and reports as texts.
//!
//! `read_script` reads a script and `read_journal` a journal, from a counted reader; `read_journal_by` passes the
//! lines of a journal one by one to a `LineKeeper`. `write_journal` and `write_report` write to a counted writer.
//! `upgrade` writes a journal in the newest version that has its rules, and `compact` writes a short one that leaves
//! the same points. A text that is no script or journal has a `TextFault`: the kind of the fault and its line.
//!
//! # A worked example
//!
//! ```
//! let mut input = Counted::new(file); // any `Read`
//! let journal = read_journal(alloc, &mut input)?; // `fault.line` and `fault.kind()` if it is none
//! let mut output = Counted::new(device); // any `Write`
//! write_journal(&journal, &mut output)?; // in the version for its rules
//! ```
#![tactic(auto)]

mod compacting;
mod fault;
mod laws;
mod read;
mod upgrading;
mod version;
mod words;
mod write;

pub use compacting::{CompactFault, compact};
pub use fault::{FaultKind, TextFault};
pub use laws::{
    calls_are_read_again, faults_hold, numbers_have_one_spelling, replies_are_read_again,
    texts_hold,
};
pub use read::{LineKeeper, no_head, read_journal, read_journal_by, read_script};
pub use text_io::testing::{Pieces, Spout};
pub use text_io::{Counted, Sink, Source, WriteFault};
pub use upgrading::{UpgradeFault, upgrade};
pub use version::{NEWEST, Version};
pub use write::{
    call_after, end_after, entry_after, header_after, points_after, reply_after, report_fits,
    write_journal, write_report,
};
