//! Writing: a text is written piece by piece, and after a fault nothing is written any more.
mod fitting;
mod journal_text;
mod report;
mod writing;

pub use fitting::report_fits;
pub use journal_text::{end_after, entry_after, header_after, write_journal};
pub use report::write_report;
pub use writing::{call_after, points_after, reply_after};
