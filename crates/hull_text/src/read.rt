//! Reading: a text is cut into lines, a line into fields, and the fields are read from the left.
mod assemble;
mod call;
mod field;
mod item;
mod journal;
mod journal_draft;
mod journal_line;
mod line_keeper;
mod next_number;
mod number;
mod reading;
mod reply;
mod script;
mod script_draft;
mod script_line;
mod stage;

pub use journal::{read_journal, read_journal_by};
pub use line_keeper::{LineKeeper, no_head};
pub use script::read_script;
