use crate::version::Version;
use hull_book::Head;

/// The stage of reading a journal.
#[derive(Clone, Copy, Debug, PartialEq, Eq)]
pub(crate) enum Stage {
    /// Before its header.
    Header,
    /// Among its call lines.
    Lines(Version, Head),
    /// After its end line.
    Ended(Head),
}
