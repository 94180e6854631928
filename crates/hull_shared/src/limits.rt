//! The numbers that a shared hull is opened with.
ghost use Rattle.std.specs.Prelude.{◌↔◌, IsTrue};
ghost use Rattle.hull_shared.specs.Limits.{AreLimits};

use hull_book::{CAPACITY_LIMIT, SEAT_LIMIT};
use hull_set::POINT_LIMIT;

/// The numbers that a shared hull is opened with.
#[derive(Clone, Copy)]
pub(crate) struct Limits {
    /// How many different points the set may have.
    pub(crate) limit: u32,
    /// The number of the first call.
    pub(crate) first: u64,
    /// How many lines of the journal the book may contain.
    pub(crate) capacity: u32,
    /// How many seats there are.
    pub(crate) seats: u32,
    /// Whether the lines of calls are kept until they are drained.
    pub(crate) keeps: bool,
    /// Whether questions are answered, without a line, when the book is full.
    pub(crate) answers: bool,
}

impl Limits {
    /// Whether a shared hull can be opened with them.
    pub(crate) fn are_in_range(self) -> bool
        ensures { IsTrue result ↔ AreLimits self }
    {
        (1..=POINT_LIMIT).contains(&self.limit)
            && (1..CAPACITY_LIMIT).contains(&self.capacity)
            && (1..=u32::from(SEAT_LIMIT)).contains(&self.seats)
    }
}
