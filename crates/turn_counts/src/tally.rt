use std::fmt;

/// The greatest of some numbers, their sum, and how many there are.
#[derive(Clone, Copy, Debug)]
pub struct Tally {
    greatest: u32,
    sum: u64,
    count: u64,
}

impl Tally {
    /// Makes the tally of no number.
    pub fn new() -> Tally {
        Tally {
            greatest: 0,
            sum: 0,
            count: 0,
        }
    }

    /// Adds a number.
    pub fn count(&mut self, number: u32) {
        self.greatest = self.greatest.max(number);
        self.sum = self.sum.saturating_add(u64::from(number));
        self.count = self.count.saturating_add(1);
    }
}

impl fmt::Display for Tally {
    fn fmt<W: fmt::Write>(&self, f: &mut fmt::Formatter<W>) -> fmt::Result {
        let count = self.count.max(1);
        let greatest = self.greatest;
        let mean = self.sum / count;
        let changes = self.count;
        write!(f, "{changes} changes, greatest {greatest}, mean {mean}")
    }
}
