//! Pseudo-random numbers, the same in each run.

/// Pseudo-random numbers: r becomes 1103515245 r + 12345 modulo 2^31; the last 16 bits are not used.
#[derive(Drop)]
pub(crate) struct Numbers {
    r: u32,
}

impl Numbers {
    /// From the seed 1.
    pub(crate) fn new() -> Numbers {
        Numbers { r: 1 }
    }

    pub(crate) fn next(&mut self) -> u32 {
        self.r = ((1103515245 * self.r as u64 + 12345) % 2147483648) as u32;
        self.r / 65536
    }

    /// A number below `bound`; 0 if `bound` is 0.
    pub(crate) fn below(&mut self, bound: u32) -> u32 {
        self.next().checked_rem(bound).unwrap_or(0)
    }

    /// A coordinate whose distance from 0 is at most `half`.
    pub(crate) fn coordinate(&mut self, half: u16) -> i64 {
        let half = u32::from(half);
        centred(self.below(2 * half + 1), half)
    }
}

/// The coordinate of a number below `2 * half + 1`, as far from 0 as `half` at most.
pub(crate) fn centred(number: u32, half: u32) -> i64 {
    number as i64 - half as i64
}
