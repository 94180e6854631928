use lattice::{COORDINATE_LIMIT, Point};

/// Pseudo-random numbers, always the same ones: xorshift (Marsaglia, 2003).
#[derive(Drop)]
pub struct Random {
    state: u64,
}

impl Random {
    /// Begins with a fixed seed.
    pub fn new() -> Random {
        Random {
            state: 88172645463325252,
        }
    }

    fn next(&mut self) -> u64 {
        let mut x = self.state;
        x ^= x << 13;
        x ^= x >> 7;
        x ^= x << 17;
        self.state = x;
        x
    }

    /// Returns a number below this one, or 0.
    pub fn below(&mut self, bound: usize) -> usize {
        if bound == 0 {
            return 0;
        }
        (self.next() % bound as u64) as usize
    }

    /// Returns a coordinate of the whole range.
    fn coordinate(&mut self) -> i64 {
        let width = 2 * COORDINATE_LIMIT as u64 + 1;
        (self.next() % width) as i64 - COORDINATE_LIMIT
    }

    /// Returns a point of the whole range.
    pub fn point(&mut self) -> Option<Point> {
        let x = self.coordinate();
        let y = self.coordinate();
        Point::new(x, y).ok()
    }
}
