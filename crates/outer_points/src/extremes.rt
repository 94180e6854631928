//! The indices of the farthest points in eight directions, in one pass.
ghost use Rattle.std.specs.Prelude.{◌≡◌, ◌⊎◌, ◌+◌, ◌<◌, length};
ghost use Rattle.outer_points.specs.Extremes.{AreBelow};

use lattice::{Point, before};

/// The index of a point, and how far it lies in a direction.
#[derive(Clone, Copy)]
pub(crate) struct Farthest {
    pub(crate) at: usize,
    reach: i64,
}

impl Farthest {
    /// Returns this one, or the point at `at` if it lies farther.
    fn or(self, at: usize, reach: i64) -> Farthest
        ensures { (result.at ≡ self.at) ⊎ (result.at ≡ at) }
    {
        if reach > self.reach {
            Farthest { at, reach }
        } else {
            self
        }
    }
}

/// The indices of the farthest points along the axes and the diagonals. The first and the last are so by x and then y.
#[derive(Clone, Copy)]
pub(crate) struct Extremes {
    pub(crate) first: usize,
    pub(crate) low_left: Farthest,
    pub(crate) low: Farthest,
    pub(crate) low_right: Farthest,
    pub(crate) last: usize,
    pub(crate) high_right: Farthest,
    pub(crate) high: Farthest,
    pub(crate) high_left: Farthest,
}

impl Extremes {
    /// Returns those of the first point only.
    fn first_of(p: Point) -> Extremes
        ensures { AreBelow 1 result }
    {
        let (sum, difference) = (p.x() + p.y(), p.x() - p.y());
        let first_at = |reach| Farthest { at: 0, reach };
        Extremes {
            first: 0,
            low_left: first_at(-sum),
            low: first_at(-p.y()),
            low_right: first_at(difference),
            last: 0,
            high_right: first_at(sum),
            high: first_at(p.y()),
            high_left: first_at(-difference),
        }
    }

    /// Returns those of one more point, the one at `at`.
    fn with(self, points: &[Point], at: usize) -> Extremes
        requires earlier { AreBelow at self }
        requires within { at < length points.now }
        ensures { AreBelow (at + 1) result }
    {
        let p = points[at];
        let (sum, difference) = (p.x() + p.y(), p.x() - p.y());
        Extremes {
            first: if before(p, points[self.first]) {
                at
            } else {
                self.first
            },
            low_left: self.low_left.or(at, -sum),
            low: self.low.or(at, -p.y()),
            low_right: self.low_right.or(at, difference),
            last: if before(points[self.last], p) {
                at
            } else {
                self.last
            },
            high_right: self.high_right.or(at, sum),
            high: self.high.or(at, p.y()),
            high_left: self.high_left.or(at, -difference),
        }
    }

    /// Returns those of the points. One pass.
    pub(crate) fn of(points: &[Point]) -> Extremes
        requires { 0 < length points.now }
        ensures { AreBelow (length points.now) result }
    {
        let mut extremes = Extremes::first_of(points[0]);
        for at in 1..points.len() {
            extremes = extremes.with(points, at);
        }
        extremes
    }
}
