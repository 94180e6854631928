//! Points in a row after a motion.
ghost use Rattle.std.specs.Prelude.{◌↔◌, ℕ, ◌<◌, length, IsTrue, MatchOption};
ghost use Rattle.lattice.specs.Plane.{IsBefore};
ghost use Rattle.hull_geometry.specs.Positions.{point_at};

use super::motion::Motion;
use lattice::{Point, before};

impl Motion {
    ghost use Rattle.motions.specs.Motions.{moved, AllMoveInRange, IsFirstMoved};

    /// Whether all of the points are in range after this motion. O(n).
    pub fn keeps_in_range(&self, points: &[Point]) -> bool
        ensures { IsTrue result ↔ AllMoveInRange self.now points.now }
    {
        for p in points {
            if self.apply(*p).is_none() {
                return false;
            }
        }
        true
    }

    /// Returns the index of a point before which there is no other after this motion, by x and then y; 0 if there is no
    /// point, and `None` if one is out of range. O(n).
    pub fn first_in_range(&self, points: &[Point]) -> Option<usize>
        ensures { MatchOption result (¬ AllMoveInRange self.now points.now)
            (λ k. AllMoveInRange self.now points.now × IsFirstMoved self.now points.now k) }
    {
        if points.is_empty() {
            return Some(0);
        }
        let mut first = 0;
        let mut start = self.apply(points[0])?;
        for i in 1..points.len() {
            let q = self.apply(points[i])?;
            if before(q, start) {
                first = i;
                start = q;
            }
        }
        Some(first)
    }

    /// Returns the index of a point before which there is no other after this motion, by x and then y. O(n).
    pub fn first_of(&self, points: &[Point]) -> usize
        requires kept { AllMoveInRange self.now points.now }
        requires some { 0 < length points.now }
        ensures within { result < length points.now }
        ensures first { (i : ℕ) → i < length points.now
            → ¬ IsBefore (moved self.now (point_at points.now i)) (moved self.now (point_at points.now result)) }
    {
        match self.first_in_range(points) {
            Some(first) => first,
            None => unreachable!(),
        }
    }
}
