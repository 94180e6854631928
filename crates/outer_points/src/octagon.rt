//! The octagon of the farthest points in eight directions.
ghost use Rattle.std.specs.Prelude.{◌≡◌, ◌↔◌, ◌<◌, length, IsTrue, true};
ghost use Rattle.std.specs.List.{All, Contains};
ghost use Rattle.lattice.specs.declared.side.Side.{Side};

use super::chain::{is_in_order, is_under};
use super::extremes::Extremes;
use lattice::{Point, Side};

/// The vertices of an octagon, in two chains from the first to the last.
#[derive(Clone, Copy)]
pub(crate) struct Octagon {
    lower: [Point; 5],
    upper: [Point; 5],
}

impl Octagon {
    ghost use Rattle.outer_points.specs.Octagons.{chain_of, IsOctagonInOrder, IsInnerTo};

    /// Returns the octagon of the points, whose vertices are some of them.
    pub(crate) fn of(points: &[Point]) -> Octagon
        requires { 0 < length points.now }
        ensures { (side : Side) → All (Contains points.now) (chain_of side result) }
    {
        let e = Extremes::of(points);
        let (first, last) = (points[e.first], points[e.last]);
        Octagon {
            lower: [
                first,
                points[e.low_left.at],
                points[e.low.at],
                points[e.low_right.at],
                last,
            ],
            upper: [
                first,
                points[e.high_left.at],
                points[e.high.at],
                points[e.high_right.at],
                last,
            ],
        }
    }

    /// Whether both chains are in order, as those of every octagon are.
    pub(crate) fn is_in_order(&self) -> bool
        ensures { IsTrue result ↔ IsOctagonInOrder self.now }
    {
        is_in_order(&self.lower) && is_in_order(&self.upper)
    }

    /// Whether `p` is in the octagon and between two successive vertices of each chain.
    pub(crate) fn is_inner(&self, p: Point) -> bool
        ensures { result ≡ true → IsInnerTo self.now p }
    {
        is_under(Side::Lower, &self.lower, p) && is_under(Side::Upper, &self.upper, p)
    }
}
