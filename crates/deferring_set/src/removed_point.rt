use lattice::Point;
use std::marker::Model;

/// A point that was removed from a set. Contracts see the point.
#[derive(Clone, Copy)]
pub(crate) struct RemovedPoint {
    pub(crate) point: Point,
}

impl Model for RemovedPoint {
    ghost use Rattle.lattice.specs.Plane.{Pair};

    ghost Value = { Pair };

    ghost view = { λ r. r.point };

    ghost inverse = { λ p. record { point = p } };
}

// (an array that is partly filled needs values for the rest)
impl Default for RemovedPoint {
    fn default() -> RemovedPoint {
        let Ok(point) = Point::new(0, 0) else {
            unreachable!()
        };
        RemovedPoint { point }
    }
}
