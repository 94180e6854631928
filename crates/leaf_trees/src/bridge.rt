//! The bridges that a fork shows.
use lattice::Point;

/// The stored bridges of a fork of the tree, each from its end in the left half to its end in the right one.
#[derive(Clone, Copy, PartialEq, Eq, Debug)]
pub struct Bridge {
    /// The number of forks above this one.
    pub level: u32,
    /// The upper bridge.
    pub upper: (Point, Point),
    /// The lower bridge.
    pub lower: (Point, Point),
}
