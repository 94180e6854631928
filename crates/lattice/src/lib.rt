//! Points and directions of the lattice of whole numbers, and their exact comparisons.
//!
//! A coordinate is a whole number of at most [`COORDINATE_LIMIT`] in size. Nothing here rounds, wraps or allocates:
//! each comparison is its formula over whole numbers of any size (`specs/Plane.antt`). `specs/` also has the
//! definitions of a convex hull that all other crates use.
//!
//! # A worked example
//!
//! ```
//! let (a, b, c) = (Point::new(0, 0)?, Point::new(4, 0)?, Point::new(2, 3)?); // fails if a coordinate is out of range
//! assert!(before(a, c) && before(c, b)); // by x, and then by y
//! assert!(orient(a, b, c) == 12); // c lies left of the line from a to b; twice the area of the triangle
//! assert!(product(Direction::new(0, 1)?, c) == 3); // how far c lies up
//! ```
#![tactic(auto)]

mod compare;
mod crossing;
mod direction;
mod fault;
mod laws;
mod near;
mod point;
mod side;
mod wide;

pub use compare::{before, distance_squared, orient, product};
pub use crossing::{crossing_at_or_before, weighted_at_or_before};
pub use direction::Direction;
pub use fault::LatticeFault;
pub use laws::{
    PointSet, coordinate_limit_is_stated, crossing_is_on_both_lines, lower_bridge_is_unique,
    lower_bridge_stands_as_point_comes, lower_bridge_stands_as_point_goes, upper_bridge_is_unique,
    upper_bridge_stands_as_point_comes, upper_bridge_stands_as_point_goes,
};
pub use near::{is_near, orient_near, sum_of_near_products};
pub use point::Point;
pub use side::{Side, orient_on};
pub use wide::{difference, sum_of_products};

/// The greatest size of a coordinate of a point, and of a component of a direction.
pub const COORDINATE_LIMIT: i64 = 1099511627776;

/// The greatest size of a coordinate of a near point: sides of such points fit in 64 bits.
pub const NEAR_LIMIT: i64 = 1073741823;
