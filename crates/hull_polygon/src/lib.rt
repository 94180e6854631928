//! Questions about a convex hull, answered from the list of its vertices by bisection.
//!
//! An [`Polygon`] is a convex polygon: it borrows the vertices that [`HullSet::vertices`](hull_set::HullSet::vertices)
//! returned, or any list that is the vertices of some set ([`is_polygon`]). It is never written, so any number of
//! threads may ask one at once, without a lock. Each answer is the one that is right for every set with these vertices
//! (`specs/Polygons.antt`). [`Polygon::place`], [`Polygon::extreme`], [`Polygon::tangents`], [`Polygon::nearest`],
//! [`Polygon::intersects_segment`], [`Polygon::separation_from_segment`], [`Polygon::bounding_box`] and [`Polygon::width_along`]
//! take a number of steps that grows with the logarithm of the number of vertices; [`Polygon::intersects`],
//! [`Polygon::witness`], [`Polygon::distance`] and [`Polygon::is_within_distance`] at most 64 times as many, unless a guess
//! is wrong, which no test has seen of polygons with three vertices. [`Polygon::contains`], [`Polygon::relation`],
//! [`Polygon::diameter`] and [`Polygon::least_width`] take at most as many for each vertex, and [`Polygon::area2`] and
//! [`is_polygon`] one pass.
//! Nothing is allocated.
//!
//! # A worked example
//!
//! ```
//! let vertices = set.vertices()?; // (0, 0), (4, 0), (2, 3)
//! let polygon = Polygon::of_vertices(&vertices);
//! assert!(polygon.place(Point::new(2, 1)?) == Place::Inside);
//! assert!(polygon.extreme(Direction::new(0, 1)?) == Some(Point::new(2, 3)?));
//! assert!(polygon.area2() == 12); // the doubled area
//! assert!(polygon.intersects_segment(Point::new(0, 3)?, Point::new(4, 1)?));
//! assert!(polygon.nearest(Point::new(2, -5)?) == Some(Nearest::Edge(vertices[0], vertices[1])));
//! ```
#![tactic(auto)]

mod area;
mod bisection;
mod closest_walks;
mod diameter;
mod distance;
mod encounters;
mod extents;
mod extreme;
mod factors;
mod indices;
mod insertions;
mod laws;
mod locations;
mod meetings;
mod nearest;
mod offsets;
mod partings;
mod place;
mod polygon;
mod ranges;
mod ratios;
mod raycasts;
mod relations;
mod roots;
mod roundings;
mod rounds;
mod segments;
mod separations;
mod short_vector;
mod squares;
mod stays;
mod steps;
mod strips;
mod tangents;
mod vector;
mod walks;
mod widths;
mod witnesses;

pub use distance::Distance;
pub use insertions::Insertion;
pub use laws::{
    enters_there, leaves_there, never_both, none_after, none_before, none_closer,
    none_inside_divided, none_nearer_than_edge, none_nearer_than_vertex,
};
pub use meetings::Meeting;
pub use nearest::Nearest;
pub use polygon::Polygon;
pub use ranges::Length;
pub use raycasts::{Entry, Hit};
pub use relations::Relation;
pub use roundings::Rounded;
pub use rounds::is_polygon;
pub use separations::Separation;
pub use squares::SquaredDistance;
pub use strips::Strip;
pub use vector::Vector;
pub use witnesses::Witness;
