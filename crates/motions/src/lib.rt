//! Translations and rotations of points.
//!
//! A [`Motion`] moves points of integer coordinates to such points. A rotation scales, too: by the angle and the length of
//! a vector, so that it needs no rounding. A motion that leads out of range is reported, and not made.
//!
//! # A worked example
//!
//! ```
//! let quarter = Motion::Rotation(Direction::new(0, 1)?);
//! assert!(quarter.apply(Point::new(3, 1)?) == Some(Point::new(-1, 3)?));
//! let far = Motion::Translation { dx: COORDINATE_LIMIT, dy: 0 };
//! assert!(far.apply(Point::new(1, 0)?) == None);
//! ```
#![tactic(auto)]

mod motion;
mod points;

pub use motion::Motion;
