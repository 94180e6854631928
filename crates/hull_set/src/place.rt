//! The place of a point, by its location relative to the hull.
ghost use Rattle.hull_set.specs.Places.{ReturnsPlace};

use super::set::Place;
use hull_geometry::Location;

impl Place {
    /// Returns the place of a point with this location.
    pub fn of_location(location: Location) -> Self
        ensures { ReturnsPlace location result }
    {
        match location {
            Location::Before => Place::Outside,
            Location::After => Place::Outside,
            Location::Below => Place::Outside,
            Location::Above => Place::Outside,
            Location::Touching => Place::On,
            Location::Within => Place::Inside,
        }
    }
}
