//! The place of a point.
ghost use Rattle.hull_set.specs.Replies.{LiesAt};
ghost use Rattle.hull_polygon.specs.Polygons.{HoldsOfSetsOf};
ghost use Rattle.hull_polygon.specs.Lent.{vertices_of};

use super::locations::look;
use super::polygon::Polygon;
use hull_set::Place;
use lattice::Point;

impl<'a> Polygon<'a> {
    /// Returns the place of `q`, by its sides of the lower and of the upper edge between whose ends it is, each found
    /// by a bisection of its chain (Preparata and Shamos, 1985).
    pub fn place(&self, q: Point) -> Place
        ensures { HoldsOfSetsOf (vertices_of self.now) (λ S. LiesAt S q result) }
    {
        if self.vertices.is_empty() {
            return Place::Outside;
        }
        Place::of_location(look(self.vertices, self.last, q))
    }
}
