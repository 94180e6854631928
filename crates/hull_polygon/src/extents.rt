//! The bounding box of a hull, and one hull inside another.
ghost use Rattle.std.specs.Prelude.{◌≡◌, ◌↔◌, IsTrue, MatchOption, ◌<◌, length, [], pos, neg_ℤ};
ghost use Rattle.lattice.specs.Plane.{IsCoordinate};
ghost use Rattle.lattice.specs.Covers.{Covers};
ghost use Rattle.hull_polygon.specs.Boxes.{IsBox, Holds};
ghost use Rattle.hull_polygon.specs.Polygons.{HoldsOfBoth, HoldsOfSetsOf};
ghost use Rattle.hull_polygon.specs.Rounds.{IsSeparated};
ghost use Rattle.hull_polygon.specs.Lent.{vertices_of};

use super::extreme::farthest;
use super::polygon::Polygon;
use super::rounds::vertex_at;
use super::vector::Vector;
use hull_set::Place;
use lattice::Point;

/// Returns the point in the column of `p` and in the row of `q`.
fn in_column_and_row(p: Point, q: Point) -> Point
    ensures { result ≡ record { x = p.x; y = q.y } }
{
    match Point::new(p.x(), q.y()) {
        Ok(point) => point,
        Err(_) => unreachable!(),
    }
}

/// Returns the box of these vertices: between the first and the last by x, and the lowest and the highest.
fn box_of(vertices: &[Point], last: usize) -> (Point, Point)
    requires some { 0 < length vertices.now }
    requires separated { IsSeparated vertices.now last }
    ensures { HoldsOfSetsOf vertices.now (λ S. IsBox S result.0 result.1) }
{
    let low = farthest(vertices, last, Vector::down());
    let high = farthest(vertices, last, Vector::up());
    (
        in_column_and_row(vertex_at(vertices, 0), low),
        in_column_and_row(vertex_at(vertices, last), high),
    )
}

impl<'a> Polygon<'a> {
    /// Returns the least and the greatest vertex of the smallest box, with sides along the axes, that contains the set,
    /// or `None` if the set is empty. Two bisections.
    #[inline]
    pub fn bounding_box(&self) -> Option<(Point, Point)>
        ensures { HoldsOfSetsOf (vertices_of self.now)
            (λ S. MatchOption result (S ≡ []) (λ ends. IsBox S ends.0 ends.1)) }
    {
        if self.vertices.is_empty() {
            None
        } else {
            Some(box_of(self.vertices, self.last))
        }
    }

    /// Whether `q` lies inside or on the boundary.
    pub(crate) fn covers(&self, q: Point) -> bool
        ensures { HoldsOfSetsOf (vertices_of self.now) (λ S. IsTrue result ↔ Covers S q) }
    {
        match self.place(q) {
            Place::Inside => true,
            Place::On => true,
            Place::Outside => false,
        }
    }

    /// Whether the hull contains the whole hull of `other`, boundaries included: it covers each point that the other
    /// covers. A bisection for each vertex of `other`.
    pub fn contains(&self, other: &Polygon) -> bool
        ensures { HoldsOfBoth (vertices_of self.now) (vertices_of other.now) (λ S T. IsTrue result ↔ Holds S T) }
    {
        for i in 0..other.vertices.len() {
            let vertex = other.vertices[i];
            if !self.covers(vertex) {
                return false;
            }
        }
        true
    }
}
