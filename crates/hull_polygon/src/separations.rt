//! Directions that separate a hull from a point or a segment, in a form that a caller can test.
ghost use Rattle.std.specs.Prelude.{◌≡◌, ◌⊎◌, ◌<◌, length, [], ◌∷◌, MatchOption};
ghost use Rattle.lattice.specs.Covers.{Covers};
ghost use Rattle.hull_polygon.specs.Meetings.{Intersects, segment};
ghost use Rattle.hull_polygon.specs.Polygons.{HoldsOfSetsOf};
ghost use Rattle.hull_polygon.specs.Rounds.{IsSeparated};
ghost use Rattle.hull_polygon.specs.Separations.{IsSeparation};
ghost use Rattle.hull_polygon.specs.Lent.{vertices_of};

use super::encounters::Encounter;
use super::nearest::{Nearest, nearest_outside};
use super::polygon::Polygon;
use super::vector::Vector;
use lattice::Point;

/// A direction that separates a set from another: no point of the set has a greater [`Vector::product`] with it than
/// `farthest`, and each point of the other set has.
#[derive(Clone, Copy, PartialEq, Eq, Debug)]
pub struct Separation {
    /// The direction from the set to the other.
    pub direction: Vector,
    /// A point of the set, none of which lies farther in that direction.
    pub farthest: Point,
}

/// Returns the separation of the hull of these vertices from `q`, which it does not cover: the direction from its
/// nearest point to `q`.
fn separation_from(vertices: &[Point], last: usize, q: Point) -> Separation
    requires some { 0 < length vertices.now }
    requires separated { IsSeparated vertices.now last }
    requires outside { HoldsOfSetsOf vertices.now (λ S. ¬ Covers S q) }
    ensures { HoldsOfSetsOf vertices.now (λ S. IsSeparation S (q ∷ []) result) }
{
    match nearest_outside(vertices, last, q) {
        Nearest::Covered => unreachable!(),
        Nearest::Vertex(c) => Separation {
            direction: Vector::step(c, q),
            farthest: c,
        },
        Nearest::Edge(a, b) => Separation {
            direction: Vector::left_of(b, a),
            farthest: b,
        },
    }
}

impl<'a> Polygon<'a> {
    /// Returns a direction that separates the hull from the segment from `a` to `b`, which may be one point, or `None`
    /// if they share a point or the set is empty. The cost is that of [`Polygon::intersects_segment`], and of
    /// [`Polygon::nearest`] for an end.
    ///
    /// It is a normal of the segment or of an edge, or the vector from a vertex to an end of the segment.
    pub fn separation_from_segment(&self, a: Point, b: Point) -> Option<Separation>
        ensures { HoldsOfSetsOf (vertices_of self.now)
            (λ S. MatchOption result ((S ≡ []) ⊎ Intersects S (segment a b)) (λ found. IsSeparation S (segment a b) found)) }
    {
        if self.vertices.is_empty() {
            return None;
        }
        match self.encounter(a, b) {
            Encounter::Met(_) => None,
            Encounter::OnRight(farthest) => Some(Separation {
                direction: Vector::left_of(a, b),
                farthest,
            }),
            Encounter::OnLeft(farthest) => Some(Separation {
                direction: Vector::left_of(b, a),
                farthest,
            }),
            Encounter::Behind => Some(separation_from(self.vertices, self.last, a)),
            Encounter::Beyond => Some(separation_from(self.vertices, self.last, b)),
        }
    }
}
