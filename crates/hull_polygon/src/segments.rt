//! The relation of a hull to a segment, taken as another hull, and their distance. A segment may be one point.
ghost use Rattle.std.specs.Prelude.{◌≡◌, length, [], MatchOption};
ghost use Rattle.lattice.specs.Plane.{IsBefore};
ghost use Rattle.hull_geometry.specs.Positions.{point_at};
ghost use Rattle.hull_polygon.specs.Closest.{IsDistance};
ghost use Rattle.hull_polygon.specs.Polygons.{HoldsOfSetsOf};
ghost use Rattle.hull_polygon.specs.Ranges.{ReturnsWithin};
ghost use Rattle.hull_polygon.specs.Relations.{IsRelation};
ghost use Rattle.hull_polygon.specs.Segments.{ends};
ghost use Rattle.hull_polygon.specs.Lent.{vertices_of};

use super::distance::{Distance, by_other};
use super::polygon::Polygon;
use super::ranges::{Length, has_distance_within};
use super::relations::Relation;
use lattice::{Point, before};

/// Returns two points, the first by x and then y before the other.
fn in_order(a: Point, b: Point) -> [Point; 2]
    ensures two { length result ≡ 2 }
    ensures order { ¬ IsBefore (point_at result 1) (point_at result 0) }
    ensures same { ends (point_at result 0) (point_at result 1) ≡ ends a b }
{
    if before(b, a) { [b, a] } else { [a, b] }
}

/// Returns the polygon of two points in order: both, or one if they are equal.
fn segment_of<'a>(points: &'a [Point]) -> Polygon<'a>
    requires two { length points.now ≡ 2 }
    requires order { ¬ IsBefore (point_at points.now 1) (point_at points.now 0) }
    ensures { vertices_of result ≡ ends (point_at points.now 0) (point_at points.now 1) }
{
    if before(points[0], points[1]) {
        Polygon::of_vertices(points)
    } else {
        Polygon::of_vertices(&points[..1])
    }
}

impl<'a> Polygon<'a> {
    /// Returns the relation of this hull to the segment from `a` to `b`, as [`Polygon::relation`] does for two hulls: a
    /// segment along an edge touches, one that goes through overlaps, and one that ends inside overlaps, too.
    pub fn relation_to_segment(&self, a: Point, b: Point) -> Relation
        ensures { HoldsOfSetsOf (vertices_of self.now) (λ S. IsRelation S (ends a b) result) }
    {
        let points = in_order(a, b);
        self.relation(&segment_of(&points))
    }

    /// Returns the nearest points of this hull and the hull of `q`, or `None` if this hull is empty.
    fn distance_to_point(&self, q: Point) -> Option<Distance>
        ensures { HoldsOfSetsOf (vertices_of self.now)
            (λ S. MatchOption result (S ≡ []) (λ found. IsDistance S (ends q q) found)) }
    {
        let place = self.nearest(q)?;
        Some(by_other(q, place))
    }

    /// Returns the nearest points of this hull and the segment from `a` to `b`, or `None` if the hull is empty. The
    /// cost is that of [`Polygon::distance`], and of one point that of [`Polygon::nearest`].
    pub fn distance_to_segment(&self, a: Point, b: Point) -> Option<Distance>
        ensures { HoldsOfSetsOf (vertices_of self.now)
            (λ S. MatchOption result (S ≡ []) (λ found. IsDistance S (ends a b) found)) }
    {
        if a == b {
            return self.distance_to_point(a);
        }
        let points = in_order(a, b);
        self.distance(&segment_of(&points))
    }

    /// Whether the distance of this hull and the segment from `a` to `b` is at most that length; false if the hull is
    /// empty.
    pub fn is_within_distance_of_segment(&self, a: Point, b: Point, length: Length) -> bool
        ensures { HoldsOfSetsOf (vertices_of self.now) (λ S. ReturnsWithin result length S (ends a b)) }
    {
        has_distance_within(self.distance_to_segment(a, b), length)
    }
}
