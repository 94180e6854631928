//! Whether the distance of two of the polygons is at most a length.
ghost use Rattle.std.specs.Prelude.{◌↔◌, ◌<◌, IsTrue, length};
ghost use Rattle.std.specs.List.{All};
ghost use Rattle.hull_polygon.specs.Polygons.{IsShortPolygon};
ghost use Rattle.polygon_pairs.specs.Pairs.{polygon_at, AreWithin, IsPairWithin};

use crate::pair::HullPair;
use hull_polygon::{Length, Polygon};
use lattice::Point;

/// Whether the distance of two polygons with vertices is at most the length. If that is 0, it is asked whether they
/// intersect, which takes less time.
fn are_within(vertices: &[Point], others: &[Point], reach: Length) -> bool
    requires this { IsShortPolygon vertices.now }
    requires that { IsShortPolygon others.now }
    requires some { 0 < length vertices.now }
    requires others { 0 < length others.now }
    ensures { IsTrue result ↔ AreWithin reach vertices.now others.now }
{
    let (this, that) = (Polygon::of_vertices(vertices), Polygon::of_vertices(others));
    if reach.numerator == 0 && reach.denominator > 0 {
        this.intersects(&that)
    } else {
        this.is_within_distance(&that, reach)
    }
}

/// Whether the distance of the polygons of a pair is at most the length.
pub(crate) fn is_within(polygons: &[&[Point]], pair: HullPair, reach: Length) -> bool
    requires polygons { All (λ o. IsShortPolygon o.now) polygons.now }
    requires order { pair.first < pair.second }
    requires within { pair.second < length polygons.now }
    requires first { 0 < length (polygon_at polygons.now pair.first) }
    requires second { 0 < length (polygon_at polygons.now pair.second) }
    ensures { IsTrue result ↔ IsPairWithin reach polygons.now pair }
{
    are_within(polygons[pair.first], polygons[pair.second], reach)
}
