//! A convex polygon: the borrowed vertices of a set, with the index of the last of them.
ghost use Rattle.std.specs.Prelude.{◌≤◌, length};
ghost use Rattle.hull_set.specs.declared.TheConstants.{POINT_LIMIT};
ghost use Rattle.hull_polygon.specs.Rounds.{IsSeparated};
ghost use Rattle.hull_polygon.specs.OneWay.{IsSeparated-prop};

use super::rounds::{last_of, summit};
use hull_set::POINT_LIMIT;
use lattice::Point;

/// The vertices of a set of points, as [`HullSet::vertices`](hull_set::HullSet::vertices) returns them:
/// counterclockwise from the first by x and then y, at most [`POINT_LIMIT`]. It is never written, so that any number of
/// threads may ask one polygon at once.
///
/// Each question is answered for the set at the moment when its vertices were taken.
#[derive(Clone, Copy)]
pub struct Polygon<'a> {
    pub(crate) vertices: &'a [Point],
    pub(crate) last: usize,
    ghost separated: { IsSeparated vertices.now last } by { IsSeparated-prop vertices.now last },
    ghost few: { length vertices.now ≤ POINT_LIMIT },
}

impl<'a> Polygon<'a> {
    ghost use Rattle.std.specs.Prelude.{◌≡◌, IfSome, MatchOption};
    ghost use Rattle.hull_polygon.specs.Polygons.{IsOwnPolygon, IsShortPolygon};
    ghost use Rattle.hull_polygon.specs.Lent.{vertices_of};

    /// Returns the polygon of these vertices, or `None` if they are not the vertices of a set, or more than
    /// [`POINT_LIMIT`]. One pass, as [`is_polygon`](crate::is_polygon).
    pub fn new(vertices: &'a [Point]) -> Option<Polygon<'a>>
        ensures polygon { MatchOption result (¬ IsShortPolygon vertices.now)
            (λ polygon. (vertices_of polygon ≡ vertices.now) × IsShortPolygon vertices.now) }
        ensures own { IfSome result (λ _. IsOwnPolygon vertices.now) }
    {
        if vertices.len() > POINT_LIMIT as usize {
            return None;
        }
        let last = last_of(vertices)?;
        Some(Polygon { vertices, last })
    }

    /// Returns the polygon of the vertices that a set returned. Makes no pass over them: a bisection finds the last
    /// one.
    pub fn of_vertices(vertices: &'a [Point]) -> Polygon<'a>
        requires { IsShortPolygon vertices.now }
        ensures { vertices_of result ≡ vertices.now }
    {
        let last = if vertices.len() < 2 {
            0
        } else {
            summit(vertices)
        };
        Polygon { vertices, last }
    }

    /// Returns the polygon of vertices whose last one, by x and then y, is at `last`. Needs neither a pass nor a
    /// bisection.
    pub fn of_separated(vertices: &'a [Point], last: usize) -> Polygon<'a>
        requires separated { IsSeparated vertices.now last }
        requires few { length vertices.now ≤ POINT_LIMIT }
        ensures { vertices_of result ≡ vertices.now }
    {
        Polygon { vertices, last }
    }

    /// Returns the index of the last vertex, for [`Polygon::of_separated`].
    pub fn last(&self) -> usize
        ensures { IsSeparated (vertices_of self.now) result }
    {
        self.last
    }

    /// Returns the vertices.
    pub fn vertices(&self) -> &'a [Point]
        ensures vertices { result.now ≡ vertices_of self.now }
        ensures polygon { IsShortPolygon (vertices_of self.now) }
    {
        self.vertices
    }
}
