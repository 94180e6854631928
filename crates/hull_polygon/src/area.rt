//! The doubled area of a hull.
ghost use Rattle.std.specs.Prelude.{◌≡◌, ◌*◌, ◌≤◌, ◌≤ℤ◌, pos, length};
ghost use Rattle.lattice.specs.Plane as plane;
ghost use Rattle.lattice.specs.Plane.{widest_side};
ghost use Rattle.lattice.specs.Vertices.{doubled_area, IsDoubledArea};
ghost use Rattle.hull_set.specs.declared.TheConstants.{POINT_LIMIT};
ghost use Rattle.hull_polygon.specs.Polygons.{HoldsOfSetsOf, IsShortPolygon};
ghost use Rattle.hull_polygon.specs.Lent.{vertices_of};

use super::polygon::Polygon;
use lattice::{Point, orient};

/// Returns the doubled area of a triangle that does not bend right.
fn doubled_triangle(first: Point, u: Point, v: Point) -> u128
    requires { pos 0 ≤ℤ plane.orient first u v }
    ensures value { pos result ≡ plane.orient first u v }
    ensures size { result ≤ widest_side }
{
    orient(first, u, v) as u128
}

/// Returns the doubled area inside the vertices: the triangles between the first one and each edge.
fn doubled_area_of(vertices: &[Point]) -> u128
    requires { IsShortPolygon vertices.now }
    ensures { pos result ≡ doubled_area vertices.now }
{
    let mut doubled = 0;
    for i in 1..vertices.len() {
        doubled += doubled_triangle(vertices[0], vertices[i - 1], vertices[i]);
    }
    doubled
}

impl<'a> Polygon<'a> {
    /// Returns the doubled area of the hull, in one pass over the vertices.
    pub fn area2(&self) -> u128
        ensures { HoldsOfSetsOf (vertices_of self.now) (λ S. IsDoubledArea S (pos result)) }
    {
        doubled_area_of(self.vertices())
    }
}
