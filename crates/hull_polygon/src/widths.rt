//! The extent of a hull in a direction.
ghost use Rattle.std.specs.Prelude.{◌≡◌, ◌≤◌, ◌<◌, ◌*◌, length, [], pos, ◌-ℤ◌, ◌≤ℤ◌, MatchOption};
ghost use Rattle.lattice.specs.Plane as plane;
ghost use Rattle.lattice.specs.Plane.{widest_side};
ghost use Rattle.hull_polygon.specs.Extents.{IsExtent};
ghost use Rattle.hull_polygon.specs.Polygons.{HoldsOfSetsOf};
ghost use Rattle.hull_polygon.specs.Rounds.{IsSeparated};
ghost use Rattle.hull_polygon.specs.Lent.{vertices_of};

use super::extreme::farthest;
use super::polygon::Polygon;
use super::vector::Vector;
use lattice::{Direction, Point};

/// Returns how much farther `p` lies than `q` in the direction `d`, in which it lies no less far.
fn how_much_farther(d: Vector, p: Point, q: Point) -> u128
    requires { plane.product d q ≤ℤ plane.product d p }
    ensures value { pos result ≡ plane.product d p -ℤ plane.product d q }
    ensures size { result ≤ 2 * widest_side }
{
    (d.product(p) - d.product(q)) as u128
}

/// Returns the extent of the hull of these vertices in a direction.
fn extent(vertices: &[Point], last: usize, d: Vector) -> u128
    requires some { 0 < length vertices.now }
    requires separated { IsSeparated vertices.now last }
    ensures value { HoldsOfSetsOf vertices.now (λ S. IsExtent S d (pos result)) }
    ensures size { result ≤ 2 * widest_side }
{
    let most = farthest(vertices, last, d);
    let least = farthest(vertices, last, d.back());
    how_much_farther(d, most, least)
}

impl<'a> Polygon<'a> {
    /// Returns the extent of the hull in the direction `d`: the greatest product of a point with `d` minus the least,
    /// exact; or `None` if the set is empty. Divided by the length of `d` it is the width along `d`. Two bisections.
    pub fn width_along(&self, d: Direction) -> Option<u128>
        ensures { HoldsOfSetsOf (vertices_of self.now)
            (λ S. MatchOption result (S ≡ []) (λ n. IsExtent S d (pos n))) }
    {
        if self.vertices.is_empty() {
            None
        } else {
            Some(extent(self.vertices, self.last, Vector::along(d)))
        }
    }
}
