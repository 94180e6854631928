ghost use Rattle.std.specs.Prelude.{◌≡◌, ◌↔◌, IsTrue};
ghost use Rattle.lattice.specs.Plane as plane;
ghost use Rattle.lattice.specs.Plane.{IsBefore, IsWithin, widest_side};

use super::direction::Direction;
use super::point::Point;
use super::wide::{difference, product_of_differences, sum_of_products};

/// Returns twice the signed area of the triangle abc (Preparata and Shamos, 1985): positive if `c` lies left of the
/// directed line from `a` to `b`, zero if it lies on that line, negative if it lies right of it.
#[tactic(auto, unfolding(crate::specs::Plane::orient))]
pub fn orient(a: Point, b: Point, c: Point) -> i128
    ensures value { result ≡ plane.orient a b c }
    ensures size { IsWithin widest_side result }
{
    product_of_differences(b.x(), a.x(), c.y(), a.y())
        - product_of_differences(b.y(), a.y(), c.x(), a.x())
}

/// Returns how far `p` lies in the direction `d`: the sum of the products of their components.
#[tactic(auto, unfolding(crate::specs::Plane::product))]
pub fn product(d: Direction, p: Point) -> i128
    ensures value { result ≡ plane.product d p }
    ensures size { IsWithin widest_side result }
{
    sum_of_products(d.x(), p.x(), d.y(), p.y())
}

/// Returns the square of the distance of two points.
#[tactic(auto, unfolding(crate::specs::Plane::distance_squared))]
pub fn distance_squared(a: Point, b: Point) -> i128
    ensures value { result ≡ plane.distance_squared a b }
    ensures size { IsWithin widest_side result }
{
    let (x, y) = (difference(b.x(), a.x()), difference(b.y(), a.y()));
    sum_of_products(x, x, y, y)
}

/// Whether `p` is before `q`: by x, and by y if x is the same.
pub fn before(p: Point, q: Point) -> bool
    ensures { IsTrue result ↔ IsBefore p q }
{
    p.x() < q.x() || p.x() == q.x() && p.y() < q.y()
}
