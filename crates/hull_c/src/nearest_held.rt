//! The point of a set that is nearest to a given one.
ghost use Rattle.std.specs.Prelude.{◌≡◌};
ghost use Rattle.bucket_tree.specs.Roots.{points_of_root};
ghost use Rattle.hull_c.specs.NearestHeld.{EncodesNearestHeld, IsNearestHeld, IsPointAt};

use super::hull::Hull;
use hull_reply::{Code, HullReply, point_of};
use lattice::Point;

/// Returns the reply with a point and the square of its distance.
fn at_distance(p: Point, squared: u128) -> HullReply
    ensures { IsPointAt p squared result }
{
    HullReply {
        code: Code::Point.number(),
        x: p.x(),
        y: p.y(),
        ..HullReply::wide(squared)
    }
}

/// Finds the point of the set that is nearest to `q`.
fn find_from(hull: &Hull, q: Point) -> HullReply
    ensures { EncodesNearestHeld (points_of_root hull.now.root) q result }
{
    match hull.tree().nearest(q) {
        None => HullReply::bare(Code::Empty),
        Some((p, squared)) => at_distance(p, squared),
    }
}

/// Finds the point of the set that is nearest to the point of two numbers.
pub(crate) fn find(hull: &mut Hull, x: i64, y: i64) -> HullReply
    ensures { IsNearestHeld hull.old hull.new x y result }
{
    match point_of(x, y) {
        Ok(q) => find_from(hull, q),
        Err(fault) => HullReply::bare(fault),
    }
}
