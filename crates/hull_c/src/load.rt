//! All points of a set at once, from an array of the caller's.
ghost use Rattle.std.specs.Prelude.{◌≡◌, ◌↔◌, IsTrue, IfOk, IfErr};
ghost use Rattle.std.specs.List.{All};
ghost use Rattle.hull_reply.specs.Coordinates.{IsPointOf};
ghost use Rattle.hull_c.specs.Loads.{IsLoaded, IsUnread, HasCoordinates};

use super::hull::Hull;
use bucket_tree::BucketTree;
use heap::Heap;
use hull_reply::{Code, HullPoint, HullReply, point_of};
use hull_set::HullSet;
use lattice::Point;
use leaf_trees::{Listed, LoadFault};

/// Returns the point of these coordinates. Fails with [`Code::OutOfRange`] if one of them is out of range.
fn read(asked: HullPoint) -> Result<Point, Code>
    ensures { IsPointOf asked.x asked.y result }
{
    point_of(asked.x, asked.y)
}

/// Whether all coordinates of an array are in range.
fn are_points(array: &[HullPoint]) -> bool
    ensures { IsTrue result ↔ All HasCoordinates array.now }
{
    array.iter().all(|asked| read(*asked).is_ok())
}

/// Returns the points of an array. Fails with [`Code::OutOfRange`] exactly if one of them is out of range, and else
/// with [`Code::NoMemory`].
pub(crate) fn points_of(alloc: Heap, array: &[HullPoint]) -> Result<Vec<Point, Heap>, Code>
    ensures all { IfOk result (λ points. (points.items ≡ array.now) × All HasCoordinates array.now) }
    ensures fault { IfErr result (IsUnread array.now) }
{
    let Ok(mut points) = Vec::with_capacity(alloc, array.len()) else {
        let readable = are_points(array);
        return Err(if readable {
            Code::NoMemory
        } else {
            Code::OutOfRange
        });
    };
    for i in 0..array.len() {
        points.push_reserved(read(array[i])?);
    }
    Ok(points)
}

/// Replaces all points by those of an array, each as often as it is there.
pub(crate) fn load(hull: &mut Hull, alloc: Heap, array: &[HullPoint]) -> HullReply
    ensures { IsLoaded array.now hull.old hull.new result }
{
    if array.is_empty() {
        *hull = Hull::new(BucketTree::new(alloc, hull.limit()));
        return HullReply::numbered(Code::Number, 0);
    }
    let points = match points_of(alloc, array) {
        Ok(points) => points,
        Err(fault) => return HullReply::bare(fault),
    };
    match BucketTree::from_points(alloc, hull.limit(), &points) {
        Ok(loaded) => {
            let count = loaded.count();
            *hull = Hull::new(loaded);
            HullReply::numbered(Code::Number, u64::from(count))
        }
        Err(LoadFault::TooMany) => HullReply::bare(Code::TooMany),
        Err(LoadFault::NoMemory) => HullReply::bare(Code::NoMemory),
    }
}
