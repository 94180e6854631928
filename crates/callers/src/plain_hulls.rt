//! A caller of `hull_plain`.
ghost use Rattle.std.specs.Prelude.{◌≤◌, vec_len, IfOk};

use heap::Heap;
use hull_plain::{HullSet, NoMemory, PlainSet};
use lattice::Point;

/// Returns the vertices of the hull of three points, counterclockwise from the first by x and then y.
pub fn vertices_of_three(alloc: Heap, points: [Point; 3]) -> Result<Vec<Point, Heap>, NoMemory>
    ensures { IfOk result (λ vertices. vec_len vertices ≤ 3) }
{
    let mut set = PlainSet::new(alloc, 3);
    // `Added`, or `Again` if two of them are one, or `NoMemory`
    let _first = set.add(points[0]);
    let _second = set.add(points[1]);
    let _third = set.add(points[2]);
    set.vertices()
}
