ghost use Rattle.std.specs.Prelude.{◌≡◌, ◌≤◌, length, vec_len};
ghost use Rattle.std.proofs.Common.{rules};
ghost use Rattle.std.specs.Cmp.Rules.{comparing};
ghost use Rattle.std.specs.Cmp.Lexicographic.{pointwise};
ghost use Rattle.hull_set.specs.PointLists.{is_same_pair};
ghost use Rattle.hull_set.specs.declared.TheConstants.{POINT_LIMIT};

use heap::Heap;
use lattice::Point;
use std::alloc::AllocError;
use std::marker::Model;

/// A list of at most [`POINT_LIMIT`](crate::POINT_LIMIT) points, as a reply contains it.
#[derive(Debug, Drop)]
pub struct PointList {
    points: Vec<Point, Heap>,
}

impl Model for PointList {
    ghost use Rattle.std.specs.Prelude.{List, length, ◌≤◌};
    ghost use Rattle.lattice.specs.Plane.{Pair};
    ghost use Rattle.hull_set.specs.declared.TheConstants.{POINT_LIMIT};

    ghost Value = { List Pair };

    ghost view = { λ l. l.points.items };

    ghost invariant = { λ l. length l.points.items ≤ POINT_LIMIT };
}

impl Clone for PointList {
    ghost use Rattle.std.specs.Prelude.{◌≡◌, []};

    ghost is_clone = { λ points copy. copy ≡ points };

    ghost is_infallible = { λ points. points ≡ [] };

    /// Returns a copy in storage of its own. Allocates only for a list with a point, and fails with `AllocError` if
    /// memory is refused.
    fn clone(&self) -> Result<PointList, AllocError> {
        let points = self.as_slice();
        let mut copy = Vec::with_capacity(*self.points.allocator(), points.len())?;
        for point in points {
            copy.push_reserved(*point);
        }
        Ok(PointList::new(copy))
    }
}

impl PartialEq for PointList {
    ghost eq = { pointwise is_same_pair };

    ghost laws = { Prim.search (comparing, rules) };

    fn eq(&self, other: &PointList) -> bool {
        self.points == other.points
    }
}

impl Eq for PointList {
    ghost laws = { Prim.search (comparing, rules) };
}

impl PointList {
    /// Returns the list of these points.
    pub fn new(points: Vec<Point, Heap>) -> PointList
        requires { vec_len points ≤ POINT_LIMIT }
        ensures { result ≡ points.items }
    {
        PointList { points }
    }

    /// Returns the points in their order.
    pub fn as_slice(&self) -> &[Point]
        ensures points { result.now ≡ self.now }
        ensures few { length self.now ≤ POINT_LIMIT }
    {
        &self.points
    }

    /// Returns the points in their order, with the storage that they are in.
    pub fn into_vec(self) -> Vec<Point, Heap>
        ensures points { result.items ≡ self }
        ensures few { length self ≤ POINT_LIMIT }
    {
        let PointList { points } = self;
        points
    }
}
