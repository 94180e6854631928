//! Sets that can list their vertices if these are few.
ghost use Rattle.std.specs.Prelude.{◌≤◌, vec_len, IfOk, IfSome, IfNone};
ghost use Rattle.lattice.specs.Vertices.{IsVertexList};
ghost use Rattle.hull_questions.specs.Walks.{IsLongerThan};

use bucket_tree::BucketTree;
use heap::Heap;
use hull_set::{HullSet, NoMemory};
use lattice::Point;

/// A set that can list its vertices up to a given number, in time proportional to that number.
pub trait ListsVertices: HullSet {
    /// Returns the vertices, as [`vertices`](HullSet::vertices) does, if there are at most `most`, and `None` if there
    /// are more.
    fn vertices_up_to(&self, most: usize) -> Result<Option<Vec<Point, Heap>>, NoMemory>
        ensures vertices { IfOk result (λ found.
            IfSome found (λ v. IsVertexList (Self.held self.now).points v.items)) }
        ensures few { IfOk result (λ found. IfSome found (λ v. vec_len v ≤ most)) }
        ensures more { IfOk result (λ found. IfNone found (IsLongerThan most (Self.held self.now).points)) };
}

impl ListsVertices for BucketTree {
    fn vertices_up_to(&self, most: usize) -> Result<Option<Vec<Point, Heap>>, NoMemory> {
        BucketTree::vertices_up_to(self, most)
    }
}
