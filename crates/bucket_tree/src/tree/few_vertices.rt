//! The vertices of a set, if they are few.
ghost use Rattle.std.specs.Prelude.{◌≤◌, vec_len, IfOk, IfSome, IfNone};
ghost use Rattle.lattice.specs.Vertices.{IsVertexList};
ghost use Rattle.hull_questions.specs.Walks.{IsLongerThan};
ghost use Rattle.bucket_tree.specs.Roots.{points_of_root};

use super::{BucketTree, bucket_trees_are_sound};
use crate::part::Part;
use crate::questions::{vertices_answer, vertices_are_few};
use heap::Heap;
use hull_questions::vertices_up_to;
use hull_set::NoMemory;
use lattice::Point;

impl BucketTree {
    /// Returns the vertices, as [`vertices`](hull_set::HullSet::vertices) lists them, if they are at most `most`, otherwise nothing: in that case
    /// only the forks above `most` edges are visited.
    pub fn vertices_up_to(&self, most: usize) -> Result<Option<Vec<Point, Heap>>, NoMemory>
        ensures vertices { IfOk result (λ found. IfSome found
            (λ v. IsVertexList (points_of_root self.now.root) v.items)) }
        ensures few { IfOk result (λ found. IfSome found (λ v. vec_len v ≤ most)) }
        ensures more { IfOk result (λ found. IfNone found (IsLongerThan most (points_of_root self.now.root))) }
    {
        bucket_trees_are_sound(self);
        let Some(root) = &self.root else {
            return Ok(Some(Vec::new(self.alloc)));
        };
        vertices_answer(root);
        vertices_are_few(root);
        Ok(vertices_up_to(self.alloc, Part::new(root), most)?)
    }
}
