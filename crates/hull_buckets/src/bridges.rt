//! The bridges between two buckets.
ghost use Rattle.std.specs.Prelude.{◌≡◌, ◌≤◌};
ghost use Rattle.std.specs.List.{Contains};
ghost use Rattle.lattice.specs.Bridges.{IsAllBefore, IsUpperBridge, IsLowerBridge};
ghost use Rattle.hull_geometry.specs.CandidateLists.{IsCandidateList};
ghost use Rattle.bridge_search.specs.Trees.{On};
ghost use Rattle.hull_buckets.specs.Slices.{tree_of_slice, all_of};

use super::bucket::{Bucket, buckets_are_sound};
use super::slice::Slice;
use bridge_search::both_bridges;
use lattice::{Point, Side};

/// The vertices of a bucket are a candidate list of its points: a bridge search on them finds the bridges of all points.
pub fn vertices_are_candidates(bucket: &Bucket, side: Side)
    ensures { IsCandidateList side (On (tree_of_slice bucket.now (all_of bucket.now))) (Contains bucket.now.points) }
{
    buckets_are_sound(bucket);
}

/// Returns the upper and the lower bridge of all points of two buckets, all of the one before all of the other: each from its end in the first to its
/// end in the second. The search goes down their vertices only.
pub fn bridges_of(first: &Bucket, second: &Bucket) -> ((Point, Point), (Point, Point))
    requires { IsAllBefore (Contains first.now.points) (Contains second.now.points) }
    ensures upper { IsUpperBridge (Contains first.now.points) (Contains second.now.points) result.0.0 result.0.1 }
    ensures lower { IsLowerBridge (Contains first.now.points) (Contains second.now.points) result.1.0 result.1.1 }
{
    buckets_are_sound(first);
    buckets_are_sound(second);
    let ((upper, _), (lower, _)) = both_bridges(Slice::new(first), Slice::new(second));
    (upper, lower)
}
