//! A caller of `prepared_set`.
ghost use Rattle.std.specs.Prelude.{◌≡◌};
ghost use Rattle.hull_set.specs.Replies.{Answers};
ghost use Rattle.bucket_tree.specs.Roots.{held_by};

use bucket_tree::BucketTree;
use hull_set::{Call, HullSet, Place, Reply, Rules};
use lattice::Point;
use prepared_set::Prepared;

/// Returns where `q` is, relative to a zone that is asked far more often than it changes.
pub fn place_often(zone: &mut Prepared<BucketTree>, q: Point) -> Place
    ensures same { zone.new.set ≡ zone.old.set }
    ensures place { Answers Rules.Counted (held_by zone.new.set.root) zone.new.set.limit (Call.Place q) (Reply.Lies result) }
{
    zone.prepare(); // counts the question; after some, all answers come from the vertices in an array
    zone.place(q)
}
