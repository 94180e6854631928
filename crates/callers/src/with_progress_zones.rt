//! A caller of `bucket_tree`.
ghost use Rattle.std.specs.Prelude.{◌≡◌};
ghost use Rattle.hull_set.specs.Replies.{Answers, after, reply_to_add, reply_to_extreme};
ghost use Rattle.bucket_tree.specs.Roots.{held_by};

use bucket_tree::BucketTree;
use hull_set::{AddReply, Call, HullSet, Rules};
use lattice::{Direction, Point};

/// Adds a point once, and returns which point is farthest in a direction from then on.
pub fn add_and_look(hull: &mut BucketTree, p: Point, d: Direction) -> (AddReply, Option<Point>)
    ensures effect { held_by hull.new.root ≡ after (held_by hull.old.root) (Call.Add p) (reply_to_add result.0) }
    ensures farthest { Answers Rules.Counted (held_by hull.new.root) hull.new.limit (Call.Extreme d)
        (reply_to_extreme result.1) }
{
    let reply = hull.add(p);
    (reply, hull.extreme(d))
}
