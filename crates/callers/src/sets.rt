//! A caller of `hull_set`, for any set with its trait: `HullTree`, `BucketTree`, `PlainSet`.
ghost use Rattle.std.specs.Prelude.{◌≡◌, MatchOption};
ghost use Rattle.hull_set.specs.Replies.{Answers};

use hull_set::{Call, HullSet, RemoveReply, Reply, Rules};
use lattice::Point;

/// Returns the doubled area of the hull after a point is removed once; `None` if it was not there.
pub fn area_without<S: HullSet>(set: &mut S, p: Point) -> Option<u128>
    ensures area { MatchOption result (S.held set.new ≡ S.held set.old)
        (λ area. Answers Rules.Counted (S.held set.new) (S.bound set.new) Call.Area (Reply.DoubledArea area)) }
    ensures sound { S.sound set.new }
{
    match set.remove(p) {
        RemoveReply::Absent => None,
        RemoveReply::Removed | RemoveReply::Left(_) => Some(set.area2()),
    }
}
