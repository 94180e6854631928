//! Calls, applied to a set.
ghost use Rattle.std.specs.Prelude.{◌≡◌};
ghost use Rattle.hull_set.specs.Replies.{Answers, after, reply_to_extreme, reply_to_tangents};

use super::call::Call;
use super::point_list::PointList;
use super::reply::Reply;
use super::rules::Rules;
use super::set::HullSet;
use lattice::Point;

/// Returns the reply to the question for the farthest point.
pub fn extreme_reply(reply: Option<Point>) -> Reply
    ensures { result ≡ reply_to_extreme reply }
{
    match reply {
        Some(farthest) => Reply::Farthest(farthest),
        None => Reply::Empty,
    }
}

/// Returns the reply to the question for the tangents.
pub fn tangents_reply(reply: Option<(Point, Point)>) -> Reply
    ensures { result ≡ reply_to_tangents reply }
{
    match reply {
        Some((left, right)) => Reply::TangentPoints(left, right),
        None => Reply::NoTangent,
    }
}

fn listed<S: HullSet>(set: &S) -> Reply
    ensures { Answers Rules.Counted (S.held set.now) (S.bound set.now) Call.Vertices result }
{
    // (for the prover: what `limit` promises is that the set is sound)
    let _limit = set.limit();
    match set.vertices() {
        Ok(vertices) => Reply::VertexList(PointList::new(vertices)),
        Err(_) => Reply::NoMemory,
    }
}

/// Applies the call to the set and returns its reply. The set is changed by the effect of that reply.
pub fn apply<S: HullSet>(set: &mut S, call: &Call) -> Reply
    ensures allowed { Answers Rules.Counted (S.held set.old) (S.bound set.old) call.now result }
    ensures effect { S.held set.new ≡ after (S.held set.old) call.now result }
    ensures same_limit { S.bound set.new ≡ S.bound set.old }
    ensures sound { S.sound set.old → S.sound set.new }
{
    match *call {
        Call::Add(p) => Reply::from(set.add(p)),
        Call::Remove(p) => Reply::from(set.remove(p)),
        Call::Extreme(d) => extreme_reply(set.extreme(d)),
        Call::Place(q) => Reply::Lies(set.place(q)),
        Call::Tangents(q) => tangents_reply(set.tangents(q)),
        Call::Vertices => listed(set),
        Call::Area => Reply::DoubledArea(set.area2()),
        Call::Count => Reply::PointCount(set.count()),
    }
}
