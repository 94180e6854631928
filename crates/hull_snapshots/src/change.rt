//! The change that a call makes to a set.
ghost use Rattle.std.specs.Prelude.{◌≡◌, ◌≢◌, MatchBool};
ghost use Rattle.hull_snapshots.specs.Changes.{change_of};

use hull_set::{Call, Reply};
use lattice::Point;

/// The change that a call with its reply makes to a set.
#[derive(Clone, Copy)]
pub enum Change {
    /// The point was not in the set, and is now.
    Came(Point),
    /// The point was in the set, and its multiplicity rose by one.
    CameAgain(Point),
    /// The multiplicity of the point fell by one, and it is still in the set.
    WentOnce(Point),
    /// The point is in the set no more.
    Went(Point),
    /// Nothing changed.
    Nothing,
}

impl Change {
    /// Whether it changes the set.
    pub fn matters(&self) -> bool
        ensures { MatchBool result (self.now ≢ Change.Nothing) (self.now ≡ Change.Nothing) }
    {
        match self {
            Change::Nothing => false,
            _ => true,
        }
    }
}

/// Returns the change that a call with this reply makes.
pub fn change_of(call: &Call, reply: &Reply) -> Change
    ensures { result ≡ change_of call.now reply.now }
{
    match (call, reply) {
        (Call::Add(p), Reply::Added) => Change::Came(*p),
        (Call::Add(p), Reply::Again(_)) => Change::CameAgain(*p),
        (Call::Remove(p), Reply::Left(_)) => Change::WentOnce(*p),
        (Call::Remove(p), Reply::Removed) => Change::Went(*p),
        _ => Change::Nothing,
    }
}
