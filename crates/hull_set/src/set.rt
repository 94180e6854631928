ghost use Rattle.std.specs.Prelude.{◌≡◌, ◌↔◌, ℕ, ◌≤◌, vec_len, IfOk};
ghost use Rattle.std.specs.List.{Contains};
ghost use Rattle.lattice.specs.Covers.{IsPointSet};
ghost use Rattle.hull_set.specs.Held.{Held};
ghost use Rattle.hull_set.specs.Replies.{Answers, after, reply_to_add, reply_to_remove, reply_to_extreme};
ghost use Rattle.hull_set.specs.Replies.{reply_to_tangents, reply_to_vertices};

use super::call::Call;
use super::reply::Reply;
use super::rules::Rules;
use super::{MULTIPLICITY_LIMIT, POINT_LIMIT};
use heap::Heap;
use lattice::{Direction, Point};
use std::alloc::AllocError;
use std::error::Error;
use std::fmt;

/// The result of `add`.
#[derive(Clone, Copy, PartialEq, Eq, Debug)]
pub enum AddReply {
    /// The point was not in the set, and is now.
    Added,
    /// The point was in the set, and now has this multiplicity, from 2 to [`MULTIPLICITY_LIMIT`].
    Again(u32),
    /// The point was not in the set, which has as many points as its limit; or the point's multiplicity is
    /// [`MULTIPLICITY_LIMIT`]. The set is unchanged.
    TooMany,
    /// Memory was refused; the set is unchanged.
    NoMemory,
}

/// The result of `remove`.
#[derive(Clone, Copy, PartialEq, Eq, Debug)]
pub enum RemoveReply {
    /// The point had multiplicity 1, and is no longer in the set.
    Removed,
    /// The point had a greater multiplicity, and is still in the set with this one, which is at least 1.
    Left(u32),
    /// The point was not in the set.
    Absent,
}

/// The place of a point relative to a set.
#[derive(Clone, Copy, PartialEq, Eq, Debug)]
pub enum Place {
    /// The set covers it, and in each direction some point of the set lies farther.
    Inside,
    /// The set covers it, and in some direction no point of the set lies farther.
    On,
    /// The set does not cover it.
    Outside,
}

/// Memory was refused.
#[derive(Clone, Copy, PartialEq, Eq, Debug)]
pub struct NoMemory;

impl fmt::Display for NoMemory {
    ghost use Rattle.std.specs.Prelude.{Some, codes};

    ghost output = { λ _. Some (codes "out of memory") };

    fn fmt<W: fmt::Write>(&self, f: &mut fmt::Formatter<W>) -> fmt::Result {
        f.write_str("out of memory")
    }
}

impl Error for NoMemory {}

impl From<AllocError> for NoMemory {
    ghost from_gives = { λ _ fault. fault ≡ record {} };

    fn from(_refused: AllocError) -> NoMemory {
        NoMemory
    }
}

/// A finite set of points with a limit on their number, which answers questions about its convex hull. Each of its
/// points has a multiplicity from 1 to [`MULTIPLICITY_LIMIT`]. The limit, the count and all questions are about
/// different points.
///
/// Contracts see the points with their multiplicities, the limit, and whether the set's data is sound: each
/// implementation defines what that means. Each call replies as the relation of allowed replies requires, changes the
/// points by the effect of its reply, and leaves the set sound.
pub trait HullSet {
    ghost held: { Self → Held };

    ghost bound: { Self → ℕ };

    ghost sound: { Self → Type 0 };

    /// Returns the greatest number of different points that the set accepts.
    fn limit(&self) -> u32
        ensures value { result ≡ bound self.now }
        ensures low { 1 ≤ result }
        ensures high { result ≤ POINT_LIMIT }
        ensures sound { sound self.now };

    /// Returns the number of different points.
    fn count(&self) -> u32
        ensures reply { Answers Rules.Counted (held self.now) (bound self.now) Call.Count (Reply.PointCount result) }
        ensures room { result ≤ bound self.now }
        ensures in_order { IsPointSet (held self.now).points };

    /// Returns the multiplicity of `p`: 0 if it is not in the set.
    fn multiplicity(&self, p: Point) -> u32
        ensures multiplicities { result ≡ (held self.now).multiplicities p }
        ensures few { result ≤ MULTIPLICITY_LIMIT }
        ensures live { Contains (held self.now).points p ↔ (1 ≤ result) };

    /// Adds 1 to the multiplicity of `p`. Returns `NoMemory` only for a new point below the limit, and then the set is
    /// unchanged. Does not allocate for a point that is in the set.
    fn add(&mut self, p: Point) -> AddReply
        ensures reply { Answers Rules.Counted (held self.old) (bound self.old) (Call.Add p) (reply_to_add result) }
        ensures effect { held self.new ≡ after (held self.old) (Call.Add p) (reply_to_add result) }
        ensures same_limit { bound self.new ≡ bound self.old }
        ensures sound { sound self.new };

    /// Takes 1 from the multiplicity of `p`; a point of multiplicity 1 leaves the set. Does not allocate.
    fn remove(&mut self, p: Point) -> RemoveReply
        ensures reply { Answers Rules.Counted (held self.old) (bound self.old) (Call.Remove p)
            (reply_to_remove result) }
        ensures effect { held self.new ≡ after (held self.old) (Call.Remove p) (reply_to_remove result) }
        ensures same_limit { bound self.new ≡ bound self.old }
        ensures sound { sound self.new };

    /// Returns the first, by x and then y, of the points with the greatest product with `d`, or `None` if the set is
    /// empty.
    fn extreme(&self, d: Direction) -> Option<Point>
        ensures { Answers Rules.Counted (held self.now) (bound self.now) (Call.Extreme d) (reply_to_extreme result) };

    /// Returns the place of `q`.
    fn place(&self, q: Point) -> Place
        ensures { Answers Rules.Counted (held self.now) (bound self.now) (Call.Place q) (Reply.Lies result) };

    /// Returns the left and the right tangent point seen from `q`, or `None` if the set is empty or covers `q`.
    fn tangents(&self, q: Point) -> Option<(Point, Point)>
        ensures { Answers Rules.Counted (held self.now) (bound self.now) (Call.Tangents q) (reply_to_tangents result) };

    /// Returns the vertices, counterclockwise from the first in the order "before". Fails with `NoMemory` only if the
    /// set is not empty.
    fn vertices(&self) -> Result<Vec<Point, Heap>, NoMemory>
        ensures reply { Answers Rules.Counted (held self.now) (bound self.now) Call.Vertices
            (reply_to_vertices result) }
        ensures few { IfOk result (λ v. vec_len v ≤ bound self.now) };

    /// Returns the doubled area of the hull.
    fn area2(&self) -> u128
        ensures { Answers Rules.Counted (held self.now) (bound self.now) Call.Area (Reply.DoubledArea result) };
}
