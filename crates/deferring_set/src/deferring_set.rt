ghost use Rattle.std.specs.Prelude.{◌≡◌, ◌↔◌, ◌<◌, ◌≤◌, [], IsTrue, length};
ghost use Rattle.std.specs.List.{Contains};
ghost use Rattle.lattice.specs.Plane.{Pair};
ghost use Rattle.deferring_set.specs.Removals.{held_in, limit_of};
ghost use Rattle.hull_set.specs.Replies.{Answers, after, reply_to_add, reply_to_remove};

use super::positions::index_of;
use super::removed_point::RemovedPoint;
use arrayvec::ArrayVec;
use hull_set::{AddReply, Call, HullSet, RemoveReply, Reply, Rules, apply};
use lattice::Point;
use std::marker::Model;

/// How many removed points are remembered.
const DEFERRED_LIMIT: usize = 64;

/// A set of points that removes points late: before the next question, or when [`DEFERRED_LIMIT`] points wait for it. A point that is added again
/// before that has never left the set. Contracts see the contents without the points that wait.
///
/// To wait costs a second search, so removals are deferred only after a point left that was the last to be added, or was added that was the last to
/// leave, and only until some are carried out.
#[derive(Drop)]
pub struct DeferringSet<S: HullSet + Drop> {
    set: S,
    removed: ArrayVec<RemovedPoint, DEFERRED_LIMIT>,
    last_added: Option<Point>,
    last_to_leave: Option<Point>,
    defers: bool,
}

impl<S: HullSet + Drop> Model for DeferringSet<S> {
    ghost use Rattle.deferring_set.specs.Removals.{AreDeferred, Deferring};

    ghost Value = { Deferring S };

    ghost view = { λ s. record { set = s.set; removed = s.removed.items } };

    ghost invariant = { λ s. AreDeferred s.removed.items (S.held s.set) };
}

impl<S: HullSet + Drop> DeferringSet<S> {
    /// Makes a set of this one.
    pub fn new(set: S) -> DeferringSet<S>
        ensures held { held_in S.HullSet result ≡ S.held set }
        ensures limit { limit_of S.HullSet result ≡ S.bound set }
    {
        // (for the prover: what `count` promises is that the points are in order)
        let _count = set.count();
        DeferringSet {
            set,
            removed: ArrayVec::new(),
            last_added: None,
            last_to_leave: None,
            defers: false,
        }
    }

    /// Returns the greatest number of different points that the set accepts.
    pub fn limit(&self) -> u32
        ensures { result ≡ limit_of S.HullSet self.now }
    {
        self.set.limit()
    }

    /// Returns the number of different points.
    pub fn count(&self) -> u32
        ensures { result ≡ length (held_in S.HullSet self.now).points }
    {
        self.set.count() - self.removed.len() as u32
    }

    /// Returns the multiplicity of `p`: 0 if it is not in the set.
    pub fn multiplicity(&self, p: Point) -> u32
        ensures multiplicities { result ≡ (held_in S.HullSet self.now).multiplicities p }
        ensures live { Contains (held_in S.HullSet self.now).points p ↔ (1 ≤ result) }
    {
        match index_of(self.removed.as_slice(), p) {
            Some(_) => 0,
            None => self.set.multiplicity(p),
        }
    }

    /// Removes the points that wait for it.
    fn carry_out(&mut self)
        ensures held { held_in S.HullSet self.new ≡ held_in S.HullSet self.old }
        ensures same_limit { limit_of S.HullSet self.new ≡ limit_of S.HullSet self.old }
        ensures none { self.new.removed ≡ [] }
    {
        while let Some(removed) = self.removed.pop() {
            self.set.remove(removed.point);
            self.last_to_leave = None;
            self.defers = false;
        }
    }

    /// Removes the points that wait for it if the set has as many points as its limit.
    fn carry_out_at_limit(&mut self)
        ensures held { held_in S.HullSet self.new ≡ held_in S.HullSet self.old }
        ensures same_limit { limit_of S.HullSet self.new ≡ limit_of S.HullSet self.old }
        ensures space { length (S.held self.new.set).points ≡ S.bound self.new.set → self.new.removed ≡ [] }
        ensures fewer { (q : Pair) → ¬ Contains self.old.removed q → ¬ Contains self.new.removed q }
    {
        if !self.removed.is_empty() && self.set.count() == self.set.limit() {
            self.carry_out();
        }
    }

    /// Removes the points that wait for it if no more can.
    fn carry_out_when_full(&mut self)
        ensures held { held_in S.HullSet self.new ≡ held_in S.HullSet self.old }
        ensures same_limit { limit_of S.HullSet self.new ≡ limit_of S.HullSet self.old }
        ensures room { length self.new.removed < DEFERRED_LIMIT }
    {
        if self.removed.is_full() {
            self.carry_out();
        }
    }

    /// Adds 1 to the multiplicity of `p`, as [`HullSet::add`].
    pub fn add(&mut self, p: Point) -> AddReply
        ensures reply { Answers Rules.Counted (held_in S.HullSet self.old) (limit_of S.HullSet self.old) (Call.Add p) (reply_to_add result) }
        ensures effect { held_in S.HullSet self.new ≡ after (held_in S.HullSet self.old) (Call.Add p) (reply_to_add result) }
        ensures same_limit { limit_of S.HullSet self.new ≡ limit_of S.HullSet self.old }
    {
        match index_of(self.removed.as_slice(), p) {
            Some(i) => {
                // (for the prover: what `count` promises is that there are at most as many points as the limit)
                let _count = self.set.count();
                self.removed.remove(i);
                AddReply::Added
            }
            None => {
                self.carry_out_at_limit();
                self.defers |= self.last_to_leave == Some(p);
                self.last_added = Some(p);
                self.set.add(p)
            }
        }
    }

    /// Whether the removal of `p` is to be carried out later.
    fn is_deferrable(&self, p: Point) -> bool
        ensures live { IsTrue result → Contains (S.held self.now.set).points p }
        ensures once { IsTrue result → (S.held self.now.set).multiplicities p ≡ 1 }
    {
        self.defers && self.set.multiplicity(p) == 1
    }

    /// Takes 1 from the multiplicity of `p`, as [`HullSet::remove`].
    pub fn remove(&mut self, p: Point) -> RemoveReply
        ensures reply { Answers Rules.Counted (held_in S.HullSet self.old) (limit_of S.HullSet self.old) (Call.Remove p) (reply_to_remove result) }
        ensures effect { held_in S.HullSet self.new ≡ after (held_in S.HullSet self.old) (Call.Remove p) (reply_to_remove result) }
        ensures same_limit { limit_of S.HullSet self.new ≡ limit_of S.HullSet self.old }
    {
        self.carry_out_when_full();
        self.defers |= self.last_added == Some(p);
        match index_of(self.removed.as_slice(), p) {
            Some(_) => RemoveReply::Absent,
            None => {
                if self.is_deferrable(p) {
                    self.removed.push(RemovedPoint { point: p });
                    RemoveReply::Removed
                } else {
                    self.last_to_leave = Some(p);
                    self.set.remove(p)
                }
            }
        }
    }

    /// Applies the call and returns its reply. The set is changed by the effect of that reply.
    pub fn apply(&mut self, call: &Call) -> Reply
        ensures allowed { Answers Rules.Counted (held_in S.HullSet self.old) (limit_of S.HullSet self.old) call.now result }
        ensures effect { held_in S.HullSet self.new ≡ after (held_in S.HullSet self.old) call.now result }
        ensures same_limit { limit_of S.HullSet self.new ≡ limit_of S.HullSet self.old }
    {
        match *call {
            Call::Add(p) => Reply::from(self.add(p)),
            Call::Remove(p) => Reply::from(self.remove(p)),
            Call::Count => Reply::PointCount(self.count()),
            _ => self.ask(call),
        }
    }

    /// Applies the call after the removals that wait.
    fn ask(&mut self, call: &Call) -> Reply
        ensures allowed { Answers Rules.Counted (held_in S.HullSet self.old) (limit_of S.HullSet self.old) call.now result }
        ensures effect { held_in S.HullSet self.new ≡ after (held_in S.HullSet self.old) call.now result }
        ensures same_limit { limit_of S.HullSet self.new ≡ limit_of S.HullSet self.old }
    {
        self.carry_out();
        apply(&mut self.set, call)
    }

    /// Returns the set, without the removed points.
    pub fn into_set(self) -> S
        ensures held { S.held result ≡ held_in S.HullSet self }
        ensures limit { S.bound result ≡ limit_of S.HullSet self }
    {
        let mut all = self;
        all.carry_out();
        let DeferringSet {
            set,
            removed: _,
            last_added: _,
            last_to_leave: _,
            defers: _,
        } = all;
        set
    }
}
