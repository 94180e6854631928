//! The scratch chain: the new front of a list, before it is written.
ghost use Rattle.std.specs.Prelude.{◌≡◌, ◌+◌, ◌-◌, ◌<◌, ◌≤◌, ◌++◌, ◌∷◌, [], ℕ, List, OnOk, Option, None, length, take, drop, true};
ghost use Rattle.std.specs.Prelude.{vec_len, vec_capacity};
ghost use Rattle.lattice.specs.Plane.{Pair};
ghost use Rattle.hull_plain.specs.Drafts.{AreLastTwo, ScratchChainHasSpace, IsAsRoomy, drafted};

use heap::Heap;
use lattice::Point;
use std::alloc::AllocError;
use tiered_list::TieredList;

/// The first points of a list, as many as are kept, and new points after them. It also has storage for the list's rest
/// while that is written again.
#[derive(Drop)]
pub(crate) struct ScratchChain {
    kept: usize,
    fresh: Vec<Point, Heap>,
    rest: Vec<Point, Heap>,
}

impl ScratchChain {
    /// Returns an empty scratch chain without storage. Does not allocate.
    pub(crate) fn new(alloc: Heap) -> ScratchChain {
        ScratchChain {
            kept: 0,
            fresh: Vec::new(alloc),
            rest: Vec::new(alloc),
        }
    }

    /// Returns its allocator.
    pub(crate) fn allocator(&self) -> Heap {
        *self.fresh.allocator()
    }

    /// Reserves storage for lists of `count` points.
    pub(crate) fn reserve(&mut self, count: usize) -> Result<(), AllocError>
        ensures space { OnOk result (ScratchChainHasSpace self.new count) }
        ensures kept { (n : ℕ) → ScratchChainHasSpace self.old n → ScratchChainHasSpace self.new n }
    {
        self.fresh.clear();
        self.rest.clear();
        self.fresh.reserve(count)?;
        self.rest.reserve(count)
    }

    /// Begins with the first points of a list.
    pub(crate) fn start(&mut self, kept: usize)
        ensures kept { self.new.kept ≡ kept }
        ensures none { self.new.fresh.items ≡ [] }
        ensures space { IsAsRoomy self.old self.new }
    {
        self.kept = kept;
        self.fresh.clear();
    }

    /// Returns the number of its new points.
    pub(crate) fn fresh_len(&self) -> usize
        ensures { result ≡ length self.now.fresh.items }
    {
        self.fresh.len()
    }

    /// Whether its last point may be removed. If `fixed` is given, the points of the list and the first `fixed` new
    /// ones have to stay.
    pub(crate) fn may_lose(&self, fixed: Option<usize>) -> bool
        ensures { fixed ≡ None → result ≡ true }
    {
        match fixed {
            Some(count) => self.fresh.len() > count,
            None => true,
        }
    }

    /// Returns its last two points, as the front of that list.
    pub(crate) fn last_two(&self, list: &TieredList) -> Option<(Point, Point)>
        requires { self.now.kept ≤ length list.now.items }
        ensures { AreLastTwo (drafted list.now.items self.now) result }
    {
        match self.fresh.as_slice() {
            [.., a, b] => Some((*a, *b)),
            [b] if self.kept > 0 => Some((list.get(self.kept - 1), *b)),
            [] if self.kept > 1 => Some((list.get(self.kept - 2), list.get(self.kept - 1))),
            _ => None,
        }
    }

    /// Removes its last point.
    pub(crate) fn pop(&mut self)
        ensures less { (L : List Pair) → self.old.kept ≤ length L
            → drafted L self.new ≡ take (length (drafted L self.old) - 1) (drafted L self.old) }
        ensures within { self.new.kept ≤ self.old.kept }
        ensures space { IsAsRoomy self.old self.new }
    {
        if self.fresh.pop().is_none() {
            self.kept = self.kept.saturating_sub(1);
        }
    }

    /// Appends a point.
    pub(crate) fn push(&mut self, c: Point)
        requires { vec_len self.old.fresh < vec_capacity self.old.fresh }
        ensures kept { self.new.kept ≡ self.old.kept }
        ensures more { self.new.fresh.items ≡ self.old.fresh.items ++ c ∷ [] }
        ensures space { IsAsRoomy self.old self.new }
    {
        self.fresh.push_reserved(c);
    }

    /// Replaces the front of a list, up to index `to`, by this scratch chain; the list's points from `to` on follow it.
    pub(crate) fn write(&mut self, list: &mut TieredList, to: usize)
        requires order { self.old.kept ≤ to }
        requires within { to ≤ length list.old.items }
        requires space { length (drafted list.old.items self.old) + length (drop to list.old.items) ≤ list.old.space }
        requires rest_space { length list.old.items ≤ vec_capacity self.old.rest + to }
        ensures items { list.new.items ≡ drafted list.old.items self.old ++ drop to list.old.items }
        ensures list_space { list.new.space ≡ list.old.space }
        ensures space { IsAsRoomy self.old self.new }
    {
        list.splice(self.kept, to, &self.fresh, &mut self.rest);
    }
}
