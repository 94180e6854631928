//! Replacing some points of a list by others.
ghost use Rattle.std.specs.Prelude.{◌≡◌, ◌+◌, ◌-◌, ◌<◌, ◌≤◌, ◌++◌, OnOk, OnErr, length, take, drop, vec_capacity};

use super::BLOCK;
use super::list::TieredList;
use heap::Heap;
use lattice::Point;
use std::alloc::AllocError;

impl TieredList {
    /// Removes the points from index `from` up to index `to`, exclusive.
    fn drain(&mut self, from: usize, to: usize)
        requires order { from ≤ to }
        requires within { to ≤ length self.old.items }
        ensures items { self.new.items ≡ take from self.old.items ++ drop to self.old.items }
        ensures space { self.new.space ≡ self.old.space }
    {
        for _ in from..to {
            self.remove(from);
        }
    }

    /// Inserts points from an index on.
    fn put_in(&mut self, at: usize, points: &[Point])
        requires within { at ≤ length self.old.items }
        requires space { length self.old.items + length points.now ≤ self.old.space }
        ensures items { self.new.items ≡ (take at self.old.items ++ points.now) ++ drop at self.old.items }
        ensures space { self.new.space ≡ self.old.space }
    {
        let behind = self.len() - at;
        for i in 0..points.len() {
            let place = self.len() - behind;
            self.insert(place, points[i]);
        }
    }

    /// Appends copies of the points from an index on to a list that has the capacity for them.
    fn copy_rest(&self, from: usize, rest: &mut Vec<Point, Heap>)
        requires within { from ≤ length self.now.items }
        requires space { length self.now.items ≤ vec_capacity rest.old + from }
        ensures rest { rest.new.items ≡ drop from self.now.items }
        ensures capacity { vec_capacity rest.new ≡ vec_capacity rest.old }
    {
        rest.clear();
        for i in from..self.len() {
            rest.push_reserved(self.get(i));
        }
    }

    /// Appends copies of its points to another list. If memory is refused, that list is unchanged.
    pub fn copy_to(&self, out: &mut Vec<Point, Heap>) -> Result<(), AllocError>
        ensures items { OnOk result (out.new.items ≡ out.old.items ++ self.now.items) }
        ensures refused { OnErr result ((out.new.items ≡ out.old.items) × (0 < length self.now.items)) }
    {
        out.reserve(self.len())?;
        for i in 0..self.len() {
            out.push_reserved(self.get(i));
        }
        Ok(())
    }

    /// Whether exchanging these points one by one, each of which moves one point of each later block, takes longer than
    /// writing the rest of the list again.
    fn is_more_than_the_rest(&self, exchanged: usize, from: usize) -> bool {
        exchanged.saturating_mul(self.len() / BLOCK + 16) > self.len().saturating_sub(from)
    }

    /// Returns the number of last points that a slice has in common with the points from index `from` up to `to`.
    fn common_end(&self, from: usize, to: usize, points: &[Point]) -> usize
        requires order { from ≤ to }
        requires within { to ≤ length self.now.items }
        ensures inside { result ≤ to - from }
        ensures few { result ≤ length points.now }
        ensures common { drop (length points.now - result) points.now ++ drop to self.now.items
            ≡ drop (to - result) self.now.items }
    {
        let most = points.len().min(to - from);
        let mut count = 0;
        while count < most && points[points.len() - count - 1] == self.get(to - count - 1) {
            count += 1;
        }
        count
    }

    /// Replaces the points from index `from` up to `to`, exclusive, by these points. Does not allocate: the list has
    /// the capacity for them, and `spare` for the points from `to` on. The contents of `spare` are lost. Points that both
    /// have at their ends are not moved.
    pub fn splice(&mut self, from: usize, to: usize, points: &[Point], spare: &mut Vec<Point, Heap>)
        requires order { from ≤ to }
        requires within { to ≤ length self.old.items }
        requires space { length self.old.items + length points.now ≤ self.old.space + (to - from) }
        requires spare_space { length self.old.items ≤ vec_capacity spare.old + to }
        ensures items { self.new.items ≡ (take from self.old.items ++ points.now) ++ drop to self.old.items }
        ensures space { self.new.space ≡ self.old.space }
        ensures spare_space { vec_capacity spare.new ≡ vec_capacity spare.old }
    {
        let common = self.common_end(from, to, points);
        let end = to - common;
        let fresh = &points[..points.len() - common];
        if self.is_more_than_the_rest((end - from).saturating_add(fresh.len()), from) {
            self.copy_rest(to, spare);
            self.truncate(from);
            self.put_in(from, points);
            let len = self.len();
            self.put_in(len, spare);
        } else {
            self.drain(from, end);
            self.put_in(from, fresh);
        }
    }

    /// Keeps only the first `len` points.
    fn truncate(&mut self, len: usize)
        requires within { len ≤ length self.old.items }
        ensures items { self.new.items ≡ take len self.old.items }
        ensures space { self.new.space ≡ self.old.space }
    {
        while self.len() > len {
            let last = self.len() - 1;
            self.remove(last);
        }
    }
}
