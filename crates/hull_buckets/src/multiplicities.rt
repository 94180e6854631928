//! The multiplicities of a bucket's points. In most buckets all are one: then none has to move when a point is added or removed.
ghost use Rattle.std.specs.Prelude.{◌≡◌, ◌<◌, ◌≤◌, ◌+◌, ◌-◌, ◌++◌, length, take, slice_set};
ghost use Rattle.std.specs.List.{insert, remove};
ghost use Rattle.hull_buckets.specs.declared.TheConstants.{BUCKET_SIZE};

use super::BUCKET_SIZE;
use super::row::{append, drain, put_in};
use std::marker::Model;

/// As many multiplicities as a bucket has capacity for; those of its points come first.
#[derive(Drop)]
pub(crate) struct Multiplicities {
    values: [u16; BUCKET_SIZE],
    // if so, all values are one
    all_one: bool,
}

impl Model for Multiplicities {
    ghost use Rattle.std.specs.Prelude.{◌≡◌, ℕ, List, true};
    ghost use Rattle.std.specs.List.{All};

    ghost Value = { List ℕ };

    ghost view = { λ m. m.values };

    ghost invariant = { λ m. m.all_one ≡ true → All (λ multiplicity. multiplicity ≡ 1) m.values };
}

impl Multiplicities {
    /// Returns multiplicities of which the first are these.
    pub(crate) fn new(first: &[u16]) -> Multiplicities
        requires few { length first.now ≤ BUCKET_SIZE }
        ensures first { take (length first.now) result ≡ first.now }
        ensures len { length result ≡ BUCKET_SIZE }
    {
        let mut ones = Multiplicities {
            values: [1; BUCKET_SIZE],
            all_one: true,
        };
        ones.append(0, first);
        ones
    }

    /// Returns the first `count`.
    pub(crate) fn first(&self, count: usize) -> &[u16]
        requires { count ≤ BUCKET_SIZE }
        ensures { result.now ≡ take count self.now }
    {
        &self.values[..count]
    }

    /// Inserts one at an index of the first `count`.
    pub(crate) fn insert(&mut self, count: usize, place: usize, multiplicity: u16)
        requires order { place ≤ count }
        requires space { count < BUCKET_SIZE }
        ensures first { take (count + 1) self.new ≡ insert (take count self.old) place multiplicity }
        ensures len { length self.new ≡ BUCKET_SIZE }
    {
        if self.all_one && multiplicity == 1 {
            return;
        }
        put_in(&mut self.values, count, place, multiplicity);
        self.all_one = false;
    }

    /// Removes the one at an index of the first `count`.
    pub(crate) fn remove(&mut self, count: usize, place: usize)
        requires order { place < count }
        requires within { count ≤ BUCKET_SIZE }
        ensures first { take (count - 1) self.new ≡ remove (take count self.old) place }
        ensures len { length self.new ≡ BUCKET_SIZE }
    {
        if !self.all_one {
            drain(&mut self.values, count, place);
        }
    }

    /// Appends some after the first `count`.
    pub(crate) fn append(&mut self, count: usize, more: &[u16])
        requires space { count + length more.now ≤ BUCKET_SIZE }
        ensures first { take (count + length more.now) self.new ≡ take count self.old ++ more.now }
        ensures len { length self.new ≡ BUCKET_SIZE }
    {
        if self.all_one && more.iter().all(|multiplicity| *multiplicity == 1) {
            return;
        }
        append(&mut self.values, count, more);
        self.all_one = false;
    }

    /// Overwrites the one at an index of the first `count`.
    pub(crate) fn set(&mut self, count: usize, place: usize, multiplicity: u16)
        requires order { place < count }
        requires within { count ≤ BUCKET_SIZE }
        ensures first { take count self.new ≡ slice_set (take count self.old) place multiplicity }
        ensures len { length self.new ≡ BUCKET_SIZE }
    {
        self.values[place] = multiplicity;
        if multiplicity != 1 {
            self.all_one = false;
        }
    }
}
