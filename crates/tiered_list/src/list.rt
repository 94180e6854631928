//! The list.
ghost use Rattle.std.specs.Prelude.{◌≡◌, ◌+◌, ◌<◌, ◌≤◌, ◌++◌, ◌==◌, [], OnOk, length, take, drop, slice_index_or};
ghost use Rattle.std.specs.List.{insert, remove};

use super::BLOCK;
use super::blocks::{Block, add_blocks, close_hole, dig_hole, fill_hole, open_hole};
use heap::Heap;
use lattice::Point;
use std::alloc::AllocError;
use std::marker::Model;

/// A list of points in blocks. Contracts see its points and its capacity.
#[derive(Drop)]
pub struct TieredList {
    blocks: Vec<Block, Heap>,
    len: usize,
}

impl Model for TieredList {
    ghost use Rattle.std.specs.Prelude.{◌*◌, length};
    ghost use Rattle.tiered_list.specs.Blocks.{TieredValue, IsTiered, points_of};
    ghost use Rattle.tiered_list.specs.declared.TheConstants.{BLOCK};

    ghost Value = { TieredValue };

    ghost view = { λ t. record { items = points_of t.blocks.items; space = BLOCK * length t.blocks.items } };

    ghost invariant = { λ t. IsTiered t.len t.blocks.items };
}

impl TieredList {
    /// Returns a list of no points and no capacity. Does not allocate.
    pub fn new(alloc: Heap) -> TieredList
        ensures items { result.items ≡ [] }
    {
        TieredList {
            blocks: Vec::new(alloc),
            len: 0,
        }
    }

    /// Returns the number of points.
    pub fn len(&self) -> usize
        ensures { result ≡ length self.now.items }
    {
        self.len
    }

    /// Whether it has no points.
    pub fn is_empty(&self) -> bool
        ensures { result ≡ (length self.now.items == 0) }
    {
        self.len() == 0
    }

    /// Returns the point at an index.
    pub fn get(&self, i: usize) -> Point
        requires { i < length self.now.items }
        ensures { result ≡ slice_index_or self.now.items i result }
    {
        self.blocks[i / BLOCK][i % BLOCK]
    }

    /// Raises the capacity to at least `count` points. If memory is refused, the capacity is at least what it was.
    pub fn reserve(&mut self, count: usize) -> Result<(), AllocError>
        ensures items { self.new.items ≡ self.old.items }
        ensures space { self.old.space ≤ self.new.space }
        ensures enough { OnOk result (count ≤ self.new.space) }
    {
        add_blocks(&mut self.blocks, count.div_ceil(BLOCK))
    }

    /// Inserts a point at an index; the points from there on move up by one index.
    pub(crate) fn insert(&mut self, i: usize, point: Point)
        requires within { i ≤ length self.old.items }
        requires space { length self.old.items < self.old.space }
        ensures items { self.new.items ≡ insert self.old.items i point }
        ensures space { self.new.space ≡ self.old.space }
    {
        open_hole(&mut self.blocks, i / BLOCK, self.len);
        self.len += 1;
        fill_hole(&mut self.blocks, i / BLOCK, i % BLOCK, point, self.len);
    }

    /// Removes the point at an index; the later points move down by one index.
    pub(crate) fn remove(&mut self, i: usize)
        requires within { i < length self.old.items }
        ensures items { self.new.items ≡ remove self.old.items i }
        ensures space { self.new.space ≡ self.old.space }
    {
        dig_hole(&mut self.blocks, i / BLOCK, i % BLOCK, self.len);
        close_hole(&mut self.blocks, i / BLOCK, self.len);
        self.len -= 1;
    }
}
