//! The blocks of a list: rings of points, all of them full up to the last that has any.
ghost use Rattle.std.specs.Prelude.{◌≡◌, ◌+◌, ◌-◌, ◌*◌, ◌/◌, ◌<◌, ◌≤◌, ℕ, OnOk, length};
ghost use Rattle.std.specs.List.{insert, remove};
ghost use Rattle.tiered_list.specs.Blocks.{IsFilled, IsFilledBut, points_of};

use super::{BLOCK, MOST_BLOCKS};
use heap::Heap;
use lattice::Point;
use std::alloc::AllocError;
use std::collections::VecDeque;

/// A ring of points.
pub(crate) type Block = VecDeque<Point, Heap>;

/// Makes the block at `at` one point short of its share of a list of one point more than `len`: one point of each block
/// from there on moves to the next block.
pub(crate) fn open_hole(blocks: &mut Vec<Block, Heap>, at: usize, len: usize)
    requires within { len < BLOCK * length blocks.old.items }
    requires at { at ≤ len / BLOCK }
    requires filled { IsFilled len blocks.old.items }
    ensures filled { IsFilledBut at (len + 1) blocks.new.items }
    ensures points { points_of blocks.new.items ≡ points_of blocks.old.items }
    ensures count { length blocks.new.items ≡ length blocks.old.items }
{
    let mut hole = len / BLOCK;
    while hole > at {
        let Some(point) = blocks[hole - 1].pop_back() else {
            unreachable!()
        };
        blocks[hole].push_front_reserved(point);
        hole -= 1;
    }
}

/// Adds a point to the block at `at`, which is one short of its share of a list of `len` points.
pub(crate) fn fill_hole(
    blocks: &mut Vec<Block, Heap>,
    at: usize,
    offset: usize,
    point: Point,
    len: usize,
)
    requires filled { IsFilledBut at len blocks.old.items }
    requires offset { at * BLOCK + offset < len }
    requires within { offset < BLOCK }
    ensures filled { IsFilled len blocks.new.items }
    ensures points { points_of blocks.new.items ≡ insert (points_of blocks.old.items) (at * BLOCK + offset) point }
    ensures count { length blocks.new.items ≡ length blocks.old.items }
{
    let Ok(()) = blocks[at].insert(offset, point) else {
        unreachable!()
    };
}

/// Removes a point from the block at `at`, which is then one short.
pub(crate) fn dig_hole(blocks: &mut Vec<Block, Heap>, at: usize, offset: usize, len: usize)
    requires filled { IsFilled len blocks.old.items }
    requires offset { at * BLOCK + offset < len }
    requires within { offset < BLOCK }
    ensures filled { IsFilledBut at len blocks.new.items }
    ensures points { points_of blocks.new.items ≡ remove (points_of blocks.old.items) (at * BLOCK + offset) }
    ensures count { length blocks.new.items ≡ length blocks.old.items }
{
    let Some(_gone) = blocks[at].remove(offset) else {
        unreachable!()
    };
}

/// Fills the block at `at`, which is one short of its share of a list of `len` points: one point of each later block
/// moves to the block before it, so that the blocks are those of a list of one point less.
pub(crate) fn close_hole(blocks: &mut Vec<Block, Heap>, at: usize, len: usize)
    requires some { 0 < len }
    requires at { at ≤ (len - 1) / BLOCK }
    requires filled { IsFilledBut at len blocks.old.items }
    ensures filled { IsFilled (len - 1) blocks.new.items }
    ensures points { points_of blocks.new.items ≡ points_of blocks.old.items }
    ensures count { length blocks.new.items ≡ length blocks.old.items }
{
    for hole in at..(len - 1) / BLOCK {
        let Some(point) = blocks[hole + 1].pop_front() else {
            unreachable!()
        };
        blocks[hole].push_back_reserved(point);
    }
}

/// Adds empty blocks until there are `count`. If memory is refused, or `count` is more than [`MOST_BLOCKS`], the
/// existing blocks stay, and some empty ones may have been added.
pub(crate) fn add_blocks(blocks: &mut Vec<Block, Heap>, count: usize) -> Result<(), AllocError>
    ensures filled { (n : ℕ) → IsFilled n blocks.old.items → IsFilled n blocks.new.items }
    ensures points { points_of blocks.new.items ≡ points_of blocks.old.items }
    ensures more { length blocks.old.items ≤ length blocks.new.items }
    ensures few { length blocks.old.items ≤ MOST_BLOCKS → length blocks.new.items ≤ MOST_BLOCKS }
    ensures enough { OnOk result (count ≤ length blocks.new.items) }
{
    if count > MOST_BLOCKS {
        return Err(AllocError);
    }
    while blocks.len() < count {
        let block = Block::with_capacity(*blocks.allocator(), BLOCK)?;
        blocks.push(block)?;
    }
    Ok(())
}
