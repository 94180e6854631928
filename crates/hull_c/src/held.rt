//! The points of a set with their multiplicities, out of it and into it.
ghost use Rattle.std.specs.Prelude.{◌≡◌, ◌↔◌, ◌⊎◌, ◌≤◌, ◌++◌, IsTrue, IfOk, IfErr, [], length, drop};
ghost use Rattle.std.specs.List.{All};
ghost use Rattle.lattice.specs.Covers.{IsPointSet};
ghost use Rattle.lattice.specs.Plane.{IsBefore};
ghost use Rattle.leaf_trees.specs.Entries.{AreEntries, points_listed};
ghost use Rattle.hull_reply.specs.Encoded.{IsBare};
ghost use Rattle.hull_c.specs.Held.{AreLoaded, HoldsListed, IsEntry, IsListed, IsWritten};

use super::hull::Hull;
use bucket_tree::BucketTree;
use heap::Heap;
use hull_reply::{Code, HullReply, point_of};
use hull_set::MULTIPLICITY_LIMIT;
use lattice::Point;
use leaf_trees::Listed;
use std::marker::Model;

/// A point of a set, and its multiplicity.
#[repr(C)]
#[derive(Clone, Copy)]
pub struct HullHeld {
    /// The first coordinate.
    pub x: i64,
    /// The second coordinate.
    pub y: i64,
    /// Its multiplicity.
    pub multiplicity: u32,
}

impl Model for HullHeld {
    ghost use Rattle.std.specs.Prelude.{ℕ};
    ghost use Rattle.lattice.specs.Plane.{Pair};

    ghost Value = { Pair × ℕ };

    ghost view = { λ h. (record { x = h.x; y = h.y }, h.multiplicity) };

    ghost inverse = { λ e. record { x = e.0.x; y = e.0.y; multiplicity = e.1 } };
}

impl HullHeld {
    /// Returns the entry, with its coordinates open.
    fn of(entry: (Point, u32)) -> HullHeld
        ensures { result ≡ entry }
    {
        HullHeld {
            x: entry.0.x(),
            y: entry.0.y(),
            multiplicity: entry.1,
        }
    }
}

/// Writes the entries to the front of the array.
fn write_entries(entries: &[(Point, u32)], out: &mut [HullHeld])
    requires { length entries.now ≤ length out.now }
    ensures { out.new ≡ entries.now ++ drop (length entries.now) out.old }
{
    for i in 0..entries.len() {
        out[i] = HullHeld::of(entries[i]);
    }
}

/// Writes the points from a start on, in order, until the array is full, and returns their number.
fn list_from(hull: &Hull, start: Point, out: &mut [HullHeld]) -> HullReply
    ensures { IsWritten hull.now start out.old out.new result }
{
    let Ok(entries) = hull.tree().entries_from(start, out.len()) else {
        return HullReply::bare(Code::NoMemory);
    };
    write_entries(&entries, out);
    HullReply::numbered(Code::Number, entries.len() as u64)
}

/// Does the same from the start that two numbers are.
pub(crate) fn list(hull: &mut Hull, x: i64, y: i64, out: &mut [HullHeld]) -> HullReply
    ensures { IsListed hull.old hull.new x y out.old out.new result }
{
    match point_of(x, y) {
        Ok(start) => list_from(hull, start, out),
        Err(fault) => HullReply::bare(fault),
    }
}

/// Returns the entry of these numbers. Fails with [`Code::OutOfRange`] if one of them is out of range.
fn entry_of(asked: HullHeld) -> Result<(Point, u32), Code>
    ensures entry { IfOk result (λ entry. (entry ≡ asked) × IsEntry asked) }
    ensures fault { IfErr result (λ fault. ¬ IsEntry asked × (fault ≡ Code.OutOfRange)) }
{
    let point = point_of(asked.x, asked.y)?;
    if asked.multiplicity == 0 || asked.multiplicity > MULTIPLICITY_LIMIT {
        return Err(Code::OutOfRange);
    }
    Ok((point, asked.multiplicity))
}

/// Whether all numbers of an array are in range.
fn are_entries(array: &[HullHeld]) -> bool
    ensures { IsTrue result ↔ All IsEntry array.now }
{
    array.iter().all(|asked| entry_of(*asked).is_ok())
}

/// Whether a point is before another.
fn stands_before(first: HullHeld, second: HullHeld) -> bool
    ensures { IsTrue result ↔ IsBefore first.0 second.0 }
{
    first.x < second.x || (first.x == second.x && first.y < second.y)
}

/// Whether each point of an array is before the next one.
fn are_in_order(array: &[HullHeld]) -> bool
    ensures { IsTrue result ↔ IsPointSet (points_listed array.now) }
{
    for i in 1..array.len() {
        if !stands_before(array[i - 1], array[i]) {
            return false;
        }
    }
    true
}

/// Returns the entries of an array. Memory may be refused.
fn entries_of(alloc: Heap, array: &[HullHeld]) -> Result<Vec<(Point, u32), Heap>, Code>
    requires { All IsEntry array.now }
    ensures all { IfOk result (λ entries. entries.items ≡ array.now) }
    ensures fault { IfErr result (λ fault. fault ≡ Code.NoMemory) }
{
    let Ok(mut entries) = Vec::with_capacity(alloc, array.len()) else {
        return Err(Code::NoMemory);
    };
    for i in 0..array.len() {
        let Ok(entry) = entry_of(array[i]) else {
            unreachable!()
        };
        entries.push_reserved(entry);
    }
    Ok(entries)
}

/// Removes all points.
fn load_nothing(hull: &mut Hull, alloc: Heap) -> HullReply
    ensures { HoldsListed [] hull.old hull.new result }
{
    *hull = Hull::new(BucketTree::new(alloc, hull.limit()));
    HullReply::numbered(Code::Number, 0)
}

/// Replaces all points by those of an array that fits. Memory may be refused.
fn load_fitting(hull: &mut Hull, alloc: Heap, array: &[HullHeld]) -> HullReply
    requires read { All IsEntry array.now }
    requires entries { AreEntries array.now }
    requires few { length array.now ≤ hull.old.limit }
    ensures { HoldsListed array.now hull.old hull.new result
        ⊎ ((hull.new ≡ hull.old) × IsBare Code.NoMemory result) }
{
    let Ok(entries) = entries_of(alloc, array) else {
        return HullReply::bare(Code::NoMemory);
    };
    let Ok(loaded) = BucketTree::from_entries(alloc, hull.limit(), &entries) else {
        return HullReply::bare(Code::NoMemory);
    };
    *hull = Hull::new(loaded);
    HullReply::numbered(Code::Number, array.len() as u64)
}

/// Replaces all points by those of an array, each with its multiplicity there.
pub(crate) fn load(hull: &mut Hull, alloc: Heap, array: &[HullHeld]) -> HullReply
    ensures { AreLoaded array.now hull.old hull.new result }
{
    if array.is_empty() {
        return load_nothing(hull, alloc);
    }
    if !are_entries(array) {
        return HullReply::bare(Code::OutOfRange);
    }
    if !are_in_order(array) {
        return HullReply::bare(Code::OutOfOrder);
    }
    if array.len() > hull.limit() as usize {
        return HullReply::bare(Code::TooMany);
    }
    load_fitting(hull, alloc, array)
}
