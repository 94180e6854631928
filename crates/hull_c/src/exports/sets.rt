//! Exports that make and end a set, fill it, and list its points.
ghost use Rattle.std.specs.Prelude.{◌≡◌};
ghost use Rattle.std.specs.Borrow.{full_share, sem};
ghost use Rattle.std.specs.Ptr.{lies_at, room_at};
ghost use Rattle.hull_c.specs.contracts.hull.Hull.{the_row};
ghost use Rattle.hull_reply.specs.Left.{leaves};
ghost use Rattle.hull_reply.specs.Storages.{storage_alignment, storage_size};
ghost use Rattle.hull_c.specs.Bridges.{AreBridges};
ghost use Rattle.hull_c.specs.Held.{AreLoaded, IsListed};
ghost use Rattle.hull_c.specs.Left.{leaves_storage};
ghost use Rattle.hull_c.specs.Loads.{IsLoaded};
ghost use Rattle.hull_c.specs.NearestHeld.{IsNearestHeld};
ghost use Rattle.hull_c.specs.Calls.{IsCleared, IsFresh, IsLimitOf};

use crate::bridges::HullBridge;
use crate::held::HullHeld;
use crate::hull::Hull;
use crate::{bridges, calls, held, load, nearest_held};
use heap::Heap;
use hull_reply::{HullPoint, HullReply};

/// Returns the size of the storage of a set, in bytes.
#[unsafe(no_mangle)]
pub extern "C" fn hull_size() -> usize
    ensures { result ≡ storage_size the_row }
{
    size_of::<Hull>()
}

/// Returns the alignment of the storage of a set, in bytes.
#[unsafe(no_mangle)]
pub extern "C" fn hull_alignment() -> usize
    ensures { result ≡ storage_alignment the_row }
{
    align_of::<Hull>()
}

/// Makes an empty set in its storage: one that takes `limit` points, or the greatest number of points if `limit` is 0
/// or above that. It owns no memory as long as it is empty.
///
/// # Safety
///
/// `storage` has [`hull_size`] bytes at a multiple of [`hull_alignment`], which nothing else uses.
#[unsafe(no_mangle)]
pub unsafe extern "C" fn hull_make(alloc: Heap, limit: u32, storage: *mut u8)
    requires* { sem 𝓛 (room_at the_row storage) }
    ensures* { sem 𝓛 (leaves the_row storage (IsFresh limit)) }
{
    let at = storage as *mut Hull;
    let hull = calls::fresh(alloc, limit);
    unsafe { at.write(hull) };
}

/// Ends a set: frees all its memory, and its storage is the caller's again. Returns 0.
///
/// # Safety
///
/// `at` points to a set, and no other call on it is under way.
#[unsafe(no_mangle)]
pub unsafe extern "C" fn hull_end(at: *mut u8) -> u32
    ghost t: { the_row.Denot }
    requires* { sem 𝓛 (lies_at the_row full_share at t) }
    ensures* { sem 𝓛 (leaves_storage the_row at (result ≡ 0)) }
{
    let hull = at as *mut Hull;
    calls::finish(unsafe { hull.read() })
}

/// Returns how many points the set takes.
///
/// # Safety
///
/// `at` points to a set, and no other call on it is under way.
#[unsafe(no_mangle)]
pub unsafe extern "C" fn hull_limit(at: *mut u8) -> HullReply
    ghost t: { the_row.Denot }
    requires* { sem 𝓛 (lies_at the_row full_share at t) }
    ensures* { sem 𝓛 (leaves the_row at (λ new. IsLimitOf t new result)) }
{
    let hull = at as *mut Hull;
    calls::limit(unsafe { &mut *hull })
}

/// Removes all points from the set.
///
/// # Safety
///
/// `at` points to a set, and no other call on it is under way.
#[unsafe(no_mangle)]
pub unsafe extern "C" fn hull_clear(at: *mut u8, alloc: Heap) -> HullReply
    ghost t: { the_row.Denot }
    requires* { sem 𝓛 (lies_at the_row full_share at t) }
    ensures* { sem 𝓛 (leaves the_row at (λ new. IsCleared t new result)) }
{
    let hull = at as *mut Hull;
    calls::clear(unsafe { &mut *hull }, alloc)
}

/// Replaces all points of the set by those of the array, each as often as it is there; or leaves the set unchanged.
///
/// # Safety
///
/// `at` points to a set, and no other call on it is under way.
#[unsafe(no_mangle)]
pub unsafe extern "C" fn hull_load(at: *mut u8, alloc: Heap, points: &[HullPoint]) -> HullReply
    ghost t: { the_row.Denot }
    requires* { sem 𝓛 (lies_at the_row full_share at t) }
    ensures* { sem 𝓛 (leaves the_row at (λ new. IsLoaded points.now t new result)) }
{
    let hull = at as *mut Hull;
    load::load(unsafe { &mut *hull }, alloc, points)
}

/// Replaces all points of the set by those of the array, which are in order by x and then y, each with its
/// multiplicity; or leaves the set unchanged.
///
/// # Safety
///
/// `at` points to a set, and no other call on it is under way.
#[unsafe(no_mangle)]
pub unsafe extern "C" fn hull_load_held(at: *mut u8, alloc: Heap, held: &[HullHeld]) -> HullReply
    ghost t: { the_row.Denot }
    requires* { sem 𝓛 (lies_at the_row full_share at t) }
    ensures* { sem 𝓛 (leaves the_row at (λ new. AreLoaded held.now t new result)) }
{
    let hull = at as *mut Hull;
    held::load(unsafe { &mut *hull }, alloc, held)
}

/// Writes the points from (`x`, `y`) on by x and then y, each with its multiplicity, to the front of the array, until
/// it is full or there are no more.
///
/// # Safety
///
/// `at` points to a set, and no other call on it is under way.
#[unsafe(no_mangle)]
pub unsafe extern "C" fn hull_held_from(
    at: *mut u8,
    x: i64,
    y: i64,
    out: &mut [HullHeld],
) -> HullReply
    ghost t: { the_row.Denot }
    requires* { sem 𝓛 (lies_at the_row full_share at t) }
    ensures* { sem 𝓛 (leaves the_row at (λ new. IsListed t new x y out.old out.new result)) }
{
    let hull = at as *mut Hull;
    held::list(unsafe { &mut *hull }, x, y, out)
}

/// Finds the point of the set that is nearest to (`x`, `y`), of several the first by x and then y, and the square of its distance.
///
/// # Safety
///
/// `at` points to a set, and no other call on it is under way.
#[unsafe(no_mangle)]
pub unsafe extern "C" fn hull_nearest_held(at: *mut u8, x: i64, y: i64) -> HullReply
    ghost t: { the_row.Denot }
    requires* { sem 𝓛 (lies_at the_row full_share at t) }
    ensures* { sem 𝓛 (leaves the_row at (λ new. IsNearestHeld t new x y result)) }
{
    let hull = at as *mut Hull;
    nearest_held::find(unsafe { &mut *hull }, x, y)
}

/// Writes the bridges that the forks of a level of the tree store to the front of the array, from left to right; the
/// root is on level 0.
///
/// # Safety
///
/// `at` points to a set, and no other call on it is under way.
#[unsafe(no_mangle)]
pub unsafe extern "C" fn hull_bridges(at: *mut u8, level: u32, out: &mut [HullBridge]) -> HullReply
    ghost t: { the_row.Denot }
    requires* { sem 𝓛 (lies_at the_row full_share at t) }
    ensures* { sem 𝓛 (leaves the_row at (λ new. AreBridges t new level out.old out.new result)) }
{
    let hull = at as *mut Hull;
    bridges::bridges(unsafe { &mut *hull }, level, out)
}
