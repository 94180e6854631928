//! Exports about hulls of points that are only added.
ghost use Rattle.std.specs.Prelude.{◌≡◌, []};
ghost use Rattle.std.specs.Borrow.{full_share, sem};
ghost use Rattle.std.specs.Ptr.{lies_at, room_at};
ghost use Rattle.hull_plain.specs.contracts.growing_hull.GrowingHull.{the_row as growing_row};
ghost use Rattle.hull_plain.specs.Growth.{IsHullOf};
ghost use Rattle.hull_c.specs.Growing.{AnswersGrowingRequest, AreGrowingVertices, IsGrowingCall};
ghost use Rattle.hull_reply.specs.Left.{leaves};
ghost use Rattle.hull_reply.specs.Storages.{storage_alignment, storage_size};
ghost use Rattle.hull_c.specs.Left.{leaves_storage};
ghost use Rattle.hull_c.specs.Requests.{AreServed};

use crate::requests::HullRequest;
use crate::{growing, requests};
use heap::Heap;
use hull_plain::GrowingHull;
use hull_reply::{HullPoint, HullReply};

/// Returns the size of the storage of a hull of points that are only added, in bytes.
#[unsafe(no_mangle)]
pub extern "C" fn hull_growing_size() -> usize
    ensures { result ≡ storage_size growing_row }
{
    size_of::<GrowingHull>()
}

/// Returns the alignment of the storage of a hull of points that are only added, in bytes.
#[unsafe(no_mangle)]
pub extern "C" fn hull_growing_alignment() -> usize
    ensures { result ≡ storage_alignment growing_row }
{
    align_of::<GrowingHull>()
}

/// Makes the hull of no points in its storage, to which points can only be added. It owns no memory as long as it is
/// empty.
///
/// # Safety
///
/// `storage` has [`hull_growing_size`] bytes at a multiple of [`hull_growing_alignment`], which nothing else uses.
#[unsafe(no_mangle)]
pub unsafe extern "C" fn hull_growing_make(alloc: Heap, storage: *mut u8)
    requires* { sem 𝓛 (room_at growing_row storage) }
    ensures* { sem 𝓛 (leaves growing_row storage (IsHullOf [])) }
{
    let at = storage as *mut GrowingHull;
    let hull = growing::fresh(alloc);
    unsafe { at.write(hull) };
}

/// Ends a hull of points that are only added: frees all its memory, and its storage is the caller's again. Returns 0.
///
/// # Safety
///
/// `at` points to such a hull, and no other call on it is under way.
#[unsafe(no_mangle)]
pub unsafe extern "C" fn hull_growing_end(at: *mut u8) -> u32
    ghost t: { growing_row.Denot }
    requires* { sem 𝓛 (lies_at growing_row full_share at t) }
    ensures* { sem 𝓛 (leaves_storage growing_row at (result ≡ 0)) }
{
    let hull = at as *mut GrowingHull;
    growing::finish(unsafe { hull.read() })
}

/// Makes the call of a kind with two numbers on a hull of points that are only added: one that adds a point, or asks.
///
/// # Safety
///
/// `at` points to such a hull, and no other call on it is under way.
#[unsafe(no_mangle)]
pub unsafe extern "C" fn hull_growing_call(at: *mut u8, kind: u32, x: i64, y: i64) -> HullReply
    ghost t: { growing_row.Denot }
    requires* { sem 𝓛 (lies_at growing_row full_share at t) }
    ensures* { sem 𝓛 (leaves growing_row at (λ new. IsGrowingCall kind x y t new result)) }
{
    let hull = at as *mut GrowingHull;
    growing::call(unsafe { &mut *hull }, kind, x, y)
}

/// Makes the calls of the requests in their order, up to the end of the shorter array or the first request that can't
/// be served, and returns how many replies were written.
///
/// # Safety
///
/// `at` points to a hull of points that are only added, and no other call on it is under way.
#[unsafe(no_mangle)]
pub unsafe extern "C" fn hull_growing_calls(
    at: *mut u8,
    requests: &[HullRequest],
    replies: &mut [HullReply],
) -> usize
    ghost t: { growing_row.Denot }
    requires* { sem 𝓛 (lies_at growing_row full_share at t) }
    ensures* { sem 𝓛 (leaves growing_row at
        (λ new. AreServed AnswersGrowingRequest requests.now replies.old t new replies.new result)) }
{
    let hull = at as *mut GrowingHull;
    requests::growing_calls_of(unsafe { &mut *hull }, requests, replies)
}

/// Writes the vertices of the hull to the front of the array, as [`hull_vertices`] does.
///
/// # Safety
///
/// `at` points to a hull of points that are only added, and no other call on it is under way.
#[unsafe(no_mangle)]
pub unsafe extern "C" fn hull_growing_vertices(at: *mut u8, out: &mut [HullPoint]) -> HullReply
    ghost t: { growing_row.Denot }
    requires* { sem 𝓛 (lies_at growing_row full_share at t) }
    ensures* { sem 𝓛 (leaves growing_row at (λ new. AreGrowingVertices t new out.old out.new result)) }
{
    let hull = at as *mut GrowingHull;
    growing::vertices(unsafe { &mut *hull }, out)
}
