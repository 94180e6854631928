//! Exports that change a set, and ask it.
ghost use Rattle.std.specs.Borrow.{full_share, sem};
ghost use Rattle.std.specs.Ptr.{lies_at};
ghost use Rattle.hull_c.specs.contracts.hull.Hull.{the_row};
ghost use Rattle.bucket_tree.specs.Sets.{bucket_set};
ghost use Rattle.hull_reply.specs.Left.{leaves};
ghost use Rattle.hull_reply.specs.Requests.{kind_number};
ghost use Rattle.hull_reply.specs.Served.{IsAnswered};
ghost use Rattle.hull_c.specs.Requests.{AnswersRequest, AreServed};
ghost use Rattle.hull_c.specs.Calls.{AreVertices, IsGathered, IsPrepared};

use crate::hull::Hull;
use crate::requests::HullRequest;
use crate::{calls, requests, vertices};
use hull_reply::{HullPoint, HullReply, Kind};

/// Makes the call of a kind with two numbers: a point or a direction, or no meaning.
///
/// # Safety
///
/// `at` points to a set, and no other call on it is under way.
#[unsafe(no_mangle)]
pub unsafe extern "C" fn hull_call(at: *mut u8, kind: u32, x: i64, y: i64) -> HullReply
    ghost t: { the_row.Denot }
    requires* { sem 𝓛 (lies_at the_row full_share at t) }
    ensures* { sem 𝓛 (leaves the_row at (λ new. IsAnswered bucket_set kind x y t new result)) }
{
    let hull = at as *mut Hull;
    calls::call(unsafe { &mut *hull }, kind, x, y)
}

/// Locates the point (x, y): the answer of [`hull_call`] for that kind, in less time.
///
/// # Safety
///
/// `at` points to a set, and no other call on it is under way.
#[unsafe(no_mangle)]
pub unsafe extern "C" fn hull_place(at: *mut u8, x: i64, y: i64) -> HullReply
    ghost t: { the_row.Denot }
    requires* { sem 𝓛 (lies_at the_row full_share at t) }
    ensures* { sem 𝓛 (leaves the_row at (λ new. IsAnswered bucket_set (kind_number Kind.Place) x y t new result)) }
{
    let hull = at as *mut Hull;
    calls::place(unsafe { &mut *hull }, x, y)
}

/// Finds the tangent points seen from (x, y): the answer of [`hull_call`] for that kind, in less time.
///
/// # Safety
///
/// `at` points to a set, and no other call on it is under way.
#[unsafe(no_mangle)]
pub unsafe extern "C" fn hull_tangents(at: *mut u8, x: i64, y: i64) -> HullReply
    ghost t: { the_row.Denot }
    requires* { sem 𝓛 (lies_at the_row full_share at t) }
    ensures* { sem 𝓛 (leaves the_row at (λ new. IsAnswered bucket_set (kind_number Kind.Tangents) x y t new result)) }
{
    let hull = at as *mut Hull;
    calls::tangents(unsafe { &mut *hull }, x, y)
}

/// Finds the farthest point in the direction (x, y): the answer of [`hull_call`] for that kind, in less time.
///
/// # Safety
///
/// `at` points to a set, and no other call on it is under way.
#[unsafe(no_mangle)]
pub unsafe extern "C" fn hull_extreme(at: *mut u8, x: i64, y: i64) -> HullReply
    ghost t: { the_row.Denot }
    requires* { sem 𝓛 (lies_at the_row full_share at t) }
    ensures* { sem 𝓛 (leaves the_row at (λ new. IsAnswered bucket_set (kind_number Kind.Extreme) x y t new result)) }
{
    let hull = at as *mut Hull;
    calls::extreme(unsafe { &mut *hull }, x, y)
}

/// Makes the calls of the requests in their order, up to the end of the shorter array or the first request that can't
/// be served, and returns how many replies were written.
///
/// # Safety
///
/// `at` points to a set, and no other call on it is under way.
#[unsafe(no_mangle)]
pub unsafe extern "C" fn hull_calls(
    at: *mut u8,
    requests: &[HullRequest],
    replies: &mut [HullReply],
) -> usize
    ghost t: { the_row.Denot }
    requires* { sem 𝓛 (lies_at the_row full_share at t) }
    ensures* { sem 𝓛 (leaves the_row at (λ new. AreServed AnswersRequest requests.now replies.old t new replies.new result)) }
{
    let hull = at as *mut Hull;
    requests::calls_of(unsafe { &mut *hull }, requests, replies)
}

/// Counts a question to come: gathers the vertices of the set if they are not known and are few compared with the
/// questions since they last changed. Returns how many vertices are known, or 0.
///
/// # Safety
///
/// `at` points to a set, and no other call on it is under way.
#[unsafe(no_mangle)]
pub unsafe extern "C" fn hull_prepare(at: *mut u8) -> HullReply
    ghost t: { the_row.Denot }
    requires* { sem 𝓛 (lies_at the_row full_share at t) }
    ensures* { sem 𝓛 (leaves the_row at (λ new. IsPrepared t new result)) }
{
    let hull = at as *mut Hull;
    calls::prepare(unsafe { &mut *hull })
}

/// Gathers the vertices of the set if they are not known, and returns how many there are; or fails with `NoMemory`. Call
/// it before each listing and before many questions: then changes that alter the vertices at one place alter them there.
///
/// # Safety
///
/// `at` points to a set, and no other call on it is under way.
#[unsafe(no_mangle)]
pub unsafe extern "C" fn hull_gather(at: *mut u8) -> HullReply
    ghost t: { the_row.Denot }
    requires* { sem 𝓛 (lies_at the_row full_share at t) }
    ensures* { sem 𝓛 (leaves the_row at (λ new. IsGathered t new result)) }
{
    let hull = at as *mut Hull;
    calls::gather(unsafe { &mut *hull })
}

/// Writes the vertices of the set to the front of the array, counterclockwise from the first by x and then y.
///
/// # Safety
///
/// `at` points to a set, and no other call on it is under way.
#[unsafe(no_mangle)]
pub unsafe extern "C" fn hull_vertices(at: *mut u8, out: &mut [HullPoint]) -> HullReply
    ghost t: { the_row.Denot }
    requires* { sem 𝓛 (lies_at the_row full_share at t) }
    ensures* { sem 𝓛 (leaves the_row at (λ new. AreVertices t new out.old out.new result)) }
{
    let hull = at as *mut Hull;
    vertices::vertices(unsafe { &mut *hull }, out)
}
