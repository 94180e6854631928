//! The hull of points that are only added.
ghost use Rattle.std.specs.Prelude.{◌≡◌, ◌≢◌, ◌⊎◌, ◌↔◌, IsTrue, List, [], Ok};
ghost use Rattle.lattice.specs.Plane.{Pair};
ghost use Rattle.hull_plain.specs.Growth.{IsHullOf};
ghost use Rattle.hull_reply.specs.declared.request.Request.TheVariants as request;
ghost use Rattle.hull_c.specs.Allowed.{IsAllowedFor};
ghost use Rattle.hull_c.specs.Growing.{AreGrowingVertices, IsAdded, IsGrowingCall, IsGrowingKind, IsGrowingServed, IsRefusedPoint};

use super::calls::encoded_place;
use super::polygon::is_polygon_kind;
use heap::Heap;
use hull_plain::{GrowFault, GrowingHull};
use hull_reply::{Code, HullPoint, HullReply, Kind, Request, encoded, put_vertices, request_of};
use hull_set::{Call, Reply, extreme_reply, tangents_reply};
use lattice::{Direction, Point};

/// Adds a point.
fn add(hull: &mut GrowingHull, p: Point) -> HullReply
    ensures { IsAdded p hull.old hull.new result ⊎ IsRefusedPoint p hull.old hull.new result }
{
    match hull.add(p) {
        Ok(place) => encoded_place(place),
        Err(GrowFault::TooMany) => HullReply::bare(Code::TooMany),
        Err(GrowFault::NoMemory) => HullReply::bare(Code::NoMemory),
    }
}

/// Locates a point.
fn place(hull: &GrowingHull, q: Point) -> HullReply
    ensures { IsAllowedFor (λ S. IsHullOf S hull.now) (Call.Place q) result }
{
    encoded_place(hull.place(q))
}

/// Finds the tangents from a point.
fn tangents(hull: &GrowingHull, q: Point) -> HullReply
    ensures { IsAllowedFor (λ S. IsHullOf S hull.now) (Call.Tangents q) result }
{
    encoded(tangents_reply(hull.tangents(q)))
}

/// Finds the farthest point in a direction.
fn extreme(hull: &GrowingHull, d: Direction) -> HullReply
    ensures { IsAllowedFor (λ S. IsHullOf S hull.now) (Call.Extreme d) result }
{
    encoded(extreme_reply(hull.extreme(d)))
}

/// Returns the doubled area.
fn area(hull: &GrowingHull) -> HullReply
    ensures { IsAllowedFor (λ S. IsHullOf S hull.now) Call.Area result }
{
    encoded(Reply::DoubledArea(hull.area2()))
}

/// Whether there is no point.
fn is_empty(hull: &GrowingHull) -> bool
    ensures empty { IsTrue result → (S : List Pair) → IsHullOf S hull.now → S ≡ [] }
    ensures some { ¬ IsTrue result → (S : List Pair) → IsHullOf S hull.now → S ≢ [] }
{
    let Ok(right) = Direction::new(1, 0) else {
        unreachable!()
    };
    match hull.extreme(right) {
        Some(_) => false,
        None => true,
    }
}

/// Counts the vertices, for which it allocates.
fn count(hull: &GrowingHull) -> HullReply
    ensures { IsAllowedFor (λ S. IsHullOf S hull.now) Call.Vertices result }
{
    match hull.vertices() {
        Ok(vertices) => HullReply::numbered(Code::Vertices, vertices.len() as u64),
        Err(_) => {
            if is_empty(hull) {
                HullReply::numbered(Code::Vertices, 0)
            } else {
                HullReply::bare(Code::NoMemory)
            }
        }
    }
}

/// Makes a call.
fn serve(hull: &mut GrowingHull, call: Call) -> HullReply
    ensures { IsGrowingServed hull.old hull.new (Ok (request.Call call)) result }
{
    match call {
        Call::Add(p) => add(hull, p),
        Call::Place(q) => place(hull, q),
        Call::Tangents(q) => tangents(hull, q),
        Call::Extreme(d) => extreme(hull, d),
        Call::Vertices => count(hull),
        Call::Area => area(hull),
        _ => HullReply::bare(Code::UnknownKind),
    }
}

/// Whether the hull takes the call of a kind.
fn is_growing_kind(kind: u32) -> bool
    ensures { IsTrue result ↔ IsGrowingKind kind }
{
    kind == Kind::Add as u32 || is_polygon_kind(kind)
}

/// Makes the call of a kind with two numbers.
pub(crate) fn call(hull: &mut GrowingHull, kind: u32, x: i64, y: i64) -> HullReply
    ensures { IsGrowingCall kind x y hull.old hull.new result }
{
    if !is_growing_kind(kind) {
        return HullReply::bare(Code::UnknownKind);
    }
    match request_of(kind, x, y) {
        Ok(Request::Call(call)) => serve(hull, call),
        Ok(Request::Multiplicity(_)) => HullReply::bare(Code::UnknownKind),
        Err(fault) => HullReply::bare(fault),
    }
}

/// Writes the vertices to the front of the array, if all of them fit.
pub(crate) fn vertices(hull: &mut GrowingHull, out: &mut [HullPoint]) -> HullReply
    ensures { AreGrowingVertices hull.old hull.new out.old out.new result }
{
    match hull.vertices() {
        Ok(vertices) => put_vertices(&vertices, out),
        Err(_) => {
            if is_empty(hull) {
                put_vertices(&[], out)
            } else {
                HullReply::bare(Code::NoMemory)
            }
        }
    }
}

/// Returns the hull of no points.
pub(crate) fn fresh(alloc: Heap) -> GrowingHull
    ensures { IsHullOf [] result }
{
    GrowingHull::new(alloc)
}

/// Drops a hull, with all its memory.
pub(crate) fn finish(hull: GrowingHull) -> u32
    ensures { result ≡ 0 }
{
    drop(hull);
    0
}
