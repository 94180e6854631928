//! Questions about an array of vertices.
ghost use Rattle.std.specs.Prelude.{◌≡◌, ◌↔◌, ◌<◌, IsTrue, length, Ok};
ghost use Rattle.hull_polygon.specs.Polygons.{IsPolygonOf, IsShortPolygon};
ghost use Rattle.hull_polygon.specs.Lent.{vertices_of};
ghost use Rattle.hull_c.specs.Allowed.{IsAllowedFor};
ghost use Rattle.hull_c.specs.Polygons.{AnswersAt, ArePolygonAnswers, IsAskedOfPolygon, IsPolygonAnswer, IsPolygonKind, EncodesPolygon};
ghost use Rattle.hull_reply.specs.declared.request.Request.TheVariants as request;

use super::load::points_of;
use super::requests::HullRequest;
use heap::Heap;
use hull_polygon::Polygon;
use hull_reply::{Code, HullPoint, HullReply, Kind, Request, encoded, request_of};
use hull_set::{Call, Reply, extreme_reply, tangents_reply};
use lattice::{Direction, Point};

/// Locates a point.
fn place(polygon: &Polygon, q: Point) -> HullReply
    ensures { IsAllowedFor (λ S. IsPolygonOf S (vertices_of polygon.now)) (Call.Place q) result }
{
    encoded(Reply::Lies(polygon.place(q)))
}

/// Finds the tangents from a point.
fn tangents(polygon: &Polygon, q: Point) -> HullReply
    ensures { IsAllowedFor (λ S. IsPolygonOf S (vertices_of polygon.now)) (Call.Tangents q) result }
{
    encoded(tangents_reply(polygon.tangents(q)))
}

/// Finds the farthest point in a direction.
fn extreme(polygon: &Polygon, d: Direction) -> HullReply
    ensures { IsAllowedFor (λ S. IsPolygonOf S (vertices_of polygon.now)) (Call.Extreme d) result }
{
    encoded(extreme_reply(polygon.extreme(d)))
}

/// Returns the doubled area.
fn area(polygon: &Polygon) -> HullReply
    ensures { IsAllowedFor (λ S. IsPolygonOf S (vertices_of polygon.now)) Call.Area result }
{
    encoded(Reply::DoubledArea(polygon.area2()))
}

/// Asks a convex polygon what a call asks of the set that it is of.
fn answer(polygon: &Polygon, call: Call) -> HullReply
    ensures { IsAskedOfPolygon (vertices_of polygon.now) (Ok (request.Call call)) result }
{
    match call {
        Call::Place(q) => place(polygon, q),
        Call::Tangents(q) => tangents(polygon, q),
        Call::Extreme(d) => extreme(polygon, d),
        Call::Area => area(polygon),
        Call::Vertices => HullReply::numbered(Code::Vertices, polygon.vertices().len() as u64),
        _ => HullReply::bare(Code::UnknownKind),
    }
}

/// Whether vertices can be asked the call of a kind.
pub(crate) fn is_polygon_kind(kind: u32) -> bool
    ensures { IsTrue result ↔ IsPolygonKind kind }
{
    (Kind::Place as u32..=Kind::Area as u32).contains(&kind)
}

/// Asks a convex polygon the call of a kind with two numbers.
fn answer_to(polygon: &Polygon, asked: HullRequest) -> HullReply
    ensures { IsPolygonAnswer (vertices_of polygon.now) asked.kind asked.x asked.y result }
{
    if !is_polygon_kind(asked.kind) {
        return HullReply::bare(Code::UnknownKind);
    }
    match request_of(asked.kind, asked.x, asked.y) {
        Ok(Request::Call(call)) => answer(polygon, call),
        Ok(Request::Multiplicity(_)) => HullReply::bare(Code::UnknownKind),
        Err(fault) => HullReply::bare(fault),
    }
}

/// Asks a convex polygon the request at an index.
fn answer_at(polygon: &Polygon, requests: &[HullRequest], i: usize) -> HullReply
    requires { i < length requests.now }
    ensures { AnswersAt (vertices_of polygon.now) requests.now i result }
{
    answer_to(polygon, requests[i])
}

/// Asks the vertices the call of a kind with two numbers.
pub(crate) fn ask(vertices: &[Point], kind: u32, x: i64, y: i64) -> HullReply
    requires { IsShortPolygon vertices.now }
    ensures { IsPolygonAnswer vertices.now kind x y result }
{
    answer_to(&Polygon::of_vertices(vertices), HullRequest { kind, x, y })
}

/// Asks the vertices each of the requests, up to the end of the shorter array, and returns how many replies were
/// written.
pub(crate) fn ask_all(
    vertices: &[Point],
    requests: &[HullRequest],
    replies: &mut [HullReply],
) -> usize
    requires { IsShortPolygon vertices.now }
    ensures { ArePolygonAnswers vertices.now requests.now replies.old replies.new result }
{
    let polygon = Polygon::of_vertices(vertices);
    let count = requests.len().min(replies.len());
    for i in 0..count {
        replies[i] = answer_at(&polygon, requests, i);
    }
    count
}

/// Whether the points of an array are a convex polygon.
pub(crate) fn judge(alloc: Heap, array: &[HullPoint]) -> HullReply
    ensures { EncodesPolygon array.now result }
{
    if array.is_empty() {
        return HullReply::numbered(Code::Number, 1);
    }
    match points_of(alloc, array) {
        Err(fault) => HullReply::bare(fault),
        Ok(points) => {
            HullReply::numbered(Code::Number, u64::from(Polygon::new(&points).is_some()))
        }
    }
}
