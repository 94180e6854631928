//! Many calls at once.
ghost use Rattle.std.specs.Prelude.{◌≡◌, ◌↔◌, IsTrue};
ghost use Rattle.hull_c.specs.Growing.{AnswersGrowingRequest};
ghost use Rattle.hull_c.specs.Requests.{AnswersRequest, AreServed, IsBad};

use super::hull::Hull;
use super::{calls, growing};
use hull_plain::GrowingHull;
use hull_reply::{Code, HullReply, Kind};

/// A call: the number of its kind, and a point or a direction.
#[repr(C)]
#[derive(Clone, Copy)]
pub struct HullRequest {
    /// The number of the kind.
    pub kind: u32,
    /// The first coordinate.
    pub x: i64,
    /// The second coordinate.
    pub y: i64,
}

/// What serves requests.
pub(crate) trait Server {
    ghost use Rattle.hull_reply.specs.declared.reply.HullReply.{HullReply as Reply};
    ghost use Rattle.hull_c.specs.declared.requests.HullRequest.{HullRequest as Request};

    ghost serves: { Request → Self → Self → Reply → Type 0 };

    /// Serves a request.
    fn serve(&mut self, request: HullRequest) -> HullReply
        ensures { serves request self.old self.new result };
}

/// Counts a question that the vertices answer.
fn count_question(hull: &mut Hull, kind: u32)
    ensures { hull.new ≡ hull.old }
{
    match Kind::of(kind) {
        None | Some(Kind::Add | Kind::Remove | Kind::Vertices | Kind::Count | Kind::Multiplicity) =>
            {}
        Some(_) => hull.set.prepare(),
    }
}

impl Server for Hull {
    ghost serves = { AnswersRequest };

    /// Serves a request, and counts it.
    fn serve(&mut self, request: HullRequest) -> HullReply {
        count_question(self, request.kind);
        calls::call(self, request.kind, request.x, request.y)
    }
}

impl Server for GrowingHull {
    ghost serves = { AnswersGrowingRequest };

    fn serve(&mut self, request: HullRequest) -> HullReply {
        growing::call(self, request.kind, request.x, request.y)
    }
}

/// Whether the code is that of a request that can't be served.
fn is_bad(code: u32) -> bool
    ensures { IsTrue result ↔ IsBad code }
{
    code == Code::OutOfRange.number()
        || code == Code::ZeroDirection.number()
        || code == Code::UnknownKind.number()
}

/// Serves the requests in their order, up to the end of the shorter array or the first request that can't be served,
/// and returns how many replies were written.
fn serve_all<S: Server>(
    server: &mut S,
    requests: &[HullRequest],
    replies: &mut [HullReply],
) -> usize
    ensures { AreServed S.serves requests.now replies.old server.old server.new replies.new result }
{
    let mut made = 0usize;
    while made < requests.len() && made < replies.len() {
        let reply = server.serve(requests[made]);
        replies[made] = reply;
        made += 1;
        if is_bad(reply.code) {
            return made;
        }
    }
    made
}

/// Makes the calls on a set.
pub(crate) fn calls_of(
    hull: &mut Hull,
    requests: &[HullRequest],
    replies: &mut [HullReply],
) -> usize
    ensures { AreServed AnswersRequest requests.now replies.old hull.old hull.new replies.new result }
{
    serve_all(hull, requests, replies)
}

/// Makes the calls on a hull of points that are only added.
pub(crate) fn growing_calls_of(
    hull: &mut GrowingHull,
    requests: &[HullRequest],
    replies: &mut [HullReply],
) -> usize
    ensures { AreServed AnswersGrowingRequest requests.now replies.old hull.old hull.new replies.new result }
{
    serve_all(hull, requests, replies)
}
