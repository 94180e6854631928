ghost use Rattle.std.specs.Prelude.{◌≡◌, ◌≤◌, ◌<◌, ◌-◌, ◌^◌, OnOk, length};
ghost use Rattle.text_io.specs.Write.{WritesAfter};
ghost use Rattle.hull_draw.specs.Captions.{widest_from, space_for, vertices_returned, left_out_text, list_text};
ghost use Rattle.hull_draw.specs.Captions.{reply_text, call_line_text, reply_line_text, caption_text};

use super::legend::line_start_after;
use super::shapes::returned_after;
use hull_book::Line;
use hull_set::Reply;
use hull_text::{call_after, points_after, reply_after};
use lattice::Point;
use text_io::{Done, Sink, put_after};

/// Returns the greatest size of a coordinate of these points.
#[tactic(auto, unfolding(crate::specs::Captions::widest_from))]
fn widest(points: &[Point]) -> u64
    ensures { result ≡ widest_from 0 points.now }
{
    let mut widest: u64 = 0;
    let mut rest = points;
    while let Some((point, after)) = rest.split_first() {
        widest = widest
            .max(point.x().unsigned_abs())
            .max(point.y().unsigned_abs());
        rest = after;
    }
    widest
}

/// Returns how many points fit into a line of a picture, if no coordinate is of a greater size.
fn space_for(widest: u64) -> usize
    ensures { result ≡ space_for widest }
{
    if widest <= 9999 {
        5
    } else if widest <= 9_999_999 {
        3
    } else {
        1
    }
}

/// Returns how many vertices of a list are written.
fn vertices_returned(vertices: &[Point]) -> usize
    ensures value { result ≡ vertices_returned vertices.now }
    ensures few { result ≤ length vertices.now }
{
    space_for(widest(vertices)).min(vertices.len())
}

/// Writes how many vertices are left out, if any are.
fn left_out_after<W: Sink>(done: Done, out: &mut W, count: usize) -> Done
    requires { OnOk done (W.failed out.old < 2 ^ 64 - 1) }
    ensures { WritesAfter W.contents W.failed done result out.old out.new (left_out_text count) }
{
    if count == 0 {
        return done;
    }
    let done = returned_after(done, out, b" &#8230; and ", count);
    put_after(done, out, b" more")
}

/// Writes a list of vertices, as far as it fits.
fn list_after<W: Sink>(done: Done, out: &mut W, vertices: &[Point]) -> Done
    requires { OnOk done (W.failed out.old < 2 ^ 64 - 1) }
    ensures { WritesAfter W.contents W.failed done result out.old out.new (list_text vertices.now) }
{
    let count = vertices_returned(vertices);
    let done = returned_after(done, out, b" list ", vertices.len());
    let done = points_after(done, out, &vertices[..count]);
    left_out_after(done, out, vertices.len() - count)
}

/// Writes a reply as in a journal, except for a list that is too long.
fn short_reply_after<W: Sink>(done: Done, out: &mut W, reply: &Reply) -> Done
    requires { OnOk done (W.failed out.old < 2 ^ 64 - 1) }
    ensures { WritesAfter W.contents W.failed done result out.old out.new (reply_text reply.now) }
{
    match reply {
        Reply::VertexList(vertices) => list_after(done, out, vertices.as_slice()),
        _ => reply_after(done, out, reply),
    }
}

/// Writes the line of a call.
fn call_line_after<W: Sink>(done: Done, out: &mut W, size: u64, line: &Line) -> Done
    requires space { OnOk done (W.failed out.old < 2 ^ 64 - 1) }
    requires small { size < 2 ^ 20 }
    ensures { WritesAfter W.contents W.failed done result out.old out.new (call_line_text size line.now) }
{
    let done = line_start_after(done, out, size, 164);
    let done = put_after(done, out, b"' class='b'>");
    let done = call_after(done, out, &line.call);
    put_after(done, out, b"</text>\n")
}

/// Writes the line of a reply.
fn reply_line_after<W: Sink>(done: Done, out: &mut W, size: u64, line: &Line) -> Done
    requires space { OnOk done (W.failed out.old < 2 ^ 64 - 1) }
    requires small { size < 2 ^ 20 }
    ensures { WritesAfter W.contents W.failed done result out.old out.new (reply_line_text size line.now) }
{
    let done = line_start_after(done, out, size, 186);
    let done = put_after(done, out, b"' class='b'>=");
    let done = short_reply_after(done, out, &line.reply);
    put_after(done, out, b"</text>\n")
}

/// Writes the caption of a frame: its call, and below that its reply.
pub(crate) fn caption_after<W: Sink>(done: Done, out: &mut W, size: u64, line: &Line) -> Done
    requires space { OnOk done (W.failed out.old < 2 ^ 64 - 1) }
    requires small { size < 2 ^ 20 }
    ensures { WritesAfter W.contents W.failed done result out.old out.new (caption_text size line.now) }
{
    let done = call_line_after(done, out, size, line);
    reply_line_after(done, out, size, line)
}
