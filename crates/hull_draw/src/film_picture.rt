ghost use Rattle.std.specs.Prelude.{◌≡◌, ◌<◌, ◌≤◌, ◌-◌, ◌^◌, ◌++◌, OnOk, length};
ghost use Rattle.text_io.specs.Write.{WritesAfter, WritesText};
ghost use Rattle.hull_draw.specs.declared.shots.TheConstants.{FRAME_LIMIT};
ghost use Rattle.hull_draw.specs.FilmTexts.{ray_text, tangents_text, farthest_text, found_text, right_found_text};
ghost use Rattle.hull_draw.specs.FilmTexts.{asked_words, asked_text, call_text, call_shown_text, hidden_again_text};
ghost use Rattle.hull_draw.specs.FilmTexts.{frame_start_text, frame_end_text, shot_text, frames_text, title_text};
ghost use Rattle.hull_draw.specs.FilmTexts.{film_text};
ghost use Rattle.hull_draw.specs.Films.{call_point};

use super::captions::caption_after;
use super::frame::Frame;
use super::legend::legend_after;
use super::picture::{head_after, shown_after};
use super::scene::Scene;
use super::shapes::{dot_after, returned_after, square_after};
use super::shots::call_point;
use hull_book::Line;
use hull_set::Reply;
use lattice::Point;
use text_io::{Done, Sink, flush_after, put_after};

/// How a call is coloured: its point (`q`), or that of a refused one (`x`), the two
/// tangents from there (`f`), and the farthest point (`e`); `b` is the caption.
pub const FILM_STYLE: &[u8] =
    b"<style>.q{stroke:#7d3c98;stroke-width:11}.x{stroke:#c00;stroke-width:11}.f{stroke:#d35400;stroke-width:3}.e{stroke:#d35400;stroke-width:13}.b{font-weight:bold}</style>\n";

/// Writes a line from the point of the call to another point, or a dot if the call names no point.
fn ray_after<W: Sink>(
    done: Done,
    out: &mut W,
    frame: &Frame,
    asked: &Option<Point>,
    point: Point,
) -> Done
    requires { OnOk done (W.failed out.old < 2 ^ 64 - 1) }
    ensures { WritesAfter W.contents W.failed done result out.old out.new (ray_text frame.now asked.now point) }
{
    match asked {
        None => dot_after(done, out, frame, point),
        Some(start) => {
            let done = returned_after(done, out, b"M", frame.across(*start));
            let done = returned_after(done, out, b" ", frame.down(*start));
            let done = returned_after(done, out, b"L", frame.across(point));
            returned_after(done, out, b" ", frame.down(point))
        }
    }
}

/// Writes both tangents, from the point of the call.
fn tangents_after<W: Sink>(
    done: Done,
    out: &mut W,
    frame: &Frame,
    asked: &Option<Point>,
    ends: (Point, Point),
) -> Done
    requires { OnOk done (W.failed out.old < 2 ^ 64 - 1) }
    ensures { WritesAfter W.contents W.failed done result out.old out.new (tangents_text frame.now asked.now ends.0 ends.1) }
{
    let done = put_after(done, out, b"<path class='f' d='");
    let done = ray_after(done, out, frame, asked, ends.0);
    let done = ray_after(done, out, frame, asked, ends.1);
    put_after(done, out, b"'/>\n")
}

/// Writes the farthest point.
fn farthest_after<W: Sink>(done: Done, out: &mut W, frame: &Frame, point: Point) -> Done
    requires { OnOk done (W.failed out.old < 2 ^ 64 - 1) }
    ensures { WritesAfter W.contents W.failed done result out.old out.new (farthest_text frame.now point) }
{
    let done = put_after(done, out, b"<path class='e' d='");
    let done = dot_after(done, out, frame, point);
    put_after(done, out, b"'/>\n")
}

/// Writes the points that a reply found.
fn found_after<W: Sink>(
    done: Done,
    out: &mut W,
    frame: &Frame,
    asked: &Option<Point>,
    reply: &Reply,
) -> Done
    requires { OnOk done (W.failed out.old < 2 ^ 64 - 1) }
    ensures { WritesAfter W.contents W.failed done result out.old out.new (found_text frame.now asked.now reply.now) }
{
    match reply {
        Reply::Farthest(point) => farthest_after(done, out, frame, *point),
        Reply::TangentPoints(left, right) => {
            tangents_after(done, out, frame, asked, (*left, *right))
        }
        _ => done,
    }
}

/// Writes the points that a reply found, if its line is right.
fn right_found_after<W: Sink>(
    done: Done,
    out: &mut W,
    frame: &Frame,
    wrong: Option<u32>,
    asked: &Option<Point>,
    reply: &Reply,
) -> Done
    requires { OnOk done (W.failed out.old < 2 ^ 64 - 1) }
    ensures { WritesAfter W.contents W.failed done result out.old out.new (right_found_text frame.now wrong asked.now reply.now) }
{
    match wrong {
        None => found_after(done, out, frame, asked, reply),
        Some(_) => done,
    }
}

/// Begins the point of a call; one that was refused is highlighted.
fn put_asked_words<W: Sink>(done: Done, out: &mut W, reply: &Reply) -> Done
    requires { OnOk done (W.failed out.old < 2 ^ 64 - 1) }
    ensures { WritesAfter W.contents W.failed done result out.old out.new (asked_words reply.now) }
{
    match reply {
        Reply::TooMany | Reply::NoMemory => put_after(done, out, b"<path class='x' d='"),
        _ => put_after(done, out, b"<path class='q' d='"),
    }
}

/// Writes the point of a call, if it names one.
fn asked_after<W: Sink>(
    done: Done,
    out: &mut W,
    frame: &Frame,
    asked: &Option<Point>,
    reply: &Reply,
) -> Done
    requires { OnOk done (W.failed out.old < 2 ^ 64 - 1) }
    ensures { WritesAfter W.contents W.failed done result out.old out.new (asked_text frame.now asked.now reply.now) }
{
    match asked {
        None => done,
        Some(point) => {
            let done = put_asked_words(done, out, reply);
            let done = dot_after(done, out, frame, *point);
            put_after(done, out, b"'/>\n")
        }
    }
}

/// Writes a call and what it found, in the square of the picture.
fn call_marks_after<W: Sink>(
    done: Done,
    out: &mut W,
    size: u64,
    frame: &Frame,
    wrong: Option<u32>,
    line: &Line,
) -> Done
    requires { OnOk done (W.failed out.old < 2 ^ 64 - 1) }
    ensures { WritesAfter W.contents W.failed done result out.old out.new (call_text size frame.now wrong line.now) }
{
    let asked = call_point(&line.call);
    let done = square_after(done, out, size, frame.side());
    let done = right_found_after(done, out, frame, wrong, &asked, &line.reply);
    let done = asked_after(done, out, frame, &asked, &line.reply);
    put_after(done, out, b"</svg>\n")
}

/// Writes a call and what it found, if there is a square.
fn call_shown_after<W: Sink>(
    done: Done,
    out: &mut W,
    size: u64,
    frame: &Option<Frame>,
    wrong: Option<u32>,
    line: &Line,
) -> Done
    requires { OnOk done (W.failed out.old < 2 ^ 64 - 1) }
    ensures { WritesAfter W.contents W.failed done result out.old out.new (call_shown_text size frame.now wrong line.now) }
{
    match frame {
        None => done,
        Some(frame) => call_marks_after(done, out, size, frame, wrong, line),
    }
}

/// Hides a frame again after its second, except for the last.
fn hidden_again_after<W: Sink>(done: Done, out: &mut W, count: usize, place: usize) -> Done
    requires space { OnOk done (W.failed out.old < 2 ^ 64 - 1) }
    requires inside { place < count }
    ensures { WritesAfter W.contents W.failed done result out.old out.new (hidden_again_text count place) }
{
    let next = place + 1;
    if next == count {
        return put_after(done, out, b"\n");
    }
    let start = b"<set attributeName='display' to='none' begin='";
    let done = returned_after(done, out, start, next);
    put_after(done, out, b"s'/>\n")
}

/// Begins a frame, which is hidden until its second.
fn frame_start_after<W: Sink>(done: Done, out: &mut W, count: usize, place: usize) -> Done
    requires space { OnOk done (W.failed out.old < 2 ^ 64 - 1) }
    requires inside { place < count }
    ensures { WritesAfter W.contents W.failed done result out.old out.new (frame_start_text count place) }
{
    let start = b"<g><set attributeName='display' to='none' begin='-1s' end='";
    let done = returned_after(done, out, start, place);
    let done = put_after(done, out, b"s'/>");
    hidden_again_after(done, out, count, place)
}

/// Ends a frame with its caption.
fn frame_end_after<W: Sink>(done: Done, out: &mut W, size: u64, line: &Line) -> Done
    requires space { OnOk done (W.failed out.old < 2 ^ 64 - 1) }
    requires small { size < 2 ^ 20 }
    ensures { WritesAfter W.contents W.failed done result out.old out.new (frame_end_text size line.now) }
{
    let done = caption_after(done, out, size, line);
    put_after(done, out, b"</g>\n")
}

/// Writes a frame: the set as in a still picture, over it the call, below it the legend and the caption.
fn frame_after<W: Sink>(
    done: Done,
    out: &mut W,
    size: u64,
    frame: &Option<Frame>,
    scene: &Scene,
    line: &Line,
) -> Done
    requires space { OnOk done (W.failed out.old < 2 ^ 64 - 1) }
    requires small { size < 2 ^ 20 }
    ensures { WritesAfter W.contents W.failed done result out.old out.new (shot_text size frame.now scene.now line.now) }
{
    let done = shown_after(done, out, size, frame, scene);
    let done = call_shown_after(done, out, size, frame, scene.wrong, line);
    let done = legend_after(done, out, size, frame, scene);
    frame_end_after(done, out, size, line)
}

/// Writes the frames, each with its line.
fn frames_after<W: Sink>(
    done: Done,
    out: &mut W,
    size: u64,
    frame: &Option<Frame>,
    scenes: &[Scene],
    lines: &[Line],
) -> Done
    requires space { OnOk done (W.failed out.old < 2 ^ 64 - 1) }
    requires small { size < 2 ^ 20 }
    requires few { length scenes.now ≤ FRAME_LIMIT }
    ensures { WritesAfter W.contents W.failed done result out.old out.new
        (frames_text size frame.now (length scenes.now) 0 scenes.now lines.now) }
{
    let mut done = done;
    let mut place = 0;
    let mut rest = scenes;
    let mut left = lines;
    while let Some((scene, after)) = rest.split_first() {
        let Some((line, lines_after)) = left.split_first() else {
            return done;
        };
        done = frame_start_after(done, out, scenes.len(), place);
        done = frame_after(done, out, size, frame, scene, line);
        place += 1;
        rest = after;
        left = lines_after;
    }
    done
}

/// Writes the range of calls that are played.
fn title_after<W: Sink>(done: Done, out: &mut W, count: usize, total: usize) -> Done
    requires { OnOk done (W.failed out.old < 2 ^ 64 - 1) }
    ensures { WritesAfter W.contents W.failed done result out.old out.new (title_text count total) }
{
    let done = returned_after(done, out, b"<text x='32' y='14'>the first ", count);
    let done = returned_after(done, out, b" of ", total);
    put_after(done, out, b" calls</text>\n")
}

/// Writes a film of these scenes, each with its line, of this size and of this square of the plane.
///
/// It takes no memory, and ends with a flush. The count of failures must be below its greatest value.
///
/// # Errors
///
/// Fails with `WriteFault` only if the writer failed in this call; the output is then a prefix of the text.
pub(crate) fn write_film<W: Sink>(
    out: &mut W,
    size: u64,
    frame: &Option<Frame>,
    scenes: &[Scene],
    lines: &[Line],
) -> Done
    requires space { W.failed out.old < 2 ^ 64 - 1 }
    requires small { size < 2 ^ 20 }
    requires few { length scenes.now ≤ FRAME_LIMIT }
    ensures { WritesText (W.contents out.old) (W.contents out.new) (W.failed out.old) (W.failed out.new) result
        (film_text size frame.now scenes.now lines.now) }
{
    let done = head_after(Ok(()), out, size, 206);
    let done = put_after(done, out, FILM_STYLE);
    let done = title_after(done, out, scenes.len(), lines.len());
    let done = frames_after(done, out, size, frame, scenes, lines);
    let done = put_after(done, out, b"</svg>\n");
    flush_after(done, out)
}
