ghost use Rattle.std.specs.Prelude.{◌≡◌, ◌<◌, ◌≤◌, ◌-◌, ◌^◌, ◌++◌, OnOk, codes, decimal, length};
ghost use Rattle.text_io.specs.Write.{WritesAfter};
ghost use Rattle.hull_draw.specs.Texts.{texts};
ghost use Rattle.hull_draw.specs.Shapes.{vertex_text, polygon_text, dot_text, vertex_dots_text, every, mark_dot_text};
ghost use Rattle.hull_draw.specs.Shapes.{all_dots_text, bridge_line_text, bridge_text, square_text, shapes_text};

use super::frame::Frame;
use super::marks::{DRAWN_LIMIT, Mark};
use super::scene::Scene;
use itoa::Integer;
use lattice::Point;
use leaf_trees::Bridge;
use text_io::{Done, Sink, number_after, put_after};

/// Writes words, and a number after them.
pub(crate) fn returned_after<W: Sink, N: Integer>(
    done: Done,
    out: &mut W,
    words: &[u8],
    number: N,
) -> Done
    requires { OnOk done (W.failed out.old < 2 ^ 64 - 1) }
    ensures { WritesAfter W.contents W.failed done result out.old out.new (words.now ++ N.text number) }
{
    let done = put_after(done, out, words);
    number_after(done, out, number)
}

/// Writes a vertex of the polygon.
fn vertex_after<W: Sink>(done: Done, out: &mut W, frame: &Frame, point: Point) -> Done
    requires { OnOk done (W.failed out.old < 2 ^ 64 - 1) }
    ensures { WritesAfter W.contents W.failed done result out.old out.new (vertex_text frame.now point) }
{
    let done = number_after(done, out, frame.across(point));
    let done = returned_after(done, out, b",", frame.down(point));
    put_after(done, out, b" ")
}

/// Writes the vertices of the polygon.
#[tactic(auto, using(text_io::proofs::Chains::chained_start, text_io::proofs::Chains::chained_end))]
fn vertices_after<W: Sink>(done: Done, out: &mut W, frame: &Frame, points: &[Point]) -> Done
    requires { OnOk done (W.failed out.old < 2 ^ 64 - 1) }
    ensures { WritesAfter W.contents W.failed done result out.old out.new (texts (vertex_text frame.now) points.now) }
{
    let mut done = done;
    let mut rest = points;
    while let Some((point, after)) = rest.split_first() {
        done = vertex_after(done, out, frame, *point);
        rest = after;
    }
    done
}

/// Writes the polygon.
fn polygon_after<W: Sink>(done: Done, out: &mut W, frame: &Frame, points: &[Point]) -> Done
    requires { OnOk done (W.failed out.old < 2 ^ 64 - 1) }
    ensures { WritesAfter W.contents W.failed done result out.old out.new (polygon_text frame.now points.now) }
{
    let done = put_after(done, out, b"<polygon class='h' points='");
    let done = vertices_after(done, out, frame, points);
    put_after(done, out, b"'/>\n")
}

/// Writes a dot.
pub(crate) fn dot_after<W: Sink>(done: Done, out: &mut W, frame: &Frame, point: Point) -> Done
    requires { OnOk done (W.failed out.old < 2 ^ 64 - 1) }
    ensures { WritesAfter W.contents W.failed done result out.old out.new (dot_text frame.now point) }
{
    let done = returned_after(done, out, b"M", frame.across(point));
    let done = returned_after(done, out, b" ", frame.down(point));
    put_after(done, out, b"h0")
}

/// Writes the dots of points.
#[tactic(auto, using(text_io::proofs::Chains::chained_start, text_io::proofs::Chains::chained_end))]
fn dots_after<W: Sink>(done: Done, out: &mut W, frame: &Frame, points: &[Point]) -> Done
    requires { OnOk done (W.failed out.old < 2 ^ 64 - 1) }
    ensures { WritesAfter W.contents W.failed done result out.old out.new (texts (dot_text frame.now) points.now) }
{
    let mut done = done;
    let mut rest = points;
    while let Some((point, after)) = rest.split_first() {
        done = dot_after(done, out, frame, *point);
        rest = after;
    }
    done
}

/// Writes the dots at the vertices.
fn vertex_dots_after<W: Sink>(done: Done, out: &mut W, frame: &Frame, points: &[Point]) -> Done
    requires { OnOk done (W.failed out.old < 2 ^ 64 - 1) }
    ensures { WritesAfter W.contents W.failed done result out.old out.new (vertex_dots_text frame.now points.now) }
{
    let done = put_after(done, out, b"<path class='c' d='");
    let done = dots_after(done, out, frame, points);
    put_after(done, out, b"'/>\n")
}

/// Writes the dots of one of each so many marks.
#[tactic(auto, using(text_io::proofs::Chains::chained_start, text_io::proofs::Chains::chained_end))]
fn mark_dots_after<W: Sink>(
    done: Done,
    out: &mut W,
    frame: &Frame,
    step: usize,
    marks: &[Mark],
) -> Done
    requires space { OnOk done (W.failed out.old < 2 ^ 64 - 1) }
    requires step { 1 ≤ step }
    ensures { WritesAfter W.contents W.failed done result out.old out.new (texts (mark_dot_text frame.now) (every step 0 marks.now)) }
{
    let mut done = done;
    let mut rest = marks;
    let mut skip = 0;
    while let Some((mark, after)) = rest.split_first() {
        if skip == 0 {
            done = dot_after(done, out, frame, mark.point);
            skip = step - 1;
        } else {
            skip -= 1;
        }
        rest = after;
    }
    done
}

/// Writes the dots of the marks that are drawn.
fn all_dots_after<W: Sink>(done: Done, out: &mut W, frame: &Frame, marks: &[Mark]) -> Done
    requires { OnOk done (W.failed out.old < 2 ^ 64 - 1) }
    ensures { WritesAfter W.contents W.failed done result out.old out.new (all_dots_text frame.now marks.now) }
{
    let done = put_after(done, out, b"<path class='p' d='");
    let done = mark_dots_after(done, out, frame, marks.len() / DRAWN_LIMIT + 1, marks);
    put_after(done, out, b"'/>\n")
}

/// Writes a line from one end of a bridge to the other.
fn bridge_line_after<W: Sink>(
    done: Done,
    out: &mut W,
    frame: &Frame,
    words: &[u8],
    level: u32,
    ends: (Point, Point),
) -> Done
    requires { OnOk done (W.failed out.old < 2 ^ 64 - 1) }
    ensures { WritesAfter W.contents W.failed done result out.old out.new (bridge_line_text frame.now words.now level ends) }
{
    let done = returned_after(done, out, words, level);
    let done = returned_after(done, out, b"' d='M", frame.across(ends.0));
    let done = returned_after(done, out, b" ", frame.down(ends.0));
    let done = returned_after(done, out, b"L", frame.across(ends.1));
    let done = returned_after(done, out, b" ", frame.down(ends.1));
    put_after(done, out, b"'/>\n")
}

/// Writes both bridges of a fork.
fn bridge_after<W: Sink>(done: Done, out: &mut W, frame: &Frame, bridge: Bridge) -> Done
    requires { OnOk done (W.failed out.old < 2 ^ 64 - 1) }
    ensures { WritesAfter W.contents W.failed done result out.old out.new (bridge_text frame.now bridge) }
{
    let done = bridge_line_after(
        done,
        out,
        frame,
        b"<path class='u v",
        bridge.level,
        bridge.upper,
    );
    bridge_line_after(
        done,
        out,
        frame,
        b"<path class='l v",
        bridge.level,
        bridge.lower,
    )
}

/// Writes the bridges of forks.
#[tactic(auto, using(text_io::proofs::Chains::chained_start, text_io::proofs::Chains::chained_end))]
fn bridges_after<W: Sink>(done: Done, out: &mut W, frame: &Frame, bridges: &[Bridge]) -> Done
    requires { OnOk done (W.failed out.old < 2 ^ 64 - 1) }
    ensures { WritesAfter W.contents W.failed done result out.old out.new (texts (bridge_text frame.now) bridges.now) }
{
    let mut done = done;
    let mut rest = bridges;
    while let Some((bridge, after)) = rest.split_first() {
        done = bridge_after(done, out, frame, *bridge);
        rest = after;
    }
    done
}

/// Begins the square that the browser scales.
pub(crate) fn square_after<W: Sink>(done: Done, out: &mut W, size: u64, side: u64) -> Done
    requires { OnOk done (W.failed out.old < 2 ^ 64 - 1) }
    ensures { WritesAfter W.contents W.failed done result out.old out.new (square_text size side) }
{
    let start = b"<svg x='32' y='32' overflow='visible' width='";
    let done = returned_after(done, out, start, size);
    let done = returned_after(done, out, b"' height='", size);
    let done = returned_after(done, out, b"' viewBox='0 0 ", side);
    let done = returned_after(done, out, b" ", side);
    put_after(done, out, b"'>\n")
}

/// Writes the hull, the points, above them the bridges, and above these the vertices.
pub(crate) fn shapes_after<W: Sink>(done: Done, out: &mut W, frame: &Frame, scene: &Scene) -> Done
    requires { OnOk done (W.failed out.old < 2 ^ 64 - 1) }
    ensures { WritesAfter W.contents W.failed done result out.old out.new (shapes_text frame.now scene.now) }
{
    let done = polygon_after(done, out, frame, &scene.vertices);
    let done = all_dots_after(done, out, frame, &scene.marks);
    let done = bridges_after(done, out, frame, &scene.bridges);
    vertex_dots_after(done, out, frame, &scene.vertices)
}
