ghost use Rattle.std.specs.Prelude.{◌≡◌, ◌<◌, ◌≤◌, ◌+◌, ◌-◌, ◌^◌, OnOk};
ghost use Rattle.text_io.specs.Write.{WritesAfter};
ghost use Rattle.hull_draw.specs.Legends.{line_start, thinned_text, count_text, area_text, returned_signed, range_text};
ghost use Rattle.hull_draw.specs.Legends.{wrong_text, lines_text, bridges_returned_text, numbers_text, drawn_text};
ghost use Rattle.hull_draw.specs.Legends.{legend_text};
ghost use Rattle.hull_draw.specs.Shapes.{step_of};

use super::frame::Frame;
use super::marks::DRAWN_LIMIT;
use super::scene::Scene;
use super::shapes::returned_after;
use lattice::Point;
use leaf_trees::Bridge;
use text_io::{Done, Sink, number_after, put_after};

/// The words of the legend's line on bridges, in their colours, after its position.
pub const BRIDGES_RETURNED: &[u8] =
    b"'>bridges of 8 levels: <tspan fill='#c0392b'>upper</tspan>, <tspan fill='#1e8449'>lower</tspan></text>\n";

/// Begins a line of the legend, so far below the square.
pub(crate) fn line_start_after<W: Sink>(done: Done, out: &mut W, size: u64, below: u64) -> Done
    requires space { OnOk done (W.failed out.old < 2 ^ 64 - 1) }
    requires small { size < 2 ^ 20 }
    requires near { below < 2 ^ 20 }
    ensures { WritesAfter W.contents W.failed done result out.old out.new (line_start size below) }
{
    returned_after(done, out, b"<text x='32' y='", size + below)
}

/// Writes one of how many points is drawn, if not all are.
fn thinned_after<W: Sink>(done: Done, out: &mut W, step: usize) -> Done
    requires { OnOk done (W.failed out.old < 2 ^ 64 - 1) }
    ensures { WritesAfter W.contents W.failed done result out.old out.new (thinned_text step) }
{
    if step == 1 {
        return done;
    }
    let done = returned_after(done, out, b"; one of ", step);
    put_after(done, out, b" is drawn")
}

/// Writes how many points there are, and how many there may be.
fn count_after<W: Sink>(done: Done, out: &mut W, size: u64, count: usize, limit: u32) -> Done
    requires space { OnOk done (W.failed out.old < 2 ^ 64 - 1) }
    requires small { size < 2 ^ 20 }
    ensures { WritesAfter W.contents W.failed done result out.old out.new (count_text size count limit) }
{
    let done = line_start_after(done, out, size, 76);
    let done = returned_after(done, out, b"'>points ", count);
    let done = returned_after(done, out, b" (limit ", limit);
    let done = put_after(done, out, b")");
    let done = thinned_after(done, out, count / DRAWN_LIMIT + 1);
    put_after(done, out, b"</text>\n")
}

/// Writes the doubled area.
fn area_after<W: Sink>(done: Done, out: &mut W, size: u64, area: u128) -> Done
    requires space { OnOk done (W.failed out.old < 2 ^ 64 - 1) }
    requires small { size < 2 ^ 20 }
    ensures { WritesAfter W.contents W.failed done result out.old out.new (area_text size area) }
{
    let done = line_start_after(done, out, size, 98);
    let done = returned_after(done, out, b"'>doubled area ", area);
    put_after(done, out, b"</text>\n")
}

/// Writes words, and the first coordinate of a point after them.
fn x_after<W: Sink>(done: Done, out: &mut W, words: &[u8], point: Point) -> Done
    requires { OnOk done (W.failed out.old < 2 ^ 64 - 1) }
    ensures { WritesAfter W.contents W.failed done result out.old out.new (returned_signed words.now point.x) }
{
    let done = put_after(done, out, words);
    number_after(done, out, point.x())
}

/// Writes words, and the second coordinate of a point after them.
fn y_after<W: Sink>(done: Done, out: &mut W, words: &[u8], point: Point) -> Done
    requires { OnOk done (W.failed out.old < 2 ^ 64 - 1) }
    ensures { WritesAfter W.contents W.failed done result out.old out.new (returned_signed words.now point.y) }
{
    let done = put_after(done, out, words);
    number_after(done, out, point.y())
}

/// Writes the ranges of the points' coordinates.
fn range_after<W: Sink>(done: Done, out: &mut W, size: u64, frame: &Option<Frame>) -> Done
    requires space { OnOk done (W.failed out.old < 2 ^ 64 - 1) }
    requires small { size < 2 ^ 20 }
    ensures { WritesAfter W.contents W.failed done result out.old out.new (range_text size frame.now) }
{
    match frame {
        None => done,
        Some(frame) => {
            let done = line_start_after(done, out, size, 120);
            let done = x_after(done, out, b"'>x ", frame.left);
            let done = x_after(done, out, b" to ", frame.right);
            let done = y_after(done, out, b", y ", frame.bottom);
            let done = y_after(done, out, b" to ", frame.top);
            put_after(done, out, b"</text>\n")
        }
    }
}

/// Writes which line is wrong, if one is.
fn wrong_after<W: Sink>(done: Done, out: &mut W, wrong: Option<u32>) -> Done
    requires { OnOk done (W.failed out.old < 2 ^ 64 - 1) }
    ensures { WritesAfter W.contents W.failed done result out.old out.new (wrong_text wrong) }
{
    match wrong {
        None => done,
        Some(place) => {
            let words = b"<tspan class='w'>; line ";
            let done = returned_after(done, out, words, place as u64 + 2);
            put_after(done, out, b" is wrong</tspan>")
        }
    }
}

/// Writes how far the journal was replayed.
fn lines_after<W: Sink>(done: Done, out: &mut W, size: u64, lines: u32, wrong: Option<u32>) -> Done
    requires space { OnOk done (W.failed out.old < 2 ^ 64 - 1) }
    requires small { size < 2 ^ 20 }
    ensures { WritesAfter W.contents W.failed done result out.old out.new (lines_text size lines wrong) }
{
    let done = line_start_after(done, out, size, 142);
    let done = returned_after(done, out, b"'>calls ", lines);
    let done = wrong_after(done, out, wrong);
    put_after(done, out, b"</text>\n")
}

/// Writes which bridges are drawn, if any are.
fn bridges_returned_after<W: Sink>(done: Done, out: &mut W, size: u64, bridges: &[Bridge]) -> Done
    requires space { OnOk done (W.failed out.old < 2 ^ 64 - 1) }
    requires small { size < 2 ^ 20 }
    ensures { WritesAfter W.contents W.failed done result out.old out.new (bridges_returned_text size bridges.now) }
{
    match bridges {
        [] => done,
        [_, ..] => {
            let done = line_start_after(done, out, size, 164);
            put_after(done, out, BRIDGES_RETURNED)
        }
    }
}

/// Writes the numbers of the set.
fn numbers_after<W: Sink>(done: Done, out: &mut W, size: u64, scene: &Scene) -> Done
    requires space { OnOk done (W.failed out.old < 2 ^ 64 - 1) }
    requires small { size < 2 ^ 20 }
    ensures { WritesAfter W.contents W.failed done result out.old out.new (numbers_text size scene.now) }
{
    let done = count_after(done, out, size, scene.marks.len(), scene.limit);
    area_after(done, out, size, scene.area)
}

/// Writes how far the journal was replayed, and which bridges are drawn.
fn drawn_after<W: Sink>(done: Done, out: &mut W, size: u64, scene: &Scene) -> Done
    requires space { OnOk done (W.failed out.old < 2 ^ 64 - 1) }
    requires small { size < 2 ^ 20 }
    ensures { WritesAfter W.contents W.failed done result out.old out.new (drawn_text size scene.now) }
{
    let done = lines_after(done, out, size, scene.lines, scene.wrong);
    bridges_returned_after(done, out, size, &scene.bridges)
}

/// Writes the legend.
pub(crate) fn legend_after<W: Sink>(
    done: Done,
    out: &mut W,
    size: u64,
    frame: &Option<Frame>,
    scene: &Scene,
) -> Done
    requires space { OnOk done (W.failed out.old < 2 ^ 64 - 1) }
    requires small { size < 2 ^ 20 }
    ensures { WritesAfter W.contents W.failed done result out.old out.new (legend_text size frame.now scene.now) }
{
    let done = numbers_after(done, out, size, scene);
    let done = range_after(done, out, size, frame);
    drawn_after(done, out, size, scene)
}
