ghost use Rattle.std.specs.Prelude.{◌≡◌, ◌<◌, ◌≤◌, ◌-◌, ◌^◌, OnOk, None};
ghost use Rattle.text_io.specs.Write.{WritesAfter};
ghost use Rattle.hull_draw.specs.Texts.{texts};
ghost use Rattle.hull_draw.specs.Labels.{place_on_screen, label_place, is_clear, has_label, labelled};
ghost use Rattle.hull_draw.specs.Labels.{label_text, mark_label_text, labels_text};

use super::frame::Frame;
use super::marks::{LABEL_LIMIT, Mark};
use super::shapes::returned_after;
use lattice::Point;
use text_io::{Done, Sink, put_after};

/// How far to the left or to the right of the last label the next one is clear of it, in points of the screen.
pub const LABEL_WIDTH: u64 = 18;

/// How far above or below the last label the next one is clear of it, in points of the screen.
pub const LABEL_HEIGHT: u64 = 13;

/// The spot at which a label begins, in points of the screen.
#[derive(Clone, Copy)]
pub(crate) struct Spot {
    /// How far from the left edge of the picture.
    x: u64,
    /// How far from its upper edge.
    y: u64,
}

/// Returns the distance from an edge of the screen's square, for a distance from that of the plane's.
fn place_on_screen(size: u64, frame: &Frame, distance: u64) -> u64
    requires small { size < 2 ^ 20 }
    requires near { distance ≤ 2 ^ 42 }
    ensures value { result ≡ place_on_screen size frame.now distance }
    ensures small { result ≤ 2 ^ 62 }
{
    distance * size / frame.side()
}

/// Returns the spot at which the label beside a point begins.
fn label_place(size: u64, frame: &Frame, point: Point) -> Spot
    requires small { size < 2 ^ 20 }
    ensures { result ≡ label_place size frame.now point }
{
    Spot {
        x: place_on_screen(size, frame, frame.across(point)) + 39,
        y: place_on_screen(size, frame, frame.down(point)) + 26,
    }
}

/// Whether a label at the second spot is clear of the one at the first, if there is one.
fn is_clear(last: Option<Spot>, place: Spot) -> bool
    ensures { result ≡ is_clear last place }
{
    match last {
        None => true,
        Some(last) => {
            last.x.abs_diff(place.x) >= LABEL_WIDTH || last.y.abs_diff(place.y) >= LABEL_HEIGHT
        }
    }
}

/// Whether a point of this multiplicity has a label at its spot, if the last one before it is at `last`.
fn has_label(last: Option<Spot>, place: Spot, multiplicity: u32) -> bool
    ensures { result ≡ has_label last place multiplicity }
{
    multiplicity != 1 && is_clear(last, place)
}

/// Writes a label.
fn label_after<W: Sink>(done: Done, out: &mut W, place: Spot, multiplicity: u32) -> Done
    requires { OnOk done (W.failed out.old < 2 ^ 64 - 1) }
    ensures { WritesAfter W.contents W.failed done result out.old out.new (label_text place multiplicity) }
{
    let done = returned_after(done, out, b"<text class='t' x='", place.x);
    let done = returned_after(done, out, b"' y='", place.y);
    let done = returned_after(done, out, b"'>", multiplicity);
    put_after(done, out, b"</text>\n")
}

/// Writes the labels of those marks that have one.
#[tactic(auto, using(text_io::proofs::Chains::chained_start, text_io::proofs::Chains::chained_end))]
fn all_labels_after<W: Sink>(
    done: Done,
    out: &mut W,
    size: u64,
    frame: &Frame,
    marks: &[Mark],
) -> Done
    requires space { OnOk done (W.failed out.old < 2 ^ 64 - 1) }
    requires small { size < 2 ^ 20 }
    ensures { WritesAfter W.contents W.failed done result out.old out.new
        (texts (mark_label_text size frame.now) (labelled size frame.now None marks.now)) }
{
    let mut done = done;
    let mut rest = marks;
    let mut last = None;
    while let Some((mark, after)) = rest.split_first() {
        let place = label_place(size, frame, mark.point);
        if has_label(last, place, mark.multiplicity) {
            done = label_after(done, out, place, mark.multiplicity);
            last = Some(place);
        }
        rest = after;
    }
    done
}

/// Writes the labels, if the marks are few enough.
pub(crate) fn labels_after<W: Sink>(
    done: Done,
    out: &mut W,
    size: u64,
    frame: &Frame,
    marks: &[Mark],
) -> Done
    requires space { OnOk done (W.failed out.old < 2 ^ 64 - 1) }
    requires small { size < 2 ^ 20 }
    ensures { WritesAfter W.contents W.failed done result out.old out.new (labels_text size frame.now marks.now) }
{
    let readable = if marks.len() <= LABEL_LIMIT {
        marks
    } else {
        &[]
    };
    all_labels_after(done, out, size, frame, readable)
}
