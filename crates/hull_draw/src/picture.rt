ghost use Rattle.std.specs.Prelude.{◌≡◌, ◌<◌, ◌-◌, ◌^◌, OnOk};
ghost use Rattle.text_io.specs.Write.{WritesAfter, WritesText};
ghost use Rattle.hull_draw.specs.Pictures.{set_text, shown_text, head_text, picture_text};

use super::frame::Frame;
use super::labels::labels_after;
use super::legend::legend_after;
use super::scene::Scene;
use super::shapes::{returned_after, shapes_after, square_after};
use text_io::{Done, Sink, flush_after, put_after};

/// The background, and the colours of the parts of a picture: dots and lines keep their width at any scale. Of the
/// bridges (`u` and `l`) those of the root (`v0`) are the widest.
pub const STYLE: &[u8] =
    b"<rect width='100%' height='100%' fill='#fff'/>\n<style>text{font:14px sans-serif;fill:#222}path,polygon{fill:none;vector-effect:non-scaling-stroke;stroke-linecap:round;stroke-linejoin:round}.h{fill:#dbe9f6;stroke:#1f5f99;stroke-width:2}.p{stroke:#6b7a89;stroke-width:5}.c{stroke:#1f5f99;stroke-width:9}.u{stroke:#c0392b}.l{stroke:#1e8449}.v0{stroke-width:6}.v1{stroke-width:4.5}.v2{stroke-width:3}.v3{stroke-width:2}.t{font-size:12px;fill:#a33;paint-order:stroke;stroke:#fff;stroke-width:3px}.w{fill:#c00}</style>\n";

/// The text in place of an empty set.
pub const EMPTY: &[u8] = b"<text x='32' y='46'>the set is empty</text>\n";

/// Writes the shapes in their square, and the labels.
fn set_after<W: Sink>(done: Done, out: &mut W, size: u64, frame: &Frame, scene: &Scene) -> Done
    requires space { OnOk done (W.failed out.old < 2 ^ 64 - 1) }
    requires small { size < 2 ^ 20 }
    ensures { WritesAfter W.contents W.failed done result out.old out.new (set_text size frame.now scene.now) }
{
    let done = square_after(done, out, size, frame.side());
    let done = shapes_after(done, out, frame, scene);
    let done = put_after(done, out, b"</svg>\n");
    labels_after(done, out, size, frame, &scene.marks)
}

/// Writes the set, or that it is empty.
pub(crate) fn shown_after<W: Sink>(
    done: Done,
    out: &mut W,
    size: u64,
    frame: &Option<Frame>,
    scene: &Scene,
) -> Done
    requires space { OnOk done (W.failed out.old < 2 ^ 64 - 1) }
    requires small { size < 2 ^ 20 }
    ensures { WritesAfter W.contents W.failed done result out.old out.new (shown_text size frame.now scene.now) }
{
    match frame {
        None => put_after(done, out, EMPTY),
        Some(frame) => set_after(done, out, size, frame, scene),
    }
}

/// Begins a picture, so much higher than its square.
pub(crate) fn head_after<W: Sink>(done: Done, out: &mut W, size: u64, below: u64) -> Done
    requires space { OnOk done (W.failed out.old < 2 ^ 64 - 1) }
    requires small { size < 2 ^ 20 }
    requires near { below < 2 ^ 20 }
    ensures { WritesAfter W.contents W.failed done result out.old out.new (head_text size below) }
{
    let start = b"<svg xmlns='http://www.w3.org/2000/svg' width='";
    let done = returned_after(done, out, start, size + 64);
    let done = returned_after(done, out, b"' height='", size + below);
    let done = put_after(done, out, b"'>\n");
    put_after(done, out, STYLE)
}

/// Writes a picture of a scene, of this size and of this square of the plane.
///
/// It takes no memory, and ends with a flush. The count of failures must be below its greatest value.
///
/// # Errors
///
/// Fails with `WriteFault` only if the writer failed in this call; the output is then a prefix of the text.
pub(crate) fn write_picture<W: Sink>(
    out: &mut W,
    size: u64,
    frame: &Option<Frame>,
    scene: &Scene,
) -> Done
    requires space { W.failed out.old < 2 ^ 64 - 1 }
    requires small { size < 2 ^ 20 }
    ensures { WritesText (W.contents out.old) (W.contents out.new) (W.failed out.old) (W.failed out.new) result
        (picture_text size frame.now scene.now) }
{
    let done = head_after(Ok(()), out, size, 184);
    let done = shown_after(done, out, size, frame, scene);
    let done = legend_after(done, out, size, frame, scene);
    let done = put_after(done, out, b"</svg>\n");
    flush_after(done, out)
}
