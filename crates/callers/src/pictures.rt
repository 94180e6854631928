//! A caller of `hull_draw`.
ghost use Rattle.std.specs.Prelude.{◌<◌, ◌^◌, ◌-◌};

use heap::Heap;
use hull_draw::{DrawFault, DrawOptions, draw};
use text_io::{Sink, Source};

/// Draws the set that a journal leaves, with the bridges that its tree stores, 640 points wide.
pub fn draw_tree<I: Source, O: Sink>(
    alloc: Heap,
    journal: &mut I,
    picture: &mut O,
) -> Result<(), DrawFault>
    requires reads { I.failed journal.old < 2 ^ 64 - 1 }
    requires writes { O.failed picture.old < 2 ^ 64 - 1 }
{
    let options = DrawOptions {
        line: None,
        bridges: true,
        size: 640,
    };
    draw(alloc, journal, picture, &options)
}
