//! Pictures of small journals, byte for byte, and how a drawing ends if a device fails.
mod films;

ghost use Rattle.std.specs.Prelude.{◌<◌, ◌^◌};

use crate::devices::device;
use hull_draw::{DrawFault, DrawOptions, draw};
use hull_text::TextFault;
use std::alloc::Global;
use std::test::Fail;
use text_io::Counted;
use text_io::testing::{Pieces, Spout};

/// A triangle, one of whose vertices has multiplicity two.
const TRIANGLE: &str =
    "hullbook journal 3 first 0 limit 4 capacity 9\n0 0 add 0 0 = added\n1 0 add 4 0 = added\n2 0 add 2 3 = added\n3 0 add 2 3 = again 2\nend 4\n";

/// The third line is wrong.
const WRONG: &str =
    "hullbook journal 3 first 0 limit 4 capacity 9\n0 0 add 0 0 = added\n1 0 add 4 0 = added\n2 0 add 2 3 = again 2\nend 3\n";

const ALL: DrawOptions = DrawOptions {
    line: None,
    bridges: false,
    size: 200,
};

// The beginning of each picture.
const HEAD: &str =
    "<svg xmlns='http://www.w3.org/2000/svg' width='264' height='384'>\n<rect width='100%' height='100%' fill='#fff'/>\n<style>text{font:14px sans-serif;fill:#222}path,polygon{fill:none;vector-effect:non-scaling-stroke;stroke-linecap:round;stroke-linejoin:round}.h{fill:#dbe9f6;stroke:#1f5f99;stroke-width:2}.p{stroke:#6b7a89;stroke-width:5}.c{stroke:#1f5f99;stroke-width:9}.u{stroke:#c0392b}.l{stroke:#1e8449}.v0{stroke-width:6}.v1{stroke-width:4.5}.v2{stroke-width:3}.v3{stroke-width:2}.t{font-size:12px;fill:#a33;paint-order:stroke;stroke:#fff;stroke-width:3px}.w{fill:#c00}</style>\n";

const TRIANGLE_DRAWN: &str =
    "<svg x='32' y='32' overflow='visible' width='200' height='200' viewBox='0 0 4 4'>\n<polygon class='h' points='0,3 4,3 2,0 '/>\n<path class='p' d='M0 3h0M2 0h0M4 3h0'/>\n<path class='c' d='M0 3h0M4 3h0M2 0h0'/>\n</svg>\n<text class='t' x='139' y='26'>2</text>\n<text x='32' y='276'>points 3 (limit 4)</text>\n<text x='32' y='298'>doubled area 12</text>\n<text x='32' y='320'>x 0 to 4, y 0 to 3</text>\n<text x='32' y='342'>calls 4</text>\n</svg>\n";

const SEGMENT_DRAWN: &str =
    "<svg x='32' y='32' overflow='visible' width='200' height='200' viewBox='0 0 4 4'>\n<polygon class='h' points='0,2 4,2 '/>\n<path class='p' d='M0 2h0M4 2h0'/>\n<path class='c' d='M0 2h0M4 2h0'/>\n</svg>\n<text x='32' y='276'>points 2 (limit 4)</text>\n<text x='32' y='298'>doubled area 0</text>\n<text x='32' y='320'>x 0 to 4, y 0 to 0</text>\n<text x='32' y='342'>calls 2</text>\n</svg>\n";

const EMPTY_DRAWN: &str =
    "<text x='32' y='46'>the set is empty</text>\n<text x='32' y='276'>points 0 (limit 4)</text>\n<text x='32' y='298'>doubled area 0</text>\n<text x='32' y='342'>calls 0</text>\n</svg>\n";

const POINT_DRAWN: &str =
    "<svg x='32' y='32' overflow='visible' width='200' height='200' viewBox='0 0 2 2'>\n<polygon class='h' points='1,1 '/>\n<path class='p' d='M1 1h0'/>\n<path class='c' d='M1 1h0'/>\n</svg>\n<text x='32' y='276'>points 1 (limit 4)</text>\n<text x='32' y='298'>doubled area 0</text>\n<text x='32' y='320'>x 0 to 0, y 0 to 0</text>\n<text x='32' y='342'>calls 1</text>\n</svg>\n";

const WRONG_DRAWN: &str =
    "<svg x='32' y='32' overflow='visible' width='200' height='200' viewBox='0 0 4 4'>\n<polygon class='h' points='0,2 4,2 '/>\n<path class='p' d='M0 2h0M4 2h0'/>\n<path class='c' d='M0 2h0M4 2h0'/>\n</svg>\n<text x='32' y='276'>points 2 (limit 4)</text>\n<text x='32' y='298'>doubled area 0</text>\n<text x='32' y='320'>x 0 to 4, y 0 to 0</text>\n<text x='32' y='342'>calls 2<tspan class='w'>; line 4 is wrong</tspan></text>\n</svg>\n";

const BRIDGES_DRAWN: &str =
    "<svg x='32' y='32' overflow='visible' width='200' height='200' viewBox='0 0 4 4'>\n<polygon class='h' points='0,3 4,3 2,0 '/>\n<path class='p' d='M0 3h0M2 0h0M4 3h0'/>\n<path class='u v0' d='M2 0L4 3'/>\n<path class='l v0' d='M0 3L4 3'/>\n<path class='u v1' d='M0 3L2 0'/>\n<path class='l v1' d='M0 3L2 0'/>\n<path class='c' d='M0 3h0M4 3h0M2 0h0'/>\n</svg>\n<text class='t' x='139' y='26'>2</text>\n<text x='32' y='276'>points 3 (limit 4)</text>\n<text x='32' y='298'>doubled area 12</text>\n<text x='32' y='320'>x 0 to 4, y 0 to 3</text>\n<text x='32' y='342'>calls 4</text>\n<text x='32' y='364'>bridges of 8 levels: <tspan fill='#c0392b'>upper</tspan>, <tspan fill='#1e8449'>lower</tspan></text>\n</svg>\n";

// Whether the picture of the journal is this after its head.
fn draws(alloc: Global, journal: &str, options: &DrawOptions, wanted: &str) -> Result<bool, Fail>
    requires { options.now.size < 2 ^ 20 }
{
    let mut input = Counted::new(Pieces::new(journal.as_bytes(), 7));
    let mut output = Counted::new(Spout::new(alloc, 8192, 5)?);
    let ended = draw(alloc, &mut input, &mut output, options);
    let bytes = output.get_ref().bytes();
    let whole = bytes.len() == HEAD.len() + wanted.len();
    Ok(
        ended == Ok(())
            && whole
            && bytes.starts_with(HEAD.as_bytes())
            && bytes.ends_with(wanted.as_bytes()),
    )
}

#[test]
fn pictures_of_small_sets(rt: HostRuntime) -> Result<(), Fail> {
    let alloc = rt.alloc();
    for (line, wanted) in [
        (None, TRIANGLE_DRAWN),
        (Some(9), TRIANGLE_DRAWN),
        (Some(2), SEGMENT_DRAWN),
        (Some(1), POINT_DRAWN),
        (Some(0), EMPTY_DRAWN),
    ] {
        let options = DrawOptions { line, ..ALL };
        assert!(rt; draws(alloc, TRIANGLE, &options, wanted)?);
    }
    Ok(())
}

#[test]
fn stored_bridges_are_drawn(rt: HostRuntime) -> Result<(), Fail> {
    let options = DrawOptions {
        bridges: true,
        ..ALL
    };
    assert!(rt; draws(rt.alloc(), TRIANGLE, &options, BRIDGES_DRAWN)?);
    Ok(())
}

#[test]
fn wrong_line_is_encoded(rt: HostRuntime) -> Result<(), Fail> {
    assert!(rt; draws(rt.alloc(), WRONG, &ALL, WRONG_DRAWN)?);
    let before = DrawOptions {
        line: Some(2),
        ..ALL
    };
    assert!(rt; draws(rt.alloc(), WRONG, &before, SEGMENT_DRAWN)?);
    Ok(())
}

// How a drawing ends, and how many bytes it wrote.
fn ends_with(alloc: Global, source: Pieces<'_>, device: Spout) -> (Result<(), DrawFault>, usize) {
    let mut input = Counted::new(source);
    let mut output = Counted::new(device);
    let ended = draw(alloc, &mut input, &mut output, &ALL);
    (ended, output.get_ref().bytes().len())
}

// How a drawing of the triangle ends with a read and a write that fail, and how many bytes it wrote.
fn ends(alloc: Global, reads: u64, writes: u64) -> Option<(Result<(), DrawFault>, usize)> {
    let source = Pieces::new(TRIANGLE.as_bytes(), 7).failing_at(reads);
    let device = device(alloc, 8192, 5, writes, false)?;
    Some(ends_with(alloc, source, device))
}

#[test]
fn faults_are_encoded(rt: HostRuntime) -> Result<(), Fail> {
    let device = Spout::new(rt.alloc(), 8192, 5)?;
    let unknown = ends_with(rt.alloc(), Pieces::new(b"hullbook journal 4\n", 7), device);
    let reading = ends(rt.alloc(), 2, 0);
    let writing = [ends(rt.alloc(), 0, 1), ends(rt.alloc(), 0, 3)];
    let read = DrawFault::Text(TextFault { number: 8, line: 1 });
    let fault = DrawFault::Text(TextFault { number: 7, line: 1 });
    assert!(rt; reading == Some((Err(read), 0)) && unknown == (Err(fault), 0));
    assert!(rt;
        writing
            == [
                Some((Err(DrawFault::Write), 0)),
                Some((Err(DrawFault::Write), 10)),
            ]
    );
    Ok(())
}
