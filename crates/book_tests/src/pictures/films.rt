//! The film of a small journal, byte for byte, and how a film ends if a device fails.
use super::HEAD;
use hull_draw::{DrawFault, film};
use hull_text::TextFault;
use std::alloc::Global;
use std::test::Fail;
use text_io::Counted;
use text_io::testing::{Pieces, Spout};

/// A point, the tangents from another point, its vertices, and a fourth line that is wrong.
const SHORT: &str =
    "hullbook journal 3 first 0 limit 4 capacity 9\n0 0 add 0 0 = added\n1 0 tangents 4 0 = tangents 0 0 0 0\n2 0 vertices = list 1 0 0\n3 0 add 0 0 = added\nend 4\n";

/// Its film after the head.
const SHORT_FILM: &str =
    "<style>.q{stroke:#7d3c98;stroke-width:11}.x{stroke:#c00;stroke-width:11}.f{stroke:#d35400;stroke-width:3}.e{stroke:#d35400;stroke-width:13}.b{font-weight:bold}</style>\n<text x='32' y='14'>the first 4 of 4 calls</text>\n<g><set attributeName='display' to='none' begin='-1s' end='0s'/><set attributeName='display' to='none' begin='1s'/>\n<svg x='32' y='32' overflow='visible' width='240' height='240' viewBox='0 0 4 4'>\n<polygon class='h' points='0,2 '/>\n<path class='p' d='M0 2h0'/>\n<path class='c' d='M0 2h0'/>\n</svg>\n<svg x='32' y='32' overflow='visible' width='240' height='240' viewBox='0 0 4 4'>\n<path class='q' d='M0 2h0'/>\n</svg>\n<text x='32' y='316'>points 1 (limit 4)</text>\n<text x='32' y='338'>doubled area 0</text>\n<text x='32' y='360'>x 0 to 4, y 0 to 0</text>\n<text x='32' y='382'>calls 1</text>\n<text x='32' y='404' class='b'> add 0 0</text>\n<text x='32' y='426' class='b'>= added</text>\n</g>\n<g><set attributeName='display' to='none' begin='-1s' end='1s'/><set attributeName='display' to='none' begin='2s'/>\n<svg x='32' y='32' overflow='visible' width='240' height='240' viewBox='0 0 4 4'>\n<polygon class='h' points='0,2 '/>\n<path class='p' d='M0 2h0'/>\n<path class='c' d='M0 2h0'/>\n</svg>\n<svg x='32' y='32' overflow='visible' width='240' height='240' viewBox='0 0 4 4'>\n<path class='f' d='M4 2L0 2M4 2L0 2'/>\n<path class='q' d='M4 2h0'/>\n</svg>\n<text x='32' y='316'>points 1 (limit 4)</text>\n<text x='32' y='338'>doubled area 0</text>\n<text x='32' y='360'>x 0 to 4, y 0 to 0</text>\n<text x='32' y='382'>calls 2</text>\n<text x='32' y='404' class='b'> tangents 4 0</text>\n<text x='32' y='426' class='b'>= tangents 0 0 0 0</text>\n</g>\n<g><set attributeName='display' to='none' begin='-1s' end='2s'/><set attributeName='display' to='none' begin='3s'/>\n<svg x='32' y='32' overflow='visible' width='240' height='240' viewBox='0 0 4 4'>\n<polygon class='h' points='0,2 '/>\n<path class='p' d='M0 2h0'/>\n<path class='c' d='M0 2h0'/>\n</svg>\n<svg x='32' y='32' overflow='visible' width='240' height='240' viewBox='0 0 4 4'>\n</svg>\n<text x='32' y='316'>points 1 (limit 4)</text>\n<text x='32' y='338'>doubled area 0</text>\n<text x='32' y='360'>x 0 to 4, y 0 to 0</text>\n<text x='32' y='382'>calls 3</text>\n<text x='32' y='404' class='b'> vertices</text>\n<text x='32' y='426' class='b'>= list 1 0 0</text>\n</g>\n<g><set attributeName='display' to='none' begin='-1s' end='3s'/>\n<svg x='32' y='32' overflow='visible' width='240' height='240' viewBox='0 0 4 4'>\n<polygon class='h' points='0,2 '/>\n<path class='p' d='M0 2h0'/>\n<path class='c' d='M0 2h0'/>\n</svg>\n<svg x='32' y='32' overflow='visible' width='240' height='240' viewBox='0 0 4 4'>\n<path class='q' d='M0 2h0'/>\n</svg>\n<text x='32' y='316'>points 1 (limit 4)</text>\n<text x='32' y='338'>doubled area 0</text>\n<text x='32' y='360'>x 0 to 4, y 0 to 0</text>\n<text x='32' y='382'>calls 3<tspan class='w'>; line 5 is wrong</tspan></text>\n<text x='32' y='404' class='b'> add 0 0</text>\n<text x='32' y='426' class='b'>= added</text>\n</g>\n</svg>\n";

// How a film ends with a read and a write that fail, and how many bytes it wrote.
fn ends(alloc: Global, reads: u64, writes: u64) -> Result<(Result<(), DrawFault>, usize), Fail> {
    let mut input = Counted::new(Pieces::new(SHORT.as_bytes(), 7).failing_at(reads));
    let mut output = Counted::new(Spout::new(alloc, 16384, 5)?.failing_at(writes));
    let ended = film(alloc, &mut input, &mut output, 240);
    Ok((ended, output.get_ref().bytes().len()))
}

#[test]
fn film_of_a_small_journal(rt: HostRuntime) -> Result<(), Fail> {
    let mut input = Counted::new(Pieces::new(SHORT.as_bytes(), 7));
    let mut output = Counted::new(Spout::new(rt.alloc(), 16384, 5)?);
    assert_eq!(rt; film(rt.alloc(), &mut input, &mut output, 240), Ok(()));
    let bytes = output.get_ref().bytes();
    assert_eq!(rt; bytes.len(), HEAD.len() + SHORT_FILM.len());
    assert!(rt;
        bytes.starts_with(b"<svg xmlns='http://www.w3.org/2000/svg' width='304' height='446'>\n")
    );
    assert!(rt; bytes.ends_with(SHORT_FILM.as_bytes()));
    Ok(())
}

#[test]
fn faults_of_a_film_are_encoded(rt: HostRuntime) -> Result<(), Fail> {
    let read = DrawFault::Text(TextFault { number: 8, line: 1 });
    assert_eq!(rt; ends(rt.alloc(), 2, 0)?, (Err(read), 0));
    assert_eq!(rt; ends(rt.alloc(), 0, 1)?, (Err(DrawFault::Write), 0));
    assert_eq!(rt; ends(rt.alloc(), 0, 3)?, (Err(DrawFault::Write), 10));
    Ok(())
}
