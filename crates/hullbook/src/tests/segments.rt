//! A journal in segments.
ghost use Rattle.std.specs.Prelude.{map};
ghost use Rattle.hullbook.specs.Segments.{any_files};

use crate::segments::{SegmentFault, Segments, SegmentsFault, WrongLine, check_segments};
use hull_text::TextFault;
use std::alloc::Global;
use std::io;
use std::io::ErrorKind;
use std::test::Fail;
use text_io::Counted;
use text_io::testing::{Pieces, Spout};

const FIRST: &str =
    "hullbook journal 3 first 7 limit 4 capacity 4\n7 0 add 0 0 = added\n8 1 add 4 0 = added\nend 2\n";

const SECOND: &str =
    "hullbook journal 3 first 9 limit 4 capacity 4\n9 0 add 0 0 = again 2\nend 1\n";

const THIRD: &str = "hullbook journal 3 first 10 limit 4 capacity 4\n10 1 count = count 2\nend 1\n";

/// Texts by their names. The segments after the first are read by a device that fails at a call, and an empty one is
/// not opened because memory is refused.
#[derive(Drop)]
struct Texts<'a> {
    names: &'a [&'a str],
    texts: &'a [&'a str],
    failing: u64,
}

impl<'a> Segments for Texts<'a> {
    type Input = Counted<Pieces<'a>>;

    ghost given = { λ segments. any_files (map (λ name. name.now) segments.names.now) };

    fn count(&self) -> usize {
        self.names.len()
    }

    fn name(&self, segment: usize) -> &str {
        self.names[segment]
    }

    fn open(&self, segment: usize) -> io::Result<Counted<Pieces<'a>>> {
        let Some(text) = self.texts.get(segment) else {
            return Err(io::Error::from(ErrorKind::NotFound));
        };
        if text.is_empty() {
            return Err(io::Error::from(ErrorKind::OutOfMemory));
        }
        let failing = if segment == 0 { 0 } else { self.failing };
        Ok(Counted::new(Pieces::new(text.as_bytes(), 7).failing_at(failing)))
    }
}

// Returns the outcome of a check of these segments, if it writes this.
fn ends(
    alloc: Global,
    texts: &[&str],
    failing: u64,
    wanted: &str,
) -> Result<Option<Result<Option<WrongLine>, SegmentsFault>>, Fail> {
    let segments = Texts {
        names: &["a", "b", "c"],
        texts,
        failing,
    };
    let mut output = Counted::new(Spout::new(alloc, 64, 5)?);
    let ended = check_segments(alloc, &segments, &mut output);
    Ok((output.get_ref().bytes() == wanted.as_bytes()).then_some(ended))
}

#[test]
fn segments_are_judged(rt: HostRuntime) -> Result<(), Fail> {
    let wrong = WrongLine {
        segment: 2,
        place: 0,
    };
    assert_eq!(rt;
        ends(rt.alloc(), &[FIRST, SECOND, THIRD], 0, "legal\n")?,
        Some(Ok(None))
    );
    assert_eq!(rt;
        ends(rt.alloc(), &[FIRST, SECOND, SECOND], 0, "illegal 2 in c\n")?,
        Some(Ok(Some(wrong)))
    );
    Ok(())
}

#[test]
fn faults_of_segments_are_returned(rt: HostRuntime) -> Result<(), Fail> {
    let read = SegmentFault::Text(TextFault { number: 8, line: 1 });
    assert_eq!(rt;
        ends(rt.alloc(), &[FIRST, SECOND, THIRD], 2, "")?,
        Some(Err(SegmentsFault::Segment(1, read)))
    );
    assert_eq!(rt;
        ends(rt.alloc(), &[FIRST, SECOND, ""], 0, "")?,
        Some(Err(SegmentsFault::Segment(2, SegmentFault::OpenMemory)))
    );
    assert_eq!(rt;
        ends(rt.alloc(), &[FIRST, SECOND], 0, "")?,
        Some(Err(SegmentsFault::Segment(2, SegmentFault::Open)))
    );
    Ok(())
}
