//! Compacted journals, as texts.
ghost use Rattle.std.specs.Prelude.{◌<◌, ◌-◌, ◌^◌};

use hull_book::{CompactRefusal, Journal, Line};
use hull_plain::PlainSet;
use hull_set::{Call, Reply, Rules};
use hull_text::{
    CompactFault, Counted, Sink, Source, TextFault, WriteFault, compact, read_journal,
    write_journal,
};
use lattice::Point;
use std::alloc::Global;
use std::test::Fail;
use text_io::testing::{Pieces, Spout};

/// Points added in another order than theirs, some of them often, refused, or removed again.
const LONG: &[u8] =
    b"hullbook journal 3 first 18446744073709551614 limit 3 capacity 16\n18446744073709551614 0 add 5 5 = added\n18446744073709551615 1 add -1 3 = added\n0 0 add 5 5 = again 2\n1 1 add 7 7 = added\n2 0 add 9 9 = toomany\n3 0 remove 7 7 = removed\n4 1 add 5 5 = again 3\n5 0 remove 5 5 = left 2\n6 0 add -1 -4 = nomemory\n7 0 add -1 -4 = added\n8 1 count = count 3\nend 11\n";

/// Its compacted text.
const SHORT: &[u8] =
    b"hullbook journal 3 first 9 limit 3 capacity 16\n9 0 add -1 -4 = added\n10 0 add -1 3 = added\n11 0 add 5 5 = added\n12 0 add 5 5 = again 2\nend 4\n";

// Compacts a text by a replay on a plain set.
fn make_short<R: Source, W: Sink>(
    alloc: Global,
    source: &mut R,
    out: &mut W,
) -> Result<(), CompactFault>
    requires reads { R.failed source.old < 2 ^ 64 - 1 }
    requires writes { W.failed out.old < 2 ^ 64 - 1 }
{
    compact(alloc, |limit| PlainSet::new(alloc, limit), source, out)
}

// Returns the result of compacting a text, and what was written.
fn compacted(
    alloc: Global,
    text: &[u8],
    size: usize,
) -> Result<(Result<(), CompactFault>, Vec<u8>), Fail> {
    let mut source = Counted::new(Pieces::new(text, size));
    let mut out = Counted::new(Spout::new(alloc, 512, size)?);
    let outcome = make_short(alloc, &mut source, &mut out);
    let written = out.get_ref().bytes().to_vec(alloc)?;
    Ok((outcome, written))
}

#[test]
fn the_points_that_are_left_stand_in_order(rt: HostRuntime) -> Result<(), Fail> {
    for size in [1, 3, 4096] {
        let (outcome, written) = compacted(rt.alloc(), LONG, size)?;
        assert_eq!(rt; outcome, Ok(()));
        assert!(rt; written.as_slice() == SHORT);
    }
    Ok(())
}

#[test]
fn a_refused_journal_leaves_nothing_written(rt: HostRuntime) -> Result<(), Fail> {
    let rows: [(&[u8], CompactFault); 5] = [
        (
            b"hullbook journal 2 first 0 limit 4 capacity 4\n0 0 add 5 5 = added\nend 1\n",
            CompactFault::Refused(CompactRefusal::Rules),
        ),
        (
            b"hullbook journal 1 first 0 limit 4 capacity 4\n7 0 add 5 5 = added\nend 1\n",
            CompactFault::Refused(CompactRefusal::Rules),
        ),
        (
            b"hullbook journal 3 first 0 limit 4 capacity 4\n0 0 add 5 5 = added\n2 0 count = count 1\nend 2\n",
            CompactFault::Refused(CompactRefusal::Wrong(1)),
        ),
        (
            b"hullbook journal 3 first 0 limit 4 capacity 1\n0 0 add 5 5 = added\n1 0 add 5 5 = again 2\nend 2\n",
            CompactFault::Refused(CompactRefusal::Wrong(1)),
        ),
        (
            b"hullbook journal 3 first 0 limit 4 capacity 4\n0 0 add 5 5 = added\n",
            CompactFault::Text(TextFault { number: 6, line: 3 }),
        ),
    ];
    for (text, fault) in rows {
        let mut source = Counted::new(Pieces::new(text, 3));
        let mut out = Counted::new(Spout::new(rt.alloc(), 256, 3)?);
        assert_eq!(rt; make_short(rt.alloc(), &mut source, &mut out), Err(fault));
        assert_eq!(rt; out.get_ref().calls(), 0);
    }
    Ok(())
}

#[test]
fn a_failing_read_uses_no_call_of_the_output(rt: HostRuntime) -> Result<(), Fail> {
    let mut source = Counted::new(Pieces::new(LONG, 1).failing_at(67));
    let mut out = Counted::new(Spout::new(rt.alloc(), 256, 1)?);
    let fault = TextFault { number: 8, line: 2 };
    assert_eq!(rt;
        make_short(rt.alloc(), &mut source, &mut out),
        Err(CompactFault::Text(fault))
    );
    assert_eq!(rt; (source.failures(), out.get_ref().calls()), (1, 0));
    Ok(())
}

#[test]
fn each_failing_write_of_a_short_journal_leaves_a_beginning(rt: HostRuntime) -> Result<(), Fail> {
    for call in 1..=SHORT.len() as u64 {
        let mut source = Counted::new(Pieces::new(LONG, 4096));
        let mut out = Counted::new(Spout::new(rt.alloc(), 256, 1)?.failing_at(call));
        assert_eq!(rt;
            make_short(rt.alloc(), &mut source, &mut out),
            Err(CompactFault::Write(WriteFault))
        );
        assert_eq!(rt; out.failures(), 1);
        let spout = out.into_inner();
        assert_eq!(rt; spout.calls(), call);
        assert!(rt; SHORT.starts_with(spout.bytes()));
    }
    Ok(())
}

// Returns a journal that adds points of a row, the last first, and each of them again and again.
fn row_journal(alloc: Global, points: u32, multiplicity: u32) -> Result<Journal, Fail> {
    let mut lines = Vec::new(alloc);
    for time in 1..=multiplicity {
        for i in 0..points {
            let call = Call::Add(Point::new(i64::from(points) - i64::from(i), 0)?);
            let reply = if time > 1 {
                Reply::Again(time)
            } else {
                Reply::Added
            };
            lines.push(Line::new(lines.len() as u64, 3, call, reply))?;
        }
    }
    Ok(Journal::new(
        0,
        points,
        points.wrapping_mul(multiplicity),
        lines,
        Rules::Counted,
    )
    .ok_or("a limit")?)
}

// Whether the lines of a short journal add the points of a row, each of them twenty times.
fn adds_a_row(short: &Journal) -> bool {
    let mut all = short.lines().len() == 6000;
    for (i, line) in short.lines().iter().enumerate() {
        let x = match line.call {
            Call::Add(p) => p.x(),
            _ => 0,
        };
        all = x == (i / 20) as i64 + 1 && (line.number, line.seat) == (i as u64 + 6000, 0) && all;
    }
    all
}

/// A journal of only additions has as many lines after it is compacted: sorted, and each point's together.
#[test]
fn thousands_of_additions_come_in_order(rt: HostRuntime) -> Result<(), Fail> {
    let long = row_journal(rt.alloc(), 300, 20)?;
    let (head, all) = match hull_book::compact(
        rt.alloc(),
        PlainSet::new(rt.alloc(), long.limit()),
        &long,
    ) {
        Ok(short) => (
            (short.first(), short.limit(), short.capacity()),
            adds_a_row(&short),
        ),
        Err(_) => panic!(rt; "it is legal"),
    };
    drop(long);
    assert!(rt; all && head == (6000, 300, 6000));
    Ok(())
}

/// The written text is read again, and leaves the same.
#[test]
fn a_short_journal_is_made_short_again(rt: HostRuntime) -> Result<(), Fail> {
    let journal = match read_journal(rt.alloc(), &mut Counted::new(Pieces::new(SHORT, 7))) {
        Ok(journal) => journal,
        Err(_) => return Err(Fail::new("a journal")),
    };
    let set = PlainSet::new(rt.alloc(), journal.limit());
    let Ok(again) = hull_book::compact(rt.alloc(), set, &journal) else {
        return Err(Fail::new("it is legal"));
    };
    assert_eq!(rt; again.first(), 13);
    let mut out = Counted::new(Spout::new(rt.alloc(), 512, 64)?);
    assert_eq!(rt; write_journal(&again, &mut out), Ok(()));
    let want =
        b"hullbook journal 3 first 13 limit 3 capacity 16\n13 0 add -1 -4 = added\n14 0 add -1 3 = added\n15 0 add 5 5 = added\n16 0 add 5 5 = again 2\nend 4\n";
    assert!(rt; out.get_ref().bytes() == want.as_slice());
    Ok(())
}
