//! Worked examples of every call, as reports of scripts that one worker makes over an empty set.
ghost use Rattle.hullbook.specs.Tasks.{AreWithinLimits};

use super::{PLAIN, runs_to};
use crate::options::Options;
use std::alloc::Global;
use std::sync::Wait;
use std::test::Fail;
use std::thread::Threads;

// Whether a worker that makes these calls, each on a line before its reply, gets these replies, and the report has
// nothing else.
fn answers<R: Threads + Wait + Sync>(
    rt: &R,
    alloc: Global,
    options: &Options,
    calls: &str,
) -> Result<bool, Fail>
    requires { AreWithinLimits options.now }
{
    let mut script = String::new(alloc);
    let mut report = String::new(alloc);
    let mut count = 0u64;
    for line in calls.lines() {
        let (call, _) = line.split_once(" = ").unwrap_or((line, ""));
        writeln!(script, "0 {call}")?;
        writeln!(report, "0 {line}")?;
        count = count.saturating_add(1);
    }
    let capacity = options.capacity;
    writeln!(report, "ledger 0 {count}")?;
    writeln!(report, "sum {count} journal {count} capacity {capacity}")?;
    runs_to(rt, alloc, script.as_str(), options, report.as_str())
}

/// No point is farthest, each point is outside and has no tangents, and there is nothing to list.
#[test]
fn empty_set(rt: HostRuntime) -> Result<(), Fail> {
    let calls = "\
        extreme 1 0 = empty\n\
        place 0 0 = outside\n\
        tangents 0 0 = notangent\n\
        vertices = list 0\n\
        area = area 0\n\
        count = count 0\n";
    assert!(rt; answers(&rt, rt.alloc(), &PLAIN, calls)?);
    Ok(())
}

/// One point is a hull of its own, all of it boundary.
#[test]
fn one_point(rt: HostRuntime) -> Result<(), Fail> {
    let calls = "\
        add 3 4 = added\n\
        add 3 4 = again 2\n\
        vertices = list 1 3 4\n\
        extreme -1 0 = point 3 4\n\
        place 3 4 = on\n\
        place 3 5 = outside\n\
        tangents 0 0 = tangents 3 4 3 4\n\
        tangents 3 4 = notangent\n\
        area = area 0\n\
        count = count 1\n";
    assert!(rt; answers(&rt, rt.alloc(), &PLAIN, calls)?);
    Ok(())
}

/// A point that was added twice is there until it was removed twice.
#[test]
fn point_held_twice(rt: HostRuntime) -> Result<(), Fail> {
    let calls = "\
        add 0 0 = added\n\
        add 4 0 = added\n\
        add 2 3 = added\n\
        add 2 3 = again 2\n\
        remove 2 3 = left 1\n\
        vertices = list 3 0 0 4 0 2 3\n\
        area = area 12\n\
        remove 2 3 = removed\n\
        vertices = list 2 0 0 4 0\n";
    assert!(rt; answers(&rt, rt.alloc(), &PLAIN, calls)?);
    Ok(())
}

/// Removing a point that is not in the set changes nothing.
#[test]
fn absent_removal(rt: HostRuntime) -> Result<(), Fail> {
    let calls = "\
        remove 7 7 = absent\n\
        count = count 0\n";
    assert!(rt; answers(&rt, rt.alloc(), &PLAIN, calls)?);
    Ok(())
}

/// Of points on one line the two ends are the vertices, and across the line the first point is the farthest.
#[test]
fn diagonal(rt: HostRuntime) -> Result<(), Fail> {
    let calls = "\
        add 0 0 = added\n\
        add 1 1 = added\n\
        add 2 2 = added\n\
        vertices = list 2 0 0 2 2\n\
        place 1 1 = on\n\
        place 3 3 = outside\n\
        extreme 1 -1 = point 0 0\n\
        area = area 0\n\
        remove 2 2 = removed\n\
        vertices = list 2 0 0 1 1\n\
        count = count 2\n";
    assert!(rt; answers(&rt, rt.alloc(), &PLAIN, calls)?);
    Ok(())
}

/// Points above one another on the left: the least is the first vertex, the greatest of them the last.
#[test]
fn left_wall(rt: HostRuntime) -> Result<(), Fail> {
    let calls = "\
        add 0 0 = added\n\
        add 0 1 = added\n\
        add 0 2 = added\n\
        add 1 3 = added\n\
        add 2 3 = added\n\
        vertices = list 4 0 0 2 3 1 3 0 2\n\
        area = area 5\n\
        place 0 1 = on\n\
        extreme -1 0 = point 0 0\n\
        count = count 5\n";
    assert!(rt; answers(&rt, rt.alloc(), &PLAIN, calls)?);
    Ok(())
}

/// The four vertices of the range: the doubled area is 2^83.
#[test]
fn range_corners(rt: HostRuntime) -> Result<(), Fail> {
    let calls = "\
        add -1099511627776 -1099511627776 = added\n\
        add 1099511627776 -1099511627776 = added\n\
        add 1099511627776 1099511627776 = added\n\
        add -1099511627776 1099511627776 = added\n\
        area = area 9671406556917033397649408\n\
        extreme 1 1 = point 1099511627776 1099511627776\n\
        extreme 1099511627776 -1099511627776 = point 1099511627776 -1099511627776\n\
        place 0 0 = inside\n\
        place 1099511627776 0 = on\n\
        tangents 1099511627776 0 = notangent\n\
        vertices = list 4 -1099511627776 -1099511627776 1099511627776 -1099511627776 1099511627776 1099511627776 -1099511627776 1099511627776\n";
    assert!(rt; answers(&rt, rt.alloc(), &PLAIN, calls)?);
    Ok(())
}

/// A point one beside the diagonal of the range: the doubled area is 2^40, and no vertex is lost to a rounded
/// orientation.
#[test]
fn range_diagonal(rt: HostRuntime) -> Result<(), Fail> {
    let calls = "\
        add -1099511627776 -1099511627776 = added\n\
        add 0 0 = added\n\
        add 1099511627776 1099511627775 = added\n\
        vertices = list 3 -1099511627776 -1099511627776 1099511627776 1099511627775 0 0\n\
        area = area 1099511627776\n";
    assert!(rt; answers(&rt, rt.alloc(), &PLAIN, calls)?);
    Ok(())
}

/// A set of at most two points refuses a third, and knows its own again.
#[test]
fn limit_two(rt: HostRuntime) -> Result<(), Fail> {
    let options = Options {
        capacity: 16,
        limit: 2,
        first: 0,
        journal: false,
    };
    let calls = "\
        add 0 0 = added\n\
        add 1 1 = added\n\
        add 2 2 = toomany\n\
        add 1 1 = again 2\n\
        remove 0 0 = removed\n\
        add 2 2 = added\n\
        count = count 2\n";
    assert!(rt; answers(&rt, rt.alloc(), &options, calls)?);
    Ok(())
}

/// Of several points on a tangent the farthest is returned; a point on the boundary has none.
#[test]
fn tangent_ties(rt: HostRuntime) -> Result<(), Fail> {
    let calls = "\
        add 0 0 = added\n\
        add 1 0 = added\n\
        tangents 3 0 = tangents 0 0 0 0\n\
        add 2 0 = added\n\
        add 2 2 = added\n\
        add 0 2 = added\n\
        tangents 4 0 = tangents 0 0 2 2\n\
        tangents 4 1 = tangents 2 0 2 2\n\
        tangents 1 0 = notangent\n\
        tangents 1 1 = notangent\n";
    assert!(rt; answers(&rt, rt.alloc(), &PLAIN, calls)?);
    Ok(())
}

/// A point inside comes to the boundary when a vertex is removed.
#[test]
fn uncovered_by_removal(rt: HostRuntime) -> Result<(), Fail> {
    let calls = "\
        add 0 0 = added\n\
        add 4 0 = added\n\
        add 2 3 = added\n\
        add 2 1 = added\n\
        area = area 12\n\
        place 2 1 = inside\n\
        remove 2 3 = removed\n\
        vertices = list 3 0 0 4 0 2 1\n\
        area = area 4\n\
        place 2 1 = on\n\
        place 2 3 = outside\n";
    assert!(rt; answers(&rt, rt.alloc(), &PLAIN, calls)?);
    Ok(())
}
