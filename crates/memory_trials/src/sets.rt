//! Adding points to a set, once and once more, and asking for its vertices.
use crate::findings::Findings;
use crate::stage::Stage;
use hull_set::{AddReply, HullSet, NoMemory, RemoveReply};
use lattice::Point;

/// How many points are added: lists grow several times on the way.
const POINTS: u32 = 12;

/// Returns the point (k, k * k). All such points are vertices, in the order of their numbers.
fn vertex(k: u32) -> Option<Point> {
    let square = k.checked_mul(k)?;
    Point::new(i64::from(k), i64::from(square)).ok()
}

/// Whether these are the first `count` such points.
fn are_vertices(points: &[Point], count: u32) -> bool {
    if points.len() != count as usize {
        return false;
    }
    for (k, p) in (0u32..).zip(points) {
        if vertex(k) != Some(*p) {
            return false;
        }
    }
    true
}

/// Whether the set has exactly the first `count` such points: its count is their number, and its vertices are these. If memory for the list is
/// refused, the second attempt returns it.
fn has_vertices<S: HullSet>(set: &S, count: u32) -> bool {
    let vertices = match set.vertices() {
        Ok(vertices) => Ok(vertices),
        Err(NoMemory) => set.vertices(),
    };
    match vertices {
        Ok(points) => set.count() == count && are_vertices(&points, count),
        Err(NoMemory) => false,
    }
}

/// Adds a point. If memory is refused, the set has the points that it had, and the next attempt adds it.
fn put<S: HullSet>(set: &mut S, k: u32, p: Point, findings: &mut Findings) -> Stage {
    match set.add(p) {
        AddReply::Added => Stage::Whole,
        AddReply::NoMemory => {
            findings.expect(has_vertices(set, k), "the set is as it was");
            findings.expect(set.add(p) == AddReply::Added, "the next add has its memory");
            Stage::Refused
        }
        AddReply::Again(_) | AddReply::TooMany => {
            findings.expect(false, "the point is new and below the limit");
            Stage::Whole
        }
    }
}

/// Adds the points to the set, one after the other.
pub fn try_add<S: HullSet>(mut set: S) -> (S, Result<Stage, &'static str>) {
    let mut findings = Findings::new();
    let mut stage = Stage::Whole;
    for k in 0..POINTS {
        let Some(p) = vertex(k) else {
            findings.expect(false, "the point is in range");
            break;
        };
        if put(&mut set, k, p, &mut findings) == Stage::Refused {
            stage = Stage::Refused;
        }
        findings.expect(set.count() == k + 1, "the point is in the set");
    }
    findings.expect(has_vertices(&set, POINTS), "all points are in the set");
    (set, findings.returned(stage))
}

/// Adds all points, up to the first for which memory is refused.
fn fill<S: HullSet>(set: &mut S, findings: &mut Findings) -> Stage {
    for k in 0..POINTS {
        let Some(p) = vertex(k) else { break };
        if put(set, k, p, findings) == Stage::Refused {
            return Stage::Refused;
        }
    }
    Stage::Whole
}

/// Adds each point of a set once more, and removes it once: no memory is requested, so none can be refused.
pub fn try_again<S: HullSet>(mut set: S) -> (S, Result<Stage, &'static str>) {
    let mut findings = Findings::new();
    if fill(&mut set, &mut findings) == Stage::Refused {
        return (set, findings.returned(Stage::SetUp));
    }
    for k in 0..POINTS {
        let Some(p) = vertex(k) else { break };
        findings.expect(
            set.add(p) == AddReply::Again(2),
            "a live point is held once more",
        );
        findings.expect(
            set.remove(p) == RemoveReply::Left(1),
            "it is still held once",
        );
    }
    findings.expect(has_vertices(&set, POINTS), "the points are as they were");
    (set, findings.returned(Stage::Whole))
}

/// Asks a set of all points for its vertices.
pub fn try_vertices<S: HullSet>(mut set: S) -> (S, Result<Stage, &'static str>) {
    let mut findings = Findings::new();
    if fill(&mut set, &mut findings) == Stage::Refused {
        return (set, findings.returned(Stage::SetUp));
    }
    let stage = match set.vertices() {
        Ok(points) => {
            findings.expect(are_vertices(&points, POINTS), "the vertices are the points");
            Stage::Whole
        }
        Err(NoMemory) => {
            findings.expect(set.count() == POINTS, "the set is as it was");
            Stage::Refused
        }
    };
    findings.expect(has_vertices(&set, POINTS), "the next list has its memory");
    (set, findings.returned(stage))
}
