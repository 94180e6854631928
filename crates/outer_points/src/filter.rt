//! Drops points that are no vertices.
ghost use Rattle.std.specs.Prelude.{◌≡◌, ◌<◌, length, false};
ghost use Rattle.std.specs.List.{Contains};
ghost use Rattle.lattice.specs.Covers.{Covers};
ghost use Rattle.lattice.specs.Plane.{Pair};
ghost use Rattle.lattice.specs.declared.side.Side.{Side};
ghost use Rattle.hull_geometry.specs.CandidateLists.{IsCandidateList};
ghost use Rattle.outer_points.specs.Octagons.{IsInnerTo};
ghost use Rattle.outer_points.specs.Sublists.{IsSublist};

use super::octagon::Octagon;
use heap::Heap;
use lattice::{Point, Side};

/// How many points are looked at to guess how many can be dropped.
const SAMPLE: usize = 64;

/// Returns points of the list at equal distances.
fn sample_of(points: &[Point]) -> [Point; SAMPLE]
    requires { 0 < length points.now }
{
    let step = points.len() / SAMPLE;
    let mut sample = [points[0]; SAMPLE];
    let mut at = 0;
    for slot in &mut sample {
        *slot = points[at];
        if step < points.len() - at {
            at += step;
        }
    }
    sample
}

/// Whether [`drop_inner`] would drop at least a quarter of a sample of the points. It is not inlined, so that the sample
/// takes no memory on the stack of a call on few points.
#[inline(never)]
fn is_sample_inner(points: &[Point]) -> bool
    requires { 0 < length points.now }
{
    let sample = sample_of(points);
    let octagon = Octagon::of(&sample);
    let mut inner = 0usize;
    for p in &sample {
        inner += usize::from(octagon.is_inner(*p));
    }
    inner >= SAMPLE / 4
}

/// Whether it is likely, by a sample of 64 points, that [`drop_inner`] drops so many of the points that it pays to call
/// it before they are sorted: at least a quarter.
pub fn are_many_inner(points: &[Point]) -> bool {
    points.len() >= 4 * SAMPLE && is_sample_inner(points)
}

/// Drops points that lie in the octagon of the eight points that are farthest along the axes and the diagonals, and are no
/// vertices of it (Akl and Toussaint, 1978). The points that are left cover all others, in their order:
/// they are a candidate list of the points for both chains, so they have the same hull and the same vertices.
///
/// Two passes: O(n), about four comparisons and two orientations a point. Nothing is allocated.
pub fn drop_inner(points: &mut Vec<Point, Heap>)
    ensures sublist { IsSublist points.new.items points.old.items }
    ensures covered { (t : Pair) → Contains points.old.items t → Covers points.new.items t }
    ensures candidates { (side : Side) → IsCandidateList side (Contains points.new.items) (Contains points.old.items) }
{
    if points.is_empty() {
        return;
    }
    let octagon = Octagon::of(points);
    if octagon.is_in_order() {
        points.retain(
            |p|
                ensures { result ≡ false → IsInnerTo octagon p.now }
            { !octagon.is_inner(*p) },
        );
    }
}
