//! The first of the points that lie farthest in a direction.
ghost use Rattle.std.specs.Prelude.{◌≡◌, ◌↔◌, IsTrue, IfSome, MatchOption, None, pos, ◌<ℤ◌};
ghost use Rattle.lattice.specs.Plane as plane;
ghost use Rattle.bridge_search.specs.Trees.{edge_of, IsAtDepth};
ghost use Rattle.bridge_search.specs.Leaves.{points_of};
ghost use Rattle.hull_geometry.specs.Tangents.{IsFirstFarthest};
ghost use Rattle.hull_questions.specs.Parts.{IsFacing, IsFartherPart, IsOneDown};

use bridge_search::Half;
use lattice::{Direction, Point, product};

/// Whether `d` has an upward component.
fn is_upward(d: Direction) -> bool
    ensures { IsTrue result ↔ (pos 0 <ℤ d.y) }
{
    d.y() > 0
}

/// Whether `p` lies less far than `q` in the direction `d`.
fn is_nearer(d: Direction, p: Point, q: Point) -> bool
    ensures { IsTrue result ↔ (plane.product d p <ℤ plane.product d q) }
{
    product(d, p) < product(d, q)
}

/// Returns the stored edge on the side that `d` faces: the upper one if `d` goes up, else the lower one.
fn facing<H: Half>(half: H, d: Direction) -> Option<(Point, Point)>
    ensures { IsFacing d (H.tree half) result }
{
    if is_upward(d) {
        half.edge()
    } else {
        half.lower()
    }
}

/// Returns the half of `half` that has the first of its farthest points, or `None` if it is one point.
fn farther_part<H: Half>(half: H, d: Direction) -> Option<H>
    ensures part { MatchOption result (edge_of (H.tree half) ≡ None)
        (λ part. IsFartherPart d (H.tree half) (H.tree part)) }
    ensures down { IfSome result (λ part. IsOneDown (H.tree half) (H.tree part)) }
{
    let (p, q) = facing(half, d)?;
    if is_nearer(d, p, q) {
        Some(half.right())
    } else {
        Some(half.left())
    }
}

/// Returns the first, by x and then y, of the points of a half that lie farthest in the direction `d`.
///
/// Of the two halves at a fork, the left one has it if the left end of the bridge on the side that `d` faces lies as
/// far as the right end (Overmars and van Leeuwen, 1981).
///
/// Also returns the number of forks that it passed: the depth of the point in the half.
pub fn extreme_counted<H: Half>(half: H, d: Direction) -> (Point, u32)
    ensures farthest { IsFirstFarthest (points_of (H.tree half)) d result.0 }
    ensures depth { IsAtDepth (H.tree half) result.0 result.1 }
{
    let mut part = half;
    let mut depth = 0;
    while let Some(next) = farther_part(part, d) {
        part = next;
        depth += 1;
    }
    (part.first(), depth)
}

/// Returns the first, by x and then y, of the points of a half that lie farthest in the direction `d`, as
/// [`extreme_counted`] finds it, without the number of forks.
pub fn extreme<H: Half>(half: H, d: Direction) -> Point
    ensures { IsFirstFarthest (points_of (H.tree half)) d result }
{
    extreme_counted(half, d).0
}
