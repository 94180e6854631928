//! The nearest point to a given one.
ghost use Rattle.std.specs.Prelude.{◌≡◌, ◌↔◌, ◌⊎◌, ◌*◌, ◌*ℤ◌, ◌<ℤ◌, ◌≤ℤ◌, ◌∷◌, [], pos, IsTrue};
ghost use Rattle.lattice.specs.Plane as plane;
ghost use Rattle.lattice.specs.Plane.{widest, IsBefore, IsWithin, Pair};
ghost use Rattle.bucket_tree.specs.NearestPoints.{IsNearestPoint};
ghost use Rattle.bucket_tree.specs.Nodes.{ends_in, points_below, IsWellBuilt};

use crate::node::{Ends, Node, ends_of};
use lattice::{Point, before, difference, distance_squared, sum_of_products};

/// A point, and the square of its distance from the given one.
#[derive(Clone, Copy)]
pub(crate) struct Candidate {
    pub(crate) point: Point,
    pub(crate) squared: i128,
}

impl Candidate {
    /// Returns the same candidate.
    fn same(&self) -> Candidate
        ensures { result ≡ self.now }
    {
        Candidate {
            point: self.point,
            squared: self.squared,
        }
    }
}

/// Returns a point as a candidate.
fn candidate_of(q: Point, point: Point) -> Candidate
    ensures point { result.point ≡ point }
    ensures squared { result.squared ≡ plane.distance_squared q point }
{
    Candidate {
        point,
        squared: distance_squared(q, point),
    }
}

/// Whether a candidate is nearer than another, or as near and before it.
fn is_nearer(candidate: &Candidate, other: &Candidate) -> bool
    ensures { IsTrue result ↔ (candidate.now.squared <ℤ other.now.squared)
        ⊎ ((candidate.now.squared ≡ other.now.squared) × IsBefore candidate.now.point other.now.point) }
{
    candidate.squared < other.squared
        || candidate.squared == other.squared && before(candidate.point, other.point)
}

/// Returns the nearer to `q` of the best candidate and another point; of two that are as near, the first.
fn nearer_of(q: Point, best: &Candidate, point: Point) -> Candidate
    requires { best.now.squared ≡ plane.distance_squared q best.now.point }
    ensures nearest { IsNearestPoint q (best.now.point ∷ point ∷ []) result.point }
    ensures squared { result.squared ≡ plane.distance_squared q result.point }
{
    let other = candidate_of(q, point);
    if is_nearer(&other, best) {
        other
    } else {
        best.same()
    }
}

/// Returns the nearest to `q` of the best candidate and some points.
fn nearest_of(points: &[Point], q: Point, best: &Candidate) -> Candidate
    requires { best.now.squared ≡ plane.distance_squared q best.now.point }
    ensures nearest { IsNearestPoint q (best.now.point ∷ points.now) result.point }
    ensures squared { result.squared ≡ plane.distance_squared q result.point }
{
    let mut found = best.same();
    for i in 0..points.len() {
        found = nearer_of(q, &found, points[i]);
    }
    found
}

/// Whether the square of a gap along x is more than the squared distance of the best candidate.
fn is_wider(gap: i64, best: &Candidate) -> bool
    requires { IsWithin (2 * widest) gap }
    ensures { IsTrue result → (pos 0 <ℤ gap) × (best.now.squared <ℤ (gap *ℤ gap)) }
{
    gap > 0 && sum_of_products(gap, gap, 0, 0) > best.squared
}

/// Whether each point that is not left of `first` is farther from `q` than the best candidate, since `first` lies so much farther right.
fn is_far_right(first: Point, q: Point, best: &Candidate) -> bool
    ensures { IsTrue result → (t : Pair) → first.x ≤ℤ t.x → best.now.squared <ℤ plane.distance_squared q t }
{
    is_wider(difference(first.x(), q.x()), best)
}

/// Whether each point that is not right of `last` is farther from `q` than the best candidate, since `last` lies so much farther left.
fn is_far_left(last: Point, q: Point, best: &Candidate) -> bool
    ensures { IsTrue result → (t : Pair) → t.x ≤ℤ last.x → best.now.squared <ℤ plane.distance_squared q t }
{
    is_wider(difference(q.x(), last.x()), best)
}

/// Whether each point between these ends is farther from `q` than the best candidate, since it lies farther right or left.
fn are_beyond(ends: &Ends, q: Point, best: &Candidate) -> bool
    ensures { IsTrue result → (t : Pair) → ends.now.first.x ≤ℤ t.x → t.x ≤ℤ ends.now.last.x
        → best.now.squared <ℤ plane.distance_squared q t }
{
    is_far_right(ends.first, q, best) || is_far_left(ends.last, q, best)
}

/// Returns the nearest to `q` of the best candidate and the points below a node, between these ends. The half that is nearer
/// along x comes first, and a half beyond the best candidate is skipped.
pub(crate) fn nearest_below(node: &Node, ends: &Ends, q: Point, best: &Candidate) -> Candidate
    requires built { IsWellBuilt node.now }
    requires ends { ends.now ≡ ends_in (points_below node.now) }
    requires squared { best.now.squared ≡ plane.distance_squared q best.now.point }
    ensures nearest { IsNearestPoint q (best.now.point ∷ points_below node.now) result.point }
    ensures squared { result.squared ≡ plane.distance_squared q result.point }
{
    if are_beyond(ends, q, best) {
        return best.same();
    }
    match node {
        Node::Leaf(bucket) => nearest_of(bucket.points(), q, best),
        Node::Fork(_, fork) => {
            if before(q, fork.right_ends.first) {
                let found = nearest_below(&fork.left, &fork.left_ends, q, best);
                nearest_below(&fork.right, &fork.right_ends, q, &found)
            } else {
                let found = nearest_below(&fork.right, &fork.right_ends, q, best);
                nearest_below(&fork.left, &fork.left_ends, q, &found)
            }
        }
        Node::Taken => unreachable!(),
    }
}

/// Returns the point below a node that is nearest to `q`.
pub(crate) fn nearest_in(node: &Node, q: Point) -> Candidate
    requires { IsWellBuilt node.now }
    ensures nearest { IsNearestPoint q (points_below node.now) result.point }
    ensures squared { result.squared ≡ plane.distance_squared q result.point }
{
    let ends = ends_of(node);
    nearest_below(node, &ends, q, &candidate_of(q, ends.first))
}
