//! The points of a hull that the tangents from a point touch.
ghost use Rattle.std.specs.Prelude.{◌≡◌, ◌↔◌, IsTrue, MatchOption, None, pos, ◌<ℤ◌};
ghost use Rattle.lattice.specs.Plane as plane;
ghost use Rattle.bridge_search.specs.Trees.{lower_of, first_of, last_of};
ghost use Rattle.bridge_search.specs.Leaves.{points_of};
ghost use Rattle.hull_set.specs.Replies.{AnswersTangents, reply_to_tangents};
ghost use Rattle.hull_questions.specs.Hands.{outermost, IsBeyond};
ghost use Rattle.hull_questions.specs.Parts.{IsTangentPart};
ghost use Rattle.hull_geometry.specs.Hands.{IsOnHand};
ghost use Rattle.hull_geometry.specs.Locations.{IsBelow, IsOnChain};
ghost use Rattle.hull_geometry.specs.Tangents.{IsTangent};

use crate::locations::look;
use bridge_search::{Half, Turned};
use hull_geometry::Hand;
use lattice::{Point, Side, before, orient};

/// Whether `q` lies left of the line from `a` to `b`.
fn is_left(a: Point, b: Point, q: Point) -> bool
    ensures { IsTrue result ↔ (pos 0 <ℤ plane.orient a b q) }
{
    orient(a, b, q) > 0
}

/// Whether `q` is beyond the end of a lower bridge on the other hand, and over the bridge's line.
fn is_beyond(hand: Hand, bridge: (Point, Point), q: Point) -> bool
    ensures { IsTrue result ↔ IsBeyond hand bridge q }
{
    let (a, b) = bridge;
    match hand {
        Hand::Left => before(b, q) && is_left(a, b, q),
        Hand::Right => before(q, a) && is_left(a, b, q),
    }
}

/// Returns the half of `half` that has its tangent point on this hand, seen from `q` below it, or `None` if it is one
/// point: the half on the other hand if `q` is beyond the bridge's end there and over its line, so that this end is
/// seen farther on this hand than all points of the half here.
fn tangent_part<H: Half>(hand: Hand, half: H, q: Point) -> Option<H>
    requires below { IsBelow (points_of (H.tree half)) q }
    requires inwards { IsOnHand hand (outermost hand (H.tree half)) q }
    ensures { MatchOption result (lower_of (H.tree half) ≡ None)
        (λ part. IsTangentPart hand q (H.tree half) (H.tree part)) }
{
    let bridge = half.lower()?;
    let beyond = is_beyond(hand, bridge, q);
    match hand {
        Hand::Left => Some(if beyond { half.right() } else { half.left() }),
        Hand::Right => Some(if beyond { half.left() } else { half.right() }),
    }
}

/// Returns the tangent point on this hand seen from `q`, which lies below the half and inwards of its outermost point
/// there.
fn tangent_from_below<H: Half>(hand: Hand, half: H, q: Point) -> Point
    requires below { IsBelow (points_of (H.tree half)) q }
    requires inwards { IsOnHand hand (outermost hand (H.tree half)) q }
    ensures { IsTangent hand (points_of (H.tree half)) q result }
{
    let mut part = half;
    while let Some(next) = tangent_part(hand, part, q) {
        part = next;
    }
    part.first()
}

/// Returns the tangent point on this hand seen from `q`, if the tangent touches this chain; on the upper chain it is
/// that on the lower one after a rotation by 180 degrees.
fn tangent_on<H: Half>(hand: Hand, side: Side, half: H, q: Point) -> Point
    requires { IsOnChain hand side (first_of (H.tree half)) (last_of (H.tree half)) (points_of (H.tree half)) q }
    ensures { IsTangent hand (points_of (H.tree half)) q result }
{
    match side {
        Side::Lower => tangent_from_below(hand, half, q),
        Side::Upper => tangent_from_below(hand, Turned::new(half), q.turned()).turned(),
    }
}

/// Returns the left and the right tangent point seen from `q`, of points in line with `q` the farther one, or `None` if
/// the points cover `q`. Each is found on one path down the bridges (Overmars and van Leeuwen, 1981).
pub fn tangents<H: Half>(half: H, q: Point) -> Option<(Point, Point)>
    ensures { AnswersTangents (points_of (H.tree half)) q (reply_to_tangents result) }
{
    let Some((left, right)) = look(half, q).tangent_chains() else {
        return None;
    };
    Some((
        tangent_on(Hand::Left, left, half, q),
        tangent_on(Hand::Right, right, half, q),
    ))
}
