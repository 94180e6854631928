//! The points that the tangents from a point touch, each by a bisection of one chain (Preparata and Shamos, 1985).
ghost use Rattle.std.specs.Prelude.{◌↔◌, ◌<◌, List, IsTrue, length};
ghost use Rattle.lattice.specs.Plane.{Pair, IsBefore};
ghost use Rattle.hull_geometry.specs.ChainEdges.{IsPassedBy, IsToCome};
ghost use Rattle.hull_geometry.specs.Monotone.{IsChainOf, AreChainsOf, AreChains};
ghost use Rattle.hull_geometry.specs.Hands.{hand_behind, other_hand};
ghost use Rattle.hull_geometry.specs.Positions.{first_of, last_of};
ghost use Rattle.hull_geometry.specs.Locations.{IsClear, IsInwards};
ghost use Rattle.hull_geometry.specs.Tangents.{IsTangent};
ghost use Rattle.hull_set.specs.Replies.{AnswersTangents, reply_to_tangents};

use super::bisection::first_failing;
use super::locations::look;
use super::monotone::is_inner;
use hull_geometry::Hand;
use lattice::{Point, Side, before};
use tiered_list::TieredList;

/// Whether the edge from `a` forward to `b` ends before `q`, which lies inwards of it.
fn is_passed(side: Side, a: Point, b: Point, q: Point) -> bool
    ensures { IsTrue result ↔ IsPassedBy side q a b }
{
    before(b, q) && is_inner(side, a, b, q)
}

/// Whether the edge begins after `q`, which lies inwards of it.
fn is_to_come(side: Side, a: Point, b: Point, q: Point) -> bool
    ensures { IsTrue result ↔ IsToCome side q a b }
{
    before(q, a) && is_inner(side, a, b, q)
}

/// Returns the tangent point before `q`, if nothing is in the way of `q` on this side.
fn tangent_behind(side: Side, chain: &TieredList, q: Point) -> Point
    requires some { 0 < length chain.now.items }
    requires after { IsBefore (first_of chain.now.items) q }
    ensures { (S : List Pair) → IsChainOf side S chain.now.items → IsClear side S q
        → IsTangent (hand_behind side) S q result }
{
    chain.get(first_failing(chain, &|a, b| is_passed(side, a, b, q)))
}

/// Returns the tangent point after `q`, if nothing is in the way of `q` on this side.
fn tangent_ahead(side: Side, chain: &TieredList, q: Point) -> Point
    requires some { 0 < length chain.now.items }
    requires before { IsBefore q (last_of chain.now.items) }
    ensures { (S : List Pair) → IsChainOf side S chain.now.items → IsClear side S q
        → IsTangent (other_hand (hand_behind side)) S q result }
{
    chain.get(first_failing(chain, &|a, b| !is_to_come(side, a, b, q)))
}

/// Returns the tangent point on this hand seen from `q`, if the tangent touches the chain on this side.
fn tangent_on(hand: Hand, side: Side, lower: &TieredList, upper: &TieredList, q: Point) -> Point
    requires some { 0 < length lower.now.items }
    requires chains { AreChains lower.now.items upper.now.items }
    requires inwards { IsInwards hand side (first_of lower.now.items) (last_of lower.now.items) q }
    ensures { (S : List Pair) → AreChainsOf S lower.now.items upper.now.items → IsClear side S q
        → IsTangent hand S q result }
{
    match (hand, side) {
        (Hand::Left, Side::Lower) => tangent_behind(Side::Lower, lower, q),
        (Hand::Right, Side::Lower) => tangent_ahead(Side::Lower, lower, q),
        (Hand::Left, Side::Upper) => tangent_ahead(Side::Upper, upper, q),
        (Hand::Right, Side::Upper) => tangent_behind(Side::Upper, upper, q),
    }
}

/// Returns the left and the right tangent point of `q`, or `None` if the hull of these two chains covers it.
pub(crate) fn tangents_from(
    lower: &TieredList,
    upper: &TieredList,
    q: Point,
) -> Option<(Point, Point)>
    requires { AreChains lower.now.items upper.now.items }
    ensures { (S : List Pair) → AreChainsOf S lower.now.items upper.now.items → AnswersTangents S q (reply_to_tangents result) }
{
    if lower.is_empty() {
        return None;
    }
    let Some((left, right)) = look(lower, upper, q).tangent_chains() else {
        return None;
    };
    Some((
        tangent_on(Hand::Left, left, lower, upper, q),
        tangent_on(Hand::Right, right, lower, upper, q),
    ))
}
