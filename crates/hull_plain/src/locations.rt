//! The location of a point relative to a hull, by the edges of its chains between whose ends it is.
ghost use Rattle.std.specs.Prelude.{◌<◌, IfSome, List, Err, length};
ghost use Rattle.lattice.specs.Covers.{IsPointSet};
ghost use Rattle.lattice.specs.Plane.{Pair};
ghost use Rattle.hull_plain.specs.ChainLocations.{IsSeen};
ghost use Rattle.hull_geometry.specs.Monotone.{IsChainOf, AreChainsOf, AreChains};
ghost use Rattle.hull_geometry.specs.Positions.{IsPositionOf, first_of, last_of};
ghost use Rattle.hull_geometry.specs.Locations.{IsLocationOf};
ghost use Rattle.hull_set.specs.Replies.{LiesAt};

use super::positions::position_of;
use hull_geometry::Location;
use hull_set::Place;
use lattice::{Point, Side, orient_on};
use tiered_list::TieredList;

/// The location of a point relative to the chain on one side.
#[derive(Clone, Copy)]
enum ChainLocation {
    /// Before all points.
    Before,
    /// After all points.
    After,
    /// Outside: outwards of an edge of this side, between whose ends it is.
    Outwards,
    /// On the boundary.
    Touching,
    /// On the inner side of such an edge.
    Inwards,
}

/// Returns the location of a point that is not a vertex and has the position `i` in the chain.
fn look_from(side: Side, chain: &TieredList, i: usize, q: Point) -> ChainLocation
    requires { IsPositionOf chain.now.items q (Err i) }
    ensures { (S : List Pair) → IsChainOf side S chain.now.items → IsSeen side S q result }
{
    if i == 0 {
        return ChainLocation::Before;
    }
    if i == chain.len() {
        return ChainLocation::After;
    }
    let inwards = orient_on(side, chain.get(i - 1), chain.get(i), q);
    if inwards < 0 {
        ChainLocation::Outwards
    } else if inwards > 0 {
        ChainLocation::Inwards
    } else {
        ChainLocation::Touching
    }
}

/// Returns the location of a point that has the position `at` in this chain of a hull.
fn look_on(side: Side, chain: &TieredList, at: Result<usize, usize>, q: Point) -> ChainLocation
    requires { IsPositionOf chain.now.items q at }
    ensures { (S : List Pair) → IsChainOf side S chain.now.items → IsSeen side S q result }
{
    match at {
        Ok(_) => ChainLocation::Touching,
        Err(i) => look_from(side, chain, i, q),
    }
}

/// Returns the position of `q` in a list: the one that is known, or else by a bisection.
fn known_or_found(
    points: &TieredList,
    known: Option<Result<usize, usize>>,
    q: Point,
) -> Result<usize, usize>
    requires ordered { IsPointSet points.now.items }
    requires known { IfSome known (IsPositionOf points.now.items q) }
    ensures { IsPositionOf points.now.items q result }
{
    match known {
        Some(at) => at,
        None => position_of(points, q),
    }
}

/// Returns the location of `q` relative to the hull of these two chains, which are not empty, by its position in the
/// lower one. The upper one is bisected only if that is needed and its position there is not known.
fn look_from_lower(
    lower: &TieredList,
    upper: &TieredList,
    below: Result<usize, usize>,
    above: Option<Result<usize, usize>>,
    q: Point,
) -> Location
    requires some { 0 < length lower.now.items }
    requires chains { AreChains lower.now.items upper.now.items }
    requires below { IsPositionOf lower.now.items q below }
    requires above { IfSome above (IsPositionOf upper.now.items q) }
    ensures { (S : List Pair) → AreChainsOf S lower.now.items upper.now.items
        → IsLocationOf (first_of lower.now.items) (last_of lower.now.items) S q result }
{
    match look_on(Side::Lower, lower, below, q) {
        ChainLocation::Before => Location::Before,
        ChainLocation::After => Location::After,
        ChainLocation::Outwards => Location::Below,
        ChainLocation::Touching => Location::Touching,
        ChainLocation::Inwards => {
            let at = known_or_found(upper, above, q);
            match look_on(Side::Upper, upper, at, q) {
                ChainLocation::Outwards => Location::Above,
                ChainLocation::Inwards => Location::Within,
                _ => Location::Touching,
            }
        }
    }
}

/// Returns the location of `q` relative to the hull of these two chains, which are not empty.
pub(crate) fn look(lower: &TieredList, upper: &TieredList, q: Point) -> Location
    requires some { 0 < length lower.now.items }
    requires chains { AreChains lower.now.items upper.now.items }
    ensures { (S : List Pair) → AreChainsOf S lower.now.items upper.now.items
        → IsLocationOf (first_of lower.now.items) (last_of lower.now.items) S q result }
{
    look_from_lower(lower, upper, position_of(lower, q), None, q)
}

/// Returns the place of a point that has these positions in the two chains of a hull. If the one in the upper chain is not
/// known, that chain is bisected if need be.
pub(crate) fn place_by(
    lower: &TieredList,
    upper: &TieredList,
    below: Result<usize, usize>,
    above: Option<Result<usize, usize>>,
    q: Point,
) -> Place
    requires chains { AreChains lower.now.items upper.now.items }
    requires below { IsPositionOf lower.now.items q below }
    requires above { IfSome above (IsPositionOf upper.now.items q) }
    ensures { (S : List Pair) → AreChainsOf S lower.now.items upper.now.items → LiesAt S q result }
{
    if lower.is_empty() {
        return Place::Outside;
    }
    Place::of_location(look_from_lower(lower, upper, below, above, q))
}

/// Returns the place of `q` relative to the hull of these two chains.
pub(crate) fn place_of(lower: &TieredList, upper: &TieredList, q: Point) -> Place
    requires { AreChains lower.now.items upper.now.items }
    ensures { (S : List Pair) → AreChainsOf S lower.now.items upper.now.items → LiesAt S q result }
{
    place_by(lower, upper, position_of(lower, q), None, q)
}
