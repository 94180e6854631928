//! Laws of the definitions: each function has an empty body, and its contract is the law.
ghost use Rattle.std.specs.Prelude.{◌≡◌, pos};
ghost use Rattle.lattice.specs.Plane.{Pair};
ghost use Rattle.lattice.specs.Laws.{BridgeIsUnique, BridgeStandsAsPointComes, BridgeStandsAsPointGoes};
ghost use Rattle.lattice.specs.Laws.{CrossingIsOnBothLines};
ghost use Rattle.lattice.specs.declared.side.Side.TheVariants.{Lower, Upper};

use super::COORDINATE_LIMIT;
use std::marker::Brand;

/// Any set of points, finite or not, for the laws of bridges: what it means to be one of its points. It has no values.
pub trait PointSet {
    ghost has: { Pair → Type 0 };
}

/// The marker by which a caller of a law picks the set that it is about.
impl PointSet for Brand {
    ghost has = { λ _. ⊥ };
}

/// Two sets of points, all of the one before all of the other, have at most one upper bridge.
pub fn upper_bridge_is_unique<L: PointSet, R: PointSet>()
    ensures { BridgeIsUnique Upper L.has R.has }
{}

/// Two sets of points, all of the one before all of the other, have at most one lower bridge.
pub fn lower_bridge_is_unique<L: PointSet, R: PointSet>()
    ensures { BridgeIsUnique Lower L.has R.has }
{}

/// The upper bridge of two sets stays their upper bridge when a point is added to one of them, if and only if that
/// point lies under it.
pub fn upper_bridge_stands_as_point_comes<L: PointSet, R: PointSet>()
    ensures { BridgeStandsAsPointComes Upper L.has R.has }
{}

/// The upper bridge of two sets stays their upper bridge when a point is removed from one of them, unless that point is
/// the bridge's end in this set.
pub fn upper_bridge_stands_as_point_goes<L: PointSet, R: PointSet>()
    ensures { BridgeStandsAsPointGoes Upper L.has R.has }
{}

/// The lower bridge of two sets stays their lower bridge when a point is added to one of them, if and only if that
/// point lies over it.
pub fn lower_bridge_stands_as_point_comes<L: PointSet, R: PointSet>()
    ensures { BridgeStandsAsPointComes Lower L.has R.has }
{}

/// The lower bridge of two sets stays their lower bridge when a point is removed from one of them, unless that point is
/// the bridge's end in this set.
pub fn lower_bridge_stands_as_point_goes<L: PointSet, R: PointSet>()
    ensures { BridgeStandsAsPointGoes Lower L.has R.has }
{}

/// The crossing that [`crossing_at_or_before`](crate::crossing_at_or_before) compares is a point, and it lies on both
/// lines.
pub fn crossing_is_on_both_lines()
    ensures { CrossingIsOnBothLines }
{}

/// [`COORDINATE_LIMIT`] is 2^40.
pub fn coordinate_limit_is_stated()
    ensures { COORDINATE_LIMIT ≡ pos 1099511627776 }
{}
