//! The hull of points that are only added.
ghost use Rattle.std.specs.Prelude.{◌≡◌, ◌≢◌, ◌+◌, ◌≤◌, [], List, IfErr, IfOk, OnOk, OnErr, length, pos};
ghost use Rattle.lattice.specs.Plane.{Pair};
ghost use Rattle.lattice.specs.Vertices.{IsVertexList, IsDoubledArea};
ghost use Rattle.lattice.specs.Places.{IsOutside};
ghost use Rattle.hull_geometry.specs.Monotone.{IsStrict, IsChainOf};
ghost use Rattle.hull_geometry.specs.Positions.{IsPositionOf};
ghost use Rattle.lattice.specs.Covers.{with_point};
ghost use Rattle.hull_plain.specs.Drafts.{ScratchChainHasSpace, IsAsRoomy};
ghost use Rattle.hull_plain.specs.Growth.{IsHullOf, HasGrownBy, IsWhyNotGrown};
ghost use Rattle.hull_set.specs.declared.set.Place.TheVariants.{Outside};
ghost use Rattle.hull_set.specs.Replies.{LiesAt, AnswersExtreme, AnswersTangents, reply_to_extreme, reply_to_tangents};

use super::extremes::extreme_of;
use super::locations::{place_by, place_of};
use super::octagon::InnerOctagon;
use super::positions::position_of;
use super::repairing::put_in_at;
use super::scratch_chain::ScratchChain;
use super::tangents::tangents_from;
use super::vertices::{doubled_area_of, vertices_of};
use heap::Heap;
use hull_set::{NoMemory, POINT_LIMIT, Place};
use lattice::{Direction, Point, Side};
use std::marker::Model;
use tiered_list::TieredList;

/// Why a point was not added to a [`GrowingHull`], which is unchanged.
#[derive(Clone, Copy, PartialEq, Eq, Debug)]
pub enum GrowFault {
    /// A chain of the hull has [`POINT_LIMIT`] vertices.
    TooMany,
    /// Memory was refused.
    NoMemory,
}

/// The hull of the points that were added so far, which keeps only its vertices: a point that it covers is dropped, and none can be removed.
///
/// Adding a point takes eight comparisons if it is in an octagon inside the hull, which has most of a square or a disk. Else it takes a bisection of each
/// chain, and nothing else if the point is covered; one that is outside also moves vertices of one block for each chain, at most the square root of
/// their number, and removes those that it covers (Preparata, 1979, for the order of his points; here the chains are lists in blocks).
#[derive(Drop)]
pub struct GrowingHull {
    lower: TieredList,
    upper: TieredList,
    scratch_chain: ScratchChain,
    octagon: InnerOctagon,
}

impl Model for GrowingHull {
    ghost use Rattle.hull_plain.specs.Growth.{Chains, IsGrowingHull};

    ghost Value = { Chains };

    ghost view = { λ h. record { lower = h.lower.items; upper = h.upper.items } };

    ghost invariant = { λ h. IsGrowingHull (record { lower = h.lower.items; upper = h.upper.items }) h.octagon.octagon };
}

/// Adds a point that has the position `at` in a chain.
fn grow(
    side: Side,
    chain: &mut TieredList,
    scratch_chain: &mut ScratchChain,
    at: Result<usize, usize>,
    p: Point,
)
    requires strict { IsStrict side chain.old.items }
    requires position { IsPositionOf chain.old.items p at }
    requires space { length chain.old.items + 1 ≤ chain.old.space }
    requires scratch_chain_space { ScratchChainHasSpace scratch_chain.old (length chain.old.items + 1) }
    ensures chain { (S : List Pair) → IsChainOf side S chain.old.items
        → IsChainOf side (with_point p S) chain.new.items }
    ensures few { length chain.new.items ≤ length chain.old.items + 1 }
    ensures space { IsAsRoomy scratch_chain.old scratch_chain.new }
{
    let Err(i) = at else {
        return;
    };
    put_in_at(side, chain, scratch_chain, i, p);
}

impl GrowingHull {
    /// Returns the hull of no points. Does not allocate; `add` and `vertices` allocate from `alloc`.
    pub fn new(alloc: Heap) -> GrowingHull
        ensures { IsHullOf [] result }
    {
        GrowingHull {
            lower: TieredList::new(alloc),
            upper: TieredList::new(alloc),
            scratch_chain: ScratchChain::new(alloc),
            octagon: InnerOctagon::new(),
        }
    }

    /// Adds a point. Returns its place relative to the hull before: the hull has grown if it was outside, and is unchanged else.
    ///
    /// # Errors
    ///
    /// Fails with [`GrowFault::TooMany`] if the point is outside and a chain has [`POINT_LIMIT`] vertices, and with [`GrowFault::NoMemory`] if it is
    /// outside and memory was refused. The hull is unchanged then.
    pub fn add(&mut self, p: Point) -> Result<Place, GrowFault>
        ensures grown { OnOk result (HasGrownBy p self.old self.new) }
        ensures place { IfOk result (λ place. (S : List Pair) → IsHullOf S self.old → LiesAt S p place) }
        ensures covered { IfOk result (λ place. place ≢ Outside → self.new ≡ self.old) }
        ensures refused { OnErr result (self.new ≡ self.old) }
        ensures outside { OnErr result ((S : List Pair) → IsHullOf S self.old → IsOutside S p) }
        ensures fault { IfErr result (λ fault. IsWhyNotGrown fault self.old) }
    {
        if self.octagon.has_point(p) {
            return Ok(Place::Inside);
        }
        let below = position_of(&self.lower, p);
        let above = position_of(&self.upper, p);
        match place_by(&self.lower, &self.upper, below, Some(above), p) {
            Place::Outside => (),
            place => {
                self.octagon.count_search(&self.lower, &self.upper);
                return Ok(place);
            }
        }
        if self.lower.len() >= POINT_LIMIT as usize || self.upper.len() >= POINT_LIMIT as usize {
            return Err(GrowFault::TooMany);
        }
        let count = self.lower.len().max(self.upper.len()) + 1;
        if self.lower.reserve(count).is_err()
            || self.upper.reserve(count).is_err()
            || self.scratch_chain.reserve(count).is_err()
        {
            return Err(GrowFault::NoMemory);
        }
        self.octagon.note_growth();
        let scratch_chain = &mut self.scratch_chain;
        grow(Side::Lower, &mut self.lower, scratch_chain, below, p);
        grow(Side::Upper, &mut self.upper, scratch_chain, above, p);
        Ok(Place::Outside)
    }

    /// Returns the place of `q`.
    pub fn place(&self, q: Point) -> Place
        ensures { (S : List Pair) → IsHullOf S self.now → LiesAt S q result }
    {
        if self.octagon.has_point(q) {
            return Place::Inside;
        }
        place_of(&self.lower, &self.upper, q)
    }

    /// Returns the first of the farthest points in a direction, or `None` if there is none.
    pub fn extreme(&self, d: Direction) -> Option<Point>
        ensures { (S : List Pair) → IsHullOf S self.now → AnswersExtreme S d (reply_to_extreme result) }
    {
        if d.y() > 0 {
            extreme_of(&self.upper, d)
        } else {
            extreme_of(&self.lower, d)
        }
    }

    /// Returns the left and the right tangent point seen from `q`, or `None` if there is no point or the hull covers `q`.
    pub fn tangents(&self, q: Point) -> Option<(Point, Point)>
        ensures { (S : List Pair) → IsHullOf S self.now → AnswersTangents S q (reply_to_tangents result) }
    {
        tangents_from(&self.lower, &self.upper, q)
    }

    /// Returns the vertices, counterclockwise from the first by x and then y.
    ///
    /// # Errors
    ///
    /// Fails with [`NoMemory`] if memory was refused, which no hull without points needs.
    pub fn vertices(&self) -> Result<Vec<Point, Heap>, NoMemory>
        ensures vertices { IfOk result (λ v. (S : List Pair) → IsHullOf S self.now → IsVertexList S v.items) }
    {
        let alloc = self.scratch_chain.allocator();
        Ok(vertices_of(alloc, &self.lower, &self.upper)?)
    }

    /// Returns the doubled area.
    pub fn area2(&self) -> u128
        ensures { (S : List Pair) → IsHullOf S self.now → IsDoubledArea S (pos result) }
    {
        doubled_area_of(&self.lower, &self.upper)
    }
}
