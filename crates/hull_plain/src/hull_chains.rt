//! The hull of a set, by its two chains.
ghost use Rattle.std.specs.Prelude.{◌≡◌, ◌+◌, ◌<◌, ◌≤◌, [], ℕ, length, List, OnOk, IfOk, OnErr, pos, ◌≢◌};
ghost use Rattle.std.specs.List.{Contains};
ghost use Rattle.std.specs.Map.{keys_of};
ghost use Rattle.lattice.specs.Plane.{Pair};
ghost use Rattle.lattice.specs.Covers.{IsPointSet, with_point, without_point};
ghost use Rattle.lattice.specs.Vertices.{IsVertexList, IsDoubledArea};
ghost use Rattle.hull_plain.specs.ChainPairs.{HasSpace, AreAlike, IsHullChains, IsHullChainsOf, AwaitsPoint, WasHullChainsOf};
ghost use Rattle.hull_set.specs.Replies.{LiesAt, AnswersExtreme, AnswersTangents, reply_to_extreme, reply_to_tangents};

use super::candidate_lists::CandidateLists;
use super::extremes::extreme_of;
use super::locations::place_of;
use super::repairing::{drain, put_in};
use super::scratch_chain::ScratchChain;
use super::tangents::tangents_from;
use super::vertices::{doubled_area_of, vertices_of};
use heap::Heap;
use hull_set::{POINT_LIMIT, Place};
use lattice::{Direction, Point, Side};
use std::alloc::AllocError;
use std::collections::BTreeMap;
use tiered_list::TieredList;

/// The two chains of the hull of a set, and the candidate lists and the storage to repair them.
#[derive(Drop)]
pub(crate) struct HullChains {
    lower: TieredList,
    upper: TieredList,
    candidate_lists: CandidateLists,
    scratch_chain: ScratchChain,
}

impl HullChains {
    /// Returns the hull chains of the empty set. Does not allocate.
    pub(crate) fn new(alloc: Heap) -> HullChains
        ensures { IsHullChainsOf [] result }
    {
        HullChains {
            lower: TieredList::new(alloc),
            upper: TieredList::new(alloc),
            candidate_lists: CandidateLists::new(alloc),
            scratch_chain: ScratchChain::new(alloc),
        }
    }

    /// Reserves storage for the hull chains of a set of `count` points.
    pub(crate) fn reserve(&mut self, count: usize) -> Result<(), AllocError>
        ensures alike { AreAlike self.old self.new }
        ensures space { OnOk result (HasSpace self.new count) }
        ensures kept { (n : ℕ) → HasSpace self.old n → HasSpace self.new n }
    {
        self.lower.reserve(count)?;
        self.upper.reserve(count)?;
        self.candidate_lists.reserve(count)?;
        self.scratch_chain.reserve(count)
    }

    /// Updates the hull chains after a new point `p` was added to the set, which is now `points`.
    pub(crate) fn add(&mut self, p: Point, points: &BTreeMap<Point, u16, Heap>)
        requires in_order { IsPointSet (keys_of points.now.entries) }
        requires hull_chains { AwaitsPoint p (keys_of points.now.entries) self.old }
        ensures hull_chains { IsHullChainsOf (keys_of points.now.entries) self.new }
        ensures kept { (n : ℕ) → HasSpace self.old n → HasSpace self.new n }
    {
        put_in(Side::Lower, &mut self.lower, &mut self.scratch_chain, p);
        put_in(Side::Upper, &mut self.upper, &mut self.scratch_chain, p);
        self.candidate_lists.add(p, points, &mut self.scratch_chain);
    }

    /// Updates the hull chains after `p` was removed from the set, which is now `points`.
    pub(crate) fn remove(&mut self, p: Point, points: &BTreeMap<Point, u16, Heap>)
        requires left { IsPointSet (keys_of points.now.entries) }
        requires hull_chains { WasHullChainsOf p (keys_of points.now.entries) self.old }
        requires space { HasSpace self.old (length (keys_of points.now.entries)) }
        ensures hull_chains { IsHullChainsOf (keys_of points.now.entries) self.new }
        ensures kept { (n : ℕ) → HasSpace self.old n → HasSpace self.new n }
    {
        self.candidate_lists
            .remove(p, points, &mut self.scratch_chain);
        let below = &self.candidate_lists.below;
        drain(
            Side::Lower,
            &mut self.lower,
            &mut self.scratch_chain,
            p,
            below,
        );
        let above = &self.candidate_lists.above;
        drain(
            Side::Upper,
            &mut self.upper,
            &mut self.scratch_chain,
            p,
            above,
        );
    }

    /// Returns the first of the farthest points in a direction.
    pub(crate) fn extreme(&self, d: Direction) -> Option<Point>
        ensures { (S : List Pair) → IsHullChainsOf S self.now → AnswersExtreme S d (reply_to_extreme result) }
    {
        if d.y() > 0 {
            extreme_of(&self.upper, d)
        } else {
            extreme_of(&self.lower, d)
        }
    }

    /// Returns the place of `q`.
    pub(crate) fn place(&self, q: Point) -> Place
        requires { IsHullChains self.now }
        ensures { (S : List Pair) → IsHullChainsOf S self.now → LiesAt S q result }
    {
        place_of(&self.lower, &self.upper, q)
    }

    /// Returns the left and the right tangent point of `q`, or `None` if the hull covers it.
    pub(crate) fn tangents(&self, q: Point) -> Option<(Point, Point)>
        requires { IsHullChains self.now }
        ensures { (S : List Pair) → IsHullChainsOf S self.now → AnswersTangents S q (reply_to_tangents result) }
    {
        tangents_from(&self.lower, &self.upper, q)
    }

    /// Returns the vertices, in storage of their own.
    pub(crate) fn vertices(&self) -> Result<Vec<Point, Heap>, AllocError>
        ensures vertices { IfOk result (λ v. (S : List Pair) → IsPointSet S → IsHullChainsOf S self.now
            → IsVertexList S v.items) }
        ensures refused { OnErr result ((S : List Pair) → IsHullChainsOf S self.now → S ≢ []) }
    {
        vertices_of(self.scratch_chain.allocator(), &self.lower, &self.upper)
    }

    /// Returns the doubled area.
    pub(crate) fn area2(&self) -> u128
        requires hull_chains { IsHullChains self.now }
        requires few_below { length self.now.lower.items ≤ POINT_LIMIT }
        requires few_above { length self.now.upper.items ≤ POINT_LIMIT }
        ensures { (S : List Pair) → IsPointSet S → IsHullChainsOf S self.now → IsDoubledArea S (pos result) }
    {
        doubled_area_of(&self.lower, &self.upper)
    }
}
