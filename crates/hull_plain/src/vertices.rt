//! The vertices of a hull in their order, and its doubled area, in one pass along its two chains.
ghost use Rattle.std.specs.Prelude.{◌≡◌, ◌+◌, ◌*◌, ◌<◌, ◌≤◌, ◌≤ℤ◌, List, length, pos, IfOk, OnErr};
ghost use Rattle.lattice.specs.Plane.{Pair, widest_side};
ghost use Rattle.lattice.specs.Covers.{IsPointSet};
ghost use Rattle.lattice.specs.Vertices.{IsVertexList, IsDoubledArea};
ghost use Rattle.lattice.specs.Orientations as orientations;
ghost use Rattle.hull_geometry.specs.Monotone.{IsSomeChain, AreChainsOf, AreChains, fan_of};

use heap::Heap;
use hull_set::POINT_LIMIT;
use lattice::{Point, Side, orient_on};
use std::alloc::AllocError;
use tiered_list::TieredList;

/// Returns the vertices: the lower chain, and then the upper one back, without its ends.
pub(crate) fn vertices_of(
    alloc: Heap,
    lower: &TieredList,
    upper: &TieredList,
) -> Result<Vec<Point, Heap>, AllocError>
    ensures vertices { IfOk result (λ v. (S : List Pair) → IsPointSet S → AreChainsOf S lower.now.items upper.now.items
        → IsVertexList S v.items) }
    ensures refused { OnErr result (0 < length lower.now.items + length upper.now.items) }
{
    let mut out = Vec::new(alloc);
    lower.copy_to(&mut out)?;
    let mut i = upper.len();
    while i > 2 {
        i -= 1;
        out.push(upper.get(i - 1))?;
    }
    Ok(out)
}

/// Returns the doubled area of a triangle that does not bend outwards.
fn doubled_triangle(side: Side, a: Point, b: Point, c: Point) -> u128
    requires { pos 0 ≤ℤ orientations.orient_on side a b c }
    ensures value { pos result ≡ orientations.orient_on side a b c }
    ensures size { result ≤ widest_side }
{
    orient_on(side, a, b, c) as u128
}

/// Returns the doubled area between a chain and the segment from its first point to its last.
fn doubled_fan(side: Side, chain: &TieredList) -> u128
    requires chain { IsSomeChain side chain.now.items }
    requires few { length chain.now.items ≤ POINT_LIMIT }
    ensures fan { pos result ≡ fan_of side chain.now.items }
    ensures size { result ≤ POINT_LIMIT * widest_side }
{
    let mut doubled = 0;
    for i in 1..chain.len() {
        doubled += doubled_triangle(side, chain.get(i - 1), chain.get(i), chain.get(0));
    }
    doubled
}

/// Returns the doubled area of the hull of these two chains.
pub(crate) fn doubled_area_of(lower: &TieredList, upper: &TieredList) -> u128
    requires chains { AreChains lower.now.items upper.now.items }
    requires few_lower { length lower.now.items ≤ POINT_LIMIT }
    requires few_upper { length upper.now.items ≤ POINT_LIMIT }
    ensures { (S : List Pair) → IsPointSet S → AreChainsOf S lower.now.items upper.now.items → IsDoubledArea S (pos result) }
{
    doubled_fan(Side::Lower, lower) + doubled_fan(Side::Upper, upper)
}
