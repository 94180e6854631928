//! The vertices of a hull, if they are few.
ghost use Rattle.std.specs.Prelude.{◌≤◌, IfOk, IfSome, IfNone, vec_len};
ghost use Rattle.lattice.specs.Vertices.{IsVertexList};
ghost use Rattle.bridge_search.specs.Trees.{first_of, last_of};
ghost use Rattle.bridge_search.specs.Leaves.{points_of};
ghost use Rattle.hull_questions.specs.ChainRanges.{IsChainRange};
ghost use Rattle.hull_questions.specs.Walks.{IsListedUpTo, IsLongerThan, IsPushedUpTo};

use super::vertices::seen_from;
use crate::chain_ranges::{RangeShape, range_shape_of};
use bridge_search::{Half, Turned};
use heap::Heap;
use lattice::{Point, Side, before};
use std::alloc::AllocError;

/// Appends a vertex if the list has fewer points than `most`. Returns whether it did.
fn push_up_to(vertex: Point, most: usize, out: &mut Vec<Point, Heap>) -> Result<bool, AllocError>
    requires { vec_len out.old ≤ most }
    ensures { IfOk result (λ pushed. IsPushedUpTo vertex most out.old.items out.new.items pushed) }
{
    if out.len() >= most {
        return Ok(false);
    }
    out.push(vertex)?;
    Ok(true)
}

/// Appends the vertices of the lower chain of a half from one vertex to another, which is left out, up to `most` points
/// in all. Returns whether these are all.
fn push_chain_range_up_to<H: Half>(
    half: H,
    from: Point,
    to: Point,
    side: Side,
    most: usize,
    out: &mut Vec<Point, Heap>,
) -> Result<bool, AllocError>
    requires chain_range { IsChainRange (H.tree half) from to }
    requires few { vec_len out.old ≤ most }
    ensures { IfOk result (λ whole. IsListedUpTo (H.tree half) from to side most out.old.items out.new.items whole) }
{
    match range_shape_of(half, from, to) {
        RangeShape::Nowhere => Ok(true),
        RangeShape::Left => push_chain_range_up_to(half.left(), from, to, side, most, out),
        RangeShape::Right => push_chain_range_up_to(half.right(), from, to, side, most, out),
        RangeShape::Across(bridge) => {
            if !push_chain_range_up_to(half.left(), from, bridge.0, side, most, out)? {
                return Ok(false);
            }
            if !push_up_to(seen_from(side, bridge.0), most, out)? {
                return Ok(false);
            }
            push_chain_range_up_to(half.right(), bridge.1, to, side, most, out)
        }
    }
}

/// Appends the vertices of the lower chain of a half but the last, up to `most` points in all. Returns whether these
/// are all.
fn push_chain_up_to<H: Half>(
    half: H,
    side: Side,
    most: usize,
    out: &mut Vec<Point, Heap>,
) -> Result<bool, AllocError>
    requires { vec_len out.old ≤ most }
    ensures { IfOk result (λ whole. IsListedUpTo (H.tree half) (first_of (H.tree half)) (last_of (H.tree half)) side most
        out.old.items out.new.items whole) }
{
    push_chain_range_up_to(half, half.first(), half.last(), side, most, out)
}

/// Returns the vertices of the hull of a half, as [`vertices`](crate::vertices) does, if there are at most `most`, and
/// `None` if there are more. It passes no more forks than those above `most` edges. Fails with `AllocError` only if
/// `alloc` refuses memory.
pub fn vertices_up_to<H: Half>(
    alloc: Heap,
    half: H,
    most: usize,
) -> Result<Option<Vec<Point, Heap>>, AllocError>
    ensures vertices { IfOk result (λ found. IfSome found (λ v. IsVertexList (points_of (H.tree half)) v.items)) }
    ensures few { IfOk result (λ found. IfSome found (λ v. vec_len v ≤ most)) }
    ensures more { IfOk result (λ found. IfNone found (IsLongerThan most (points_of (H.tree half)))) }
{
    let mut out = Vec::new(alloc);
    if !before(half.first(), half.last()) {
        if !push_up_to(half.first(), most, &mut out)? {
            return Ok(None);
        }
        return Ok(Some(out));
    }
    if !push_chain_up_to(half, Side::Lower, most, &mut out)? {
        return Ok(None);
    }
    if !push_chain_up_to(Turned::new(half), Side::Upper, most, &mut out)? {
        return Ok(None);
    }
    Ok(Some(out))
}
