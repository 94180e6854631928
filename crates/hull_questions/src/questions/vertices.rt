//! The vertices of a hull.
ghost use Rattle.std.specs.Prelude.{◌≡◌, ◌≤◌, IfOk, vec_len};
ghost use Rattle.lattice.specs.Vertices.{IsVertexList};
ghost use Rattle.bridge_search.specs.Trees.{first_of, last_of, size_of};
ghost use Rattle.bridge_search.specs.Leaves.{points_of};
ghost use Rattle.hull_questions.specs.ChainRanges.{IsChainRange};
ghost use Rattle.hull_questions.specs.Walks.{IsListed, upright};

use crate::chain_ranges::{RangeShape, range_shape_of};
use bridge_search::{Half, Turned};
use heap::Heap;
use lattice::{Point, Side, before};
use std::alloc::AllocError;

/// Returns the vertex of the hull for a vertex of a half's lower chain; the hull's upper chain is the lower one of the
/// half rotated by 180 degrees.
pub(super) fn seen_from(side: Side, vertex: Point) -> Point
    ensures { result ≡ upright side vertex }
{
    match side {
        Side::Lower => vertex,
        Side::Upper => vertex.turned(),
    }
}

/// Appends the vertices of the lower chain of a half from one vertex to another, which is left out.
fn push_chain_range<H: Half>(
    half: H,
    from: Point,
    to: Point,
    side: Side,
    out: &mut Vec<Point, Heap>,
) -> Result<(), AllocError>
    requires { IsChainRange (H.tree half) from to }
    ensures { IfOk result (λ _. IsListed (H.tree half) from to side out.old.items out.new.items) }
{
    match range_shape_of(half, from, to) {
        RangeShape::Nowhere => Ok(()),
        RangeShape::Left => push_chain_range(half.left(), from, to, side, out),
        RangeShape::Right => push_chain_range(half.right(), from, to, side, out),
        RangeShape::Across(bridge) => {
            push_chain_range(half.left(), from, bridge.0, side, out)?;
            out.push(seen_from(side, bridge.0))?;
            push_chain_range(half.right(), bridge.1, to, side, out)
        }
    }
}

/// Appends the vertices of the lower chain of a half but the last.
fn push_chain<H: Half>(half: H, side: Side, out: &mut Vec<Point, Heap>) -> Result<(), AllocError>
    ensures { IfOk result (λ _. IsListed (H.tree half) (first_of (H.tree half))
        (last_of (H.tree half)) side out.old.items out.new.items) }
{
    push_chain_range(half, half.first(), half.last(), side, out)
}

/// Returns the vertices of the hull of a half, counterclockwise from the first point; no more than there are points.
///
/// Each chain is one walk through the stored bridges, only through parts that have vertices of the chain: through the
/// forks above those whose bridges are its edges, each once. In a balanced half of n points with h vertices these are
/// O(h log(n / h + 1)). Fails with `AllocError` only if `alloc` refuses memory.
pub fn vertices<H: Half>(alloc: Heap, half: H) -> Result<Vec<Point, Heap>, AllocError>
    ensures vertices { IfOk result (λ v. IsVertexList (points_of (H.tree half)) v.items) }
    ensures few { IfOk result (λ v. vec_len v ≤ size_of (H.tree half)) }
{
    let mut out = Vec::new(alloc);
    if before(half.first(), half.last()) {
        push_chain(half, Side::Lower, &mut out)?;
        push_chain(Turned::new(half), Side::Upper, &mut out)?;
    } else {
        out.push(half.first())?;
    }
    Ok(out)
}
