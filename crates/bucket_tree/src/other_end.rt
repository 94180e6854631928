//! The other end of a bridge of which one end is known: one path down a half, with at most one orientation a turn.
//!
//! The end lies within bounds, which turns narrow: an edge beyond them costs no orientation, and if they meet, the end is found.
ghost use Rattle.std.specs.Prelude.{◌≡◌, ◌≤◌, ◌+◌, ◌↔◌, IsTrue, MatchOption, length};
ghost use Rattle.bridge_search.specs.Trees.{height_of as height_in};
ghost use Rattle.hull_set.specs.declared.TheConstants.{POINT_LIMIT};
ghost use Rattle.lattice.specs.declared.side.Side.TheVariants.{Upper};
ghost use Rattle.bucket_tree.specs.Nodes.{tree_of, points_below, node_height, IsWellBuilt};
ghost use Rattle.bucket_tree.specs.OtherEnds.{IsBeside, IsEndAt, IsEndWithin, IsFound, IsRange, IsToTheRight, opposite};

use crate::node::Node;
use crate::part::Part;
use crate::questions::vertices_are_few;
use bridge_search::{Half, Turned};
use lattice::{Point, Side, before, orient};

/// An end of a bridge.
#[derive(Clone, Copy)]
pub(crate) enum BridgeEnd {
    /// The first one, in the left half.
    Start,
    /// The second one, in the right half.
    End,
}

/// Returns the other end.
fn opposite_end(end: BridgeEnd) -> BridgeEnd
    ensures { result ≡ opposite end }
{
    match end {
        BridgeEnd::Start => BridgeEnd::End,
        BridgeEnd::End => BridgeEnd::Start,
    }
}

/// A search under way: the half that has the end, and the first and the last point that the end may be.
#[derive(Clone, Copy)]
struct Range<H> {
    half: H,
    first: Point,
    last: Point,
}

/// Whether an end of the upper bridge between the point `p` and two halves with this edge is in the right half, given
/// that it is no point between the edge's ends.
fn is_to_the_right(end: BridgeEnd, p: Point, edge: &(Point, Point)) -> bool
    ensures { IsTrue result ↔ IsToTheRight end p edge.now }
{
    match end {
        BridgeEnd::Start => orient(edge.0, edge.1, p) < 0,
        BridgeEnd::End => orient(p, edge.0, edge.1) >= 0,
    }
}

/// Returns the range of the half that has an end of the upper bridge between this one and `p`, which is not among its
/// points, or `None` if the end is found.
fn next_range<H: Half>(end: BridgeEnd, p: Point, range: Range<H>) -> Option<Range<H>>
    requires beside { IsBeside end p (H.tree range.half) }
    requires within { IsEndWithin end Upper p (H.tree range.half) range.first range.last }
    ensures { MatchOption result (IsFound (H.tree range.half) range.first range.last)
        (λ next. IsRange end p (H.tree range.half) (H.tree next.half) next.first next.last 1) }
{
    let Range { half, first, last } = range;
    if first == last {
        return None;
    }
    let edge = half.edge()?;
    if !before(edge.0, last) {
        return Some(Range {
            half: half.left(),
            first,
            last,
        });
    }
    if !before(first, edge.1) {
        return Some(Range {
            half: half.right(),
            first,
            last,
        });
    }
    if is_to_the_right(end, p, &edge) {
        Some(Range {
            half: half.right(),
            first: edge.1,
            last,
        })
    } else {
        Some(Range {
            half: half.left(),
            first,
            last: edge.0,
        })
    }
}

/// Returns an end of the upper bridge between `half` and the point `p`, which is before all of the half if its end is
/// searched, and after all of it if its start is, and the turns of the search. The end is neither before `first` nor
/// after `last`.
fn upper_end<H: Half>(end: BridgeEnd, p: Point, half: H, first: Point, last: Point) -> (Point, u32)
    requires beside { IsBeside end p (H.tree half) }
    requires within { IsEndWithin end Upper p (H.tree half) first last }
    ensures end { IsEndAt end Upper p (H.tree half) result.0 }
    ensures turns { result.1 ≤ height_in (H.tree half) }
{
    let mut range = Range { half, first, last };
    let mut turns = 0;
    while let Some(next) = next_range(end, p, range) {
        range = next;
        turns += 1;
    }
    if range.first == range.last {
        return (range.first, turns);
    }
    (range.half.first(), turns)
}

/// Searches an end, as [`other_end`], whether its bounds meet or not.
#[inline(never)]
fn search_end(
    end: BridgeEnd,
    side: Side,
    p: Point,
    node: &Node,
    first: Point,
    last: Point,
) -> (Point, u32)
    requires built { IsWellBuilt node.now }
    requires few { length (points_below node.now) ≤ POINT_LIMIT }
    requires beside { IsBeside end p (tree_of node.now) }
    requires within { IsEndWithin end side p (tree_of node.now) first last }
    ensures end { IsEndAt end side p (tree_of node.now) result.0 }
    ensures turns { result.1 ≤ node_height node.now + 6 }
{
    vertices_are_few(node);
    let part = Part::new(node);
    match side {
        Side::Upper => upper_end(end, p, part, first, last),
        Side::Lower => {
            let (found, turns) = upper_end(
                opposite_end(end),
                p.turned(),
                Turned::new(part),
                last.turned(),
                first.turned(),
            );
            (found.turned(), turns)
        }
    }
}

/// Returns an end, among the vertices below a node, of the bridge on a side between them and a point, which is before
/// them if its end is searched, and after them if its start is, and the turns of the search. The end is neither before
/// `first` nor after `last`; if these are the same point, it is the end.
#[inline(always)]
pub(crate) fn other_end(
    end: BridgeEnd,
    side: Side,
    p: Point,
    node: &Node,
    first: Point,
    last: Point,
) -> (Point, u32)
    requires built { IsWellBuilt node.now }
    requires few { length (points_below node.now) ≤ POINT_LIMIT }
    requires beside { IsBeside end p (tree_of node.now) }
    requires within { IsEndWithin end side p (tree_of node.now) first last }
    ensures end { IsEndAt end side p (tree_of node.now) result.0 }
    ensures turns { result.1 ≤ node_height node.now + 6 }
{
    if first == last {
        return (first, 0);
    }
    search_end(end, side, p, node, first, last)
}
