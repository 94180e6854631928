ghost use Rattle.std.specs.Prelude.{◌≡◌, ◌≤◌, ◌+◌, MatchOption, Some, None};
ghost use Rattle.lattice.specs.Bridges.{IsAllBefore, IsUpperBridge};
ghost use Rattle.bridge_search.specs.Trees.{On, edge_of, first_of, height_of, highest};
ghost use Rattle.bridge_search.specs.Search.{IsReady, IsTurn, IsDone, IsAdvance, IsReached, IsDepthSum};

use super::half::Half;
use lattice::{Point, weighted_at_or_before};

/// Returns the half of `u`, whose upper edge is ab, that keeps the bridge: a turn if `w` is one point.
#[tactic(auto, using(crate::proofs::Turns::is_fork))]
fn turn_left<H: Half>(u: H, w: H, a: Point, b: Point, m: Point) -> H
    requires ready { IsReady (H.tree u) (H.tree w) m }
    requires edge { edge_of (H.tree u) ≡ Some (a, b) }
    requires one { edge_of (H.tree w) ≡ None }
    ensures { IsTurn (H.tree u) (H.tree w) m (H.tree result) (H.tree w) }
{
    if H::orient(a, b, w.first()) >= 0 {
        u.left()
    } else {
        u.right()
    }
}

/// Returns the half of `w`, whose upper edge is cd, that keeps the bridge: a turn if `u` is one point.
#[tactic(auto, using(crate::proofs::Turns::is_fork))]
fn turn_right<H: Half>(u: H, w: H, c: Point, d: Point, m: Point) -> H
    requires ready { IsReady (H.tree u) (H.tree w) m }
    requires one { edge_of (H.tree u) ≡ None }
    requires edge { edge_of (H.tree w) ≡ Some (c, d) }
    ensures { IsTurn (H.tree u) (H.tree w) m (H.tree u) (H.tree result) }
{
    if H::orient(u.first(), c, d) >= 0 {
        w.right()
    } else {
        w.left()
    }
}

/// Makes a turn if both halves have an upper edge: ab is that of `u`, cd that of `w`.
fn turn_both<H: Half>(u: H, w: H, a: Point, b: Point, c: Point, d: Point, m: Point) -> (H, H)
    requires ready { IsReady (H.tree u) (H.tree w) m }
    requires left_edge { edge_of (H.tree u) ≡ Some (a, b) }
    requires right_edge { edge_of (H.tree w) ≡ Some (c, d) }
    ensures { IsTurn (H.tree u) (H.tree w) m (H.tree result.0) (H.tree result.1) }
{
    let side = H::orient(a, b, c);
    if side >= 0 {
        (u.left(), w)
    } else if H::orient(b, c, d) >= 0 {
        (u, w.right())
    } else if weighted_at_or_before(side, H::orient(b, a, d), c, d, m) {
        (u.right(), w)
    } else {
        (u, w.left())
    }
}

/// Makes one turn: returns two halves that have the same upper bridge, or `None` if both are one point.
fn turn<H: Half>(u: H, w: H, m: Point) -> Option<(H, H)>
    requires { IsReady (H.tree u) (H.tree w) m }
    ensures { MatchOption result (IsDone (H.tree u) (H.tree w))
        (λ r. IsTurn (H.tree u) (H.tree w) m (H.tree r.0) (H.tree r.1)) }
{
    match (u.edge(), w.edge()) {
        (None, None) => None,
        (None, Some((c, d))) => Some((u, turn_right(u, w, c, d, m))),
        (Some((a, b)), None) => Some((turn_left(u, w, a, b, m), w)),
        (Some((a, b)), Some((c, d))) => Some(turn_both(u, w, a, b, c, d, m)),
    }
}

/// A search under way: the halves that keep the bridge, the first point of the right half as it was at the start, and
/// the number of turns so far.
#[derive(Clone, Copy)]
pub(crate) struct Search<H> {
    pub(crate) left: H,
    pub(crate) right: H,
    pub(crate) split: Point,
    pub(crate) turns: u32,
}

impl<H: Half> Search<H> {
    /// Returns the search for the upper bridge of `u` and `w`, whose first point is `split`, before its first turn.
    pub(crate) fn new(u: H, w: H, split: Point) -> Search<H>
        requires in_order { IsAllBefore (On (H.tree u)) (On (H.tree w)) }
        requires split { split ≡ first_of (H.tree w) }
        ensures { IsReached (H.tree u) (H.tree w) (H.tree result.left)
            (H.tree result.right) result.split result.turns }
    {
        Search {
            left: u,
            right: w,
            split,
            turns: 0,
        }
    }

    /// Makes one turn. Returns false if both halves are one point, and then changes nothing.
    pub(crate) fn advance(&mut self) -> bool
        requires ready { IsReady (H.tree self.old.left) (H.tree self.old.right) self.old.split }
        requires room { height_of (H.tree self.old.left) + height_of (H.tree self.old.right) + self.old.turns
            ≤ highest + highest }
        ensures advance { IsAdvance result (H.tree self.old.left)
            (H.tree self.old.right) self.old.split self.old.turns (H.tree self.new.left)
            (H.tree self.new.right) self.new.turns }
        ensures split { self.new.split ≡ self.old.split }
    {
        match turn(self.left, self.right, self.split) {
            None => false,
            Some((left, right)) => {
                self.left = left;
                self.right = right;
                self.turns += 1;
                true
            }
        }
    }

    /// Returns the ends of the bridge. Both halves must be one point.
    pub(crate) fn ends(&self) -> (Point, Point)
        ensures left { result.0 ≡ first_of (H.tree self.now.left) }
        ensures right { result.1 ≡ first_of (H.tree self.now.right) }
    {
        (self.left.first(), self.right.first())
    }
}

/// Returns the upper bridge of `u` and `w`, from its end in `u` to its end in `w`: no point of either half lies left of
/// the line through the two ends, and those on it lie between them. All of `u` must be before all of `w`.
/// Also returns the number of turns of the search: the depth of the first end in `u` plus that of the second in `w`, so
/// at most the sum of the two heights. A depth is one number ([`depth_is_unique`](crate::depth_is_unique)).
///
/// With ab the upper edge of `u`, cd that of `w`, and m the first point of `w` at the start, each turn goes into a half
/// that keeps the bridge (Overmars and van Leeuwen, 1981):
///
/// | Case | Turn |
/// |---|---|
/// | both are one point | the bridge is these points |
/// | `u` is the point b, d on or left of bc | to the right half of `w` |
/// | `u` is the point b, d right of bc | to the left half of `w` |
/// | `w` is the point c, c on or left of ab | to the left half of `u` |
/// | `w` is the point c, c right of ab | to the right half of `u` |
/// | c on or left of ab | to the left half of `u` |
/// | else d on or left of bc | to the right half of `w` |
/// | else the lines ab and cd cross before m or at m | to the right half of `u` |
/// | else | to the left half of `w` |
pub fn upper_bridge_counted<H: Half>(u: H, w: H) -> ((Point, Point), u32)
    requires { IsAllBefore (On (H.tree u)) (On (H.tree w)) }
    ensures bridge { IsUpperBridge (On (H.tree u)) (On (H.tree w)) result.0.0 result.0.1 }
    ensures depths { IsDepthSum (H.tree u) (H.tree w) result.0.0 result.0.1 result.1 }
    ensures few { result.1 ≤ height_of (H.tree u) + height_of (H.tree w) }
{
    let mut search = Search::new(u, w, w.first());
    while search.advance() {}
    (search.ends(), search.turns)
}

/// Returns the upper bridge of `u` and `w`, as [`upper_bridge_counted`] finds it, without the number of turns. All of
/// `u` must be before all of `w`.
pub fn upper_bridge<H: Half>(u: H, w: H) -> (Point, Point)
    requires { IsAllBefore (On (H.tree u)) (On (H.tree w)) }
    ensures { IsUpperBridge (On (H.tree u)) (On (H.tree w)) result.0 result.1 }
{
    upper_bridge_counted(u, w).0
}
