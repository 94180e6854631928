ghost use Rattle.std.specs.Prelude.{◌≡◌, ◌≤◌, ◌+◌};
ghost use Rattle.lattice.specs.Bridges.{IsAllBefore, IsLowerBridge};
ghost use Rattle.bridge_search.specs.Search.{IsDepthSum};
ghost use Rattle.bridge_search.specs.Trees.{On, height_of};
ghost use Rattle.bridge_search.specs.TurnedTrees.{turned_tree};

use super::half::Half;
use super::search::{upper_bridge, upper_bridge_counted};
use lattice::Point;

/// A half seen after a rotation by 180 degrees about the origin: its points and edges are rotated, its left half is the
/// right one rotated, and its upper edge the lower one rotated.
#[derive(Clone, Copy)]
pub struct Turned<H> {
    half: H,
}

impl<H: Half> Turned<H> {
    /// Returns the half after the rotation.
    pub fn new(half: H) -> Turned<H>
        ensures { ⟦<Turned<H> as Half>⟧.tree result ≡ turned_tree (H.tree half) }
    {
        Turned { half }
    }
}

impl<H: Half> Half for Turned<H> {
    ghost use Rattle.bridge_search.specs.TurnedTrees.{turned_tree, bridged_turned, low_turned, fits_turned};

    ghost tree = { λ t. turned_tree (H.tree t.half) };

    ghost Fits = { H.Fits };

    fn orient(a: Point, b: Point, c: Point) -> i128 {
        H::orient(a, b, c)
    }

    fn edge(self) -> Option<(Point, Point)> {
        match self.half.lower() {
            None => None,
            Some((left, right)) => Some((right.turned(), left.turned())),
        }
    }

    fn lower(self) -> Option<(Point, Point)> {
        match self.half.edge() {
            None => None,
            Some((left, right)) => Some((right.turned(), left.turned())),
        }
    }

    fn left(self) -> Self {
        Turned {
            half: self.half.right(),
        }
    }

    fn right(self) -> Self {
        Turned {
            half: self.half.left(),
        }
    }

    fn first(self) -> Point {
        self.half.last().turned()
    }

    fn last(self) -> Point {
        self.half.first().turned()
    }

    fn height(self) -> u32 {
        self.half.height()
    }

    ghost bridged = { λ t. bridged_turned (H.tree t.half) (H.bridged t.half) };

    ghost low = { λ t. low_turned (H.tree t.half) (H.low t.half) };

    ghost fits = { λ t. fits_turned H.Fits H.turned_fits (H.tree t.half) (H.fits t.half) };

    ghost turned_fits = { H.turned_fits };
}

/// Returns the lower bridge of `u` and `w`, and the number of turns of the search: the depth of the first end in `u`
/// plus that of the second in `w`, as for [`upper_bridge_counted`]. All of `u` must be before all of `w`.
pub fn lower_bridge_counted<H: Half>(u: H, w: H) -> ((Point, Point), u32)
    requires { IsAllBefore (On (H.tree u)) (On (H.tree w)) }
    ensures bridge { IsLowerBridge (On (H.tree u)) (On (H.tree w)) result.0.0 result.0.1 }
    ensures depths { IsDepthSum (H.tree u) (H.tree w) result.0.0 result.0.1 result.1 }
    ensures few { result.1 ≤ height_of (H.tree u) + height_of (H.tree w) }
{
    let ((first, last), turns) = upper_bridge_counted(Turned::new(w), Turned::new(u));
    ((last.turned(), first.turned()), turns)
}

/// Returns the lower bridge of `u` and `w`, from its end in `u` to its end in `w`: no point of either half lies right
/// of the line through the two ends, and those on it lie between them. All of `u` must be before all of `w`.
/// It is the upper bridge of the two halves rotated by 180 degrees.
pub fn lower_bridge<H: Half>(u: H, w: H) -> (Point, Point)
    requires { IsAllBefore (On (H.tree u)) (On (H.tree w)) }
    ensures { IsLowerBridge (On (H.tree u)) (On (H.tree w)) result.0 result.1 }
{
    let (first, last) = upper_bridge(Turned::new(w), Turned::new(u));
    (last.turned(), first.turned())
}
