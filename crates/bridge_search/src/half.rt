ghost use Rattle.std.specs.Prelude.{◌≡◌, ◌≤◌};
ghost use Rattle.lattice.specs.Plane as plane;
ghost use Rattle.lattice.specs.Plane.{Pair, IsWithin, turned_point, widest_side};
ghost use Rattle.bridge_search.specs.Trees.{Tree, On, IsBridged, IsFork, edge_of, lower_of, left_of, right_of};
ghost use Rattle.bridge_search.specs.Trees.{first_of, last_of, height_of, highest};

use lattice::Point;

/// A half of a hull: one point, or two stored edges and two halves of its own.
///
/// Contracts see it as a finite tree. Its law: at each fork all points of the left half are before all points of the
/// right one, the upper edge is the upper bridge of these two halves, and the lower edge their lower bridge. Its height
/// is at most 2147483647, so that the turns of a search fit in 32 bits.
///
/// It compares in the width that its points need: [`orient`](Half::orient) is called only with points that fit, and all
/// points of the half do. So one search serves halves whose sides take 128 bits and halves whose sides take 64.
pub trait Half: Copy {
    ghost tree: { Self → Tree };

    ghost Fits: { Pair → Type 0 };

    /// Returns on which side of the directed line from `a` to `b` the point `c` lies, as [`lattice::orient`] does.
    fn orient(a: Point, b: Point, c: Point) -> i128
        requires first { Fits a }
        requires second { Fits b }
        requires third { Fits c }
        ensures value { result ≡ plane.orient a b c }
        ensures size { IsWithin widest_side result };

    /// Returns the upper edge, from its left to its right end, or `None` if the half is one point.
    fn edge(self) -> Option<(Point, Point)>
        ensures { result ≡ edge_of (tree self) };

    /// Returns the lower edge, from its left to its right end, or `None` if the half is one point.
    fn lower(self) -> Option<(Point, Point)>
        ensures { result ≡ lower_of (tree self) };

    /// Returns the left half of a half with edges.
    fn left(self) -> Self
        requires { IsFork (tree self) }
        ensures { tree result ≡ left_of (tree self) };

    /// Returns the right half of a half with edges.
    fn right(self) -> Self
        requires { IsFork (tree self) }
        ensures { tree result ≡ right_of (tree self) };

    /// Returns the first point, in the order [`before`](lattice::before).
    fn first(self) -> Point
        ensures { result ≡ first_of (tree self) };

    /// Returns the last point, in the order [`before`](lattice::before).
    fn last(self) -> Point
        ensures { result ≡ last_of (tree self) };

    /// Returns the height: 0 if the half is one point, else one more than the height of the higher of its two halves.
    fn height(self) -> u32
        ensures { result ≡ height_of (tree self) };

    ghost bridged: { (x : Self) → IsBridged (tree x) };

    ghost fits: { (x : Self) (p : Pair) → On (tree x) p → Fits p };

    ghost turned_fits: { (p : Pair) → Fits p → Fits (turned_point p) };

    ghost low: { (x : Self) → height_of (tree x) ≤ highest };
}
