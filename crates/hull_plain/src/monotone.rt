//! The chain of a hull on one side, by a pass over points in order (the monotone chain: Andrew, 1979).
ghost use Rattle.std.specs.Prelude.{◌≡◌, ◌+◌, ◌-◌, ◌<◌, ◌≤◌, ◌++◌, ◌∷◌, [], ◌↔◌, pos, ◌<ℤ◌, length, drop, IsTrue, false};
ghost use Rattle.std.specs.Prelude.{None, slice_range, vec_capacity};
ghost use Rattle.lattice.specs.Covers.{IsPointSet};
ghost use Rattle.hull_plain.specs.Drafts.{IsAsRoomy, drafted};
ghost use Rattle.lattice.specs.Orientations as orientations;
ghost use Rattle.hull_geometry.specs.Monotone.{EndsInwards, IsConvex, IsPassed, IsThinned};

use super::scratch_chain::ScratchChain;
use lattice::{Point, Side, orient_on};
use tiered_list::TieredList;

/// Whether `c` lies inwards of the line from `a` forward to `b`.
pub(crate) fn is_inner(side: Side, a: Point, b: Point, c: Point) -> bool
    ensures { IsTrue result ↔ (pos 0 <ℤ orientations.orient_on side a b c) }
{
    orient_on(side, a, b, c) > 0
}

/// Whether the last point of a scratch chain does not lie outwards of the segment from the one before it to `c`.
fn ends_inwards(side: Side, list: &TieredList, scratch_chain: &ScratchChain, c: Point) -> bool
    requires { scratch_chain.now.kept ≤ length list.now.items }
    ensures inwards { IsTrue result → EndsInwards side (drafted list.now.items scratch_chain.now) c }
    ensures convex { result ≡ false → IsConvex side (drafted list.now.items scratch_chain.now)
        → IsConvex side (drafted list.now.items scratch_chain.now ++ c ∷ []) }
{
    match scratch_chain.last_two(list) {
        Some(ends) => orient_on(side, ends.0, ends.1, c) <= 0,
        None => false,
    }
}

/// Appends a point to the scratch chain of a list, after removing those last points that then do not lie outwards.
/// Returns whether none was removed. If `fixed` is given, the points of the list and so many new ones stay.
pub(crate) fn extend_behind(
    side: Side,
    list: &TieredList,
    scratch_chain: &mut ScratchChain,
    fixed: Option<usize>,
    c: Point,
) -> bool
    requires within { scratch_chain.old.kept ≤ length list.now.items }
    requires set { IsPointSet (drafted list.now.items scratch_chain.old ++ c ∷ []) }
    requires space { length (drafted list.now.items scratch_chain.old) < vec_capacity scratch_chain.old.fresh }
    ensures within { scratch_chain.new.kept ≤ scratch_chain.old.kept }
    ensures thinned { IsThinned side (drafted list.now.items scratch_chain.old ++ c ∷ []) (drafted list.now.items scratch_chain.new) }
    ensures convex { fixed ≡ None → IsConvex side (drafted list.now.items scratch_chain.old)
        → IsConvex side (drafted list.now.items scratch_chain.new) }
    ensures stays { IsTrue result
        → drafted list.now.items scratch_chain.new ≡ drafted list.now.items scratch_chain.old ++ c ∷ [] }
    ensures space { IsAsRoomy scratch_chain.old scratch_chain.new }
{
    let mut stays = true;
    while scratch_chain.may_lose(fixed) && ends_inwards(side, list, scratch_chain, c) {
        scratch_chain.pop();
        stays = false;
    }
    scratch_chain.push(c);
    stays
}

/// Appends a point in the same way to a scratch chain that bends: none of its points has to stay.
pub(crate) fn extend(
    side: Side,
    list: &TieredList,
    scratch_chain: &mut ScratchChain,
    c: Point,
) -> bool
    requires within { scratch_chain.old.kept ≤ length list.now.items }
    requires set { IsPointSet (drafted list.now.items scratch_chain.old ++ c ∷ []) }
    requires convex { IsConvex side (drafted list.now.items scratch_chain.old) }
    requires space { length (drafted list.now.items scratch_chain.old) < vec_capacity scratch_chain.old.fresh }
    ensures within { scratch_chain.new.kept ≤ scratch_chain.old.kept }
    ensures passed { IsPassed side (drafted list.now.items scratch_chain.old ++ c ∷ []) (drafted list.now.items scratch_chain.new) }
    ensures stays { IsTrue result
        → drafted list.now.items scratch_chain.new ≡ drafted list.now.items scratch_chain.old ++ c ∷ [] }
    ensures space { IsAsRoomy scratch_chain.old scratch_chain.new }
{
    extend_behind(side, list, scratch_chain, None, c)
}

/// Continues the pass over the points of another list, in order, from one index to another.
pub(crate) fn pass_over(
    side: Side,
    list: &TieredList,
    scratch_chain: &mut ScratchChain,
    points: &TieredList,
    from: usize,
    to: usize,
)
    requires within { scratch_chain.old.kept ≤ length list.now.items }
    requires order { from ≤ to }
    requires inside { to ≤ length points.now.items }
    requires set { IsPointSet (drafted list.now.items scratch_chain.old ++ slice_range points.now.items from to) }
    requires convex { IsConvex side (drafted list.now.items scratch_chain.old) }
    requires space { length (drafted list.now.items scratch_chain.old) + (to - from) ≤ vec_capacity scratch_chain.old.fresh }
    ensures within { scratch_chain.new.kept ≤ scratch_chain.old.kept }
    ensures passed { IsPassed side (drafted list.now.items scratch_chain.old ++ slice_range points.now.items from to)
        (drafted list.now.items scratch_chain.new) }
    ensures space { IsAsRoomy scratch_chain.old scratch_chain.new }
{
    for i in 0..to - from {
        let _stays = extend(side, list, scratch_chain, points.get(from + i));
    }
}

/// Continues the pass over the list's own points from an index on, which bend. It stops after two of them in a row
/// stayed, and returns the index after them: from there on all bends are as they were.
pub(crate) fn take_up(
    side: Side,
    list: &TieredList,
    scratch_chain: &mut ScratchChain,
    from: usize,
) -> usize
    requires within { scratch_chain.old.kept ≤ length list.now.items }
    requires inside { from ≤ length list.now.items }
    requires set { IsPointSet (drafted list.now.items scratch_chain.old ++ drop from list.now.items) }
    requires convex { IsConvex side (drafted list.now.items scratch_chain.old) }
    requires rest_convex { IsConvex side (drop from list.now.items) }
    requires space { length (drafted list.now.items scratch_chain.old) + length (drop from list.now.items)
        ≤ vec_capacity scratch_chain.old.fresh }
    ensures within { scratch_chain.new.kept ≤ scratch_chain.old.kept }
    ensures inside { result ≤ length list.now.items }
    ensures order { from ≤ result }
    ensures passed { IsPassed side (drafted list.now.items scratch_chain.old ++ drop from list.now.items)
        (drafted list.now.items scratch_chain.new ++ drop result list.now.items) }
    ensures space { IsAsRoomy scratch_chain.old scratch_chain.new }
{
    for i in 0..list.len() - from {
        if extend(side, list, scratch_chain, list.get(from + i)) && i > 0 {
            return from + i + 1;
        }
    }
    list.len()
}
