//! A small half for the tests, over a borrowed list of points.
ghost use Rattle.std.specs.Prelude.{◌≡◌, ◌≤◌, ◌<◌, ◌⊎◌, ◌∷◌, [], Option, None, IfOk, IfSome, MatchOption, length};
ghost use Rattle.lattice.specs.Plane as plane;
ghost use Rattle.lattice.specs.Plane.{IsWithin, widest_side};
ghost use Rattle.bridge_search.specs.Trees.{Leaf, Fork, IsBridged, first_of, highest};
ghost use Rattle.bridge_search.specs.Listed.{listed_tree};
ghost use Rattle.bridge_search.specs.OneWay.{IsBridged-prop};

use super::both::both_bridges;
use super::half::Half;
use super::search::upper_bridge;
use super::turned::lower_bridge;
use lattice::{Point, before, orient};
use std::test::Fail;

/// A point, and the upper and the lower edge between the points before it and itself.
pub type Entry = (Point, (Point, Point), (Point, Point));

/// The half of the points of a list, which come from right to left. The right half of each fork is one point, the last.
#[derive(Clone, Copy)]
pub struct Listed<'a> {
    entries: &'a [Entry],
    ghost bridged: { IsBridged (listed_tree entries.now) } by { IsBridged-prop (listed_tree entries.now) },
    ghost filled: { 1 ≤ length entries.now },
    ghost short: { length entries.now ≤ highest },
}

/// Returns the first of the points of a list that is not empty.
fn first_point(entries: &[Entry]) -> Point
    requires { 1 ≤ length entries.now }
    ensures { result ≡ first_of (listed_tree entries.now) }
{
    if entries.len() == 1 {
        entries[0].0
    } else {
        first_point(&entries[1..])
    }
}

impl<'a> Listed<'a> {
    /// Returns the half of a list, or `None` if it is empty or longer than a half may be high.
    pub fn new(entries: &'a [Entry]) -> Option<Listed<'a>>
        requires { IsBridged (listed_tree entries.now) }
        ensures { MatchOption result ((entries.now ≡ []) ⊎ (highest < length entries.now))
            (λ h. h.entries.now ≡ entries.now) }
    {
        if entries.is_empty() || entries.len() > 2147483647 {
            None
        } else {
            Some(Listed { entries })
        }
    }
}

impl<'a> Half for Listed<'a> {
    ghost use Rattle.bridge_search.specs.Listed.{low_listed};

    ghost tree = { λ s. listed_tree s.entries.now };

    ghost Fits = { λ p. Unit {0} };

    fn orient(a: Point, b: Point, c: Point) -> i128
        ensures value { result ≡ plane.orient a b c }
        ensures size { IsWithin widest_side result }
    {
        orient(a, b, c)
    }

    fn edge(self) -> Option<(Point, Point)> {
        if self.entries.len() < 2 {
            None
        } else {
            Some(self.entries[0].1)
        }
    }

    fn lower(self) -> Option<(Point, Point)> {
        if self.entries.len() < 2 {
            None
        } else {
            Some(self.entries[0].2)
        }
    }

    #[tactic(auto, using(crate::proofs::ListedTrees::fork_listed, crate::proofs::ListedTrees::bridged_rest))]
    fn left(self) -> Self {
        Listed {
            entries: &self.entries[1..],
        }
    }

    #[tactic(auto, using(crate::proofs::ListedTrees::fork_listed))]
    fn right(self) -> Self {
        Listed {
            entries: &self.entries[..1],
        }
    }

    fn first(self) -> Point {
        first_point(self.entries)
    }

    fn last(self) -> Point {
        self.entries[0].0
    }

    #[tactic(auto, using(crate::specs::Listed::height_listed))]
    fn height(self) -> u32 {
        (self.entries.len() - 1) as u32
    }

    ghost bridged = { λ s. s.bridged };

    ghost low = { λ s. low_listed s.entries.now s.filled s.short };

    ghost fits = { λ s p i. tt };

    ghost turned_fits = { λ p i. tt };
}

/// Returns the upper and the lower bridge of two halves, or `None` unless the first ends before the second begins. They
/// are searched one after the other, and both at once.
pub fn bridges<H: Half>(u: H, w: H) -> Option<((Point, Point), (Point, Point))>
    ensures { IfSome result (λ e. IsBridged (Fork e.0 e.1 (H.tree u) (H.tree w))) }
{
    if before(u.last(), w.first()) {
        let one_by_one = (upper_bridge(u, w), lower_bridge(u, w));
        let ((upper, _), (lower, _)) = both_bridges(u, w);
        if (upper, lower) == one_by_one {
            return Some(one_by_one);
        }
    }
    None
}

/// Returns the entry of a point after the others, with the edges between them and it, or `None` unless the point is
/// after all of them.
#[tactic(auto, using(crate::proofs::ListedTrees::bridged_more))]
fn entry_behind(entries: &[Entry], point: Point) -> Option<Entry>
    requires { IsBridged (listed_tree entries.now) }
    ensures { IfSome result (λ e. IsBridged (listed_tree (e ∷ entries.now))) }
{
    let alone = [(point, (point, point), (point, point))];
    if entries.is_empty() {
        return Some(alone[0]);
    }
    let half = Listed::new(entries)?;
    let single = Listed { entries: &alone };
    let (upper, lower) = bridges(half, single)?;
    Some((point, upper, lower))
}

/// Adds a point after the others, all of which must be before it.
pub fn put_behind(entries: &mut Vec<Entry>, point: Point) -> Result<(), Fail>
    requires { IsBridged (listed_tree entries.old.items) }
    ensures { IfOk result (λ _. IsBridged (listed_tree entries.new.items)) }
{
    let entry = entry_behind(entries, point).ok_or("order")?;
    entries.insert(0, entry)?;
    Ok(())
}
