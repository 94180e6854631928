//! Slices of a bucket's vertices, as halves of a hull.
ghost use Rattle.std.specs.Prelude.{◌≡◌, ◌<◌, ◌≤◌, ◌^◌, length};
ghost use Rattle.lattice.specs.Plane as plane;
ghost use Rattle.lattice.specs.Plane.{IsWithin, widest_side};
ghost use Rattle.bridge_search.specs.OneWay.{IsBridged-prop};
ghost use Rattle.bridge_search.specs.Trees.{IsBridged, height_of, highest as most_forks};
ghost use Rattle.hull_buckets.specs.Buckets.{BucketValue};
ghost use Rattle.hull_buckets.specs.Masks.{lowest_of, highest_of};
ghost use Rattle.hull_buckets.specs.declared.TheConstants.{BUCKET_SIZE};
ghost use Rattle.hull_buckets.specs.Slices.{left_slice, right_slice, end_of_slice, start_of_slice, tree_of_slice, all_of, edge_at};

use super::bucket::{Bucket, buckets_are_sound};
use super::mask::{below, highest, lowest};
use bridge_search::Half;
use lattice::{Point, Side, orient};

/// Neighbouring vertices of a bucket, of both its chains together, at the indices of a mask: a half of a hull, which searches and questions go down.
///
/// Its halves are the vertices up to the middle of its indices and those after it, so each step halves its width. The edge between them is computed
/// from the masks: it goes from the last vertex of the chain in the first half to the first one in the second.
#[derive(Clone, Copy)]
pub struct Slice<'a> {
    bucket: &'a Bucket,
    mask: u64,
    ghost some: { 0 < mask },
    ghost within: { mask < 2 ^ length bucket.now.points },
    ghost few: { length bucket.now.points ≤ BUCKET_SIZE },
    ghost low: { height_of (tree_of_slice bucket.now mask) ≤ most_forks },
    ghost bridged: { IsBridged (tree_of_slice bucket.now mask) } by { IsBridged-prop (tree_of_slice bucket.now mask) },
}

/// Returns the indices of a mask up to the middle between its lowest and its highest, and those after it.
fn halves_of(mask: u64) -> (u64, u64)
    requires some { 0 < mask }
    requires several { lowest_of mask < highest_of mask }
    ensures left { result.0 ≡ left_slice mask }
    ensures right { result.1 ≡ right_slice mask }
{
    let left = below(mask, (lowest(mask) + highest(mask)) / 2 + 1);
    (left, mask - left)
}

/// Returns the last index of a chain in a slice, or the slice's first if the chain has none there.
fn end_of(slice: u64, chain: u64) -> usize
    requires { 0 < slice }
    ensures { result ≡ end_of_slice chain slice }
{
    let own = slice & chain;
    if own == 0 {
        lowest(slice)
    } else {
        highest(own)
    }
}

/// Returns the first index of a chain in a slice, or the slice's last if the chain has none there.
fn start_of(slice: u64, chain: u64) -> usize
    requires { 0 < slice }
    ensures { result ≡ start_of_slice chain slice }
{
    let own = slice & chain;
    if own == 0 {
        highest(slice)
    } else {
        lowest(own)
    }
}

/// Returns the height of a slice: the number of forks above its deepest index.
fn height_below(mask: u64) -> u32
    requires { 0 < mask }
    ensures { (b : BucketValue) → result ≡ height_of (tree_of_slice b mask) }
{
    if lowest(mask) == highest(mask) {
        return 0;
    }
    let (left, right) = halves_of(mask);
    height_below(left).max(height_below(right)) + 1
}

impl<'a> Slice<'a> {
    /// Returns all vertices of a bucket: its half of a hull.
    pub fn new(bucket: &'a Bucket) -> Slice<'a>
        ensures { ⟦<Slice<'a> as Half>⟧.tree result ≡ tree_of_slice bucket.now (all_of bucket.now) }
    {
        buckets_are_sound(bucket);
        Slice {
            bucket,
            mask: bucket.vertices(Side::Lower) | bucket.vertices(Side::Upper),
        }
    }

    /// Returns the edge on a side, or nothing if the slice is one point.
    fn edge_on(self, side: Side) -> Option<(Point, Point)>
        ensures { result ≡ edge_at side (tree_of_slice self.entry.bucket.now self.entry.mask) }
    {
        if lowest(self.mask) == highest(self.mask) {
            return None;
        }
        let (left, right) = halves_of(self.mask);
        let chain = self.bucket.vertices(side);
        let points = self.bucket.points();
        Some((points[end_of(left, chain)], points[start_of(right, chain)]))
    }
}

impl<'a> Half for Slice<'a> {
    ghost tree = { λ s. tree_of_slice s.bucket.now s.mask };

    ghost Fits = { λ p. Unit {0} };

    fn orient(a: Point, b: Point, c: Point) -> i128
        ensures value { result ≡ plane.orient a b c }
        ensures size { IsWithin widest_side result }
    {
        orient(a, b, c)
    }

    fn edge(self) -> Option<(Point, Point)> {
        self.edge_on(Side::Upper)
    }

    fn lower(self) -> Option<(Point, Point)> {
        self.edge_on(Side::Lower)
    }

    fn left(self) -> Self {
        let (mask, _) = halves_of(self.mask);
        Slice {
            bucket: self.bucket,
            mask,
        }
    }

    fn right(self) -> Self {
        let (_, mask) = halves_of(self.mask);
        Slice {
            bucket: self.bucket,
            mask,
        }
    }

    fn first(self) -> Point {
        self.bucket.points()[lowest(self.mask)]
    }

    fn last(self) -> Point {
        self.bucket.points()[highest(self.mask)]
    }

    fn height(self) -> u32 {
        height_below(self.mask)
    }

    ghost bridged = { λ s. s.bridged };

    ghost low = { λ s. s.low };

    ghost fits = { λ s p i. tt };

    ghost turned_fits = { λ p i. tt };
}
