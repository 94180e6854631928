//! Walks along the chains of a bucket.
ghost use Rattle.std.specs.Prelude.{◌≡◌, ◌<◌, ◌≤◌, ◌^◌, ◌∷◌, [], MatchOption, length};
ghost use Rattle.hull_buckets.specs.Buckets.{mask_on};
ghost use Rattle.hull_buckets.specs.Masks.{at_places};
ghost use Rattle.hull_buckets.specs.Walks.{along};

use super::bucket::Bucket;
use super::mask::{bit, highest, lowest};
use lattice::{Point, Side};
use std::marker::Model;

/// The vertices of a bucket's chain that a walk has not passed yet, in its order: along the lower chain it goes forward, along the upper one back. A
/// step takes a few instructions, since the chain is a mask of indices.
#[derive(Drop)]
pub struct ChainWalk<'a> {
    points: &'a [Point],
    side: Side,
    rest: u64,
}

impl<'a> Model for ChainWalk<'a> {
    ghost use Rattle.std.specs.Prelude.{◌<◌, ◌≤◌, ◌^◌, List, length};
    ghost use Rattle.lattice.specs.Plane.{Pair};
    ghost use Rattle.hull_buckets.specs.Masks.{at_places};
    ghost use Rattle.hull_buckets.specs.Walks.{along};
    ghost use Rattle.hull_buckets.specs.declared.TheConstants.{BUCKET_SIZE};

    ghost Value = { List Pair };

    ghost view = { λ w. along w.side (at_places w.rest w.points.now) };

    ghost invariant = { λ w. (length w.points.now ≤ BUCKET_SIZE) × (w.rest < 2 ^ length w.points.now) };
}

impl<'a> ChainWalk<'a> {
    /// Returns a walk along the chain of a bucket on a side, from its first vertex on.
    pub fn new(bucket: &'a Bucket, side: Side) -> ChainWalk<'a>
        ensures { result ≡ along side (at_places (mask_on side bucket.now) bucket.now.points) }
    {
        ChainWalk {
            points: bucket.points(),
            side,
            rest: bucket.vertices(side),
        }
    }

    /// Passes the next vertex and returns it, if there is one.
    pub fn next(&mut self) -> Option<Point>
        ensures { MatchOption result ((self.old ≡ []) × (self.new ≡ [])) (λ p. self.old ≡ p ∷ self.new) }
    {
        if self.rest == 0 {
            return None;
        }
        let place = match self.side {
            Side::Lower => lowest(self.rest),
            Side::Upper => highest(self.rest),
        };
        self.rest -= bit(place);
        Some(self.points[place])
    }
}
