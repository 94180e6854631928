ghost use Rattle.std.specs.Prelude.{◌≡◌};
ghost use Rattle.lattice.specs.Plane as plane;
ghost use Rattle.lattice.specs.Plane.{IsNear, IsWithin, widest_side};
ghost use Rattle.bridge_search.specs.Near.{IsAllNear};
ghost use Rattle.bridge_search.specs.OneWay.{IsAllNear-prop};

use super::half::Half;
use lattice::{Point, orient_near};
use std::alloc::AllocError;

/// A half all of whose points are near ([`lattice::is_near`]): the same half, compared in 64 bits.
#[derive(Copy)]
pub struct Near<H: Half> {
    half: H,
    ghost near: { IsAllNear (H.tree half) } by { IsAllNear-prop (H.tree half) },
}

impl<H: Half> Clone for Near<H> {
    fn clone(&self) -> Result<Near<H>, AllocError> {
        Ok(*self)
    }
}

impl<H: Half> Near<H> {
    /// Returns the half, whose points must all be near, compared in 64 bits.
    pub fn new(half: H) -> Near<H>
        requires { IsAllNear (H.tree half) }
        ensures { ⟦<Near<H> as Half>⟧.tree result ≡ H.tree half }
    {
        Near { half }
    }
}

impl<H: Half> Half for Near<H> {
    ghost use Rattle.bridge_search.specs.Near.{near_turned};

    ghost tree = { λ s. H.tree s.half };

    ghost Fits = { IsNear };

    fn orient(a: Point, b: Point, c: Point) -> i128
        requires first { IsNear a }
        requires second { IsNear b }
        requires third { IsNear c }
        ensures value { result ≡ plane.orient a b c }
        ensures size { IsWithin widest_side result }
    {
        orient_near(a, b, c)
    }

    fn edge(self) -> Option<(Point, Point)> {
        self.half.edge()
    }

    fn lower(self) -> Option<(Point, Point)> {
        self.half.lower()
    }

    fn left(self) -> Self {
        Near {
            half: self.half.left(),
        }
    }

    fn right(self) -> Self {
        Near {
            half: self.half.right(),
        }
    }

    fn first(self) -> Point {
        self.half.first()
    }

    fn last(self) -> Point {
        self.half.last()
    }

    fn height(self) -> u32 {
        self.half.height()
    }

    ghost bridged = { λ s. H.bridged s.half };

    ghost low = { λ s. H.low s.half };

    ghost fits = { λ s. s.near };

    ghost turned_fits = { near_turned };
}
