//! A reader and a set that report their progress.
ghost use Rattle.std.specs.Prelude.{◌≡◌};

use crate::progress::Progress;
use heap::Heap;
use hull_set::{AddReply, HullSet, NoMemory, Place, RemoveReply};
use lattice::{Direction, Point};
use std::io;
use std::io::Read;
use std::marker::Model;

/// A reader that reports how much was read of it, or a set that reports how many changes it had. Contracts see its
/// content.
#[derive(Drop)]
pub struct WithProgress<'a, T, P> {
    inner: T,
    progress: &'a P,
}

impl<'a, T, P> Model for WithProgress<'a, T, P> {
    ghost Value = { T };

    ghost view = { λ w. w.inner };
}

impl<'a, T, P> WithProgress<'a, T, P> {
    /// Makes a reader or a set that reports to this.
    pub fn new(inner: T, progress: &'a P) -> WithProgress<'a, T, P>
        ensures { result ≡ inner }
    {
        WithProgress { inner, progress }
    }

    /// Returns only the reader or the set.
    pub fn into_inner(self) -> T
        ensures { result ≡ self.entry }
    {
        let WithProgress { inner, progress: _ } = self;
        inner
    }
}

impl<T: Read, P: Progress> Read for WithProgress<'_, T, P> {
    ghost remaining = { T.remaining };

    fn read(&mut self, buf: &mut [u8]) -> io::Result<usize> {
        let read = self.inner.read(buf);
        if let Ok(n) = &read {
            self.progress.read(*n);
        }
        read
    }
}

impl<S: HullSet, P: Progress> HullSet for WithProgress<'_, S, P> {
    ghost held = { S.held };

    ghost bound = { S.bound };

    ghost sound = { S.sound };

    fn limit(&self) -> u32 {
        self.inner.limit()
    }

    fn count(&self) -> u32 {
        self.progress.replayed();
        self.inner.count()
    }

    fn multiplicity(&self, p: Point) -> u32 {
        self.inner.multiplicity(p)
    }

    fn add(&mut self, p: Point) -> AddReply {
        self.progress.replayed();
        self.inner.add(p)
    }

    fn remove(&mut self, p: Point) -> RemoveReply {
        self.progress.replayed();
        self.inner.remove(p)
    }

    fn extreme(&self, d: Direction) -> Option<Point> {
        self.progress.replayed();
        self.inner.extreme(d)
    }

    fn place(&self, q: Point) -> Place {
        self.progress.replayed();
        self.inner.place(q)
    }

    fn tangents(&self, q: Point) -> Option<(Point, Point)> {
        self.progress.replayed();
        self.inner.tangents(q)
    }

    fn vertices(&self) -> Result<Vec<Point, Heap>, NoMemory> {
        self.progress.replayed();
        self.inner.vertices()
    }

    fn area2(&self) -> u128 {
        self.progress.replayed();
        self.inner.area2()
    }
}
