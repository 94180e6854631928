//! The set.
ghost use Rattle.std.specs.Prelude.{◌≡◌, ◌≢◌, ◌+◌, ◌-◌, ◌^◌, ℕ, List, [], length, min, None, Some, IfOk, IfSome, MatchOption, OnErr};
ghost use Rattle.lattice.specs.Plane.{Pair};
ghost use Rattle.hull_polygon.specs.Polygons.{IsPolygonOf};
ghost use Rattle.prepared_set.specs.Known.{known_vertices};
ghost use Rattle.prepared_set.specs.Patches.{full, refilled};
ghost use Rattle.prepared_set.specs.declared.vertices.Vertices.TheVariants.{Known, Unknown};

use super::gathering::ListsVertices;
use super::vertices::Vertices;
use heap::Heap;
use hull_set::{AddReply, HullSet, NoMemory, Place, RemoveReply};
use lattice::{Direction, Point};
use std::marker::Model;

/// A set of points, and its vertices in an array as long as they are known. Contracts see the set and what is known of its
/// vertices, which never changes an answer.
#[derive(Drop)]
pub struct Prepared<S: HullSet + Drop> {
    set: S,
    vertices: Vertices,
}

impl<S: HullSet + Drop> Model for Prepared<S> {
    ghost use Rattle.prepared_set.specs.Known.{AreVerticesOf, PreparedValue};

    ghost Value = { PreparedValue S };

    ghost view = { λ w. record { set = w.set; vertices = w.vertices } };

    ghost invariant = { λ w. AreVerticesOf (S.held w.set).points w.vertices };
}

impl<S: HullSet + Drop> Prepared<S> {
    /// Returns the set with no vertices known. Does not allocate.
    pub fn new(set: S) -> Prepared<S>
        ensures set { result.set ≡ set }
        ensures unknown { result.vertices ≡ Unknown 0 }
    {
        Prepared {
            set,
            vertices: Vertices::Unknown(0),
        }
    }

    /// Returns the underlying set, for calls that [`HullSet`] does not have.
    pub fn set(&self) -> &S
        ensures { result.now ≡ self.now.set }
    {
        &self.set
    }

    /// Returns the vertices, counterclockwise from the first by x and then y, or `None` if they are not known.
    pub fn known_vertices(&self) -> Option<&[Point]>
        ensures vertices { IfSome result (λ vertices. IsPolygonOf (S.held self.now.set).points vertices.now) }
        ensures known { MatchOption result (known_vertices self.now.vertices ≡ None)
            (λ vertices. known_vertices self.now.vertices ≡ Some vertices.now) }
    {
        match &self.vertices {
            Vertices::Known(kept, _) => Some(kept.polygon().vertices()),
            Vertices::Unknown(_) => None,
        }
    }
}

impl<S: HullSet + Drop> Prepared<S> {
    /// Gathers the vertices if they are not known, so that [`known_vertices`](Prepared::known_vertices) has them, and returns
    /// how many there are. Call it before each listing, and before many questions: then the vertices stay known after most
    /// changes that alter them at one place. Constant time if they are known. Fails only if they are not known and the set is
    /// not empty; then nothing changes. Never changes an answer.
    pub fn gather(&mut self) -> Result<usize, NoMemory>
        ensures same { self.new.set ≡ self.old.set }
        ensures gathered { IfOk result (λ count. (vertices : List Pair) × IsPolygonOf (S.held self.old.set).points vertices
            × (self.new.vertices ≡ Known vertices (full vertices)) × (count ≡ length vertices)) }
        ensures refused { OnErr result ((self.new.vertices ≡ self.old.vertices) × (known_vertices self.old.vertices ≡ None)
            × ((S.held self.old.set).points ≢ [])) }
    {
        self.vertices.gather(&self.set);
        match &self.vertices {
            Vertices::Known(kept, _) => Ok(kept.count()),
            Vertices::Unknown(_) => Err(NoMemory),
        }
    }
}

impl<S: ListsVertices + Drop> Prepared<S> {
    /// Hints that a question follows: counts it, and gathers the vertices if that is due and they are few compared with
    /// the questions. Call it before each question if you ask often. If memory is refused, the vertices stay unknown.
    /// Never changes an answer.
    pub fn prepare(&mut self)
        ensures same { self.new.set ≡ self.old.set }
        ensures known { (V : List Pair) (m : ℕ) → self.old.vertices ≡ Known V m → self.new.vertices ≡ Known V (refilled V m) }
        ensures counted { (m n : ℕ) → self.old.vertices ≡ Unknown m → self.new.vertices ≡ Unknown n
            → n ≡ min (m + 1) (2 ^ 32 - 1) }
        ensures gathered { (V : List Pair) (m n : ℕ) → self.old.vertices ≡ Unknown n → self.new.vertices ≡ Known V m
            → m ≡ full V }
    {
        self.vertices.count_question(&self.set);
    }
}

impl<S: HullSet + Drop> HullSet for Prepared<S> {
    ghost held = { λ w. S.held w.set };

    ghost bound = { λ w. S.bound w.set };

    ghost sound = { λ w. S.sound w.set };

    fn limit(&self) -> u32 {
        self.set.limit()
    }

    fn count(&self) -> u32 {
        self.set.count()
    }

    fn multiplicity(&self, p: Point) -> u32 {
        self.set.multiplicity(p)
    }

    fn add(&mut self, p: Point) -> AddReply {
        let reply = self.set.add(p);
        if let AddReply::Added = reply {
            self.vertices.point_comes(p);
        }
        reply
    }

    fn remove(&mut self, p: Point) -> RemoveReply {
        let reply = self.set.remove(p);
        if let RemoveReply::Removed = reply {
            self.vertices.point_goes(p, &self.set);
        }
        reply
    }

    #[inline(always)]
    fn extreme(&self, d: Direction) -> Option<Point> {
        match &self.vertices {
            Vertices::Known(kept, _) => kept.polygon().extreme(d),
            Vertices::Unknown(_) => self.set.extreme(d),
        }
    }

    #[inline(always)]
    fn place(&self, q: Point) -> Place {
        match &self.vertices {
            Vertices::Known(kept, _) => kept.polygon().place(q),
            Vertices::Unknown(_) => self.set.place(q),
        }
    }

    fn tangents(&self, q: Point) -> Option<(Point, Point)> {
        match &self.vertices {
            Vertices::Known(kept, _) => kept.polygon().tangents(q),
            Vertices::Unknown(_) => self.set.tangents(q),
        }
    }

    fn vertices(&self) -> Result<Vec<Point, Heap>, NoMemory> {
        if let Vertices::Known(kept, _) = &self.vertices {
            let _count = self.set.count();
            if let Ok(copy) = kept.copy() {
                return Ok(copy);
            }
        }
        self.set.vertices()
    }

    fn area2(&self) -> u128 {
        match &self.vertices {
            Vertices::Known(kept, _) => kept.polygon().area2(),
            Vertices::Unknown(_) => self.set.area2(),
        }
    }
}
