ghost use Rattle.std.specs.Prelude.{◌≡◌, ◌≤◌, []};
ghost use Rattle.hull_plain.specs.Sets.{LimitedSet};

use super::hull_chains::HullChains;
use heap::Heap;
use hull_set::{AddReply, HullSet, MULTIPLICITY_LIMIT, NoMemory, POINT_LIMIT, Place, RemoveReply};
use lattice::{Direction, Point};
use std::collections::BTreeMap;
use std::marker::Model;

/// A set of points in order, with the two chains of its hull.
///
/// `add` and `remove` use an ordered map of std, from each point of the set to its multiplicity: if the point stays in
/// the set, they change only that number, in place. A new point that a chain does not hide is inserted at its position
/// there, and the neighbours that it hides are removed. When a vertex is removed, its chain is rebuilt in one pass
/// (Andrew, 1979) over the points of a candidate list between its neighbours: the points that are vertices of their own
/// slice of 2 * sqrt(n) consecutive points, and those that were added since the slices were made. When a point of a
/// candidate list is removed, the points between its neighbours there are visited, by a range of the map. So a change
/// costs a logarithm of the number of points, some slices, the vertices of the slices between two vertices of the hull,
/// and one point of each later block of a list.
///
/// `extreme`, `place` and `tangents` are bisections of the chains; `vertices` and `area2` walk along them once. Only
/// `add` of a new point and `vertices` allocate.
#[derive(Drop)]
pub struct PlainSet {
    limit: u32,
    points: BTreeMap<Point, u16, Heap>,
    hull_chains: HullChains,
}

impl Model for PlainSet {
    ghost use Rattle.hull_plain.specs.ChainPairs.{IsPlainSet};
    ghost use Rattle.hull_plain.specs.Sets.{LimitedSet};

    ghost Value = { LimitedSet };

    ghost view = { λ s. record { limit = s.limit; entries = s.points.entries } };

    ghost invariant = { λ s. IsPlainSet s.limit s.points.entries s.hull_chains };
}

impl PlainSet {
    /// Returns the empty set, which accepts at most `limit` points. Does not allocate; `add` and `vertices` allocate
    /// from `alloc`.
    pub fn new(alloc: Heap, limit: u32) -> PlainSet
        requires low { 1 ≤ limit }
        requires high { limit ≤ POINT_LIMIT }
        ensures { result ≡ record { limit = limit; entries = [] } }
    {
        PlainSet {
            limit,
            points: BTreeMap::new(alloc),
            hull_chains: HullChains::new(alloc),
        }
    }
}

impl HullSet for PlainSet {
    ghost use Rattle.std.specs.Map.{keys_of};
    ghost use Rattle.lattice.specs.Covers.{IsPointSet};
    ghost use Rattle.hull_plain.specs.Sets.{held_in};

    ghost held = { λ s. held_in s.entries };

    ghost bound = { λ s. s.limit };

    // the points are in order
    ghost sound = { λ s. IsPointSet (keys_of s.entries) };

    fn limit(&self) -> u32 {
        self.limit
    }

    fn count(&self) -> u32 {
        self.points.len() as u32
    }

    fn multiplicity(&self, p: Point) -> u32 {
        match self.points.get(&p) {
            Some(multiplicity) => u32::from(*multiplicity),
            None => 0,
        }
    }

    fn add(&mut self, p: Point) -> AddReply {
        if let Some(multiplicity) = self.points.get_mut(&p) {
            if u32::from(*multiplicity) == MULTIPLICITY_LIMIT {
                return AddReply::TooMany;
            }
            *multiplicity += 1;
            return AddReply::Again(u32::from(*multiplicity));
        }
        let count = self.points.len();
        if count >= self.limit as usize {
            return AddReply::TooMany;
        }
        if self.hull_chains.reserve(count + 1).is_err() {
            return AddReply::NoMemory;
        }
        if self.points.insert(p, 1).is_err() {
            return AddReply::NoMemory;
        }
        self.hull_chains.add(p, &self.points);
        AddReply::Added
    }

    fn remove(&mut self, p: Point) -> RemoveReply {
        let Some(multiplicity) = self.points.get_mut(&p) else {
            return RemoveReply::Absent;
        };
        if *multiplicity > 1 {
            *multiplicity -= 1;
            return RemoveReply::Left(u32::from(*multiplicity));
        }
        self.points.remove(&p);
        self.hull_chains.remove(p, &self.points);
        RemoveReply::Removed
    }

    fn extreme(&self, d: Direction) -> Option<Point> {
        self.hull_chains.extreme(d)
    }

    fn place(&self, q: Point) -> Place {
        self.hull_chains.place(q)
    }

    fn tangents(&self, q: Point) -> Option<(Point, Point)> {
        self.hull_chains.tangents(q)
    }

    fn vertices(&self) -> Result<Vec<Point, Heap>, NoMemory> {
        Ok(self.hull_chains.vertices()?)
    }

    fn area2(&self) -> u128 {
        self.hull_chains.area2()
    }
}
