//! Witnesses: what shows that two hulls intersect, or that they are disjoint.
ghost use Rattle.std.specs.Prelude.{◌≡◌, ◌⊎◌, ◌<◌, ◌≤◌, length, [], MatchOption, IfSome};
ghost use Rattle.hull_polygon.specs.Meetings.{AreDisjoint};
ghost use Rattle.hull_polygon.specs.Polygons.{HoldsOfBoth};
ghost use Rattle.hull_polygon.specs.Separations.{HasOnLeft, HasOnLeftOfEdge, IsSeparation};
ghost use Rattle.hull_polygon.specs.Witnesses.{IsWitness};
ghost use Rattle.hull_polygon.specs.Lent.{vertices_of};

use super::extreme::farthest;
use super::meetings::Meeting;
use super::nearest::is_right;
use super::offsets::{DifferenceVertex, Feature, index_round, vertex_round};
use super::polygon::Polygon;
use super::rounds::vertex_at;
use super::separations::Separation;
use super::vector::Vector;
use super::walks::{Guess, guess_relation};
use lattice::Point;

/// A witness of the relation of two hulls.
#[derive(Clone, Copy, PartialEq, Eq, Debug)]
pub enum Witness {
    /// They share this point.
    Intersects(Meeting),
    /// They are disjoint: this separates this hull from the other.
    Disjoint(Separation),
}

impl<'a> Polygon<'a> {
    /// Returns the separation of this hull from `other`, which has one or two vertices and is disjoint from it.
    fn separation_from_few(&self, other: &Polygon) -> Separation
        requires this { 0 < length (vertices_of self.now) }
        requires that { 0 < length (vertices_of other.now) }
        requires few { length (vertices_of other.now) ≤ 2 }
        requires apart { HoldsOfBoth (vertices_of self.now) (vertices_of other.now) (λ S T. AreDisjoint S T) }
        ensures { HoldsOfBoth (vertices_of self.now) (vertices_of other.now) (λ S T. IsSeparation S T result) }
    {
        let end = vertex_at(other.vertices, 1);
        match self.separation_from_segment(vertex_at(other.vertices, 0), end) {
            Some(found) => found,
            None => unreachable!(),
        }
    }

    /// Returns the separation by the edge of this hull from the vertex at `i`, if it has all of `other`, which has at least
    /// one vertex, on its right.
    fn separation_at(&self, other: &Polygon, i: usize) -> Option<Separation>
        requires within { i < length (vertices_of self.now) }
        requires that { 0 < length (vertices_of other.now) }
        ensures { HoldsOfBoth (vertices_of self.now) (vertices_of other.now)
            (λ S T. MatchOption result (HasOnLeftOfEdge (vertices_of self.now) i T) (λ w. IsSeparation S T w)) }
    {
        let (a, b) = (vertex_at(self.vertices, i), vertex_at(self.vertices, i + 1));
        let nearest = farthest(other.vertices, other.last, Vector::left_of(a, b));
        if is_right(a, b, nearest) {
            Some(Separation {
                direction: Vector::left_of(b, a),
                farthest: b,
            })
        } else {
            None
        }
    }

    /// Returns the separation by the first edge of this hull that has all of `other`, which has at least one vertex, on
    /// its right.
    fn separation_by_edge(&self, other: &Polygon) -> Option<Separation>
        requires that { 0 < length (vertices_of other.now) }
        ensures { HoldsOfBoth (vertices_of self.now) (vertices_of other.now)
            (λ S T. MatchOption result (HasOnLeft (vertices_of self.now) T) (λ w. IsSeparation S T w)) }
    {
        for i in 0..self.vertices.len() {
            if let Some(found) = self.separation_at(other, i) {
                return Some(found);
            }
        }
        None
    }

    /// Returns the separation of this hull, which has at least one vertex, from `other`, by that of the other from this
    /// one.
    fn turned_separation(&self, other: &Polygon, found: Separation) -> Separation
        requires this { 0 < length (vertices_of self.now) }
        requires parts { HoldsOfBoth (vertices_of self.now) (vertices_of other.now) (λ S T. IsSeparation T S found) }
        ensures { HoldsOfBoth (vertices_of self.now) (vertices_of other.now) (λ S T. IsSeparation S T result) }
    {
        let direction = found.direction.back();
        Separation {
            direction,
            farthest: farthest(self.vertices, self.last, direction),
        }
    }

    /// Returns the separation by an edge of this hull from or to the vertex at `i`, and the edge's index, if the edge has all
    /// of `other` on its right; `near` is a point of `other`, which is tested first.
    fn separation_beside(
        &self,
        other: &Polygon,
        i: usize,
        near: Point,
    ) -> Option<(Separation, usize)>
        requires this { 0 < length (vertices_of self.now) }
        requires that { 0 < length (vertices_of other.now) }
        ensures { HoldsOfBoth (vertices_of self.now) (vertices_of other.now)
            (λ S T. IfSome result (λ found. IsSeparation S T found.0)) }
    {
        let at = index_round(self.vertices, i);
        let before = if at == 0 {
            self.vertices.len() - 1
        } else {
            at - 1
        };
        let vertex = vertex_at(self.vertices, at);
        if is_right(vertex, vertex_at(self.vertices, at + 1), near) {
            if let Some(found) = self.separation_at(other, at) {
                return Some((found, at));
            }
        }
        if is_right(vertex_at(self.vertices, before), vertex, near) {
            if let Some(found) = self.separation_at(other, before) {
                return Some((found, before));
            }
        }
        None
    }

    /// Returns the separation by an edge of this hull or of `other` next to the vertices of a vertex of their difference,
    /// and that edge, if one of those separates them.
    fn separation_near(
        &self,
        other: &Polygon,
        at: DifferenceVertex,
    ) -> Option<(Separation, Feature)>
        requires this { 0 < length (vertices_of self.now) }
        requires that { 0 < length (vertices_of other.now) }
        ensures { HoldsOfBoth (vertices_of self.now) (vertices_of other.now)
            (λ S T. IfSome result (λ found. IsSeparation S T found.0)) }
    {
        let near = vertex_round(other.vertices, at.other);
        if let Some((found, i)) = self.separation_beside(other, at.this, near) {
            return Some((found, Feature::OfThis(i)));
        }
        let near = vertex_round(self.vertices, at.this);
        match other.separation_beside(self, at.other, near) {
            Some((found, i)) => Some((self.turned_separation(other, found), Feature::OfOther(i))),
            None => None,
        }
    }

    /// Returns the witness that a walk over the difference of this hull and `other` guesses, if a few bisections confirm
    /// it, and the edge that separates them, if they are disjoint; `None` also if `other` has fewer than three vertices,
    /// since then no walk is needed.
    pub(crate) fn witness_by_walk(&self, other: &Polygon) -> Option<(Witness, Feature)>
        requires this { 0 < length (vertices_of self.now) }
        requires that { 0 < length (vertices_of other.now) }
        ensures { HoldsOfBoth (vertices_of self.now) (vertices_of other.now)
            (λ S T. IfSome result (λ found. IsWitness S T found.0)) }
    {
        if let Some(meeting) = self.meeting_at_first(other) {
            return Some((Witness::Intersects(meeting), Feature::OfThis(0)));
        }
        match guess_relation(self, other) {
            Guess::Meeting(few) => match self.meeting_of_few(other, few) {
                Some(meeting) => Some((Witness::Intersects(meeting), Feature::OfThis(0))),
                None => None,
            },
            Guess::Apart(at, _) => match self.separation_near(other, at) {
                Some((found, edge)) => Some((Witness::Disjoint(found), edge)),
                None => None,
            },
            Guess::Unknown => None,
        }
    }

    /// Returns the separation of this hull from `other`, which is disjoint from it; both have at least three vertices.
    fn separation_from_many(&self, other: &Polygon) -> Separation
        requires this { 2 < length (vertices_of self.now) }
        requires that { 2 < length (vertices_of other.now) }
        requires apart { HoldsOfBoth (vertices_of self.now) (vertices_of other.now) (λ S T. AreDisjoint S T) }
        ensures { HoldsOfBoth (vertices_of self.now) (vertices_of other.now) (λ S T. IsSeparation S T result) }
    {
        if let Some(found) = self.separation_by_edge(other) {
            return found;
        }
        match other.separation_by_edge(self) {
            Some(found) => self.turned_separation(other, found),
            None => unreachable!(),
        }
    }

    /// Returns the separation of this hull from `other`, which is disjoint from it; both have at least one vertex.
    fn separation(&self, other: &Polygon) -> Separation
        requires this { 0 < length (vertices_of self.now) }
        requires that { 0 < length (vertices_of other.now) }
        requires apart { HoldsOfBoth (vertices_of self.now) (vertices_of other.now) (λ S T. AreDisjoint S T) }
        ensures { HoldsOfBoth (vertices_of self.now) (vertices_of other.now) (λ S T. IsSeparation S T result) }
    {
        if other.vertices.len() < 3 {
            self.separation_from_few(other)
        } else if self.vertices.len() < 3 {
            self.turned_separation(other, other.separation_from_few(self))
        } else {
            self.separation_from_many(other)
        }
    }

    /// Returns the index of the first edge of this hull that separates it from `other`, if the edge from the vertex at `i`
    /// does. The edges that do are consecutive, so that a bisection finds the first; that is not proved.
    fn first_separating(&self, other: &Polygon, i: usize) -> usize
        requires that { 0 < length (vertices_of other.now) }
        requires within { i < length (vertices_of self.now) }
        ensures { result < length (vertices_of self.now) }
    {
        if self.separation_at(other, 0).is_some() {
            return 0;
        }
        let mut low = 0;
        let mut high = i;
        while low < high {
            let middle = low + (high - low) / 2;
            if self.separation_at(other, middle).is_some() {
                high = middle;
            } else {
                low = middle + 1;
            }
        }
        high
    }

    /// Returns the separation of this hull from `other` by the first edge of this hull that separates them, or else the
    /// first one of the other, if an edge does. It is the one of [`Polygon::separation`].
    fn first_separation(&self, other: &Polygon, found: Separation, edge: Feature) -> Separation
        requires this { 0 < length (vertices_of self.now) }
        requires that { 0 < length (vertices_of other.now) }
        requires parts { HoldsOfBoth (vertices_of self.now) (vertices_of other.now) (λ S T. IsSeparation S T found) }
        ensures { HoldsOfBoth (vertices_of self.now) (vertices_of other.now) (λ S T. IsSeparation S T result) }
    {
        if self.vertices.len() < 3 || other.vertices.len() < 3 {
            return self.separation(other);
        }
        match edge {
            Feature::OfThis(i) => {
                let first = self.first_separating(other, index_round(self.vertices, i));
                match self.separation_at(other, first) {
                    Some(earlier) => earlier,
                    None => found,
                }
            }
            Feature::OfOther(i) => {
                let first = other.first_separating(self, index_round(other.vertices, i));
                match other.separation_at(self, first) {
                    Some(earlier) => self.turned_separation(other, earlier),
                    None => found,
                }
            }
        }
    }

    /// Returns the same witness, or, if the two are disjoint, the separation by the first edge that separates them.
    fn by_first_edge(&self, other: &Polygon, found: Witness, edge: Feature) -> Witness
        requires this { 0 < length (vertices_of self.now) }
        requires that { 0 < length (vertices_of other.now) }
        requires shown { HoldsOfBoth (vertices_of self.now) (vertices_of other.now) (λ S T. IsWitness S T found) }
        ensures { HoldsOfBoth (vertices_of self.now) (vertices_of other.now) (λ S T. IsWitness S T result) }
    {
        match found {
            Witness::Disjoint(separation) => {
                Witness::Disjoint(self.first_separation(other, separation, edge))
            }
            Witness::Intersects(_) => found,
        }
    }

    /// Returns a common point of this hull and `other`, or a direction that separates them, with a farthest point of
    /// this hull in it, or `None` if either is empty. The cost is that of [`Polygon::intersects`]; if they are disjoint, a
    /// bisection finds the first edge that separates them, by a bisection for each edge that it looks at.
    ///
    /// If two sets with at least three vertices each are disjoint, one has an edge whose line separates them.
    pub fn witness(&self, other: &Polygon) -> Option<Witness>
        ensures { HoldsOfBoth (vertices_of self.now) (vertices_of other.now)
            (λ S T. MatchOption result ((S ≡ []) ⊎ (T ≡ [])) (λ found. IsWitness S T found)) }
    {
        if self.vertices.is_empty() {
            return None;
        }
        if other.vertices.is_empty() {
            return None;
        }
        if let Some((found, edge)) = self.witness_by_walk(other) {
            return Some(self.by_first_edge(other, found, edge));
        }
        match self.meeting_by_edges(other) {
            Some(meeting) => Some(Witness::Intersects(meeting)),
            None => Some(Witness::Disjoint(self.separation(other))),
        }
    }
}
