//! The vertices of a set, as long as they are known.
ghost use Rattle.std.specs.Prelude.{◌≡◌, ◌≢◌, ◌⊎◌, ◌+◌, ◌-◌, ◌^◌, ◌<◌, ◌≤◌, ℕ, List, [], IfSome, MatchOption, length, min};
ghost use Rattle.std.specs.List.{remove};
ghost use Rattle.lattice.specs.Plane.{Pair};
ghost use Rattle.lattice.specs.Covers.{Covers, IsExtreme, with_point, without_point};
ghost use Rattle.hull_polygon.specs.Polygons.{IsPolygonOf, IsShortPolygon};
ghost use Rattle.hull_polygon.specs.Rounds.{vertex};
ghost use Rattle.hull_set.specs.declared.TheConstants.{POINT_LIMIT};
ghost use Rattle.prepared_set.specs.Known.{AreVerticesOf};
ghost use Rattle.prepared_set.specs.Patches.{PutsIn, TakesOut, count_after, full, refilled};
ghost use Rattle.prepared_set.specs.declared.vertices.Vertices.TheVariants.{Known, Unknown};

use super::gathering::ListsVertices;
use super::kept::Kept;
use super::patches::{let_go, take_in};
use heap::Heap;
use hull_set::HullSet;
use lattice::Point;

/// How many vertices are gathered for each question that was asked.
const VERTICES_A_QUESTION: usize = 2;

/// How many moves of vertices in the array each vertex is worth: as much as gathering it.
pub(crate) const MOVES_A_VERTEX: usize = 4;

/// How many moves each question is worth: what they cost is less than what a question saves.
pub(crate) const MOVES_A_QUESTION: usize = 1024;

/// The knowledge of the vertices of a set.
#[derive(Drop)]
pub(crate) enum Vertices {
    /// The vertices, and how many moves of vertices in the array changes may still take.
    Known(Kept, usize),
    /// Nothing; this is the number of questions since something was known.
    Unknown(u32),
}

/// Returns these vertices as known, with all moves.
fn known(vertices: Vec<Point, Heap>) -> Vertices
    requires { IsShortPolygon vertices.items }
    ensures { result ≡ Known vertices.items (full vertices.items) }
{
    let moves = MOVES_A_VERTEX * vertices.len();
    Vertices::Known(Kept::new(vertices), moves)
}

/// Returns the vertices as known, if they were found, or else the number of questions.
fn known_by(found: Option<Vec<Point, Heap>>, asked: u32) -> Vertices
    requires { IfSome found (λ v. IsShortPolygon v.items) }
    ensures { MatchOption found (result ≡ Unknown asked) (λ v. result ≡ Known v.items (full v.items)) }
{
    match found {
        Some(vertices) => known(vertices),
        None => Vertices::Unknown(asked),
    }
}

/// Returns the vertices of a set as known, if there are at most `most` of them; else, or if memory is refused, the
/// number of questions.
fn gathered<S: ListsVertices>(set: &S, most: usize, asked: u32) -> Vertices
    ensures vertices { AreVerticesOf (S.held set.now).points result }
    ensures unknown { (n : ℕ) → result ≡ Unknown n → n ≡ asked }
    ensures moves { (V : List Pair) (m : ℕ) → result ≡ Known V m → m ≡ full V }
{
    // (for the prover: what these two promise is that the set is sound)
    let _count = set.count();
    let _limit = set.limit();
    match set.vertices_up_to(most) {
        Ok(found) => known_by(found, asked),
        Err(_) => Vertices::Unknown(asked),
    }
}

/// Returns all vertices of a set as known, or the number of questions if memory is refused.
fn gathered_all<S: HullSet>(set: &S, asked: u32) -> Vertices
    ensures vertices { AreVerticesOf (S.held set.now).points result }
    ensures unknown { (n : ℕ) → result ≡ Unknown n → (n ≡ asked) × ((S.held set.now).points ≢ []) }
    ensures moves { (V : List Pair) (m : ℕ) → result ≡ Known V m → m ≡ full V }
{
    // (for the prover: what these two promise is that the set is sound)
    let _count = set.count();
    let _limit = set.limit();
    match set.vertices() {
        Ok(vertices) => known(vertices),
        Err(_) => Vertices::Unknown(asked),
    }
}

/// Returns the moves that are left after a question, of as many as there were.
fn moves_after_question(vertices: &Kept, moves: usize) -> usize
    ensures { result ≡ refilled vertices.now moves }
{
    let full = MOVES_A_VERTEX * vertices.count();
    full.min(moves.saturating_add(MOVES_A_QUESTION))
}

impl Vertices {
    /// Records that a point is added to the set, or is in it. Known vertices are kept if they stay the vertices. If the
    /// point becomes one, and is neither the first nor the last, it is put among them, if that takes no more moves than
    /// are left and memory is not refused. Else they are dropped.
    pub(crate) fn point_comes(&mut self, p: Point)
        ensures with_it { (S : List Pair) → AreVerticesOf S self.old → AreVerticesOf (with_point p S) self.new }
        ensures stay { (S : List Pair) → AreVerticesOf S self.old → Covers S p → self.new ≡ self.old }
        ensures put { (S V W : List Pair) (m i : ℕ) → self.old ≡ Known V m → PutsIn S V W p i → length V < POINT_LIMIT
            → count_after W i ≤ m → (self.new ≡ Known W (m - count_after W i))
            ⊎ ((self.new ≡ Unknown 0) × (length W ≡ length V + 1)) }
        ensures spent { (S V W : List Pair) (m i : ℕ) → self.old ≡ Known V m → PutsIn S V W p i → m < count_after W i
            → self.new ≡ Unknown 0 }
        ensures fewer { (V W : List Pair) (m n : ℕ) → self.old ≡ Known V m → self.new ≡ Known W n → n ≤ m }
    {
        if let Vertices::Known(kept, moves) = self {
            if !take_in(kept, moves, p) {
                *self = Vertices::Unknown(0);
            }
        }
    }

    /// Records that a point is removed from the set, or is not in it. Known vertices are kept if they stay the vertices.
    /// If the point was one, but neither the first nor the last, and no new one comes in its place, it is taken from them,
    /// if that takes no more moves than are left. Else they are dropped.
    pub(crate) fn point_goes<S: HullSet>(&mut self, p: Point, set: &S)
        ensures without { (P : List Pair) → AreVerticesOf P self.old → (S.held set.now).points ≡ without_point p P
            → AreVerticesOf (S.held set.now).points self.new }
        ensures stay { (P : List Pair) → AreVerticesOf P self.old → ¬ IsExtreme P p → self.new ≡ self.old }
        ensures taken { (V : List Pair) (m i : ℕ) → self.old ≡ Known V m → TakesOut (S.held set.now).points V i
            → vertex V i ≡ p → count_after V i ≤ m → self.new ≡ Known (remove V i) (m - count_after V i) }
        ensures spent { (V : List Pair) (m i : ℕ) → self.old ≡ Known V m → i < length V → vertex V i ≡ p
            → m < count_after V i → self.new ≡ Unknown 0 }
        ensures fewer { (V W : List Pair) (m n : ℕ) → self.old ≡ Known V m → self.new ≡ Known W n → n ≤ m }
    {
        if let Vertices::Known(kept, moves) = self {
            if !let_go(kept, moves, p, set) {
                *self = Vertices::Unknown(0);
            }
        }
    }

    /// Records one more question. If the vertices are known, changes may take [`MOVES_A_QUESTION`] moves more, but at most
    /// [`MOVES_A_VERTEX`] for each vertex. If nothing is known, and this is the first, second, fourth, eighth question and
    /// so on since something was, the vertices are gathered if there are at most [`VERTICES_A_QUESTION`] for each question
    /// that was asked. So all gathering and moving takes a constant time for each question, and h vertices are known after
    /// at most h questions.
    pub(crate) fn count_question<S: ListsVertices>(&mut self, set: &S)
        requires { AreVerticesOf (S.held set.now).points self.old }
        ensures vertices { AreVerticesOf (S.held set.now).points self.new }
        ensures known { (V : List Pair) (m : ℕ) → self.old ≡ Known V m → self.new ≡ Known V (refilled V m) }
        ensures counted { (m n : ℕ) → self.old ≡ Unknown m → self.new ≡ Unknown n → n ≡ min (m + 1) (2 ^ 32 - 1) }
        ensures moves { (V : List Pair) (m n : ℕ) → self.old ≡ Unknown n → self.new ≡ Known V m → m ≡ full V }
    {
        match self {
            Vertices::Known(kept, moves) => *moves = moves_after_question(kept, *moves),
            Vertices::Unknown(asked) => {
                let asked = asked.saturating_add(1);
                *self = if asked & (asked - 1) == 0 {
                    gathered(set, asked as usize * VERTICES_A_QUESTION, asked)
                } else {
                    Vertices::Unknown(asked)
                };
            }
        }
    }

    /// Gathers the vertices if they are not known, and gives changes all moves. If memory is refused, nothing changes.
    pub(crate) fn gather<S: HullSet>(&mut self, set: &S)
        requires { AreVerticesOf (S.held set.now).points self.old }
        ensures vertices { AreVerticesOf (S.held set.now).points self.new }
        ensures known { (V : List Pair) (m : ℕ) → self.old ≡ Known V m → self.new ≡ Known V (full V) }
        ensures moves { (V : List Pair) (m : ℕ) → self.new ≡ Known V m → m ≡ full V }
        ensures refused { (n : ℕ) → self.new ≡ Unknown n → (self.new ≡ self.old) × ((S.held set.now).points ≢ []) }
    {
        match self {
            Vertices::Known(kept, moves) => *moves = MOVES_A_VERTEX * kept.count(),
            Vertices::Unknown(asked) => *self = gathered_all(set, *asked),
        }
    }
}
