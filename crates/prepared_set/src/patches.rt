//! Changes of known vertices at one place.
ghost use Rattle.std.specs.Prelude.{◌≡◌, ◌⊎◌, ◌↔◌, ◌+◌, ◌-◌, ◌<◌, ◌≤◌, pos, ◌≤ℤ◌, ℕ, List, IfNone, IfSome, IsTrue, IsFalse, length};
ghost use Rattle.std.specs.List.{Contains, remove};
ghost use Rattle.lattice.specs.Covers.{Covers, with_point, without_point};
ghost use Rattle.lattice.specs.Plane as plane;
ghost use Rattle.lattice.specs.Plane.{Pair};
ghost use Rattle.lattice.specs.Vertices.{IsLeftOf, IsVertexList};
ghost use Rattle.hull_polygon.specs.Insertions.{IsGap, IsInsertion, put_between};
ghost use Rattle.hull_polygon.specs.Polygons.{HoldsOfSetsOf, IsPolygonOf};
ghost use Rattle.hull_polygon.specs.Rounds.{vertex};
ghost use Rattle.hull_polygon.specs.Steps.{left_of};
ghost use Rattle.hull_polygon.specs.declared.insertions.Insertion.TheVariants.{Between};
ghost use Rattle.hull_set.specs.declared.TheConstants.{POINT_LIMIT};
ghost use Rattle.prepared_set.specs.Patches.{IsMeasured, PutsIn, TakesOut, count_after};

use super::kept::Kept;
use hull_polygon::Insertion;
use hull_set::{HullSet, POINT_LIMIT};
use lattice::{Direction, Point, difference, orient};

/// Puts `p` in place of the vertices between the ones at `after` and at `before`, and returns true; or changes nothing and
/// returns false, if that takes more moves than are left, if there are [`POINT_LIMIT`] vertices, or if memory is refused.
fn put_in(vertices: &mut Kept, moves: &mut usize, after: usize, before: usize, p: Point) -> bool
    requires gap { IsGap vertices.old (Between after before) }
    requires insertion { HoldsOfSetsOf vertices.old (IsInsertion vertices.old p (Between after before)) }
    ensures put { IsTrue result → vertices.new ≡ put_between vertices.old after before p }
    ensures spent { IsTrue result → moves.new + (length vertices.old - before) ≡ moves.old }
    ensures fewer { moves.new ≤ moves.old }
    ensures refused { IsFalse result → length vertices.old < POINT_LIMIT → length vertices.old - before ≤ moves.old
        → before ≡ after + 1 }
{
    let moved = vertices.count() - before;
    if moved > *moves || vertices.count() >= POINT_LIMIT as usize {
        return false;
    }
    if vertices.put_between(after, before, p).is_err() {
        return false;
    }
    *moves -= moved;
    true
}

/// Whether `t` does not lie right of the line from `a` to `b`.
fn is_not_right(a: Point, b: Point, t: Point) -> bool
    ensures { IsTrue result ↔ (pos 0 ≤ℤ plane.orient a b t) }
{
    orient(a, b, t) >= 0
}

/// Returns the direction to the right of the line from `a` to `b`, or `None` if the program does not accept it.
fn right_of(a: Point, b: Point) -> Option<Direction>
    ensures right { IfSome result (λ d. d ≡ left_of b a) }
    ensures measured { IfSome result (λ _. IsMeasured a b) }
    ensures refused { IfNone result (¬ IsMeasured a b) }
{
    match Direction::new(difference(b.y(), a.y()), difference(a.x(), b.x())) {
        Ok(direction) => Some(direction),
        Err(_) => None,
    }
}

/// Whether no point of the set lies right of the line from `a` to `b`, if the direction to its right is one that the program
/// accepts: else false. Asks the set once.
fn is_left_of<S: HullSet>(set: &S, a: Point, b: Point) -> bool
    ensures { IsTrue result ↔ (IsLeftOf (S.held set.now).points a b × IsMeasured a b) }
{
    let Some(right) = right_of(a, b) else {
        return false;
    };
    match set.extreme(right) {
        Some(farthest) => is_not_right(a, b, farthest),
        None => true,
    }
}

/// Takes out the vertex at `i`, which the set no longer has, and returns true; or changes nothing and returns false, if that
/// takes more moves than are left, if it is the first or the last vertex, or if others come in its place.
fn take_out<S: HullSet>(vertices: &mut Kept, moves: &mut usize, i: usize, set: &S) -> bool
    requires { i < length vertices.old }
    ensures taken { IsTrue result → vertices.new ≡ remove vertices.old i }
    ensures spent { IsTrue result → moves.new + count_after vertices.old i ≡ moves.old }
    ensures fewer { moves.new ≤ moves.old }
    ensures vertices { IsTrue result → (P : List Pair) → IsPolygonOf P vertices.old
        → (S.held set.now).points ≡ without_point (vertex vertices.old i) P
        → IsVertexList (S.held set.now).points vertices.new }
    ensures refused { IsFalse result → count_after vertices.old i ≤ moves.old
        → ¬ TakesOut (S.held set.now).points vertices.old i }
{
    let moved = vertices.count() - (i + 1);
    if moved > *moves {
        return false;
    }
    let Some((a, b)) = vertices.neighbours(i) else {
        return false;
    };
    if !is_left_of(set, a, b) {
        return false;
    }
    vertices.remove(i);
    *moves -= moved;
    true
}

/// Changes the vertices of a set to those with `p`, and returns true; or changes nothing and returns false, if `p` comes
/// before all points or after all, or for what [`put_in`] does so.
pub(crate) fn take_in(vertices: &mut Kept, moves: &mut usize, p: Point) -> bool
    ensures with_it { IsTrue result → HoldsOfSetsOf vertices.old (λ S. IsVertexList (with_point p S) vertices.new) }
    ensures stay { HoldsOfSetsOf vertices.old (λ S. Covers S p
        → IsTrue result × (vertices.new ≡ vertices.old) × (moves.new ≡ moves.old)) }
    ensures put { (S W : List Pair) (i : ℕ) → PutsIn S vertices.old W p i → length vertices.old < POINT_LIMIT
        → count_after W i ≤ moves.old
        → (IsTrue result × (vertices.new ≡ W) × (moves.new ≡ moves.old - count_after W i))
        ⊎ (IsFalse result × (length W ≡ length vertices.old + 1)) }
    ensures spent { (S W : List Pair) (i : ℕ) → PutsIn S vertices.old W p i → moves.old < count_after W i → IsFalse result }
    ensures fewer { moves.new ≤ moves.old }
{
    match vertices.polygon().insertion(p) {
        Insertion::Covered => true,
        Insertion::Between(after, before) => put_in(vertices, moves, after, before, p),
        Insertion::Beyond => false,
    }
}

/// Changes the vertices of a set to those without `p`, which the set no longer has, and returns true; or changes nothing and
/// returns false, for what [`take_out`] does so.
pub(crate) fn let_go<S: HullSet>(vertices: &mut Kept, moves: &mut usize, p: Point, set: &S) -> bool
    ensures without { IsTrue result → (P : List Pair) → IsPolygonOf P vertices.old
        → (S.held set.now).points ≡ without_point p P → IsVertexList (S.held set.now).points vertices.new }
    ensures stay { ¬ Contains vertices.old p → IsTrue result × (vertices.new ≡ vertices.old) × (moves.new ≡ moves.old) }
    ensures taken { (i : ℕ) → TakesOut (S.held set.now).points vertices.old i → vertex vertices.old i ≡ p
        → count_after vertices.old i ≤ moves.old
        → IsTrue result × (vertices.new ≡ remove vertices.old i) × (moves.new ≡ moves.old - count_after vertices.old i) }
    ensures spent { (i : ℕ) → i < length vertices.old → vertex vertices.old i ≡ p
        → moves.old < count_after vertices.old i → IsFalse result }
    ensures fewer { moves.new ≤ moves.old }
{
    match vertices.polygon().index_of(p) {
        Some(i) => take_out(vertices, moves, i, set),
        None => true,
    }
}
