//! The slabs of a half: the parts of the plane between the ends of its lower edges (Dobkin and Lipton, 1976), in the
//! order by x and then y.
ghost use Rattle.bridge_search.specs.Trees.{Leaf};
ghost use Rattle.hull_questions.specs.Slabs.{IsSlab};

use bridge_search::Half;
use lattice::{Point, before};

/// The slab of a half that a point is in.
#[derive(Clone, Copy)]
pub(crate) enum Slab {
    /// Before all of them.
    Before,
    /// After all of them.
    After,
    /// It is the last of them.
    Last,
    /// Before the right end of this lower edge, and not before its left end.
    Edge((Point, Point)),
}

/// Returns the slab of one point that `q` is in.
fn slab_beside(only: Point, q: Point) -> Slab
    ensures { IsSlab (Leaf only) q result }
{
    if before(q, only) {
        Slab::Before
    } else if before(only, q) {
        Slab::After
    } else {
        Slab::Last
    }
}

/// Returns the slab of a half that `q` is in: one path down the stored lower bridges, which needs neither end of the
/// half and stops at the first bridge between whose ends `q` is.
pub(crate) fn slab_of<H: Half>(half: H, q: Point) -> Slab
    ensures { IsSlab (H.tree half) q result }
{
    let mut part = half;
    while let Some(edge) = part.lower() {
        if before(q, edge.0) {
            part = part.left();
        } else if before(q, edge.1) {
            return Slab::Edge(edge);
        } else {
            part = part.right();
        }
    }
    slab_beside(part.first(), q)
}
