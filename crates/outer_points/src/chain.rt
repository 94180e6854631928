//! Five points in order on a side of a list of points, and what is inwards of the segments between them.
ghost use Rattle.std.specs.Prelude.{◌↔◌, ◌<◌, IsTrue};
ghost use Rattle.outer_points.specs.Chains.{IsInOrder, IsUnder};

use lattice::{Point, Side, before, orient_on};

/// Returns the index of the point of the chain at which the segment begins that has `p` in its range of x, if there is
/// one.
fn segment_near(chain: &[Point; 5], p: Point) -> usize
    ensures { result < 4 }
{
    let half = if p.x() < chain[2].x() { 0 } else { 2 };
    if p.x() < chain[half + 1].x() {
        half
    } else {
        half + 1
    }
}

/// Whether `p` is between two successive points of the chain and not outwards of their segment. It looks at the one
/// segment that has `p` in its range of x.
pub(crate) fn is_under(side: Side, chain: &[Point; 5], p: Point) -> bool
    ensures { IsTrue result → IsUnder side chain.now p }
{
    let start = segment_near(chain, p);
    let (a, b) = (chain[start], chain[start + 1]);
    before(a, p) && before(p, b) && orient_on(side, a, b, p) >= 0
}

/// Whether no point of the chain is before an earlier one.
pub(crate) fn is_in_order(chain: &[Point; 5]) -> bool
    ensures { IsTrue result ↔ IsInOrder chain.now }
{
    for i in 1..chain.len() {
        if before(chain[i], chain[i - 1]) {
            return false;
        }
    }
    true
}
