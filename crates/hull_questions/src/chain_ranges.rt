//! The ranges of a lower chain between two of its vertices.
ghost use Rattle.hull_questions.specs.ChainRanges.{IsChainRange, IsRangeShape};

use bridge_search::Half;
use lattice::{Point, before};

/// The halves that the edges of a range are in.
#[derive(Clone, Copy)]
pub(crate) enum RangeShape {
    /// None: the two ends of the range are the same vertex.
    Nowhere,
    /// In the left half.
    Left,
    /// In the right half.
    Right,
    /// In the left half up to the start of this lower bridge, and in the right half from its end on.
    Across((Point, Point)),
}

/// Returns the halves that the edges of the lower chain of a half from one of its vertices to another are in.
pub(crate) fn range_shape_of<H: Half>(half: H, from: Point, to: Point) -> RangeShape
    requires { IsChainRange (H.tree half) from to }
    ensures { IsRangeShape (H.tree half) from to result }
{
    if !before(from, to) {
        return RangeShape::Nowhere;
    }
    let Some(bridge) = half.lower() else {
        unreachable!()
    };
    if !before(bridge.0, to) {
        RangeShape::Left
    } else if !before(from, bridge.1) {
        RangeShape::Right
    } else {
        RangeShape::Across(bridge)
    }
}
