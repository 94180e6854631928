ghost use Rattle.std.specs.Prelude.{◌≡◌, ◌<◌, IfNone, IfSome, get_or, length};
ghost use Rattle.std.specs.List.{Contains};

use super::removed_point::RemovedPoint;
use lattice::Point;

/// Returns the index of the first removed point that is `p`, or `None` if none is.
pub(crate) fn index_of(points: &[RemovedPoint], p: Point) -> Option<usize>
    ensures inside { IfSome result (λ i. i < length points.now) }
    ensures found { IfSome result (λ i. get_or points.now i p ≡ p) }
    ensures absent { IfNone result (¬ Contains points.now p) }
{
    let mut i = 0;
    while i < points.len() {
        let removed = points[i];
        if removed.point == p {
            return Some(i);
        }
        i += 1;
    }
    None
}
