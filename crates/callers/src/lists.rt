//! A caller of `tiered_list`.
ghost use Rattle.std.specs.Prelude.{◌≡◌, IfOk};

use heap::Heap;
use lattice::Point;
use std::alloc::AllocError;
use tiered_list::TieredList;

/// Makes a list with these points in their order.
pub fn list_of(alloc: Heap, points: &[Point]) -> Result<TieredList, AllocError>
    ensures { IfOk result (λ list. list.items ≡ points.now) }
{
    let mut list = TieredList::new(alloc);
    list.reserve(points.len())?;
    // storage for what a change moves aside: here nothing is after its index
    let mut spare = Vec::new(alloc);
    list.splice(0, 0, points, &mut spare);
    Ok(list)
}
