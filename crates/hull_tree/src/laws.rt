//! Laws of the definitions: each function has an empty body, and its contract is the law.
ghost use Rattle.hull_tree.specs.Laws.{PathCostIsUnique};

/// The sum of the depths of the ends of all bridges above a point is unique: so the least count of turns that
/// [`add_counted`](crate::HullTree::add_counted) promises is one number for the tree and the point.
pub fn path_cost_is_unique()
    ensures { PathCostIsUnique }
{}
