//! Laws of the definitions: each function has an empty body, and its contract is the law.
ghost use Rattle.bridge_search.specs.Laws.{DepthIsUnique};

/// A point of a half has exactly one depth, and it is at most the height of the half. So the number of turns that a
/// search returns is determined by the ends that it found.
pub fn depth_is_unique()
    ensures { DepthIsUnique }
{}
