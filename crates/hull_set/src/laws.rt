//! Laws of the definitions: each function has an empty body, and its contract is the law.
ghost use Rattle.std.specs.Prelude.{◌≡◌};
ghost use Rattle.hull_set.specs.Laws.{RepliesAreUnique};

use super::{MULTIPLICITY_LIMIT, POINT_LIMIT};

/// A call has only one possible reply, except that memory may be refused.
pub fn replies_are_unique()
    ensures { RepliesAreUnique }
{}

/// [`POINT_LIMIT`] is 2^20.
pub fn point_limit_is_stated()
    ensures { POINT_LIMIT ≡ 1048576 }
{}

/// [`MULTIPLICITY_LIMIT`] is 65,535.
pub fn multiplicity_limit_is_stated()
    ensures { MULTIPLICITY_LIMIT ≡ 65535 }
{}
