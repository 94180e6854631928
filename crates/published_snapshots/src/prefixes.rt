//! Two snapshots of one history.
ghost use Rattle.std.specs.Prelude.{MatchBool};
ghost use mathlib.Core.List.{IsPrefix};
ghost use Rattle.published_snapshots.specs.Snapshots.{AreOfOneHistory, lines_of};

use super::snapshot::{Snapshot, Truth};

/// Whether the lines of `one` are a prefix of those of `other`. If not, the lines of `other` are a prefix of those of
/// `one`. Both snapshots must be of one history.
pub fn is_prefix<T: Truth>(one: &Snapshot<T>, other: &Snapshot<T>) -> bool
    requires { AreOfOneHistory one.now.prefix other.now.prefix }
    ensures { MatchBool result (IsPrefix (lines_of one.now) (lines_of other.now))
        (IsPrefix (lines_of other.now) (lines_of one.now)) }
{
    one.prefix.begins(&other.prefix)
}
