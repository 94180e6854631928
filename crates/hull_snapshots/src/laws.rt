//! Laws of the definitions: each function has an empty body, and its contract is the law.
ghost use Rattle.hull_snapshots.specs.Laws.{ChangesHaveTheEffect};

/// The change of a call with its reply has the effect of that reply. So the set after the lines of a journal is the
/// set after their changes.
pub fn changes_have_the_effect()
    ensures { ChangesHaveTheEffect }
{}
