/// Whether a set counts how often a point was added, which decides the replies that a change may have.
#[derive(Clone, Copy, PartialEq, Eq, Debug)]
pub enum Rules {
    /// A point is in the set or not: adding a point of the set is answered `already` and changes nothing. Journals of
    /// versions 1 and 2 use these rules.
    Set,
    /// A point of the set has a multiplicity of at least 1: adding the point raises it by one, and removing it lowers
    /// it by one. Every [`HullSet`](crate::HullSet) uses these rules.
    Counted,
}
