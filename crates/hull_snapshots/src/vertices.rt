//! The property that published vertices must have.
use super::change::Change;
use super::vertex_list::VertexList;
use published_snapshots::Truth;

/// Vertices of the set after changes of the empty set.
pub struct Vertices;

impl Truth for Vertices {
    type Line = Change;

    type Value = VertexList;

    ghost use Rattle.hull_snapshots.specs.Lists.{AreVerticesAfter};

    ghost holds = { λ changes list. AreVerticesAfter changes list };
}
