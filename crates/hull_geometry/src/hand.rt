//! The two tangents from a point.

/// Selects one of the two tangents from a point: the left or the right one, as seen from that point.
#[derive(Clone, Copy)]
pub enum Hand {
    Left,
    Right,
}
