use std::marker::Model;

/// Padding between what two threads write: two cache lines of 64 bytes, which most machines fetch in pairs. Nothing reads it.
#[derive(Drop)]
pub(crate) struct CachePadded {
    unused: [u64; 16],
}

impl Model for CachePadded {
    ghost Value = { Unit {0} };

    ghost view = { λ a. tt };
}

impl CachePadded {
    /// Makes the padding.
    pub(crate) fn new() -> CachePadded {
        CachePadded { unused: [0; 16] }
    }
}
