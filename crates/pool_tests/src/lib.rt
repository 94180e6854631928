//! Tests of the pool with real threads, over its public surface.
//!
//! They are in a crate of their own, so that the crates below are proved once.
#![tactic(auto)]

#[cfg(test)]
mod pool;
