//! Tests of the plane, of the sets, of buckets and of the questions, over the public surface of these crates.
//!
//! They are in a crate of their own, so that the crates under test are proved once.
#![tactic(auto)]

#[cfg(test)]
mod bucket_nodes;
#[cfg(test)]
mod bucket_trees;
#[cfg(test)]
mod buckets;
#[cfg(test)]
mod deferring;
#[cfg(test)]
mod growing_hulls;
#[cfg(test)]
mod numbers;
#[cfg(test)]
mod plain;
#[cfg(test)]
mod plane;
#[cfg(test)]
mod prepared;
#[cfg(test)]
mod questions;
#[cfg(test)]
mod tree;
