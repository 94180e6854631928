//! Tests written from the description of the public surface: each public item is used here with its exact signature, with the type of each argument
//! and of each result written out, and each worked example that a function can show is run.
//!
//! The program's own functions (`options`, `run`, `check_text`) are used in the same way in `crates/hullbook/src/tests/asked.rt`.
#![tactic(auto)]

#[cfg(test)]
mod books;
#[cfg(test)]
mod bridges;
#[cfg(test)]
mod locks;
#[cfg(test)]
mod plane;
#[cfg(test)]
mod pools;
#[cfg(test)]
mod sets;
#[cfg(test)]
mod texts;
#[cfg(test)]
mod trees;
