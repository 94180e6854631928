//! Tests of books, of their texts and pictures, of devices, and of replies in numbers, over the public surface of these crates.
//!
//! They are in a crate of their own, so that the crates under test are proved once.
#![tactic(auto)]

#[cfg(test)]
mod book;
#[cfg(test)]
mod devices;
#[cfg(test)]
mod long;
#[cfg(test)]
mod pictures;
#[cfg(test)]
mod reopened;
#[cfg(test)]
mod replies;
#[cfg(test)]
mod texts;
