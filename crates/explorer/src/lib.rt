//! Schedules of single steps, tried one by one.
//!
//! `take`, `look` and `hand_on` never wait, so a test can be the scheduler: it makes the steps of several seats in any order, over a real book under
//! a real lock, and tests the result. It proves nothing beyond the contracts, but shows that the code that was proved is the code that runs.
#![tactic(auto)]

#[cfg(test)]
mod tests;
