//! Two small clients of a turnstile, with what they show of its calls, and the tests that run them.
#![tactic(auto)]

pub mod counters;
pub mod shelves;
#[cfg(test)]
mod turns;
