//! Blocks of the machine that threads share: they are allocated, freed and shared, each call by
//! one entry of the caller's pass.
#![tactic(auto)]

mod calls;
mod changes;
mod holding;
pub mod laws;
mod pages;
mod refusals;
mod runs;

pub use calls::{alloc, change_block, free, share};
pub use changes::Change;
