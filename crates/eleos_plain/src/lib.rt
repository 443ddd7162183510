//! Plain memory as a program: what memory without frames, seals and host answers to a call.
#![tactic(auto)]

mod blocks;
mod enclave;
mod memory;
mod texts;

pub use memory::PlainMemory;
