//! The swapper: it keeps frames of an enclave free, by evicting pages that nobody links.
#![tactic(auto)]

mod ends;
mod evicts;
mod rounds;

pub use ends::{RoundEnd, end_round};
pub use evicts::{Evicted, evict_one};
pub use rounds::{begin_round, swap_round};
