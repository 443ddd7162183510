//! Shards of one map, as cells of a turnstile of their own, over the pages of a machine.
#![tactic(auto)]

mod answers;
mod cells;
mod commands;
mod ending;
pub mod laws;
mod making;
mod serving;

pub use cells::{KvPlot, ShardCell};
pub use commands::{KvEntry, KvLine};
pub use ending::Ended;
pub use serving::{KvHand, KvShards};
