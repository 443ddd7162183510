//! One shard of the key-value server: its keys in trusted memory, and its values in any memory with
//! one owner.
#![tactic(auto)]

mod keys;
mod refusals;
mod reply;
mod shard;

pub use keys::MOST_KEYS;
pub use reply::KvReply;
pub use shard::Shard;
