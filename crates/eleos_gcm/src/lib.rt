//! Authenticated encryption by GCM with AES, by SP 800-38D, with nonces of 12 bytes and tags of 16.
#![tactic(auto)]

mod counter;
mod field;
mod gcm;
mod hash;

pub use gcm::Gcm;
pub use hash::ghash;
