//! AES on blocks of 16 bytes, by FIPS 197.
#![tactic(auto)]

mod cipher;
mod words;

pub use cipher::{Aes, BadKeyLength};
