//! Kernels on lanes for AES and GCM, each equal to its plain definition.
#![tactic(auto)]

mod bytes;
mod circuit;
mod eight;
mod field;
mod gate;
mod mirror;
mod planes;
mod powers;
mod rows;

pub use bytes::{differs, mix_columns, sub_bytes, xor_into};
pub use eight::{add_planes, full_round, last_round, planes_of, put_blocks, spread};
pub use powers::Powers;
