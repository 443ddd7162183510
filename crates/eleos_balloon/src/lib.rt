//! The balloon: frames go from an enclave to the pool and back.
#![tactic(auto)]

mod ends;
mod gathers;
mod lists;
mod moves;
mod pool;
mod releases;
mod shares;
mod went;

pub use ends::BalloonEnd;
pub use gathers::gather_one;
pub use moves::move_frame;
pub use releases::release_one;
pub use shares::{begin_gather, begin_share, end_gather, end_release, set_share};
pub use went::Went;
