//! Reads and writes of a caller within one sub-page, wherever its page is. Each is one entry of the
//! machine's history, needs no frame and takes no memory. A desk is a caller's pass as a memory.
#![tactic(auto)]

mod access;
mod desk;
pub mod laws;
mod reads;
mod refusals;
mod writes;

pub use desk::{Desk, Origin};
pub use reads::{read, refuse_read, try_read};
pub use refusals::TryRefused;
pub use writes::{try_write, write};
