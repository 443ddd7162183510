//! What the program does, from the bytes that come in to the bytes that go out.
#![tactic(auto)]

mod callers;
mod gcm;
mod input;
mod picking;
mod replaying;
mod response;
mod running;
mod said;
mod scenes;
mod sessions;
mod streams;
mod top;

pub use gcm::gcm_top;
pub use picking::{MainEnd, main_top};
pub use replaying::replay_top;
pub use running::{RunEnd, run_top};
