//! Sessions of the key-value server: their text is fed in pieces, and what comes out is the same
//! however it was cut.
#![tactic(auto)]

mod commands;
mod header;
mod pieces;
mod reader;
mod session;
mod stage;
mod trace;

pub use pieces::session_in;
pub use session::Session;
pub use trace::{KvAct, KvCommand, KvTrace};
