//! Programs of several callers in threads of their own over one machine, with the log that is the
//! machine's one history.
#![tactic(auto)]

mod answers;
mod callers;
mod clients;
mod frame_lines;
mod host_calls;
mod jobs;
pub mod laws;
mod making;
mod parting;
mod rounds;
mod runs;
mod shares;
mod tasks;
mod threads;
mod workers;

pub use runs::{RunDone, run};
