//! The workers of a host: a queue of cells that have jobs, and the table of calls.
#![tactic(auto)]

mod aide;
mod bell;
mod calls;
mod entry;
mod jobs;
mod read;
mod reply;
mod rule;
mod table;
mod turns;

pub use aide::JobAide;
pub use bell::JobBell;
pub use calls::{BAD_JOB, FULL, HostCall, KEY_BYTES, MISSING, MOST_KEYS, OKAY, VALUE_BYTES};
pub use jobs::{JobPass, JobQueue, Jobs};
pub use rule::{JobRule, JobView};
