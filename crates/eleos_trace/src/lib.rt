//! Traces: the machine, the key and the commands of a text, or its first bad line with the reason.
#![tactic(auto)]

mod actors;
mod calls;
mod commands;
mod frames;
mod givers;
mod header;
mod host;
mod lines;
mod machines;
mod names;
mod pointers;
mod reading;
mod rounds;
mod seen;
mod trace;
mod verbs;
mod word;

pub use actors::{actor_of, is_host};
pub use machines::{all_frames, places};
pub use reading::{line_count, parse, parse_prefix};
pub use trace::{Kind, Line, Trace};
pub use word::{Actor, CallWord, Word};
