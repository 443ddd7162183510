//! What the commands of a trace mean: names with their addresses, and the table of programs.
#![tactic(auto)]

mod headers;
mod meanings;
mod names;
mod offsets;
mod unties;

pub use headers::{header_names, opening_names};
pub use meanings::{Meaning, meaning_of};
pub use names::NameTable;
pub use offsets::at_offset;
