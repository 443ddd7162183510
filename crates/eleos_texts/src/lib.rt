//! Texts: their lines, words and fields, why one is refused, and pieces of text that are added.
#![tactic(auto)]

pub mod counts;
mod digits;
mod ends;
pub mod fields;
pub mod heads;
pub mod printing;
pub mod splits;
mod why;

pub use ends::{MOST_TEXT, is_end, nothing_after};
pub use why::{Bad, LineRefused, TraceRefused, Why, at_line, refused};
