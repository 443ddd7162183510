//! The log of a trace: its lines as text, and the lines of a text or its first bad line.
#![tactic(auto)]

mod answer;
mod commands;
mod fields;
pub mod laws;
mod line;
mod reading;
mod replies;
mod words;
mod writing;

pub use answer::{Answer, Block};
pub use line::LogLine;
pub use reading::read_log;
pub use writing::{push_line, push_put, push_said, write_line};
