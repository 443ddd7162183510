//! The words of a command line, read by `clap`.
#![tactic(auto)]

mod command;
mod program;
mod reading;

pub use command::{ArgsRefused, Command};
pub use reading::read_words;
