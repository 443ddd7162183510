//! Tests of `eleos_trace` and `eleos_report`: what no text on the program's input shows.
#![tactic(auto)]

#[cfg(test)]
mod logs;
#[cfg(test)]
mod traces;
