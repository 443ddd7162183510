//! Tests of `eleos_top` and `eleos_run`, from bytes to bytes: what no text on the program's input
//! shows.
#![tactic(auto)]

#[cfg(test)]
mod calls;
#[cfg(test)]
mod faults;
#[cfg(test)]
mod lying;
#[cfg(test)]
mod meeting;
#[cfg(test)]
mod surveys;
