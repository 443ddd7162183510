//! Tests of the machine that threads share: the calls of its callers, a pass as a memory, rounds of
//! the swapper, and the machine's end.
#![tactic(auto)]

#[cfg(test)]
mod callers;
#[cfg(test)]
mod closing;
#[cfg(test)]
mod desks;
#[cfg(test)]
mod rounds;
#[cfg(test)]
mod setups;
