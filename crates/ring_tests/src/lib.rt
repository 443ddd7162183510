//! Tests of calls through words that nobody need trust.
#![tactic(auto)]

#[cfg(test)]
mod passes;
#[cfg(test)]
mod posts;
#[cfg(test)]
mod replies;
#[cfg(test)]
mod script;
#[cfg(test)]
mod store;
#[cfg(test)]
mod threads;
#[cfg(test)]
mod words;
#[cfg(test)]
mod workers;
