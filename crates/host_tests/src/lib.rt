//! Tests of hosts and taps, and of the pages whose blocks a host has.
#![tactic(auto)]

#[cfg(test)]
mod hosts;
#[cfg(test)]
mod pages;
