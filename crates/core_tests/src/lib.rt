//! Tests of the core's events that no command makes, and of the drafts of entries.
#![tactic(auto)]

#[cfg(test)]
mod plots;
#[cfg(test)]
mod searches;

#[cfg(test)]
use eleos_base::Addr;

/// The first byte of the first enclave.
#[cfg(test)]
const HERE: Addr = Addr { enclave: 0, at: 0 };
