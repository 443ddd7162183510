//! Tests of `eleos_kvwire`: sessions that are read or refused, each fed whole and in small pieces.
#![tactic(auto)]

#[cfg(test)]
mod sessions;
