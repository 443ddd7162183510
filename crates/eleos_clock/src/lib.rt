//! The clock: it finds a frame among those of an enclave, a free one or that of a page that nobody
//! links.
#![tactic(auto)]

mod found;
mod frees;
mod rounds;
mod turns;
mod victims;
mod visits;

pub use found::{Found, NoVictim};
pub use frees::{note, note_free};
pub use turns::{clock, give_clock, try_clock};
pub use victims::victim;
