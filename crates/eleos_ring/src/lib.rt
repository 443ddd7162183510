//! Jobs for a side that nobody need trust, through words that it reads and writes too.
#![tactic(auto)]

mod accept;
mod aides;
mod call;
mod cells;
mod look;
mod post;
mod ticket;

pub use accept::{Fields, MOST_STATUS, Polled, RingWhy};
pub use aides::{Aide, Bell};
pub use call::Called;
pub use cells::{CELLS_EACH, CLIENTS, Ring, RingFull};
pub use ticket::Ticket;
