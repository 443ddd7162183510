//! Pages whose turn is in hand: reads and writes within one of their sub-pages, and fills and
//! evicts of a pass. No call takes memory.
#![tactic(auto)]

mod access;
mod begins;
mod ends;
mod evicting;
mod evicts;
mod filling;
mod fills;
mod reading;
mod sealing;
mod writing;

pub use access::Accessed;
pub use begins::begin;
pub use ends::end;
pub use evicting::evict;
pub use evicts::{evict_bytes, evict_page};
pub use filling::{Filled, add_blocks, fill};
pub use fills::{Came, fill_bytes, fill_page};
pub use reading::read_page;
pub use sealing::{evict_sub, open_sub};
pub use writing::write_page;
