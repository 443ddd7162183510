//! Words that are shared with a side that nobody need trust, and one copy of each.
#![tactic(auto)]

mod bytes;
mod copies;
mod glance;
mod layout;
mod notes;
mod port;
mod shared;
mod told;

pub use bytes::{put_word, word_in, words_for};
pub use copies::store_bytes;
pub use glance::Glance;
pub use layout::{
    BYTES, CALL, CELL_WORDS, CELLS, DONE, FREE, ID, LENGTH, MOST_BYTES, POSTED, RING_WORDS, STATE,
    STATUS, WORD_BYTES,
};
pub use notes::PortNotes;
pub use port::{RingPort, RingSpace};
pub use shared::{WordPort, WordRing};
pub use told::{MOST_TOLD, ToldWords};
