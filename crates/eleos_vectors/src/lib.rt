//! Vectors of the ciphers: a text of them is read, and each is answered.
#![tactic(auto)]

mod answering;
mod keys;
mod reading;
mod vector;

pub use answering::{answer_room, answers};
pub use reading::vectors_in;
pub use vector::{ShortText, Vector};
