//! Turns at cells that threads share, and one history of entries that hands stamp.
#![tactic(auto)]

mod answers;
mod closing;
mod hand;
mod making;
mod plays;
mod slot;
mod table;
mod told;
mod turnstile;
mod view;

pub use answers::{Busy, Refused, Taken};
pub use closing::{Closed, HandsRefused};
pub use eleos_base::CellWord;
pub use hand::{Hand, RestHand};
pub use turnstile::Turnstile;
