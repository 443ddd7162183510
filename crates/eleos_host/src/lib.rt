//! The backing store of a host that is not trusted, as the runtime sees it.
#![tactic(auto)]

mod block;
mod crossings;
mod hand;
mod port;
mod room;
mod shared;
mod slot;
mod space;
mod store;
mod tap;
mod told;
mod words;

pub use block::{BLOCK_BITS, BLOCK_BYTES, Block};
pub use crossings::{Crossings, MOST_TOLD};
pub use hand::{Act, ActAnswer, HostHand};
pub use port::{HostPort, HostStore};
pub use room::{HostOpener, HostRoom};
pub use shared::{SharedHand, SharedHost, SharedPort};
pub use slot::{SLOTS, SlotState};
pub use space::HostSpace;
pub use tap::Tap;
pub use told::ToldHost;
