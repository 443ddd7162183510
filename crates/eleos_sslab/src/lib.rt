//! Small objects in any memory with one owner, several of them in a block.
#![tactic(auto)]

mod block;
mod size;
mod slab;

pub use block::{MOST_SLOTS, SlabBlock};
pub use size::{MOST_OBJECT_BYTES, SlotSize};
pub use slab::{ObjId, SSlab, SlabRefused};
