//! The machine as a plot: what the cells and entries of its threads mean to a turnstile.
#![tactic(auto)]

mod block_list;
mod cell;
mod draft;
mod frame_list;
mod kinds;
pub mod laws;
mod plot;
mod refs;

pub use block_list::{BlockList, MOST_LIVE};
pub use cell::Cell;
pub use draft::{BLOCK_BYTES, Draft, MOST_BLOCKS, MOST_LOOKED, MOST_TEXT};
pub use frame_list::FrameList;
pub use plot::{CellPart, CorePlot, Ground};
pub use refs::{EventOf, EventRef, OpOf, OpRef, ReplyOf, ReplyRef, WantedOf, WantedRef};
