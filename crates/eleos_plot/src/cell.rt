// What the cells hold that threads share.

use crate::block_list::BlockList;
use crate::frame_list::FrameList;
use eleos_core::{Frame, Page};

/// What a cell of the machine holds.
#[derive(Debug, Drop)]
pub enum Cell {
    /// An enclave's live blocks.
    Alloc(BlockList),
    /// The frames of an enclave or of the pool, and the clock's hand: the place among them where
    /// the next search begins, 0 where there is none. No entry fixes the hand.
    Clock { clock: FrameList, hand: u32 },
    Page(Page),
    Frame(Frame),
}
