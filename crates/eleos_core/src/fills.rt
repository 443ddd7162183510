// A page is put into a frame.
ghost use Rattle.std.specs.Prelude.{◌<◌, ℕ, MatchOption};
ghost use Rattle.eleos_core.specs.Words.{AreBlocks, CanFillIn, IsActor, OffendsFill, Outcome};
ghost use Rattle.eleos_core.specs.Words.{all_frames, all_pages, page_in, sealed_places, seals_by};

mod opening;

use crate::accesses::only_reply;
use crate::fills::opening::enter;
use crate::frames::{home_of, is_free};
use crate::{ApplyRefused, Block, Core, Effect, Event};
use eleos_base::{Part, Reply, Sealer};
pub use opening::{Spoiled, open_subs};
use std::alloc::Global;

/// What a fill came to, and how many blocks it used: those up to the first that did not pass.
#[derive(Debug, Drop)]
pub struct Filled {
    pub reply: Reply,
    pub used: usize,
}

impl Core {
    /// Puts an absent page into a free frame of its enclave, where that is legal, with what its
    /// blocks open to: one for each sealed sub-page, in rising order of place. Where one does not
    /// pass nothing changes.
    pub(crate) fn apply_fill<S: Sealer>(
        &mut self,
        alloc: Global,
        sealer: &S,
        page: u32,
        frame: u32,
        blocks: &[Block],
    ) -> Result<Effect, ApplyRefused>
        requires page { page < all_pages self.old.plan }
        requires frame { frame < all_frames self.old.plan }
        requires blocks { AreBlocks (sealed_places page (page_in self.old page)) blocks.now }
        ensures { (who : ℕ) → IsActor self.old.plan who
            → Outcome (seals_by (S.key sealer.now)) self.old who (Event.Fill page frame)
            blocks.now result self.new }
    {
        if let Some(part) = self.fill_offence(page, frame) {
            return Err(ApplyRefused::Illegal { part });
        }
        let filled = &mut self.pages[page as usize];
        let lent = &mut self.frames[frame as usize];
        let came = enter(sealer, filled, page, lent, frame, blocks);
        Ok(only_reply(alloc, came.reply))
    }

    /// What a fill of the page into the frame would offend against.
    pub(crate) fn fill_offence(&self, page: u32, frame: u32) -> Option<Part>
        requires page { page < all_pages self.now.plan }
        requires frame { frame < all_frames self.now.plan }
        ensures { MatchOption result (CanFillIn self.now page frame)
            (OffendsFill self.now page frame) }
    {
        if self.pages[page as usize].present.is_some() {
            return Some(Part::Present);
        }
        let cell = &self.frames[frame as usize];
        if is_free(cell) && cell.owner == home_of(&self.plan, page) {
            None
        } else {
            Some(Part::Frame)
        }
    }
}
