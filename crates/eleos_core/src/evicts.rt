// A page leaves its frame.
ghost use Rattle.std.specs.Prelude.{◌<◌, [], ℕ, MatchOption};
ghost use Rattle.std.specs.Bool.{OnTrue, OnFalse};
ghost use Rattle.eleos_core.specs.Words.{CanEvictIn, IsActor, IsLinked, IsUnlinked, OffendsEvict};
ghost use Rattle.eleos_core.specs.Words.{Outcome, all_frames, all_pages, seals_by};

mod sealing;

use crate::evicts::sealing::leave;
use crate::frames::is_in;
use crate::{ApplyRefused, Core, Effect, Event};
use eleos_base::{List, Part, Reply, SUBS_PER_PAGE, Sealer};
use std::alloc::Global;

impl Core {
    /// The page leaves the frame, where that is legal, and the frame is free again.
    /// Each dirty sub-page is sealed, and its block goes to the host.
    pub(crate) fn apply_evict<S: Sealer>(
        &mut self,
        alloc: Global,
        sealer: &S,
        page: u32,
        frame: u32,
    ) -> Result<Effect, ApplyRefused>
        requires page { page < all_pages self.old.plan }
        requires frame { frame < all_frames self.old.plan }
        ensures { (who : ℕ) → IsActor self.old.plan who
            → Outcome (seals_by (S.key sealer.now)) self.old who (Event.Evict page frame) []
            result self.new }
    {
        if let Some(part) = self.evict_offence(page, frame) {
            return Err(ApplyRefused::Illegal { part });
        }
        let left = &mut self.pages[page as usize];
        let freed = &mut self.frames[frame as usize];
        let puts = leave(alloc, sealer, left, freed, page * SUBS_PER_PAGE)?;
        Ok(Effect {
            reply: Reply::Done,
            puts: List::of(puts),
        })
    }

    /// What an evict of the page from the frame would offend against.
    pub(crate) fn evict_offence(&self, page: u32, frame: u32) -> Option<Part>
        requires { page < all_pages self.now.plan }
        ensures { MatchOption result (CanEvictIn self.now page frame)
            (OffendsEvict self.now page frame) }
    {
        if !is_in(&self.pages[page as usize], frame) {
            Some(Part::Absent)
        } else if self.is_linked(page) {
            Some(Part::Linked)
        } else {
            None
        }
    }

    /// Whether somebody has a link of the page.
    fn is_linked(&self, page: u32) -> bool
        requires { page < all_pages self.now.plan }
        ensures linked { OnTrue result (IsLinked self.now page) }
        ensures unlinked { OnFalse result (IsUnlinked self.now page) }
    {
        for caller in 0..self.plan.callers.len() {
            if self.links[caller * self.pages.len() + page as usize] != 0 {
                return true;
            }
        }
        false
    }
}
