// Events that leave the machine as it is.
ghost use Rattle.std.specs.Prelude.{◌≡◌, ◌<◌, [], ℕ, IfNone, IfSome, length, None, take};
ghost use Rattle.eleos_core.specs.declared.event.Wanted.{Wanted};
ghost use Rattle.eleos_core.specs.Words.{AllPass, AreBlocks, AreFit, IsActor, IsCaller};
ghost use Rattle.eleos_core.specs.Words.{IsSpoiledAt, IsSurveyed, IsWaiting, Makes, Outcome, Seals};
ghost use Rattle.eleos_core.specs.Words.{all_pages, frame_in, page_bytes, seals_by, spoiled_stamp};
ghost use Rattle.eleos_core.specs.Words.{survey_stamp, wanted_page, wanted_part, wanted_places};
ghost use Rattle.eleos_core.specs.Words.{zeros};

use crate::accesses::only_reply;
use crate::fills::{Spoiled, open_subs};
use crate::sweeps::survey_reply;
use crate::sweeps::waiting::address_of;
use crate::{ApplyRefused, Block, Core, Effect, Event, Goal, Wanted, spot_of};
use eleos_base::{List, Looked, PAGE_BYTES, Part, Reply, Sealer};
use std::alloc::Global;

impl Core {
    /// Refuses what waits for a frame, where all frames that its page may take were seen taken.
    pub(crate) fn apply_starved(
        &self,
        alloc: Global,
        who: u32,
        wanted: &Wanted,
        sweep: &[Looked],
    ) -> Result<Effect, ApplyRefused>
        requires { IsCaller self.now.plan who }
        ensures { (x : Seals)
            → Outcome x self.now who (Event.Starved wanted.now sweep.now) [] result self.now }
    {
        if let Some(part) = self.starved_offence(who, wanted, sweep) {
            return Err(ApplyRefused::Illegal { part });
        }
        // Shows the proof the pages: one that is absent has no bytes.
        let _ = &self.pages;
        let Ok(seen) = Vec::from_slice(alloc, sweep) else {
            return Err(ApplyRefused::NoMemory);
        };
        let sweep = List::of(seen);
        Ok(only_reply(alloc, Reply::NoFrame { sweep }))
    }

    /// Refuses what waits where a block of its page does not pass: names the first such place, and
    /// how many blocks were used up to it. Where all blocks pass there is nothing to refuse.
    pub(crate) fn spoiled<S: Sealer>(
        &self,
        sealer: &S,
        wanted: &Wanted,
        blocks: &[Block],
    ) -> Option<Spoiled>
        requires page { wanted_page self.now wanted.now < all_pages self.now.plan }
        requires absent { frame_in (wanted_part self.now wanted.now) ≡ None }
        requires fit { AreFit (wanted_places self.now wanted.now) blocks.now }
        ensures spoiled { IfSome result
            (IsSpoiledAt self.now (seals_by (S.key sealer.now)) wanted.now blocks.now) }
        ensures passed { IfNone result
            (AllPass self.now (seals_by (S.key sealer.now)) wanted.now blocks.now) }
        ensures makes { (who : ℕ) → IsCaller self.now.plan who → IsWaiting self.now who wanted.now
            → IfSome result (λ spoiled. Makes (seals_by (S.key sealer.now))
            (spoiled_stamp who wanted.now (take spoiled.used blocks.now)
            (Reply.Tampered spoiled.place)) self.now self.now) }
    {
        let page = spot_of(&self.plan, address_of(wanted)).page;
        let mut text = zero_page();
        let subs = &self.pages[page as usize].subs;
        open_subs(sealer, subs, page, &mut text, blocks)
    }

    /// Refuses what waits, where a block of its page does not pass.
    /// There is a block for each of the page's sealed sub-pages, in rising order of place.
    pub(crate) fn apply_spoiled<S: Sealer>(
        &self,
        alloc: Global,
        sealer: &S,
        who: u32,
        wanted: &Wanted,
        blocks: &[Block],
    ) -> Result<Effect, ApplyRefused>
        requires caller { IsCaller self.now.plan who }
        requires blocks { AreBlocks (wanted_places self.now wanted.now) blocks.now }
        ensures { Outcome (seals_by (S.key sealer.now)) self.now who (Event.Spoiled wanted.now)
            blocks.now result self.now }
    {
        if let Some(part) = self.waiting_offence(who, wanted) {
            return Err(ApplyRefused::Illegal { part });
        }
        match self.spoiled(sealer, wanted, blocks) {
            Some(spoiled) => {
                let sub = spoiled.place;
                Ok(only_reply(alloc, Reply::Tampered { sub }))
            }
            None => Err(ApplyRefused::Illegal { part: Part::Frame }),
        }
    }

    /// Ends a search among the frames of an enclave and the pool. Where no answer is legal there is
    /// none, which offends against the frames.
    pub(crate) fn survey(&self, enclave: u16, goal: Goal, sweep: &[Looked]) -> Option<Reply>
        requires { enclave < length self.now.plan.enclaves }
        ensures reply { IsSurveyed self.now enclave goal sweep.now result }
        ensures makes { (x : Seals) (who : ℕ) → IsActor self.now.plan who
            → IfSome result (λ reply.
            Makes x (survey_stamp who enclave goal sweep.now reply) self.now self.now) }
    {
        let own = &self.clocks[enclave as usize].frames;
        if own.len() > u32::MAX as usize {
            return None;
        }
        let pool = &self.clocks[self.plan.enclaves.len()].frames;
        survey_reply(own, pool, goal, sweep)
    }

    /// Ends a search among the frames of an enclave and the pool, where the sweep allows an answer.
    pub(crate) fn apply_survey(
        &self,
        alloc: Global,
        enclave: u16,
        goal: Goal,
        sweep: &[Looked],
    ) -> Result<Effect, ApplyRefused>
        requires { enclave < length self.now.plan.enclaves }
        ensures { (x : Seals) (who : ℕ) → IsActor self.now.plan who
            → Outcome x self.now who (Event.Survey enclave goal sweep.now) [] result self.now }
    {
        match self.survey(enclave, goal, sweep) {
            Some(reply) => Ok(only_reply(alloc, reply)),
            None => Err(ApplyRefused::Illegal { part: Part::Frame }),
        }
    }
}

/// Bytes of a page.
const PAGE_TEXT: usize = PAGE_BYTES as usize;

/// The bytes of a page, all zero.
#[tactic(auto, unfolding(eleos_base::specs::Plain::zeros))]
fn zero_page() -> [u8; PAGE_TEXT]
    ensures { result ≡ zeros page_bytes }
{
    [0; PAGE_TEXT]
}
