// Reads and writes of a machine's memory.
ghost use Rattle.std.specs.Prelude.{◌≡◌, length, map, All, IfOk, OnErr};
ghost use Rattle.eleos_core.specs.Words.{AreBlocks, IsCaller, Makes, call_places, parts_in, put_of};
ghost use Rattle.eleos_core.specs.Words.{puts_in, read_stamp, refusal_on, seals_by, sub_size};
ghost use Rattle.eleos_core.specs.Words.{write_stamp};

mod pages;
mod places;
mod reads;
mod refusals;
mod spots;
mod writes;

use crate::accesses::pages::{read_page, write_page};
use crate::accesses::refusals::refusal_reply;
use crate::{Block, Core, Effect, Event};
use eleos_base::{Addr, NoMemory, Op, Reply, Sealer};
pub use pages::only_reply;
pub use reads::{read_absent, read_present};
pub use refusals::{use_refusal, write_refusal};
pub use spots::{Spot, enclave_of, first_sub, is_in_range, spot_of, subs_of};
use std::alloc::Global;
pub use writes::{write_absent, write_present};

impl Core {
    /// Why the caller may not access so many bytes at the address.
    pub(crate) fn access_refusal(&self, who: u32, at: Addr, len: usize) -> Option<Reply>
        requires { IsCaller self.now.plan who }
        ensures { result ≡ refusal_on self.now who at len }
    {
        let enclave = self.plan.callers.as_slice()[who as usize - 1];
        if !is_in_range(&self.plan, enclave, at, len) {
            return Some(Reply::BadRange);
        }
        let spot = spot_of(&self.plan, at);
        let page = &self.pages[spot.page as usize];
        match use_refusal(who, page.subs[spot.index].block) {
            Some(refused) => Some(refusal_reply(refused)),
            None => None,
        }
    }

    /// Answers a read. Nothing changes.
    pub(crate) fn read<S: Sealer>(
        &self,
        alloc: Global,
        sealer: &S,
        who: u32,
        at: Addr,
        len: u32,
        blocks: &[Block],
    ) -> Result<Reply, NoMemory>
        requires caller { IsCaller self.now.plan who }
        requires blocks { AreBlocks (call_places self.now who (Op.Read at len)) blocks.now }
        ensures { IfOk result (λ reply.
            Makes (seals_by (S.key sealer.now)) (read_stamp who at len blocks.now reply)
            self.now self.now) }
    {
        let plan = &self.plan;
        if let Some(refusal) = self.access_refusal(who, at, len as usize) {
            return Ok(refusal);
        }
        let spot = spot_of(plan, at);
        let page = &self.pages[spot.page as usize];
        read_page(alloc, plan, sealer, page, who, at, len, blocks)
    }

    /// Answers a write, with the block for the host where the page is absent.
    /// After want of memory nothing has changed.
    pub(crate) fn write<S: Sealer>(
        &mut self,
        alloc: Global,
        sealer: &S,
        who: u32,
        at: Addr,
        bytes: &[u8],
        blocks: &[Block],
    ) -> Result<Effect, NoMemory>
        requires caller { IsCaller self.old.plan who }
        requires blocks { AreBlocks (call_places self.old who (Op.Write at bytes.now)) blocks.now }
        ensures makes { IfOk result (λ effect.
            Makes (seals_by (S.key sealer.now))
            (write_stamp who at bytes.now blocks.now effect.reply) self.old self.new) }
        ensures puts { IfOk result (λ effect.
            map put_of effect.puts
            ≡ puts_in self.old.plan (seals_by (S.key sealer.now))
            (write_stamp who at bytes.now blocks.now effect.reply)
            (parts_in self.old) (Event.Op (Op.Write at bytes.now))) }
        ensures blocks { IfOk result (λ effect.
            All (λ put. length put.block ≡ sub_size) effect.puts) }
        ensures err { OnErr result (self.new ≡ self.old) }
    {
        if let Some(refusal) = self.access_refusal(who, at, bytes.len()) {
            return Ok(only_reply(alloc, refusal));
        }
        let spot = spot_of(&self.plan, at);
        let page = &mut self.pages[spot.page as usize];
        let effect = write_page(alloc, &self.plan, sealer, page, who, at, bytes, blocks)?;
        Ok(effect)
    }
}
