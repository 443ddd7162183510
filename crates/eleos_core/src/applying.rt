// Applying events to a machine: what is not legal is refused, and the rest is made on the cells.
ghost use Rattle.std.specs.Prelude.{◌≡◌, All, Err, IfOk, length, OnErr};
ghost use Rattle.eleos_base.specs.declared.memory.Part.{Part as Offence};
ghost use Rattle.eleos_core.specs.Words.{AlwaysApplies, AlwaysIllegal, AreBlocks, IsCaller};
ghost use Rattle.eleos_core.specs.Words.{IsWithin, MayWantMemory, Outcome, needed, seals_by};
ghost use Rattle.eleos_core.specs.Words.{sub_size};

mod needs;

use crate::accesses::only_reply;
use crate::{ApplyRefused, Block, Core, Effect, Event};
use eleos_base::{Op, Sealer};
pub use needs::Places;
use std::alloc::Global;

impl Core {
    /// Applies an event: exactly the machine's step, whatever legal history it is after.
    ///
    /// `blocks` are those of the places that `need` answers, in the same order. After Illegal
    /// and after want of memory nothing has changed. Want of memory comes only where an entry of
    /// the event is legal.
    pub fn apply<S: Sealer>(
        &mut self,
        alloc: Global,
        sealer: &S,
        who: u32,
        event: &Event,
        blocks: &[Block],
    ) -> Result<Effect, ApplyRefused>
        requires within { IsWithin self.old.plan who event.now }
        requires blocks { AreBlocks (needed self.old who event.now) blocks.now }
        ensures applied { IfOk result (λ effect.
            AlwaysApplies (seals_by (S.key sealer.now)) self.old who event.now blocks.now
            effect.reply effect.puts self.new) }
        ensures blocks { IfOk result (λ effect.
            All (λ put. length put.block ≡ sub_size) effect.puts) }
        ensures illegal { (part : Offence) → result ≡ Err (ApplyRefused.Illegal part)
            → AlwaysIllegal (seals_by (S.key sealer.now)) self.old who event.now blocks.now part }
        ensures memory { result ≡ Err ApplyRefused.NoMemory
            → MayWantMemory self.old who event.now }
        ensures err { OnErr result (self.new ≡ self.old) }
    {
        match event {
            Event::Op(op) => self.apply_call(alloc, sealer, who, op, blocks),
            Event::Link { at } => self.apply_link(alloc, who, *at),
            Event::Unlink { page } => self.apply_unlink(alloc, who, *page),
            Event::Fill { page, frame } => self.apply_fill(alloc, sealer, *page, *frame, blocks),
            Event::Evict { page, frame } => self.apply_evict(alloc, sealer, *page, *frame),
            Event::Move { frame, from, to } => self.apply_move(alloc, *frame, *from, *to),
            Event::Starved { wanted, sweep } => {
                self.apply_starved(alloc, who, wanted, sweep.as_slice())
            }
            Event::Spoiled { wanted } => self.apply_spoiled(alloc, sealer, who, wanted, blocks),
            Event::Survey {
                enclave,
                goal,
                sweep,
            } => self.apply_survey(alloc, *enclave, *goal, sweep.as_slice()),
        }
    }

    /// Applies a call on memory, which is never illegal. After want of memory nothing has changed.
    pub(crate) fn apply_call<S: Sealer>(
        &mut self,
        alloc: Global,
        sealer: &S,
        who: u32,
        op: &Op,
        blocks: &[Block],
    ) -> Result<Effect, ApplyRefused>
        requires within { IsCaller self.old.plan who }
        requires blocks { AreBlocks (needed self.old who (Event.Op op.now)) blocks.now }
        ensures { Outcome (seals_by (S.key sealer.now)) self.old who (Event.Op op.now) blocks.now
            result self.new }
    {
        match op {
            Op::Alloc { bytes } => {
                let reply = self.alloc(who, *bytes)?;
                Ok(only_reply(alloc, reply))
            }
            Op::Free { at } => Ok(only_reply(alloc, self.free(who, *at))),
            Op::Share { at } => Ok(only_reply(alloc, self.share(who, *at))),
            Op::Read { at, len } => {
                let reply = self.read(alloc, sealer, who, *at, *len, blocks)?;
                Ok(only_reply(alloc, reply))
            }
            Op::Write { at, bytes } => {
                let effect = self.write(alloc, sealer, who, *at, bytes.as_slice(), blocks)?;
                Ok(effect)
            }
        }
    }
}
