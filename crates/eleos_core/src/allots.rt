// Allocs, frees and shares of a machine's memory.
ghost use Rattle.std.specs.Prelude.{◌≡◌, IfOk, OnErr};
ghost use Rattle.eleos_core.specs.Words.{Allots, IsCaller};

mod lists;
mod marks;

use crate::allots::lists::{lowest_in, owned_in, put_in, share_in, take_from};
use crate::allots::marks::mark_run;
use crate::{Core, enclave_of, first_sub, subs_of};
use eleos_base::{Addr, Live, MOST_BLOCK_BYTES, NoMemory, Op, Reply, SUB_BYTES};
pub use marks::{Mark, mark_sub};

impl Core {
    /// Allocates a block of so many bytes in the lowest free run of the caller's enclave, and
    /// answers its address, or `BadSize` or `NoSpace`. After want of memory nothing has changed.
    pub(crate) fn alloc(&mut self, who: u32, bytes: u32) -> Result<Reply, NoMemory>
        requires caller { IsCaller self.old.plan who }
        ensures makes { IfOk result (λ reply.
            Allots self.old who (Op.Alloc bytes) reply self.new) }
        ensures err { OnErr result (self.new ≡ self.old) }
    {
        if bytes == 0 || bytes > MOST_BLOCK_BYTES {
            return Ok(Reply::BadSize);
        }
        let enclave = enclave_of(&self.plan, who);
        let len = bytes.div_ceil(SUB_BYTES);
        let subs = subs_of(&self.plan, enclave);
        let Some(start) = lowest_in(&self.live[enclave as usize], subs, len) else {
            return Ok(Reply::NoSpace);
        };
        let block = Live {
            start,
            len,
            owner: who,
            is_shared: false,
        };
        let first = first_sub(&self.plan, enclave) + start;
        put_in(&mut self.live[enclave as usize], block)?;
        mark_run(&mut self.pages, first, len, Mark::Blank(Some(block)));
        Ok(Reply::Got(Addr {
            enclave,
            at: start * SUB_BYTES,
        }))
    }

    /// Frees the caller's block that starts at the address, or answers why it may not be freed.
    pub(crate) fn free(&mut self, who: u32, at: Addr) -> Reply
        requires caller { IsCaller self.old.plan who }
        ensures makes { Allots self.old who (Op.Free at) result self.new }
    {
        let enclave = enclave_of(&self.plan, who);
        let block = match owned_in(&self.live[enclave as usize], enclave, who, at) {
            Ok(block) => block,
            Err(refusal) => return refusal,
        };
        let first = first_sub(&self.plan, enclave) + block.start;
        take_from(&mut self.live[enclave as usize], enclave, at);
        mark_run(&mut self.pages, first, block.len, Mark::Blank(None));
        Reply::Done
    }

    /// Shares the caller's block that starts at the address with all callers of its enclave, or
    /// answers why it may not be shared.
    pub(crate) fn share(&mut self, who: u32, at: Addr) -> Reply
        requires caller { IsCaller self.old.plan who }
        ensures makes { Allots self.old who (Op.Share at) result self.new }
    {
        let enclave = enclave_of(&self.plan, who);
        let block = match owned_in(&self.live[enclave as usize], enclave, who, at) {
            Ok(block) => block,
            Err(refusal) => return refusal,
        };
        let first = first_sub(&self.plan, enclave) + block.start;
        share_in(&mut self.live[enclave as usize], enclave, at);
        mark_run(&mut self.pages, first, block.len, Mark::Shared);
        Reply::Done
    }
}
