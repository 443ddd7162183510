// The room that header blocks leave. They are never freed, so they stand one behind the other from
// their enclave's start on.
ghost use Rattle.std.specs.Prelude.{◌≡◌, ◌<◌, length};
ghost use Rattle.eleos_base.specs.Plain.{subs_for};
ghost use Rattle.eleos_base.specs.Plans.{AreGoodPages};
ghost use Rattle.eleos_base.specs.Rooms.{free_behind, less_block};

use crate::{BlockPlan, PAGE_BYTES, Plan, SUB_BYTES};

/// The sub-pages of the enclave that are behind these header blocks, all of them free.
pub fn free_behind(plan: &Plan, blocks: &[BlockPlan], enclave: u16) -> u32
    requires pages { AreGoodPages plan.now.enclaves }
    requires enclave { enclave < length plan.now.enclaves }
    ensures { result ≡ free_behind plan.now enclave blocks.now }
{
    let mut free = PAGE_BYTES * plan.enclaves.as_slice()[enclave as usize].pages / SUB_BYTES;
    for block in blocks {
        free = less_block(enclave, free, block);
    }
    free
}

/// What a header block leaves of so many free sub-pages of the enclave.
pub fn less_block(enclave: u16, free: u32, block: &BlockPlan) -> u32
    ensures { result ≡ less_block enclave free block.now }
{
    let subs = subs_for(block.bytes);
    if block.enclave == enclave && subs <= free {
        free - subs
    } else {
        free
    }
}

/// The sub-pages that so many bytes take.
pub fn subs_for(bytes: u32) -> u32
    ensures { result ≡ subs_for 1024 bytes }
{
    bytes.div_ceil(SUB_BYTES)
}
