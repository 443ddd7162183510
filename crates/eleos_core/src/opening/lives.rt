// The live blocks of each enclave before the first event.
ghost use Rattle.std.specs.Prelude.{◌≡◌, ◌<◌, ◌≤◌, [], length, IfOk, OnOk};
ghost use Rattle.eleos_core.specs.Words.{AreInOrder, IsGood, live, opening_lives, with_header};

use crate::{Alloc, add_block, lowest_run};
use eleos_base::{BlockPlan, Live, NoMemory, Plan, SUB_BYTES, SUBS_PER_PAGE};
use std::alloc::Global;

/// The live blocks of each enclave.
pub fn make_lives(alloc: Global, plan: &Plan) -> Result<Vec<Alloc>, NoMemory>
    requires { IsGood plan.now }
    ensures { IfOk result (λ cells. cells.items ≡ opening_lives plan.now) }
{
    let mut cells = Vec::new(alloc);
    for enclave in 0..plan.enclaves.len() as u16 {
        cells.push(make_live(alloc, plan, enclave)?)?;
    }
    Ok(cells)
}

/// An enclave's live blocks: those of its header blocks for which there was room.
fn make_live(alloc: Global, plan: &Plan, enclave: u16) -> Result<Alloc, NoMemory>
    requires good { IsGood plan.now }
    requires enclave { enclave < length plan.now.enclaves }
    ensures { IfOk result (λ cell. cell ≡ live plan.now [] enclave) }
{
    let subs = plan.enclaves.as_slice()[enclave as usize].pages * SUBS_PER_PAGE;
    let mut blocks = Vec::new(alloc);
    for block in plan.blocks.as_slice() {
        if block.enclave == enclave {
            add_header(&mut blocks, subs, block)?;
        }
    }
    Ok(Alloc { blocks })
}

/// Puts a header block into the lowest free run of so many sub-pages, where there is one.
fn add_header(blocks: &mut Vec<Live>, subs: u32, block: &BlockPlan) -> Result<(), NoMemory>
    requires in_order { AreInOrder 0 subs blocks.old.items }
    requires some { 1 ≤ block.now.bytes }
    ensures with { OnOk result (blocks.new.items ≡ with_header subs block.now blocks.old.items) }
    ensures in_order { OnOk result (AreInOrder 0 subs blocks.new.items) }
{
    let len = block.bytes.div_ceil(SUB_BYTES);
    let Some(start) = lowest_run(blocks, subs, len) else {
        return Ok(());
    };
    add_block(
        blocks,
        Live {
            start,
            len,
            owner: block.owner,
            is_shared: block.owner == 0,
        },
    )
}
