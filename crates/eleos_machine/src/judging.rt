// Which plans a machine can be made of.
ghost use Rattle.std.specs.Prelude.{◌≡◌, ◌≤◌, ◌<◌, ◌↔◌, All, IsNone, length};
ghost use Rattle.eleos_base.specs.Plans.{AreGoodPages};
ghost use Rattle.eleos_machine.specs.Judging.{CanBeMade, all_frames_of, all_pages_of};
ghost use Rattle.eleos_machine.specs.Judging.{are_at_home, are_blocks_good, are_callers_good};
ghost use Rattle.eleos_machine.specs.Judging.{are_pages_good, finds_room, have_some_pages};
ghost use Rattle.eleos_machine.specs.Judging.{is_block_good, may_own, plan_fault};

use eleos_base::{
    BlockPlan, EnclavePlan, MOST_BLOCK_BYTES, MOST_CALLERS, MOST_ENCLAVES, MOST_FRAMES,
    MOST_HEADER_BLOCKS, MOST_PAGES, MOST_PAGES_IN_ALL, MOST_WEAR, Plan, free_behind, subs_for,
};

/// A field of a plan, in the order in which they are judged.
#[derive(Clone, Copy, Debug, PartialEq, Eq)]
pub enum PlanField {
    Enclaves,
    Pages,
    Frames,
    Callers,
    Wear,
    Blocks,
}

/// The first field of the plan that no machine can have.
pub fn fault_of(plan: &Plan) -> Option<PlanField>
    ensures first { result ≡ plan_fault plan.now }
    ensures none { IsNone result ↔ CanBeMade plan.now }
{
    first_fault(plan)
}

/// The tests of all fields, one after another.
fn first_fault(plan: &Plan) -> Option<PlanField>
    ensures { result ≡ plan_fault plan.now }
{
    if plan.enclaves.len() == 0 || plan.enclaves.len() > MOST_ENCLAVES as usize {
        return Some(PlanField::Enclaves);
    }
    if !are_pages_good(plan) {
        return Some(PlanField::Pages);
    }
    if all_frames_of(plan) > u64::from(MOST_FRAMES) {
        return Some(PlanField::Frames);
    }
    if !are_callers_good(plan) {
        return Some(PlanField::Callers);
    }
    if plan.wear == 0 || plan.wear > MOST_WEAR {
        return Some(PlanField::Wear);
    }
    if !are_blocks_good(plan) {
        return Some(PlanField::Blocks);
    }
    None
}

/// Whether each enclave has 1 to 1,024 pages, and all of them have at most 4,096.
fn are_pages_good(plan: &Plan) -> bool
    requires { length plan.now.enclaves ≤ 8 }
    ensures { result ≡ are_pages_good plan.now }
{
    have_some_pages(plan.enclaves.as_slice()) && all_pages_of(plan) <= u64::from(MOST_PAGES_IN_ALL)
}

/// Whether each enclave has 1 to 1,024 pages.
fn have_some_pages(enclaves: &[EnclavePlan]) -> bool
    ensures { result ≡ have_some_pages enclaves.now }
{
    enclaves.iter().all(|enclave| 1 <= enclave.pages && enclave.pages <= MOST_PAGES)
}

/// The pages of all enclaves.
fn all_pages_of(plan: &Plan) -> u64
    requires { length plan.now.enclaves ≤ 8 }
    ensures { result ≡ all_pages_of plan.now }
{
    let mut pages = 0;
    for enclave in plan.enclaves.as_slice() {
        pages += u64::from(enclave.pages);
    }
    pages
}

/// The frames of all enclaves and of the pool.
fn all_frames_of(plan: &Plan) -> u64
    requires { length plan.now.enclaves ≤ 8 }
    ensures { result ≡ all_frames_of plan.now }
{
    let mut frames = u64::from(plan.spare);
    for enclave in plan.enclaves.as_slice() {
        frames += u64::from(enclave.frames);
    }
    frames
}

/// Whether there are 1 to 8 callers, each of an enclave of the plan.
fn are_callers_good(plan: &Plan) -> bool
    ensures { result ≡ are_callers_good plan.now }
{
    let count = plan.callers.len();
    1 <= count
        && count <= MOST_CALLERS as usize
        && are_at_home(plan.callers.as_slice(), plan.enclaves.len())
}

/// Whether each of these is one of so many enclaves.
fn are_at_home(callers: &[u16], enclaves: usize) -> bool
    ensures { result ≡ are_at_home enclaves callers.now }
{
    callers
        .iter()
        .all(|enclave| usize::from(*enclave) < enclaves)
}

/// Whether there are at most 256 header blocks, each good and with room behind those before it.
fn are_blocks_good(plan: &Plan) -> bool
    requires pages { AreGoodPages plan.now.enclaves }
    ensures { result ≡ are_blocks_good plan.now }
{
    let blocks = plan.blocks.as_slice();
    if blocks.len() > MOST_HEADER_BLOCKS as usize {
        return false;
    }
    for (i, block) in blocks.iter().enumerate() {
        if !is_block_good(plan, &blocks[..i], block) {
            return false;
        }
    }
    true
}

/// Whether the block can stand behind these.
fn is_block_good(plan: &Plan, before: &[BlockPlan], block: &BlockPlan) -> bool
    requires pages { AreGoodPages plan.now.enclaves }
    requires sizes { All (λ earlier. 1 ≤ earlier.bytes) before.now }
    ensures { result ≡ is_block_good plan.now before.now block.now }
{
    1 <= block.bytes
        && block.bytes <= MOST_BLOCK_BYTES
        && (block.enclave as usize) < plan.enclaves.len()
        && may_own(plan, block)
        && finds_room(plan, before, block)
}

/// Whether the block is nobody's, or a caller's of its enclave.
fn may_own(plan: &Plan, block: &BlockPlan) -> bool
    ensures { result ≡ may_own plan.now block.now }
{
    if block.owner == 0 {
        return true;
    }
    let place = block.owner as usize - 1;
    plan.callers.as_slice().get(place).copied() == Some(block.enclave)
}

/// Whether the block finds a free run: all that is free is behind the blocks before it.
fn finds_room(plan: &Plan, before: &[BlockPlan], block: &BlockPlan) -> bool
    requires pages { AreGoodPages plan.now.enclaves }
    requires enclave { block.now.enclave < length plan.now.enclaves }
    requires sizes { All (λ earlier. 1 ≤ earlier.bytes) before.now }
    requires some { 1 ≤ block.now.bytes }
    ensures { result ≡ finds_room plan.now before.now block.now }
{
    subs_for(block.bytes) <= free_behind(plan, before, block.enclave)
}
