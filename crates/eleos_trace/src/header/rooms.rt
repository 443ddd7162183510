// Whether a header block finds room behind those before it.
ghost use Rattle.std.specs.Prelude.{◌≡◌, ◌≤◌, ◌<◌, All, length, map};
ghost use Rattle.eleos_base.specs.Plans.{IsGood};
ghost use Rattle.eleos_base.specs.Rooms.{free_behind, has_space};
ghost use Rattle.eleos_trace.specs.Blocks.{with_blocks};

use super::NamedBlock;
use eleos_base::{Plan, free_behind, less_block, subs_for};

/// Whether so many bytes find a free run in the enclave: all that is free is behind the blocks
/// before.
pub(crate) fn has_space(plan: &Plan, before: &[NamedBlock], enclave: u16, bytes: u32) -> bool
    requires good { IsGood plan.now }
    requires enclave { enclave < length plan.now.enclaves }
    requires sizes { All (λ named. 1 ≤ named.block.bytes) before.now }
    requires some { 1 ≤ bytes }
    ensures { result ≡ has_space (with_blocks plan.now before.now) enclave bytes }
{
    subs_for(bytes) <= free_behind_named(plan, before, enclave)
}

/// The sub-pages of the enclave that are behind these blocks.
fn free_behind_named(plan: &Plan, blocks: &[NamedBlock], enclave: u16) -> u32
    requires good { IsGood plan.now }
    requires enclave { enclave < length plan.now.enclaves }
    ensures { result ≡ free_behind plan.now enclave (map (λ named. named.block) blocks.now) }
{
    let mut free = free_behind(plan, &[], enclave);
    for named in blocks {
        free = less_block(enclave, free, &named.block);
    }
    free
}
