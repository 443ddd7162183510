// What a machine has, and what can be named in it.
ghost use Rattle.std.specs.Prelude.{◌≡◌, ◌≤◌, length};
ghost use Rattle.eleos_base.specs.Plans.{IsGood, enclave_of};
ghost use Rattle.eleos_base.specs.Places.{all_frames, all_pages};
ghost use Rattle.eleos_trace.specs.Machines.{pages_of, frames_of, places};
ghost use Rattle.eleos_trace.specs.Machines.{enclave_in, is_caller};

use crate::Actor;
use eleos_base::{EnclavePlan, PAGE_BYTES, Plan, SUB_BYTES};
use eleos_texts::fields::number_below;

/// The pages of these enclaves.
pub(crate) fn pages_of(enclaves: &[EnclavePlan]) -> u32
    requires { pages_of enclaves.now ≤ 4096 }
    ensures { result ≡ pages_of enclaves.now }
{
    enclaves.iter().map(|enclave| enclave.pages).sum()
}

/// The frames of these enclaves.
pub(crate) fn frames_of(enclaves: &[EnclavePlan]) -> u32
    requires { frames_of enclaves.now ≤ 512 }
    ensures { result ≡ frames_of enclaves.now }
{
    enclaves.iter().map(|enclave| enclave.frames).sum()
}

/// The pages of a machine.
#[tactic(auto, using(crate::proofs::Counts::pages_are))]
pub(crate) fn all_pages(plan: &Plan) -> u32
    requires { IsGood plan.now }
    ensures { result ≡ all_pages plan.now }
{
    pages_of(plan.enclaves.as_slice())
}

/// The frames of a machine, those of the pool included.
#[tactic(auto, using(crate::proofs::Counts::frames_are))]
pub fn all_frames(plan: &Plan) -> u32
    requires { IsGood plan.now }
    ensures { result ≡ all_frames plan.now }
{
    frames_of(plan.enclaves.as_slice()) + plan.spare
}

/// Its sub-pages, each of which has a place of the host.
#[tactic(auto, using(crate::proofs::Counts::pages_are))]
pub fn places(plan: &Plan) -> u32
    requires { IsGood plan.now }
    ensures { result ≡ places plan.now }
{
    PAGE_BYTES * all_pages(plan) / SUB_BYTES
}

/// The number of an enclave, where it is declared.
pub(crate) fn enclave_in(enclaves: &[EnclavePlan], text: &[u8]) -> Option<u16>
    requires { length enclaves.now ≤ 8 }
    ensures { result ≡ enclave_in enclaves.now text.now }
{
    let enclave = number_below(text, enclaves.len() as u32)?;
    Some(enclave as u16)
}

/// Whether it is a caller that is declared.
pub(crate) fn is_caller(plan: &Plan, actor: Actor) -> bool
    ensures { result ≡ is_caller plan.now actor }
{
    match actor {
        Actor::Caller(number) => 1 <= number && number as usize <= plan.callers.len(),
        Actor::Swapper | Actor::Balloon | Actor::Host => false,
    }
}

/// The enclave of a caller.
pub(crate) fn enclave_of(plan: &Plan, caller: u32) -> u16
    ensures { result ≡ enclave_of plan.now caller }
{
    let place = caller.saturating_sub(1) as usize;
    plan.callers.as_slice().get(place).copied().unwrap_or(0)
}
