// The machines, passes and taps that the tests begin with.
ghost use Rattle.std.specs.Prelude.{◌≡◌, length, IfOk, IfSome};
ghost use Rattle.eleos_base.specs.Places.{all_frames};
ghost use Rattle.eleos_turn.specs.Hands.{dealt, fresh};
ghost use Rattle.eleos_machine.specs.Closing.{hands_of};
ghost use Rattle.eleos_machine.specs.Machines.{all_cells, all_passes, plan_at};

use eleos_base::{BlockPlan, EnclavePlan, List, Plan};
use eleos_gcm::Gcm;
use eleos_host::{HostSpace, SharedHost, SharedPort, Tap};
use eleos_machine::{Machine, Pass};
use std::alloc::{AllocError, Global};
use std::test::*;

// The machine of a plan, with its passes.
pub(crate) fn machine_of(alloc: Global, plan: &Plan) -> Result<(Machine<Gcm>, Vec<Pass>), Fail>
    ensures plan { IfOk result (λ made. plan_at made.0 ≡ plan.now) }
    ensures passes { IfOk result
        (λ made. hands_of made.1.items ≡ dealt made.0 0 (all_passes plan.now)) }
{
    let Ok(sealer) = Gcm::new(&[7; 16]) else {
        return Err("key".into());
    };
    match Machine::make(alloc, plan, sealer) {
        Ok(made) => Ok(made),
        Err(_) => Err("machine".into()),
    }
}

// A tap of a caller's port.
pub(crate) fn tap_of<'a>(alloc: Global, host: &'a SharedHost) -> Result<Tap<SharedPort<'a>>, Fail> {
    let space = &host;
    match Tap::make(alloc, space.port(1)) {
        Ok(tap) => Ok(tap),
        Err(_) => Err("tap".into()),
    }
}

// A machine with two callers, their passes and the swapper's.
pub(crate) fn two_callers(alloc: Global) -> Result<(Machine<Gcm>, Pass, Pass, Pass), Fail>
    ensures enclaves { IfOk result (λ made. length (plan_at made.0).enclaves ≡ 2) }
    ensures callers { IfOk result (λ made. length (plan_at made.0).callers ≡ 2) }
    ensures frames { IfOk result (λ made. all_frames (plan_at made.0) ≡ 2) }
    ensures cells { IfOk result (λ made. all_cells (plan_at made.0) ≡ 9) }
    ensures one { IfOk result (λ made. made.1.hand ≡ fresh made.0 1) }
    ensures two { IfOk result (λ made. made.2.hand ≡ fresh made.0 2) }
    ensures swapper { IfOk result (λ made. made.3.hand ≡ fresh made.0 3) }
{
    let plan = plan_of_two(alloc)?;
    let (machine, passes) = machine_of(alloc, &plan)?;
    let Some((one, two, swapper)) = first_passes(&machine, passes) else {
        return Err("passes".into());
    };
    Ok((machine, one, two, swapper))
}

// Two enclaves of one page and one frame each, and two callers in the second one. There both may use the first
// two sub-pages, which have the places 4 and 5, and caller 2 alone the third.
fn plan_of_two(alloc: Global) -> Result<Plan, AllocError>
    ensures enclaves { IfOk result (λ plan. length plan.enclaves ≡ 2) }
    ensures callers { IfOk result (λ plan. length plan.callers ≡ 2) }
    ensures frames { IfOk result (λ plan. all_frames plan ≡ 2) }
    ensures cells { IfOk result (λ plan. all_cells plan ≡ 9) }
{
    let page = EnclavePlan {
        pages: 1,
        frames: 1,
    };
    Ok(Plan {
        enclaves: List::of(Vec::from_slice(alloc, &[page, page])?),
        spare: 0,
        callers: List::of(Vec::from_slice(alloc, &[1, 1])?),
        wear: 2,
        blocks: List::of(Vec::from_slice(alloc, &[block(2048, 0), block(1024, 2)])?),
    })
}

fn block(bytes: u32, owner: u32) -> BlockPlan {
    BlockPlan {
        enclave: 1,
        bytes,
        owner,
    }
}

// The passes of two callers and of the swapper, where that of the balloon is the last.
fn first_passes(machine: &Machine<Gcm>, passes: Vec<Pass>) -> Option<(Pass, Pass, Pass)>
    requires { hands_of passes.items ≡ dealt machine.now 0 4 }
    ensures { IfSome result (λ p. (p.0.hand ≡ fresh machine.now 1)
        × (p.1.hand ≡ fresh machine.now 2) × (p.2.hand ≡ fresh machine.now 3)) }
{
    let _ = machine;
    let mut passes = passes;
    let _balloon = passes.pop()?;
    let swapper = passes.pop()?;
    let two = passes.pop()?;
    let one = passes.pop()?;
    Some((one, two, swapper))
}
