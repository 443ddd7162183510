// Plans of which no machine can be made, and the end of a machine.
ghost use Rattle.std.specs.Prelude.{◌≡◌, length, IfOk, IfSome};
ghost use Rattle.eleos_turn.specs.Hands.{dealt, fresh};
ghost use Rattle.eleos_machine.specs.Closing.{hands_of};

use crate::setups::machine_of;
use eleos_base::{BlockPlan, EnclavePlan, List, Plan, Sealer};
use eleos_gcm::Gcm;
use eleos_machine::{CloseRefused, CloseWhy, Machine, Pass, PlanField, RestPass, fault_of};
use std::alloc::{AllocError, Global};
use std::process::Abort;
use std::test::*;

// A plan whose enclaves have so many pages and one frame each, with one frame to spare.
fn plan_of(
    alloc: Global,
    pages: &[u32],
    callers: &[u16],
    wear: u64,
    blocks: &[(u32, u32)],
) -> Result<Plan, AllocError>
    ensures { IfOk result (λ plan. length plan.callers ≡ length callers.now) }
{
    let mut enclaves = Vec::new(alloc);
    for count in pages {
        enclaves.push(EnclavePlan {
            pages: *count,
            frames: 1,
        })?;
    }
    let mut plans = Vec::new(alloc);
    for (bytes, owner) in blocks {
        plans.push(BlockPlan {
            enclave: 0,
            bytes: *bytes,
            owner: *owner,
        })?;
    }
    Ok(Plan {
        enclaves: List::of(enclaves),
        spare: 1,
        callers: List::of(Vec::from_slice(alloc, callers)?),
        wear,
        blocks: List::of(plans),
    })
}

// Pages of each enclave, callers, wear, and bytes and owner of each block of a plan, and its first
// bad field.
const PLANS: [(&[u32], &[u16], u64, &[(u32, u32)], Option<PlanField>); 8] = [
    (&[1, 2], &[0, 1], 9, &[(4096, 1)], None),
    (&[], &[], 0, &[], Some(PlanField::Enclaves)),
    (&[1, 1025], &[0], 0, &[], Some(PlanField::Pages)),
    (&[1], &[1], 0, &[], Some(PlanField::Callers)),
    (&[1], &[0; 9], 9, &[], Some(PlanField::Callers)),
    (&[1], &[0], 0, &[(0, 1)], Some(PlanField::Wear)),
    (
        &[1],
        &[0],
        9,
        &[(3072, 0), (1025, 1)],
        Some(PlanField::Blocks),
    ),
    (&[1], &[0], 9, &[(1, 2)], Some(PlanField::Blocks)),
];

#[test]
fn the_first_bad_field_is_named(rt: HostRuntime) -> Result<(), Fail> {
    for (pages, callers, wear, blocks, fault) in PLANS {
        let plan = plan_of(rt.alloc(), pages, callers, wear, blocks)?;
        assert_eq!(rt; fault_of(&plan), fault);
    }
    Ok(())
}

#[test]
fn a_machine_is_closed_with_all_its_passes(rt: HostRuntime) -> Result<(), Fail> {
    let alloc = rt.alloc();
    let plan = plan_of(alloc, &[1], &[0], 9, &[])?;
    let (machine, passes) = machine_of(alloc, &plan)?;
    can_be_shared(&machine);
    let Some((caller, swapper, balloon)) = three_passes(&machine, passes) else {
        return Err("passes".into());
    };
    close_in_turn(&rt, alloc, machine, caller, swapper, balloon)
}

// Threads may share a machine, and each may be given a pass.
fn can_be_shared<S: Sealer + Sync>(machine: &Machine<S>) {
    shared(machine);
    sent::<Pass>();
    sent::<RestPass>();
}

fn shared<T: Sync>(_: &T) {}

fn sent<T: Send>() {}

// The passes of a caller, of the swapper and of the balloon.
fn three_passes(machine: &Machine<Gcm>, passes: Vec<Pass>) -> Option<(Pass, Pass, Pass)>
    requires { hands_of passes.items ≡ dealt machine.now 0 3 }
    ensures { IfSome result
        (λ p. (p.0.hand ≡ fresh machine.now 1) × (p.1.hand ≡ fresh machine.now 2)
        × (p.2.hand ≡ fresh machine.now 3)) }
{
    let _ = machine;
    let mut passes = passes;
    let balloon = passes.pop()?;
    let swapper = passes.pop()?;
    let caller = passes.pop()?;
    Some((caller, swapper, balloon))
}

// Closes with one pass, and then with all.
fn close_in_turn<R: Abort>(
    rt: &R,
    alloc: Global,
    machine: Machine<Gcm>,
    caller: Pass,
    swapper: Pass,
    balloon: Pass,
) -> Result<(), Fail>
    requires caller { caller.hand.home ≡ machine }
    requires swapper { swapper.hand.home ≡ machine }
    requires balloon { balloon.hand.home ≡ machine }
{
    let mut passes = Vec::new(alloc);
    passes.push(caller)?;
    let Err(
        CloseRefused {
            machine,
            mut passes,
            why,
        },
    ) = machine.close(passes)
    else {
        return Err("two are missing".into());
    };
    assert_eq!(rt; why, CloseWhy::Missing);
    passes.push(swapper)?;
    passes.push(balloon)?;
    let Ok(pass) = machine.close(passes) else {
        return Err("all are there".into());
    };
    assert_eq!(rt; pass.who(), 0);
    Ok(())
}
