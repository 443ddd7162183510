// Events of the core that no command of the program makes: the end of a search among frames, and
// what is refused for want of a frame or since a block did not pass.
ghost use Rattle.std.specs.Prelude.{◌≡◌, [], IfOk};
ghost use Rattle.eleos_base.specs.Plans.{IsCaller, IsGood};
ghost use Rattle.eleos_core.specs.Accesses.{AreBlocks};
ghost use Rattle.eleos_core.specs.Legal.{IsWithin};
ghost use Rattle.eleos_core.specs.Applying.{Shows};
ghost use Rattle.eleos_core.specs.Needs.{needed};
ghost use Rattle.eleos_core.specs.Seals.{Seals};

use crate::HERE;
use eleos_base::{BlockPlan, EnclavePlan, List, Looked, Op, Plan, Reply};
use eleos_core::{ApplyRefused, Block, Core, Event, Goal, Wanted};
use eleos_gcm::Gcm;
use std::alloc::{AllocError, Global};
use std::test::*;

// One enclave of one page, which has the frames 0 and 1, with frame 2 in the pool, and one caller,
// who has the first sub-page.
fn plan_of_three_frames(alloc: Global) -> Result<Plan, AllocError>
    ensures good { IfOk result (λ plan. IsGood plan) }
    ensures caller { IfOk result (λ plan. IsCaller plan 1) }
{
    let enclave = EnclavePlan {
        pages: 1,
        frames: 2,
    };
    let block = BlockPlan {
        enclave: 0,
        bytes: 1024,
        owner: 1,
    };
    Ok(Plan {
        enclaves: List::of(Vec::from_slice(alloc, &[enclave])?),
        spare: 1,
        callers: List::of(Vec::from_slice(alloc, &[0])?),
        wear: 9,
        blocks: List::of(Vec::from_slice(alloc, &[block])?),
    })
}

// The frames of a sweep, each with the word that was seen there.
type Seen = &'static [(u32, u64)];

fn sweep_of(alloc: Global, seen: Seen) -> Result<List<Looked>, AllocError> {
    let mut sweep = Vec::new(alloc);
    for (frame, word) in seen {
        sweep.push(Looked {
            frame: *frame,
            word: *word,
        })?;
    }
    Ok(List::of(sweep))
}

// What a search is for, what it saw, and how it ends.
const SEARCHES: [(Goal, Seen, &str); 8] = [
    (Goal::Low(1), &[(1, 0)], "Enough { free: 1 }"),
    (Goal::Low(1), &[(2, 0)], ILLEGAL),
    (Goal::Low(2), &[(1, 0), (0, 1)], "Swept { free: 1 }"),
    (Goal::Low(2), &[(1, 0)], ILLEGAL),
    (Goal::To(2), &[], "Reached { share: 2 }"),
    (Goal::To(1), &[(1, 256), (0, 1)], "Pinned { share: 2 }"),
    (Goal::To(3), &[(2, 1)], "Short { share: 2 }"),
    (Goal::To(3), &[(2, 256)], ILLEGAL),
];

const ILLEGAL: &str = "Illegal { part: Frame }";

#[test]
fn searches_end(rt: HostRuntime) -> Result<(), Fail> {
    for (goal, seen, ended) in SEARCHES {
        let found = ended_search(rt.alloc(), goal, seen)?;
        assert_eq!(rt; found.as_str(), ended);
    }
    Ok(())
}

fn ended_search(alloc: Global, goal: Goal, seen: Seen) -> Result<String, Fail> {
    let event = Event::Survey {
        enclave: 0,
        goal,
        sweep: sweep_of(alloc, seen)?,
    };
    let plan = plan_of_three_frames(alloc)?;
    let mut core = core_of(alloc, &plan)?;
    happened(alloc, &mut core, &event, &[])
}

// What a sweep for a frame for the page saw, and what a link that waits for it is told.
const SWEEPS: [(Seen, &str); 3] = [
    (
        &[(1, 256), (0, 1)],
        "NoFrame { sweep: List { items: [Looked { frame: 1, word: 256 }, Looked { frame: 0, word: 1 }] } }",
    ),
    (&[(1, 0), (0, 1)], ILLEGAL),
    (&[(0, 1)], ILLEGAL),
];

#[test]
fn a_link_waits_for_a_frame(rt: HostRuntime) -> Result<(), Fail> {
    for (seen, told) in SWEEPS {
        let found = starved(rt.alloc(), seen)?;
        assert_eq!(rt; found.as_str(), told);
    }
    Ok(())
}

fn starved(alloc: Global, seen: Seen) -> Result<String, Fail> {
    let event = Event::Starved {
        wanted: Wanted::Link { at: HERE },
        sweep: sweep_of(alloc, seen)?,
    };
    let plan = plan_of_three_frames(alloc)?;
    let mut core = core_of(alloc, &plan)?;
    happened(alloc, &mut core, &event, &[])
}

#[test]
fn a_link_waits_for_a_block(rt: HostRuntime) -> Result<(), Fail> {
    let alloc = rt.alloc();
    let plan = plan_of_three_frames(alloc)?;
    let mut core = core_of(alloc, &plan)?;
    assert_eq!(rt; spoiled(alloc, &mut core)?.as_str(), ILLEGAL);
    let mut core = written(alloc, &plan)?;
    assert_eq!(rt; spoiled(alloc, &mut core)?.as_str(), "Tampered { sub: 0 }");
    Ok(())
}

// What a link that waits for the page is told where the host has zeros.
fn spoiled(alloc: Global, core: &mut Core) -> Result<String, Fail>
    requires caller { IsCaller core.old.plan 1 }
{
    let event = Event::Spoiled {
        wanted: Wanted::Link { at: HERE },
    };
    let mut blocks = Vec::new(alloc);
    match core.need(1, &event).as_slice() {
        [] => {}
        [_place] => blocks.push(List::of(Vec::from_slice(alloc, &[0; 1024])?))?,
        _ => return Err("places".into()),
    }
    happened(alloc, core, &event, &blocks)
}

// The machine of the plan after caller 1 wrote to its sub-page.
fn written(alloc: Global, plan: &Plan) -> Result<Core, Fail>
    requires good { IsGood plan.now }
    requires caller { IsCaller plan.now 1 }
    ensures { IfOk result (λ core. core.plan ≡ plan.now) }
{
    let mut core = core_of(alloc, plan)?;
    write_to(alloc, &mut core)?;
    Ok(core)
}

// Caller 1 writes to its sub-page of a machine before its first event.
fn write_to(alloc: Global, core: &mut Core) -> Result<(), Fail>
    requires good { IsGood core.old.plan }
    requires caller { IsCaller core.old.plan 1 }
    requires shown { (x : Seals) → Shows x [] core.old }
    ensures { IfOk result (λ _. core.new.plan ≡ core.old.plan) }
{
    let event = Event::Op(Op::Write {
        at: HERE,
        bytes: List::of(Vec::from_slice(alloc, &[0x41])?),
    });
    if !core.need(1, &event).as_slice().is_empty() {
        return Err("it is blank".into());
    }
    let Ok(_) = core.apply(alloc, &sealer()?, 1, &event, &[]) else {
        return Err("it may write".into());
    };
    Ok(())
}

fn core_of(alloc: Global, plan: &Plan) -> Result<Core, Fail>
    requires good { IsGood plan.now }
    ensures plan { IfOk result (λ core. core.plan ≡ plan.now) }
    ensures shown { IfOk result (λ core. (x : Seals) → Shows x [] core) }
{
    match Core::make(alloc, plan) {
        Ok(core) => Ok(core),
        Err(_) => Err("memory".into()),
    }
}

// What is answered to an event of caller 1, with these blocks.
fn happened(alloc: Global, core: &mut Core, event: &Event, blocks: &[Block]) -> Result<String, Fail>
    requires within { IsWithin core.old.plan 1 event.now }
    requires blocks { AreBlocks (needed core.old 1 event.now) blocks.now }
{
    Ok(match core.apply(alloc, &sealer()?, 1, event, blocks) {
        Ok(effect) => format!(in alloc; "{:?}", effect.reply)?,
        Err(refused) => format!(in alloc; "{refused:?}")?,
    })
}

fn sealer() -> Result<Gcm, Fail> {
    match Gcm::new(&[7; 16]) {
        Ok(sealer) => Ok(sealer),
        Err(_) => Err("key".into()),
    }
}
