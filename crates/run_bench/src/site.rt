//! A machine with its callers, and their rounds.
ghost use Rattle.std.specs.Prelude.{◌≡◌, length, IfOk, IfSome};
ghost use Rattle.eleos_turn.specs.Hands.{dealt, fresh};
ghost use Rattle.eleos_machine.specs.Closing.{hands_of};
ghost use Rattle.eleos_machine.specs.Machines.{plan_at};

use crate::caller::Call;
use crate::job::Job;
use crate::openings::KEY;
use eleos_base::{BlockPlan, EnclavePlan, List, NoMemory, PAGE_BYTES, Plan, SUBS_PER_PAGE};
use eleos_gcm::Gcm;
use eleos_host::SharedHost;
use eleos_machine::{Machine, Pass};
use std::alloc::Global;
use std::sync::Wait;
use std::thread::{Threads, map_vec};

/// The most often that a sub-page may be sealed.
const WEAR: u64 = 1 << 63;

// Four enclaves of so many pages and with no frame. Each has one caller, whose block is the first
// page.
fn plan_of(alloc: Global, pages: u32) -> Result<Plan, NoMemory>
    ensures { IfOk result (λ plan. length plan.callers ≡ 4) }
{
    let enclave = EnclavePlan { pages, frames: 0 };
    let mut blocks = Vec::new(alloc);
    for enclave in 0..4u16 {
        blocks.push(BlockPlan {
            enclave,
            bytes: PAGE_BYTES,
            owner: u32::from(enclave) + 1,
        })?;
    }
    Ok(Plan {
        enclaves: List::of(Vec::from_slice(alloc, &[enclave; 4])?),
        spare: 0,
        callers: List::of(Vec::from_slice(alloc, &[0, 1, 2, 3])?),
        wear: WEAR,
        blocks: List::of(blocks),
    })
}

/// Makes the rounds of so many of a machine's four callers, each in a thread. Answers the rounds of
/// all.
pub fn call_rounds<R: Threads + Wait + Sync>(
    rt: &R,
    alloc: Global,
    call: Call,
    pages: u32,
    threads: usize,
    rounds: u64,
) -> Result<u64, NoMemory> {
    let plan = plan_of(alloc, pages)?;
    let Ok(sealer) = Gcm::new(&KEY) else {
        return Ok(0);
    };
    // A plan of 1 to 1,024 pages has no fault, so nothing but memory can be wanting.
    let Ok((machine, passes)) = Machine::make(alloc, &plan, sealer) else {
        return Err(NoMemory);
    };
    let host = SharedHost::make(alloc, pages.saturating_mul(4 * SUBS_PER_PAGE))?;
    let mut jobs = jobs_of(alloc, &machine, &host, passes)?;
    jobs.truncate(threads);
    let made = map_vec(
        rt,
        jobs,
        &|job: Job<'_>| job.make_rounds(rt, alloc, call, rounds),
    )?;
    all_made(made)
}

// The sum of the rounds of all callers, if none of them wanted memory.
fn all_made(made: Vec<Result<u64, NoMemory>>) -> Result<u64, NoMemory> {
    let mut all: u64 = 0;
    for rounds in made {
        all = all.saturating_add(rounds?);
    }
    Ok(all)
}

// The jobs of the machine's four callers, none where there are fewer passes.
fn jobs_of<'a>(
    alloc: Global,
    machine: &'a Machine<Gcm>,
    host: &'a SharedHost,
    passes: Vec<Pass>,
) -> Result<Vec<Job<'a>>, NoMemory>
    requires passes { hands_of passes.items ≡ dealt machine.now 0 6 }
    requires callers { length (plan_at machine.now).callers ≡ 4 }
{
    let mut jobs = Vec::new(alloc);
    let Some((first, second, third, fourth)) = four_passes(machine, passes) else {
        return Ok(jobs);
    };
    jobs.push(Job::make(machine, host, first, 0))?;
    jobs.push(Job::make(machine, host, second, 1))?;
    jobs.push(Job::make(machine, host, third, 2))?;
    jobs.push(Job::make(machine, host, fourth, 3))?;
    Ok(jobs)
}

// The passes of the callers. Those behind them, of the swapper and of the balloon, are let go.
fn four_passes(machine: &Machine<Gcm>, passes: Vec<Pass>) -> Option<(Pass, Pass, Pass, Pass)>
    requires { hands_of passes.items ≡ dealt machine.now 0 6 }
    ensures first { IfSome result (λ p. p.0.hand ≡ fresh machine.now 1) }
    ensures second { IfSome result (λ p. p.1.hand ≡ fresh machine.now 2) }
    ensures third { IfSome result (λ p. p.2.hand ≡ fresh machine.now 3) }
    ensures fourth { IfSome result (λ p. p.3.hand ≡ fresh machine.now 4) }
{
    let _ = machine;
    let mut passes = passes.into_iter();
    Some((
        passes.next()?,
        passes.next()?,
        passes.next()?,
        passes.next()?,
    ))
}
