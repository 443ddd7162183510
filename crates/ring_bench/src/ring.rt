//! Calls of the host's workers.
ghost use Rattle.std.specs.Prelude.{◌≤◌, ◌<◌, All, IfSome};
ghost use Rattle.eleos_ring.specs.declared.cells.TheConstants.{CLIENTS};
ghost use Rattle.eleos_work.specs.Passes.{IsNewPass, IsOf};
ghost use Rattle.ring_bench.specs.Orders.{IsGood};

use crate::order::Order;
use crate::seats::{Role, Seat, Site};
use eleos_base::NoMemory;
use eleos_words::{RING_WORDS, WordRing};
use eleos_work::{JobPass, Jobs};
use std::alloc::Global;
use std::sync::Wait;
use std::sync::atomic::AtomicU32;
use std::thread::{Threads, map_vec};

/// Makes the rounds of each caller in a thread, beside two workers. Answers the right rounds of all.
pub fn ring_rounds<R: Threads + Wait + Sync>(
    rt: &R,
    alloc: Global,
    order: Order,
) -> Result<u64, NoMemory>
    requires { IsGood order }
{
    let Order {
        callers,
        rounds,
        ..
    } = order;
    let words = WordRing::make(alloc, RING_WORDS)?;
    let (jobs, passes) = Jobs::make(alloc, callers)?;
    let running = AtomicU32::new(callers);
    let site = Site {
        jobs: &jobs,
        words: &words,
        running: &running,
    };
    let seats = seats_at(alloc, site, passes, order)?;
    let made = map_vec(rt, seats, &|seat: Seat<'_>| seat.sit(rt, rounds))?;
    Ok(
        made.iter()
            .fold(0, |sum: u64, right| sum.saturating_add(*right)),
    )
}

// Two workers, and the callers.
fn seats_at<'a>(
    alloc: Global,
    site: Site<'a>,
    passes: Vec<JobPass>,
    order: Order,
) -> Result<Vec<Seat<'a>>, NoMemory>
    requires good { IsGood order }
    requires new { All (IsNewPass site.jobs.now) passes.items }
{
    let mut passes = passes;
    let mut seats = Vec::new(alloc);
    for _worker in 0..2 {
        if let Some(pass) = next_of(site.jobs, &mut passes) {
            seats.push(Seat::make(site, pass, Role::Worker))?;
        }
    }
    for client in 0..order.callers {
        if let Some(pass) = next_of(site.jobs, &mut passes) {
            let bytes = order.bytes;
            seats.push(Seat::make(site, pass, Role::Caller { client, bytes }))?;
        }
    }
    Ok(seats)
}

// One of the passes.
fn next_of(jobs: &Jobs, passes: &mut Vec<JobPass>) -> Option<JobPass>
    requires { All (IsNewPass jobs.now) passes.old.items }
    ensures taken { IfSome result (IsOf jobs.now) }
    ensures rest { All (IsNewPass jobs.now) passes.new.items }
{
    let _ = jobs;
    let pass = passes.pop()?;
    Some(pass)
}
