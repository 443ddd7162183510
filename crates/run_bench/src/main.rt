//! Rounds of calls on the machine that threads share, and of what they are measured by, to be timed
//! from outside. It keeps no clock.
#![tactic(auto)]

mod adds;
mod caller;
mod job;
mod openings;
mod order;
mod site;

use adds::add_rounds;
use eleos_base::NoMemory;
use openings::open_rounds;
use order::{Order, Work, read_order};
use site::call_rounds;
use std::alloc::Global;
use std::process::ExitCode;
use std::sync::Wait;
use std::thread::Threads;
use std::{env, io};

// The rounds that were made in all threads together.
fn perform<R: Threads + Wait + Sync>(rt: &R, alloc: Global, order: Order) -> Result<u64, NoMemory> {
    let Order {
        work,
        threads,
        rounds,
    } = order;
    match work {
        Work::Open => open_rounds(rt, alloc, threads, rounds),
        Work::Add { own } => add_rounds(rt, alloc, own, threads, rounds),
        Work::Call { call, pages } => call_rounds(rt, alloc, call, pages, threads, rounds),
    }
}

fn main(rt: HostRuntime) -> io::Result<ExitCode> {
    let mut words = env::args(&rt)?.skip(1);
    let (work, threads, rounds, size) = (words.next(), words.next(), words.next(), words.next());
    let Some(order) = read_order(work, threads, rounds, size) else {
        eprintln!(rt; "usage: run_bench open THREADS ROUNDS")?;
        eprintln!(rt; "       run_bench add THREADS ROUNDS ADDS")?;
        eprintln!(rt; "       run_bench blank|sealed|mixed|blocks THREADS ROUNDS PAGES")?;
        return Ok(ExitCode::from(2));
    };
    let Ok(made) = perform(&rt, rt.alloc(), order) else {
        eprintln!(rt; "run_bench: not enough memory")?;
        return Ok(ExitCode::FAILURE);
    };
    println!(rt; "{made}")?;
    Ok(ExitCode::SUCCESS)
}
