//! Rounds of calls that callers make of the host's workers, and of messages that they send to
//! threads and get back, to be timed from outside. It keeps no clock.
#![tactic(auto)]

mod channel;
mod order;
mod ring;
mod seats;

ghost use Rattle.ring_bench.specs.Orders.{IsGood};

use channel::channel_rounds;
use eleos_base::NoMemory;
use order::{Order, Way, read_order};
use ring::ring_rounds;
use std::alloc::Global;
use std::process::ExitCode;
use std::sync::Wait;
use std::thread::Threads;
use std::{env, io};

// The rounds that all callers made together.
fn perform<R: Threads + Wait + Sync>(rt: &R, alloc: Global, order: Order) -> Result<u64, NoMemory>
    requires { IsGood order }
{
    match order.way {
        Way::Ring => ring_rounds(rt, alloc, order),
        Way::Channel => channel_rounds(rt, alloc, order),
    }
}

fn main(rt: HostRuntime) -> io::Result<ExitCode> {
    let mut words = env::args(&rt)?.skip(1);
    let (way, callers, rounds, bytes) = (words.next(), words.next(), words.next(), words.next());
    let Some(order) = read_order(way, callers, rounds, bytes) else {
        eprintln!(rt; "usage: ring_bench ring|channel CALLERS ROUNDS BYTES")?;
        return Ok(ExitCode::from(2));
    };
    let Ok(made) = perform(&rt, rt.alloc(), order) else {
        eprintln!(rt; "ring_bench: not enough memory")?;
        return Ok(ExitCode::FAILURE);
    };
    println!(rt; "{made}")?;
    Ok(ExitCode::SUCCESS)
}
