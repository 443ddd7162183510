//! Messages to a thread and back, by two channels.
ghost use Rattle.std.specs.Prelude.{◌≤◌};
ghost use Rattle.ring_bench.specs.Orders.{IsGood};

use crate::order::Order;
use crossbeam_channel::{Receiver, Sender, bounded};
use eleos_base::NoMemory;
use std::alloc::Global;
use std::sync::Wait;
use std::thread::{Threads, map_vec};

/// A thread at an end of two channels.
#[derive(Drop)]
enum End {
    /// It sends a message and waits for it to come back.
    Caller {
        out: Sender<Vec<u8>, Global>,
        back: Receiver<Vec<u8>, Global>,
    },
    /// It sends back what it gets.
    Worker {
        out: Receiver<Vec<u8>, Global>,
        back: Sender<Vec<u8>, Global>,
    },
}

impl End {
    // The messages that came back, none for a worker.
    fn sit<R: Wait>(self, rt: &R, alloc: Global, rounds: u32, bytes: u32) -> Result<u64, NoMemory>
        requires { bytes ≤ 1024 }
    {
        match self {
            End::Caller { out, back } => {
                let text = Vec::from_slice(alloc, &[7; 1024][..bytes as usize])?;
                Ok(send_many(rt, &out, &back, text, rounds))
            }
            End::Worker { out, back } => {
                send_back(rt, &out, &back);
                Ok(0)
            }
        }
    }
}

fn send_many<R: Wait>(
    rt: &R,
    out: &Sender<Vec<u8>, Global>,
    back: &Receiver<Vec<u8>, Global>,
    text: Vec<u8>,
    rounds: u32,
) -> u64 {
    let mut text = text;
    for round in 0..rounds {
        if out.send(rt, text).is_err() {
            return u64::from(round);
        }
        let Ok(again) = back.recv(rt) else {
            return u64::from(round);
        };
        text = again;
    }
    u64::from(rounds)
}

// Until the caller has gone.
fn send_back<R: Wait>(rt: &R, out: &Receiver<Vec<u8>, Global>, back: &Sender<Vec<u8>, Global>) {
    for _ in rt.forever() {
        let Ok(text) = out.recv(rt) else {
            return;
        };
        if back.send(rt, text).is_err() {
            return;
        }
    }
}

/// Makes the rounds of each caller in a thread, each beside a thread of its own that sends back.
pub fn channel_rounds<R: Threads + Wait + Sync>(
    rt: &R,
    alloc: Global,
    order: Order,
) -> Result<u64, NoMemory>
    requires { IsGood order }
{
    let Order {
        way: _,
        callers,
        rounds,
        bytes,
    } = order;
    let mut ends = Vec::new(alloc);
    for _caller in 0..callers {
        let (out, its_out) = bounded(alloc, 1)?;
        let (its_back, back) = bounded(alloc, 1)?;
        ends.push(End::Worker {
            out: its_out,
            back: its_back,
        })?;
        ends.push(End::Caller { out, back })?;
    }
    let made = map_vec(
        rt,
        ends,
        &|end: End| -> Result<u64, NoMemory>
            requires { bytes ≤ 1024 }
        { end.sit(rt, alloc, rounds, bytes) },
    )?;
    all_made(made)
}

fn all_made(made: Vec<Result<u64, NoMemory>>) -> Result<u64, NoMemory> {
    let mut all: u64 = 0;
    for rounds in made {
        all = all.saturating_add(rounds?);
    }
    Ok(all)
}
