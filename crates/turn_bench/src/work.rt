//! What is timed: an atomic add, and turns in one thread or in four.
ghost use Rattle.std.specs.Prelude.{◌≡◌, ◌<◌, ◌≤◌, ◌^◌, length, IfOk};
ghost use Rattle.turn_bench.specs.Workers.{IsReady};

use crate::tally::{Tallies, Tally};
use crate::worker::{Worker, Workers, deal_out, run};
use eleos_turn::Turnstile;
use std::alloc::{AllocError, Global};
use std::sync::Wait;
use std::sync::atomic::{AtomicU64, Ordering};
use std::thread::{Threads, join};

/// Adds 1 to an atomic word in each round, and answers the word at the end.
pub fn add_rounds(rounds: u64) -> u64 {
    let word = AtomicU64::new(0);
    for _ in 0..rounds {
        word.fetch_add(1, Ordering::SeqCst);
    }
    word.load(Ordering::SeqCst)
}

// Adds 1 to a word that other threads add to, between adds to a word of its own: a round of about
// the length of a turn's, with its stamp and without the turn.
fn add_to(word: &AtomicU64, rounds: u64) {
    let own = AtomicU64::new(0);
    for _ in 0..rounds {
        own.fetch_add(2, Ordering::SeqCst);
        own.fetch_add(1, Ordering::SeqCst);
        word.fetch_add(1, Ordering::SeqCst);
        own.fetch_sub(1, Ordering::SeqCst);
        own.fetch_sub(2, Ordering::SeqCst);
    }
}

// Two threads add to the word.
fn add_in_two<R: Threads>(rt: &R, word: &AtomicU64, rounds: u64) {
    join(rt, || add_to(word, rounds), || add_to(word, rounds));
}

/// Adds 1 to one atomic word in each round of four threads, between adds to a word of the thread's
/// own, and answers the word at the end.
pub fn add_shared<R: Threads + Sync>(rt: &R, rounds: u64) -> u64 {
    let word = AtomicU64::new(0);
    join(
        rt,
        || add_in_two(rt, &word, rounds),
        || add_in_two(rt, &word, rounds),
    );
    word.load(Ordering::SeqCst)
}

// Two workers, each in a thread. Answers the sum of their counts.
fn two_threads<R: Threads + Wait + Sync>(
    rt: &R,
    all: &Turnstile<Tallies>,
    one: Worker,
    two: Worker,
    rounds: u64,
) -> u64
    requires one { IsReady all.now one }
    requires two { IsReady all.now two }
{
    let (first, second) = join(
        rt,
        || -> u64
            requires { IsReady all.now one }
        { run(rt, all, one, rounds) },
        || -> u64
            requires { IsReady all.now two }
        { run(rt, all, two, rounds) },
    );
    first.saturating_add(second)
}

/// Where the cells of the workers are.
#[derive(Clone, Copy, Debug, PartialEq, Eq)]
pub enum Places {
    /// Beside each other, in lines of the processor's cache of their own.
    Beside,
    /// Sixteen numbers from each other, which should be as fast and no faster.
    Apart,
}

impl Places {
    // How many numbers they are from each other.
    fn distance(self) -> u32
        ensures some { 1 ≤ result }
        ensures most { result ≤ 16 }
    {
        match self {
            Places::Beside => 1,
            Places::Apart => 16,
        }
    }
}

// Cells with the count 0.
fn blank_cells(alloc: Global) -> Result<Vec<Tally>, AllocError>
    ensures { IfOk result (λ cells. length cells.items ≡ 64) }
{
    let mut cells = Vec::new(alloc);
    for _made in 0..64u32 {
        cells.push(Tally { count: 0 })?;
    }
    Ok(cells)
}

/// Turns in four threads where `all_four` is set, and else in one: `rounds` in each thread, at a
/// cell of its own. Answers the sum of the counts of their cells, or the want of memory.
pub fn turn_rounds<R: Threads + Wait + Sync>(
    rt: &R,
    alloc: Global,
    rounds: u64,
    all_four: bool,
    places: Places,
) -> Result<u64, AllocError>
    requires some { 0 < rounds }
    requires few { rounds ≤ 2 ^ 40 }
{
    let cells = blank_cells(alloc)?;
    let made = Turnstile::<Tallies>::make(alloc, cells, 4, rounds);
    let Ok((all, hands)) = made else {
        return Err(AllocError);
    };
    let Some(
        Workers {
            first,
            second,
            third,
            fourth,
        },
    ) = deal_out(&all, hands, places.distance())
    else {
        return Err(AllocError);
    };
    if !all_four {
        return Ok(run(rt, &all, first, rounds));
    }
    let shared = &all;
    let (front, back) = join(
        rt,
        || -> u64
            requires one { IsReady shared.now first }
            requires two { IsReady shared.now second }
        { two_threads(rt, shared, first, second, rounds) },
        || -> u64
            requires one { IsReady shared.now third }
            requires two { IsReady shared.now fourth }
        { two_threads(rt, shared, third, fourth, rounds) },
    );
    Ok(front.saturating_add(back))
}
