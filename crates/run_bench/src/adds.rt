//! Adds to a word that threads share.
use eleos_base::NoMemory;
use std::alloc::Global;
use std::sync::atomic::{AtomicU64, Ordering};
use std::thread::{Threads, map_indices};

// In each round adds to a word of the thread's own so many times, and then once to the word for
// all.
fn add_to(word: &AtomicU64, own_adds: u32, rounds: u64) {
    let own = AtomicU64::new(0);
    for _ in 0..rounds {
        for _ in 0..own_adds {
            own.fetch_add(1, Ordering::SeqCst);
        }
        word.fetch_add(1, Ordering::SeqCst);
    }
}

/// Adds 1 to one word for all threads in each round of each, after so many adds to a word of the
/// thread's own. Answers the word for all at the end.
pub fn add_rounds<R: Threads + Sync>(
    rt: &R,
    alloc: Global,
    own_adds: u32,
    threads: usize,
    rounds: u64,
) -> Result<u64, NoMemory> {
    let word = AtomicU64::new(0);
    map_indices(rt, alloc, threads, &|_| add_to(&word, own_adds, rounds))?;
    Ok(word.load(Ordering::SeqCst))
}
