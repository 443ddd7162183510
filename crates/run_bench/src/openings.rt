//! Openings by GCM alone.
use eleos_base::{NoMemory, Sealer};
use eleos_gcm::Gcm;
use std::alloc::Global;
use std::thread::{Threads, map_indices};

/// The key of all sealing in this crate.
pub const KEY: [u8; 16] = [7; 16];

const NONCE: [u8; 12] = [1; 12];

// A text as long as a sub-page, sealed with no associated data, as the machine seals.
#[derive(Drop)]
struct Sealed {
    sealer: Gcm,
    block: [u8; 1024],
    tag: [u8; 16],
}

impl Sealed {
    fn make() -> Option<Sealed> {
        let sealer = Gcm::new(&KEY).ok()?;
        let mut block = [0; 1024];
        let tag = sealer.seal(&NONCE, &[], &mut block);
        Some(Sealed { sealer, block, tag })
    }

    // Opens a copy of the block, and answers whether it passed.
    fn opens(&self) -> bool {
        let mut text = self.block;
        self.sealer.unseal(&NONCE, &[], &mut text, &self.tag)
    }

    // The rounds in which the block was opened.
    fn open_rounds(&self, rounds: u64) -> u64 {
        for round in 0..rounds {
            if !self.opens() {
                return round;
            }
        }
        rounds
    }
}

/// Opens a sealed text of 1,024 bytes in each round of each thread, and answers the rounds of all.
pub fn open_rounds<R: Threads + Sync>(
    rt: &R,
    alloc: Global,
    threads: usize,
    rounds: u64,
) -> Result<u64, NoMemory> {
    let Some(sealed) = Sealed::make() else {
        return Ok(0);
    };
    let opened = map_indices(rt, alloc, threads, &|_| sealed.open_rounds(rounds))?;
    Ok(
        opened
            .iter()
            .fold(0, |sum: u64, made| sum.saturating_add(*made)),
    )
}
