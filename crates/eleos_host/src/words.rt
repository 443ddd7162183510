// The words of a block that threads share.
ghost use Rattle.std.specs.Prelude.{◌≡◌, ◌<◌};
ghost use Rattle.eleos_host.specs.Blocks.{IsBlock};

use crate::{BLOCK_BITS, BLOCK_BYTES};
use std::array;
use std::sync::atomic::{AtomicU64, Ordering};

const WORD_BYTES: usize = 8;

// Each has eight bytes of the block, the first one lowest.
#[derive(Drop)]
pub(crate) struct Words([AtomicU64; BLOCK_BYTES / WORD_BYTES]);

impl Words {
    pub(crate) fn new() -> Self {
        Words(array::from_fn(|_| AtomicU64::new(0)))
    }

    pub(crate) fn load(&self, buf: &mut [u8])
        requires { IsBlock buf.old }
        ensures { IsBlock buf.new }
    {
        let (parts, _) = buf.as_chunks_mut::<WORD_BYTES>();
        for (part, word) in parts.iter_mut().zip(&self.0) {
            *part = word.load(Ordering::SeqCst).to_le_bytes();
        }
    }

    pub(crate) fn store(&self, bytes: &[u8])
        requires { IsBlock bytes.now }
    {
        let (parts, _) = bytes.as_chunks::<WORD_BYTES>();
        for (part, word) in parts.iter().zip(&self.0) {
            word.store(u64::from_le_bytes(*part), Ordering::SeqCst);
        }
    }

    pub(crate) fn flip(&self, bit: u32)
        requires { bit < BLOCK_BITS }
    {
        let word = &self.0[(bit / u64::BITS) as usize];
        word.fetch_xor(1 << (bit % u64::BITS), Ordering::SeqCst);
    }

    pub(crate) fn copy_from(&self, other: &Words) {
        for (to, from) in self.0.iter().zip(&other.0) {
            to.store(from.load(Ordering::SeqCst), Ordering::SeqCst);
        }
    }
}
