// Words in memory for many threads, of which nothing is told.
ghost use Rattle.std.specs.Prelude.{◌≡◌, ◌≤◌, IfOk};

use crate::{PortNotes, RingPort, RingSpace};
use eleos_base::NoMemory;
use std::alloc::Global;
use std::marker::Model;
use std::sync::atomic::{AtomicU64, Ordering};

/// Words that threads share, each read and written in one step, without a lock.
/// A place that it doesn't have reads as 0, and no call changes anything there.
#[derive(Drop)]
pub struct WordRing {
    words: Vec<AtomicU64>,
}

impl Model for WordRing {
    ghost use Rattle.std.specs.Prelude.{length};
    ghost use Rattle.eleos_words.specs.Rings.{Shared};

    ghost Value = { Shared };

    ghost view = { λ ring. record { words = length ring.words.items } };
}

impl WordRing {
    /// A ring of so many words, all 0.
    pub fn make(alloc: Global, words: u32) -> Result<WordRing, NoMemory>
        ensures { IfOk result (λ ring. ring.words ≡ words) }
    {
        let mut all = Vec::with_capacity(alloc, words as usize)?;
        for _done in 0..words {
            all.push(AtomicU64::new(0))?;
        }
        Ok(WordRing { words: all })
    }

    fn read(&self, i: u32) -> u64
        ensures { self.now.words ≤ i → result ≡ 0 }
    {
        match self.words.get(i as usize) {
            Some(word) => word.load(Ordering::SeqCst),
            None => 0,
        }
    }

    fn write(&self, i: u32, word: u64) {
        if let Some(place) = self.words.get(i as usize) {
            place.store(word, Ordering::SeqCst);
        }
    }
}

/// A thread's way to the words of a ring in memory.
#[derive(Drop)]
pub struct WordPort<'a> {
    ring: &'a WordRing,
    notes: PortNotes,
}

// Its ports borrow the ring, and take no memory.
impl<'a> RingSpace for &'a WordRing {
    type Port = WordPort<'a>;

    fn port(&self, _who: u32) -> WordPort<'a> {
        WordPort {
            ring: *self,
            notes: PortNotes::new(),
        }
    }
}

impl<'a> RingPort for WordPort<'a> {
    ghost showed = { λ i word. Unit {0} };

    ghost wrote = { λ i word. Unit {0} };

    ghost loaded = { λ port. port.notes.loaded };

    ghost stored = { λ port. port.notes.stored };

    ghost calls = { λ port. port.notes.calls };

    fn glance(&mut self) {
        self.notes.glance();
    }

    fn load(&mut self, i: u32) -> u64 {
        let word = self.ring.read(i);
        self.notes.load(i, word);
        word
    }

    fn store(&mut self, i: u32, word: u64) {
        self.ring.write(i, word);
        self.notes.store(i, word);
    }
}
