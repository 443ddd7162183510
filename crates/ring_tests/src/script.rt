// A side that shows the words of a list, and who is told of a job without anything happening.
ghost use Rattle.std.specs.Prelude.{◌≡◌};
ghost use Rattle.eleos_ring.specs.Rings.{IsOut, freed};

use eleos_ring::{Aide, Bell, Polled, Ring, Ticket};
use eleos_words::{PortNotes, RingPort};
use std::alloc::{AllocError, Global};
use std::sync::Wait;

/// A side that shows the words of a list, one after another, whatever place is asked; then the
/// last of them again and again. What is stored is lost.
#[derive(Drop)]
pub(crate) struct Script {
    words: Vec<u64>,
    next: usize,
    last: u64,
    notes: PortNotes,
}

impl Script {
    pub(crate) fn of(alloc: Global, words: &[u64]) -> Result<Script, AllocError> {
        Ok(Script {
            words: words.to_vec(alloc)?,
            next: 0,
            last: 0,
            notes: PortNotes::new(),
        })
    }
}

impl RingPort for Script {
    ghost showed = { λ i word. Unit {0} };

    ghost wrote = { λ i word. Unit {0} };

    ghost loaded = { λ s. s.notes.loaded };

    ghost stored = { λ s. s.notes.stored };

    ghost calls = { λ s. s.notes.calls };

    fn glance(&mut self) {
        self.notes.glance();
    }

    fn load(&mut self, i: u32) -> u64 {
        let word = self.words.get(self.next).copied().unwrap_or(self.last);
        self.last = word;
        self.next = self.next.saturating_add(1);
        self.notes.load(i, word);
        word
    }

    fn store(&mut self, i: u32, word: u64) {
        self.notes.store(i, word);
    }
}

/// A bell that keeps the number of the cell.
#[derive(Drop)]
pub(crate) struct LastRung {
    pub(crate) cell: Option<u32>,
}

impl Bell for LastRung {
    ghost rung = { λ old new cell. Unit {0} };

    fn ring(&mut self, cell: u32) {
        self.cell = Some(cell);
    }
}

/// An aide that counts its turns.
#[derive(Drop)]
pub(crate) struct Counted {
    pub(crate) turns: u32,
}

impl Aide for Counted {
    fn turn(&mut self) {
        self.turns = self.turns.saturating_add(1);
    }
}

/// Polls until the ticket has ended. Where each word that is shown is 2 the first poll ends it.
pub(crate) fn end<R: Wait>(rt: &R, ring: &mut Ring, port: &mut Script, ticket: Ticket)
    requires { IsOut ring.old ticket }
    ensures { ring.new ≡ freed ring.old ticket }
{
    let mut ticket = ticket;
    for _ in rt.forever() {
        match ring.poll(port, ticket, &mut []) {
            Polled::Pending {
                ticket: again,
                state: _,
            } => ticket = again,
            Polled::Refused { why: _, seen: _ } => return,
            Polled::Reply { len: _, status: _ } => return,
        }
    }
    unreachable!()
}
