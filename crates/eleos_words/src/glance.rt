// One look at one cell.
ghost use Rattle.std.specs.Prelude.{◌≡◌, ◌+◌, ◌-◌, ◌<◌};
ghost use Rattle.eleos_words.specs.declared.layout.TheConstants.{CELLS};
ghost use Rattle.eleos_words.specs.Told.{more_calls};

use crate::RingPort;
use crate::layout::{BYTES, CALL, CELL_WORDS, CELLS, ID, LENGTH, STATE, STATUS};

/// One look at one cell of a ring.
/// Each word of the cell is copied at most once and remembered: what was judged once cannot change.
#[derive(Drop)]
pub struct Glance<'a, P> {
    port: &'a mut P,
    cell: u32,
    copies: [Option<u64>; CELL_WORDS as usize],
    ghost in_ring: { cell < CELLS },
}

impl<'a, P: RingPort> Glance<'a, P> {
    ghost use Rattle.eleos_words.specs.Glances.{Copies, IsNewAt};

    /// A look at the cell, of which nothing is copied yet.
    pub fn of(port: &'a mut P, cell: u32) -> Glance<'a, P>
        requires { cell < CELLS }
        ensures port { result.port.ghost_name ≡ port.entry.ghost_name }
        ensures new { IsNewAt P.RingPort.own result cell }
        ensures calls { P.calls result.port.now ≡ more_calls (P.calls port.old) 1 }
    {
        port.glance();
        Glance {
            port,
            cell,
            copies: [None; CELL_WORDS as usize],
        }
    }

    /// The cell's state.
    pub fn state(&mut self) -> u64
        ensures port { self.new.port.ghost_name ≡ self.old.port.ghost_name }
        ensures copies { Copies P.RingPort.own self.old self.new STATE result }
    {
        self.copy(STATE)
    }

    /// The number of the job.
    pub fn id(&mut self) -> u64
        ensures port { self.new.port.ghost_name ≡ self.old.port.ghost_name }
        ensures copies { Copies P.RingPort.own self.old self.new ID result }
    {
        self.copy(ID)
    }

    /// The number of the call.
    pub fn call(&mut self) -> u64
        ensures port { self.new.port.ghost_name ≡ self.old.port.ghost_name }
        ensures copies { Copies P.RingPort.own self.old self.new CALL result }
    {
        self.copy(CALL)
    }

    /// The length in bytes.
    pub fn len(&mut self) -> u64
        ensures port { self.new.port.ghost_name ≡ self.old.port.ghost_name }
        ensures copies { Copies P.RingPort.own self.old self.new LENGTH result }
    {
        self.copy(LENGTH)
    }

    /// The reply's status.
    pub fn status(&mut self) -> u64
        ensures port { self.new.port.ghost_name ≡ self.old.port.ghost_name }
        ensures copies { Copies P.RingPort.own self.old self.new STATUS result }
    {
        self.copy(STATUS)
    }

    /// Eight of the bytes.
    pub fn word(&mut self, j: u32) -> u64
        requires { j < CELL_WORDS - BYTES }
        ensures port { self.new.port.ghost_name ≡ self.old.port.ghost_name }
        ensures copies { Copies P.RingPort.own self.old self.new (BYTES + j) result }
    {
        self.copy(BYTES + j)
    }

    // The word of the cell, copied where it was not before.
    fn copy(&mut self, j: u32) -> u64
        requires { j < CELL_WORDS }
        ensures port { self.new.port.ghost_name ≡ self.old.port.ghost_name }
        ensures copies { Copies P.RingPort.own self.old self.new j result }
    {
        if let Some(word) = self.copies[j as usize] {
            return word;
        }
        let word = self.port.load(self.cell * CELL_WORDS + j);
        self.copies[j as usize] = Some(word);
        word
    }
}
