// Passes: what one thread has of a machine.
ghost use Rattle.std.specs.Prelude.{vec_capacity, ◌≡◌, ◌+◌, ◌<◌, ◌≤◌, [], IfOk, IsSome, Some, None};
ghost use Rattle.std.specs.Prelude.{slice_set};
ghost use Rattle.eleos_plot.specs.Entries.{blank_stamp};
ghost use Rattle.eleos_plot.specs.Terms.{core_terms};
ghost use Rattle.eleos_turn.specs.Hands.{entries};
ghost use Rattle.eleos_machine.specs.Notes.{no_sweep};
ghost use Rattle.eleos_machine.specs.Passes.{IsLawful, last_stamp, pointer_of};
ghost use Rattle.eleos_machine.specs.Pointers.{Puts, pointers_in};

use crate::notes::Notes;
use crate::pointers::{MOST_POINTERS, Pointer, Pointers, SpId};
use eleos_base::{Looked, NoMemory};
use eleos_plot::{CorePlot, Draft};
use eleos_turn::{Hand, Refused, RestHand};
use std::alloc::Global;
use std::marker::Model;

/// What one thread has of a machine: its hand there, and what is the thread's alone.
/// Callers have the numbers from 1 on, then come the swapper and the balloon.
#[derive(Drop)]
pub struct Pass {
    pub(crate) hand: Hand<CorePlot>,
    pub(crate) local: Local,
}

/// What a pass has beside its hand. All room for later calls is taken by `make`.
#[derive(Drop)]
pub(crate) struct Local {
    /// The entry that it is to stamp next.
    pub(crate) draft: Draft,
    /// What it noted in its last search among frames.
    pub(crate) notes: Notes,
    pub(crate) pointers: Pointers,
    /// The place in the history of the entry that it stamped last.
    pub(crate) last: u64,
    /// Room for the hands of all passes of its machine, which `close` takes in.
    pub(crate) room: Vec<Hand<CorePlot>>,
}

impl Local {
    /// That of a pass which has done nothing yet, in a machine of so many passes.
    pub(crate) fn make(alloc: Global, passes: u32) -> Result<Local, NoMemory>
        ensures draft { IfOk result (λ local. local.draft ≡ blank_stamp) }
        ensures notes { IfOk result (λ local. local.notes ≡ no_sweep) }
        ensures pointers { IfOk result (λ local. local.pointers ≡ []) }
        ensures last { IfOk result (λ local. local.last ≡ 0) }
        ensures empty { IfOk result (λ local. local.room.items ≡ []) }
        ensures room { IfOk result (λ local. vec_capacity local.room ≡ passes) }
    {
        Ok(Local {
            draft: Draft::make(alloc)?,
            notes: Notes::make(alloc)?,
            pointers: Pointers::make(alloc)?,
            last: 0,
            room: Vec::with_capacity(alloc, passes as usize)?,
        })
    }
}

impl Model for Pass {
    ghost use Rattle.eleos_machine.specs.Kept.{IsKept, pass_with};
    ghost use Rattle.eleos_machine.specs.Passes.{PassState};

    ghost Value = { PassState };

    ghost view = { λ p. pass_with p.hand p.local };

    ghost invariant = { λ p. IsKept p.hand p.local };
}

/// A pass that has no turn, in a form that can lie in a cell of another turnstile.
#[derive(Drop)]
pub struct RestPass {
    hand: RestHand<CorePlot>,
    local: Local,
}

impl Model for RestPass {
    ghost use Rattle.eleos_machine.specs.Kept.{IsKept, pass_with};
    ghost use Rattle.eleos_machine.specs.Passes.{PassState};

    ghost Value = { PassState };

    ghost view = { λ p. pass_with p.hand p.local };

    ghost invariant = { λ p. IsKept p.hand p.local };
}

impl Pass {
    /// Its number: 1 to n for the callers, n + 1 for the swapper, n + 2 for the balloon, and 0 for
    /// the pass that `close` gives.
    pub fn who(&self) -> u32
        ensures { result ≡ self.now.hand.number }
    {
        self.hand.number()
    }

    /// How many stamps are left.
    pub fn left(&self) -> u64
        ensures left { result ≡ self.now.hand.left }
        ensures lawful { IsLawful self.now }
    {
        self.hand.left()
    }

    /// The place in the history of the entry that it stamped last, 0 where it has stamped none.
    pub fn last_stamp(&self) -> u64
        ensures { result ≡ last_stamp (entries core_terms self.now.hand) }
    {
        self.local.last
    }

    /// The last try that found a cell busy.
    pub fn refused(&self) -> Refused
        ensures { result ≡ self.now.hand.refused }
    {
        self.hand.refused()
    }

    /// The words that it noted in its last search among frames, in order.
    pub fn sweep(&self) -> &[Looked]
        ensures { result.now ≡ self.now.sweep.words }
    {
        self.local.notes.words()
    }

    /// How many pointers it has.
    pub fn pointer_count(&self) -> usize
        ensures count { result ≡ pointers_in self.now.pointers }
        ensures few { result ≤ MOST_POINTERS }
    {
        self.local.pointers.count()
    }

    /// The pointer of this name.
    pub fn pointer(&self, id: SpId) -> Option<Pointer>
        ensures { result ≡ pointer_of self.now id }
    {
        self.local.pointers.get(id)
    }

    /// Adds a pointer under a name that no other has. Whether there is room tells `pointer_count`.
    pub fn add_pointer(&mut self, pointer: Pointer) -> SpId
        requires room { pointers_in self.old.pointers < MOST_POINTERS }
        ensures fresh { pointer_of self.old result ≡ None }
        ensures added { Puts self.old.pointers self.new.pointers result.key (Some pointer) }
        ensures count { pointers_in self.new.pointers ≡ pointers_in self.old.pointers + 1 }
        ensures rest { self.new ≡ record self.old { pointers = self.new.pointers } }
    {
        self.local.pointers.add(pointer)
    }

    /// Puts another pointer in the place of the one of this name.
    pub fn set_pointer(&mut self, id: SpId, pointer: Pointer)
        requires held { IsSome (pointer_of self.old id) }
        ensures { self.new ≡ record self.old {
          pointers = slice_set self.old.pointers id.key (Some pointer);
        } }
    {
        self.local.pointers.set(id, pointer);
    }

    /// Takes the pointer of this name out.
    pub fn remove_pointer(&mut self, id: SpId)
        requires held { IsSome (pointer_of self.old id) }
        ensures { self.new ≡ record self.old {
          pointers = slice_set self.old.pointers id.key None;
        } }
    {
        self.local.pointers.remove(id);
    }

    /// Puts the pass to rest.
    pub fn rest(self) -> RestPass
        requires { self.hand.turns ≡ [] }
        ensures same { result ≡ self }
        ensures idle { result.hand.turns ≡ [] }
        ensures lawful { IsLawful result }
    {
        let Pass { hand, local } = self;
        RestPass {
            hand: hand.rest(),
            local,
        }
    }
}

impl RestPass {
    /// The pass again, which has no turn.
    pub fn wake(self) -> Pass
        ensures same { result ≡ self }
        ensures idle { result.hand.turns ≡ [] }
        ensures lawful { IsLawful result }
    {
        let RestPass { hand, local } = self;
        Pass {
            hand: hand.wake(),
            local,
        }
    }
}
