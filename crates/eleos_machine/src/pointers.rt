// The pointers of a pass.
ghost use Rattle.std.specs.Prelude.{◌≡◌, ◌≢◌, ◌+◌, ◌<◌, ◌≤◌, [], IsSome, IfOk, Some, None};
ghost use Rattle.std.specs.Prelude.{slice_set};
ghost use Rattle.eleos_machine.specs.Pointers.{Puts, pointer_in, pointers_in};

use eleos_base::{Addr, NoMemory};
use slab::Slab;
use std::alloc::Global;
use std::marker::Model;

/// Pointers that a pass may have.
pub const MOST_POINTERS: usize = 256;

/// The name of a pointer in its pass. A name is given again once its pointer is removed.
#[derive(Clone, Copy, Debug, PartialEq, Eq)]
pub struct SpId {
    pub(crate) key: usize,
}

/// A place in a range of whole sub-pages, and whether its page is linked, so that it stays.
#[derive(Clone, Copy, Debug, PartialEq, Eq)]
pub struct Pointer {
    /// Where the range begins.
    pub block: Addr,
    /// Sub-pages of the range.
    pub subs: u32,
    /// Bytes from the beginning of the range.
    pub at: u32,
    /// The pass has a link for it on the page where it stands.
    pub is_linked: bool,
}

/// The pointers of a pass. The room for all that there can be is taken by `make`.
#[derive(Drop)]
pub(crate) struct Pointers {
    slab: Slab<Pointer>,
}

impl Model for Pointers {
    ghost use Rattle.std.specs.Prelude.{◌≤◌, List, Option};
    ghost use Rattle.slab.specs.Slab.{slab_len};
    ghost use Rattle.eleos_machine.specs.declared.pointers.Pointer.{Pointer as Placed};
    ghost use Rattle.eleos_machine.specs.declared.pointers.TheConstants.{MOST_POINTERS};

    ghost Value = { List (Option Placed) };

    ghost view = { λ p. p.slab.slots };

    ghost invariant = { λ p. (MOST_POINTERS ≤ p.slab.capacity)
        × (slab_len p.slab ≤ MOST_POINTERS) };
}

impl Pointers {
    /// No pointers, with the room for those of a pass.
    pub(crate) fn make(alloc: Global) -> Result<Pointers, NoMemory>
        ensures { IfOk result (λ pointers. pointers ≡ []) }
    {
        Ok(Pointers {
            slab: Slab::with_capacity(alloc, MOST_POINTERS)?,
        })
    }

    /// How many there are.
    pub(crate) fn count(&self) -> usize
        ensures count { result ≡ pointers_in self.now }
        ensures few { result ≤ MOST_POINTERS }
    {
        self.slab.len()
    }

    /// The pointer of this name.
    pub(crate) fn get(&self, id: SpId) -> Option<Pointer>
        ensures { result ≡ pointer_in self.now id.key }
    {
        self.slab.get(id.key).copied()
    }

    /// Adds a pointer under a name that no other has.
    pub(crate) fn add(&mut self, pointer: Pointer) -> SpId
        requires room { pointers_in self.old < MOST_POINTERS }
        ensures fresh { pointer_in self.old result.key ≡ None }
        ensures added { Puts self.old self.new result.key (Some pointer) }
        ensures count { pointers_in self.new ≡ pointers_in self.old + 1 }
    {
        let key = self.slab.insert_reserved(pointer);
        SpId { key }
    }

    /// Puts another pointer in the place of this one.
    pub(crate) fn set(&mut self, id: SpId, pointer: Pointer)
        requires held { IsSome (pointer_in self.old id.key) }
        ensures { self.new ≡ slice_set self.old id.key (Some pointer) }
    {
        if let Some(place) = self.slab.get_mut(id.key) {
            *place = pointer;
        }
    }

    /// Takes a pointer out.
    pub(crate) fn remove(&mut self, id: SpId)
        requires held { IsSome (pointer_in self.old id.key) }
        ensures { self.new ≡ slice_set self.old id.key None }
    {
        let _ = self.slab.try_remove(id.key);
    }
}
