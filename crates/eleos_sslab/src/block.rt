// A block of a slab.
ghost use Rattle.std.specs.Prelude.{◌≡◌, ◌↔◌, ◌≤◌, ◌<◌, ◌^◌, ◌+◌, ◌*◌};
ghost use Rattle.std.specs.Prelude.{ℕ, IsTrue, IfSome, IfNone};

use crate::SlotSize;
use eleos_base::Addr;

/// The most slots of a block.
pub const MOST_SLOTS: usize = 32;

/// A sub-page in slots of one size: where it starts, and the length of the object in each slot. A
/// free slot has the length 0. With no object it is no block of the memory.
#[derive(Clone, Copy, Debug)]
pub struct SlabBlock {
    pub at: Addr,
    pub size: SlotSize,
    pub lens: [u16; 32],
}

impl SlabBlock {
    ghost use Rattle.eleos_sslab.specs.Sizes.{slot_bytes};
    ghost use Rattle.eleos_sslab.specs.Blocks.{HasObject, IsLowestFree, IsOffer};
    ghost use Rattle.eleos_sslab.specs.Blocks.{empty_block, first_block, len_at, slot_address};

    /// No object.
    pub fn empty() -> Self
        ensures { result ≡ empty_block }
    {
        SlabBlock {
            at: Addr { enclave: 0, at: 0 },
            size: SlotSize::Bytes32,
            lens: [0; 32],
        }
    }

    /// One object of this length, in the first slot.
    pub fn of_first(at: Addr, size: SlotSize, len: u16) -> Self
        ensures { result ≡ first_block at size len }
    {
        let mut lens = [0; 32];
        lens[0] = len;
        SlabBlock { at, size, lens }
    }

    /// The length of the object in a slot, 0 where there is none.
    pub fn len_at(&self, slot: usize) -> u16
        ensures { result ≡ len_at self.now slot }
    {
        if slot < MOST_SLOTS {
            self.lens[slot]
        } else {
            0
        }
    }

    /// Whether an object is there.
    pub fn has_object(&self) -> bool
        ensures { IsTrue result ↔ HasObject self.now }
    {
        for slot in 0..MOST_SLOTS {
            if self.lens[slot] != 0 {
                return true;
            }
        }
        false
    }

    /// The lowest free slot.
    pub fn free_slot(&self) -> Option<usize>
        ensures found { IfSome result (IsLowestFree self.now) }
        ensures none { IfNone result ((s : ℕ) → IsLowestFree self.now s → ⊥) }
    {
        for slot in 0..self.size.slots() {
            if self.lens[slot] == 0 {
                return Some(slot);
            }
        }
        None
    }

    /// The lowest free slot, where a block with an object has slots of this size.
    pub fn offer(&self, size: SlotSize) -> Option<usize>
        ensures found { IfSome result (IsOffer self.now size) }
        ensures none { IfNone result ((s : ℕ) → IsOffer self.now size s → ⊥) }
    {
        if self.size == size && self.has_object() {
            self.free_slot()
        } else {
            None
        }
    }

    /// Where a slot starts.
    pub fn slot_address(&self, slot: usize) -> Addr
        requires slot { slot < 32 }
        requires fits { self.now.at.at + slot_bytes self.now.size * slot < 2 ^ 32 }
        ensures { result ≡ slot_address self.now slot }
    {
        Addr {
            enclave: self.at.enclave,
            at: self.at.at + self.size.bytes() * slot as u32,
        }
    }
}
