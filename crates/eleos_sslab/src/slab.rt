// Objects by id, in slots of blocks.
ghost use Rattle.std.specs.Prelude.{◌≡◌, ◌↔◌, ◌≤◌, ◌<◌, ◌≢◌, ◌^◌, ℕ, length, replicate, take};
ghost use Rattle.std.specs.Prelude.{slice_set, None, Some};
ghost use Rattle.std.specs.Prelude.{IsTrue, IfOk, IfErr, IfSome, IfNone, OnOk, OnErr, Err};
ghost use Rattle.eleos_base.specs.declared.memory.Op.TheVariants as ops;
ghost use Rattle.eleos_base.specs.Answers.{write_reply};
ghost use Rattle.eleos_sslab.specs.declared.size.TheConstants.{MOST_OBJECT_BYTES};
ghost use Rattle.eleos_base.specs.Own.{AreTrue, IsOwnStart, Private};
ghost use Rattle.eleos_base.specs.SubMemory.{HasCalled, HasMade, owned};
ghost use Rattle.eleos_base.specs.SubMemory.{IsReadFault, IsWriteFault};

use crate::{SlabBlock, SlotSize};
use eleos_base::{AccessRefused, Addr, AllocRefused, NoMemory, SUB_BYTES, SubMemory};
use std::alloc::Global;
use std::marker::Model;

/// An object's place in a slab: the place of its block, and its slot there.
#[derive(Clone, Copy, Debug, PartialEq, Eq)]
pub struct ObjId {
    pub block: usize,
    pub slot: usize,
}

/// Why an object is not stored.
#[derive(Clone, Copy, Debug, PartialEq, Eq)]
pub enum SlabRefused {
    /// The length is not in 1 to 512 bytes.
    BadSize,
    /// No slot of the size is free, and the slab has as many blocks as it may.
    Full,
    /// The memory has no room for a block.
    NoSpace,
    /// The memory refused the write.
    Access(AccessRefused),
}

/// Small objects in blocks of a memory. Lengths are kept here, and never in the memory.
#[derive(Debug, Drop)]
pub struct SSlab {
    blocks: Vec<SlabBlock>,
}

impl Model for SSlab {
    ghost use Rattle.std.specs.Prelude as prelude;
    ghost use Rattle.eleos_sslab.specs.declared.block.SlabBlock as block;

    ghost Value = { prelude.List block.SlabBlock };

    ghost view = { λ slab. slab.blocks.items };
}

impl SSlab {
    ghost use Rattle.eleos_sslab.specs.declared.slab.SlabRefused.TheVariants as refusals;
    ghost use Rattle.eleos_sslab.specs.Sizes.{size_for};
    ghost use Rattle.eleos_sslab.specs.Blocks.{HasObject, empty_block};
    ghost use Rattle.eleos_sslab.specs.Slabs.{HasNoFree, IsFirstFree, IsFull, IsFullFor, IsHeld};
    ghost use Rattle.eleos_sslab.specs.Slabs.{IsInSlot, IsSlab, KeepsOthers, address_of, block_at};
    ghost use Rattle.eleos_sslab.specs.Slabs.{len_of};
    ghost use Rattle.eleos_sslab.specs.Slabs.{NeedsSlot, object, with_object};
    ghost use Rattle.eleos_sslab.specs.Calls.{Costs, FreesEmpty, HasReplaced, HasStored};
    ghost use Rattle.eleos_sslab.specs.Calls.{KeepsObjects};
    ghost use Rattle.eleos_sslab.specs.Calls.{Moves, NewCalls, WritesHere};
    ghost use Rattle.eleos_sslab.specs.Calls.{PutCalls, get_reply};

    /// No object, and room for so many blocks.
    pub fn make(alloc: Global, most: u32) -> Result<Self, NoMemory>
        ensures empty { IfOk result (λ slab. slab ≡ replicate most empty_block) }

        // It is a slab in any memory.
        ensures slab { IfOk result (λ slab. (p : Private) → IsSlab p slab) }
    {
        let mut blocks = Vec::with_capacity(alloc, most as usize)?;
        for _place in 0..most {
            blocks.push(SlabBlock::empty())?;
        }
        Ok(SSlab { blocks })
    }

    /// Whether the id has an object.
    pub fn holds(&self, id: ObjId) -> bool
        ensures { IsTrue result ↔ IsHeld self.now id }
    {
        self.len_of(id) != 0
    }

    /// The length of an object, 0 where the id has none.
    pub fn len_of(&self, id: ObjId) -> u16
        ensures { result ≡ len_of self.now id }
    {
        if id.block < self.blocks.len() {
            self.blocks[id.block].len_at(id.slot)
        } else {
            0
        }
    }

    /// Where an object lies.
    fn address_of(&self, id: ObjId) -> Addr
        requires within { id.block < length self.now }
        requires slot { id.slot < 32 }
        requires fits { (address_of self.now id).at < 2 ^ 32 }
        ensures { result ≡ address_of self.now id }
    {
        self.blocks[id.block].slot_address(id.slot)
    }

    /// Changes the length of an object, to 0 where it is given up.
    fn set_len(&mut self, id: ObjId, len: u16)
        requires within { id.block < length self.old }
        requires slot { id.slot < 32 }
        ensures { self.new ≡ with_object self.old id len }
    {
        self.blocks[id.block].lens[id.slot] = len;
    }

    /// The lowest free slot of the first block with a free slot of this size.
    fn free_place(&self, size: SlotSize) -> Option<ObjId>
        ensures found { IfSome result (IsFirstFree self.now size) }
        ensures none { IfNone result (HasNoFree self.now size) }
    {
        for i in 0..self.blocks.len() {
            if let Some(slot) = self.blocks[i].offer(size) {
                return Some(ObjId { block: i, slot });
            }
        }
        None
    }

    /// The first place of a block with no object.
    fn empty_place(&self) -> Option<usize>
        ensures within { IfSome result (λ i. i < length self.now) }
        ensures empty { IfSome result (λ i. HasObject (block_at self.now i) → ⊥) }
        ensures none { IfNone result ((i : ℕ) → i < length self.now
            → HasObject (block_at self.now i)) }
    {
        for i in 0..self.blocks.len() {
            if !self.blocks[i].has_object() {
                return Some(i);
            }
        }
        None
    }

    /// Makes a block with one object, in place of one with none.
    fn set_first(&mut self, place: usize, block: SlabBlock)
        requires { place < length self.old }
        ensures { self.new ≡ slice_set self.old place block }
    {
        self.blocks[place] = block;
    }

    /// Writes an object into a slot of a block that has one, and keeps its length.
    fn write_at<M: SubMemory>(
        &mut self,
        mem: &mut M,
        id: ObjId,
        bytes: &[u8],
    ) -> Result<(), AccessRefused>
        requires slab { IsSlab (owned (M.state mem.old)) self.old }
        requires used { HasObject (block_at self.old id.block) }
        requires slot { IsInSlot (block_at self.old id.block).size id.slot (length bytes.now) }
        requires some { 1 ≤ length bytes.now }
        requires most { length bytes.now ≤ MOST_OBJECT_BYTES }
        requires left { 1 ≤ (M.state mem.old).left }
        ensures one { HasCalled (M.state mem.old)
            (ops.Write (address_of self.old id) bytes.now) (write_reply result)
            (M.state mem.new) }
        ensures ok { OnOk result (HasStored (M.state mem.old) self.old bytes.now id
            (M.state mem.new) self.new) }
        ensures place { OnOk result (address_of self.new id ≡ address_of self.old id) }
        ensures err { OnErr result (self.new ≡ self.old) }
        ensures kept { OnErr result (owned (M.state mem.new) ≡ owned (M.state mem.old)) }
        ensures fault { IfErr result IsWriteFault }
        ensures slab { IsSlab (owned (M.state mem.new)) self.new }
    {
        match mem.write(self.address_of(id), bytes) {
            Ok(()) => {
                self.set_len(id, bytes.len() as u16);
                Ok(())
            }
            Err(why) => Err(why),
        }
    }

    /// Writes an object into the first slot of a new block. Where the write is refused the block is
    /// freed again.
    fn write_new<M: SubMemory>(
        &mut self,
        mem: &mut M,
        place: usize,
        size: SlotSize,
        bytes: &[u8],
    ) -> Result<ObjId, SlabRefused>
        requires slab { IsSlab (owned (M.state mem.old)) self.old }
        requires within { place < length self.old }
        requires empty { HasObject (block_at self.old place) → ⊥ }
        requires slot { IsInSlot size 0 (length bytes.now) }
        requires some { 1 ≤ length bytes.now }
        requires most { length bytes.now ≤ MOST_OBJECT_BYTES }
        requires left { 3 ≤ (M.state mem.old).left }
        ensures calls { NewCalls (M.state mem.old) bytes.now result (M.state mem.new) self.new }
        ensures ok { IfOk result (λ id. HasStored (M.state mem.old) self.old bytes.now id
            (M.state mem.new) self.new) }
        ensures new { IfOk result (λ id. len_of self.old id ≡ 0) }
        ensures err { OnErr result (self.new ≡ self.old) }
        ensures kept { OnErr result (KeepsObjects (owned (M.state mem.old)) self.old
            (owned (M.state mem.new))) }
        ensures slab { IsSlab (owned (M.state mem.new)) self.new }
    {
        match mem.alloc(SUB_BYTES) {
            Err(_) => Err(SlabRefused::NoSpace),
            Ok(at) => match mem.write(at, bytes) {
                Ok(()) => {
                    self.set_first(place, SlabBlock::of_first(at, size, bytes.len() as u16));
                    Ok(ObjId {
                        block: place,
                        slot: 0,
                    })
                }
                Err(why) => {
                    let _ = mem.free(at);
                    Err(SlabRefused::Access(why))
                }
            },
        }
    }

    /// Stores a new object in a slot of this size.
    fn put_sized<M: SubMemory>(
        &mut self,
        mem: &mut M,
        size: SlotSize,
        bytes: &[u8],
    ) -> Result<ObjId, SlabRefused>
        requires slab { IsSlab (owned (M.state mem.old)) self.old }
        requires size { size_for (length bytes.now) ≡ Some size }
        requires left { 3 ≤ (M.state mem.old).left }
        ensures calls { PutCalls (M.state mem.old) self.old bytes.now result
            (M.state mem.new) self.new }
        ensures ok { IfOk result (λ id. HasStored (M.state mem.old) self.old bytes.now id
            (M.state mem.new) self.new) }
        ensures new { IfOk result (λ id. len_of self.old id ≡ 0) }
        ensures sized { result ≢ Err refusals.BadSize }
        ensures full { result ≡ Err refusals.Full ↔ IsFull self.old size }
        ensures err { OnErr result (self.new ≡ self.old) }
        ensures kept { OnErr result (KeepsObjects (owned (M.state mem.old)) self.old
            (owned (M.state mem.new))) }
        ensures slab { IsSlab (owned (M.state mem.new)) self.new }
    {
        match self.free_place(size) {
            Some(id) => match self.write_at(mem, id, bytes) {
                Ok(()) => Ok(id),
                Err(why) => Err(SlabRefused::Access(why)),
            },
            None => match self.empty_place() {
                Some(place) => self.write_new(mem, place, size, bytes),
                None => Err(SlabRefused::Full),
            },
        }
    }

    /// Stores a new object, in the first free slot of its size or in a new block.
    pub fn put<M: SubMemory>(&mut self, mem: &mut M, bytes: &[u8]) -> Result<ObjId, SlabRefused>
        requires slab { IsSlab (owned (M.state mem.old)) self.old }
        requires left { 3 ≤ (M.state mem.old).left }
        ensures calls { PutCalls (M.state mem.old) self.old bytes.now result
            (M.state mem.new) self.new }
        ensures costs { Costs (M.state mem.old) 3 (M.state mem.new) }
        ensures ok { IfOk result (λ id. HasStored (M.state mem.old) self.old bytes.now id
            (M.state mem.new) self.new) }
        ensures new { IfOk result (λ id. len_of self.old id ≡ 0) }
        ensures bad_size { result ≡ Err refusals.BadSize ↔ (size_for (length bytes.now) ≡ None) }
        ensures full { result ≡ Err refusals.Full
            ↔ IsFullFor self.old (size_for (length bytes.now)) }
        ensures err { OnErr result (self.new ≡ self.old) }
        ensures kept { OnErr result (KeepsObjects (owned (M.state mem.old)) self.old
            (owned (M.state mem.new))) }
        ensures slab { IsSlab (owned (M.state mem.new)) self.new }
    {
        match SlotSize::of(bytes.len()) {
            None => Err(SlabRefused::BadSize),
            Some(size) => self.put_sized(mem, size, bytes),
        }
    }

    /// Reads an object, by one read, and answers its length.
    pub fn get<M: SubMemory>(
        &self,
        mem: &mut M,
        id: ObjId,
        buf: &mut [u8],
    ) -> Result<usize, AccessRefused>
        requires slab { IsSlab (owned (M.state mem.old)) self.now }
        requires held { IsHeld self.now id }
        requires buffer { length buf.old ≡ MOST_OBJECT_BYTES }
        requires left { 1 ≤ (M.state mem.old).left }
        ensures one { HasCalled (M.state mem.old)
            (ops.Read (address_of self.now id) (len_of self.now id))
            (get_reply result buf.new) (M.state mem.new) }
        ensures ok { IfOk result (λ n. n ≡ len_of self.now id) }
        ensures value { IfOk result (λ n. AreTrue 1024 (M.state mem.new).calls
            → take n buf.new ≡ object (owned (M.state mem.old)) self.now id) }
        ensures err { OnErr result (buf.new ≡ buf.old) }
        ensures fault { IfErr result IsReadFault }
        ensures same { owned (M.state mem.new) ≡ owned (M.state mem.old) }
        ensures slab { IsSlab (owned (M.state mem.new)) self.now }
    {
        let len = usize::from(self.len_of(id));
        match mem.read(self.address_of(id), &mut buf[..len]) {
            Ok(()) => Ok(len),
            Err(why) => Err(why),
        }
    }

    /// Frees a block that has no object.
    fn free_empty<M: SubMemory>(&self, mem: &mut M, place: usize)
        requires within { place < length self.now }
        requires start { IsOwnStart (owned (M.state mem.old)) (block_at self.now place).at }
        requires left { 1 ≤ (M.state mem.old).left }
        ensures { FreesEmpty (M.state mem.old) self.now place (M.state mem.new) }
    {
        if self.blocks[place].has_object() {
            return;
        }
        let _ = mem.free(self.blocks[place].at);
    }

    /// Gives up an object. A block without objects is freed.
    pub fn take<M: SubMemory>(&mut self, mem: &mut M, id: ObjId)
        requires slab { IsSlab (owned (M.state mem.old)) self.old }
        requires held { IsHeld self.old id }
        requires left { 1 ≤ (M.state mem.old).left }
        ensures calls { FreesEmpty (M.state mem.old) self.new id.block (M.state mem.new) }
        ensures costs { Costs (M.state mem.old) 1 (M.state mem.new) }
        ensures gone { len_of self.new id ≡ 0 }
        ensures others { KeepsOthers (owned (M.state mem.old)) self.old id
            (owned (M.state mem.new)) self.new }
        ensures slab { IsSlab (owned (M.state mem.new)) self.new }
    {
        self.set_len(id, 0);
        self.free_empty(mem, id.block);
    }

    /// The slot size of a block.
    fn size_of(&self, place: usize) -> SlotSize
        requires { place < length self.now }
        ensures { result ≡ (block_at self.now place).size }
    {
        self.blocks[place].size
    }

    /// Writes an object anew in its slot.
    fn replace_here<M: SubMemory>(
        &mut self,
        mem: &mut M,
        id: ObjId,
        bytes: &[u8],
    ) -> Result<ObjId, SlabRefused>
        requires slab { IsSlab (owned (M.state mem.old)) self.old }
        requires held { IsHeld self.old id }
        requires size { size_for (length bytes.now) ≡ Some (block_at self.old id.block).size }
        requires left { 1 ≤ (M.state mem.old).left }
        ensures calls { WritesHere (M.state mem.old) self.old bytes.now id result
            (M.state mem.new) self.new }
        ensures ok { IfOk result (λ new. HasReplaced (M.state mem.old) self.old bytes.now id new
            (M.state mem.new) self.new) }
        ensures err { OnErr result (self.new ≡ self.old) }
        ensures kept { OnErr result (KeepsObjects (owned (M.state mem.old)) self.old
            (owned (M.state mem.new))) }
        ensures slab { IsSlab (owned (M.state mem.new)) self.new }
    {
        match self.write_at(mem, id, bytes) {
            Ok(()) => Ok(id),
            Err(why) => Err(SlabRefused::Access(why)),
        }
    }

    /// Stores an object in a slot of another size, and then gives up the old one.
    fn move_to<M: SubMemory>(
        &mut self,
        mem: &mut M,
        size: SlotSize,
        id: ObjId,
        bytes: &[u8],
    ) -> Result<ObjId, SlabRefused>
        requires slab { IsSlab (owned (M.state mem.old)) self.old }
        requires held { IsHeld self.old id }
        requires size { size_for (length bytes.now) ≡ Some size }
        requires left { 3 ≤ (M.state mem.old).left }
        ensures calls { Moves (M.state mem.old) self.old bytes.now id result
            (M.state mem.new) self.new }
        ensures ok { IfOk result (λ new. HasReplaced (M.state mem.old) self.old bytes.now id new
            (M.state mem.new) self.new) }
        ensures sized { result ≢ Err refusals.BadSize }
        ensures full { result ≡ Err refusals.Full ↔ IsFull self.old size }
        ensures err { OnErr result (self.new ≡ self.old) }
        ensures kept { OnErr result (KeepsObjects (owned (M.state mem.old)) self.old
            (owned (M.state mem.new))) }
        ensures slab { IsSlab (owned (M.state mem.new)) self.new }
    {
        match self.put_sized(mem, size, bytes) {
            Ok(new) => {
                self.take(mem, id);
                Ok(new)
            }
            Err(why) => Err(why),
        }
    }

    /// Gives an object other bytes: in its slot where the slot size stays, and the id then too,
    /// else in a slot of another size.
    pub fn replace<M: SubMemory>(
        &mut self,
        mem: &mut M,
        id: ObjId,
        bytes: &[u8],
    ) -> Result<ObjId, SlabRefused>
        requires slab { IsSlab (owned (M.state mem.old)) self.old }
        requires held { IsHeld self.old id }
        requires left { 3 ≤ (M.state mem.old).left }
        ensures here { size_for (length bytes.now) ≡ Some (block_at self.old id.block).size
            → WritesHere (M.state mem.old) self.old bytes.now id result (M.state mem.new)
            self.new }
        ensures moves { size_for (length bytes.now) ≢ Some (block_at self.old id.block).size
            → Moves (M.state mem.old) self.old bytes.now id result (M.state mem.new) self.new }
        ensures costs { Costs (M.state mem.old) 3 (M.state mem.new) }
        ensures ok { IfOk result (λ new. HasReplaced (M.state mem.old) self.old bytes.now id new
            (M.state mem.new) self.new) }
        ensures bad_size { result ≡ Err refusals.BadSize ↔ (size_for (length bytes.now) ≡ None) }
        ensures full { result ≡ Err refusals.Full ↔ NeedsSlot self.old id
            (size_for (length bytes.now)) }
        ensures err { OnErr result (self.new ≡ self.old) }
        ensures kept { OnErr result (KeepsObjects (owned (M.state mem.old)) self.old
            (owned (M.state mem.new))) }
        ensures slab { IsSlab (owned (M.state mem.new)) self.new }
    {
        match SlotSize::of(bytes.len()) {
            None => Err(SlabRefused::BadSize),
            Some(size) => {
                if size == self.size_of(id.block) {
                    self.replace_here(mem, id, bytes)
                } else {
                    self.move_to(mem, size, id, bytes)
                }
            }
        }
    }
}
