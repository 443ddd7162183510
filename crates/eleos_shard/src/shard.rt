// Commands on one shard.
ghost use Rattle.std.specs.Prelude.{◌≡◌, ◌≤◌, ◌<◌, ℕ, List, length, None, Some};
ghost use Rattle.std.specs.Prelude.{IfOk, OnErr};
ghost use Rattle.eleos_base.specs.Own.{Private};
ghost use Rattle.eleos_base.specs.SubMemory.{owned};
ghost use Rattle.eleos_kvwire.specs.Sessions.{IsSized};
ghost use Rattle.eleos_kvwire.specs.declared.trace.KvAct.TheVariants as acts;
ghost use Rattle.eleos_sslab.specs.declared.size.TheConstants.{MOST_OBJECT_BYTES};

use crate::KvReply;
use crate::keys::{KeyTable, MOST_KEYS};
use crate::refusals::{get_refusal, set_refusal};
use eleos_base::{List, NoMemory, SubMemory};
use eleos_kvwire::KvAct;
use eleos_sslab::{MOST_OBJECT_BYTES, ObjId, SSlab};
use std::alloc::Global;
use std::marker::Model;

/// Blocks of a shard's slab: one more than the shard may have keys, so that it is never full.
const MOST_BLOCKS: u32 = 1025;

/// Keys, and a slab of their values. Each call takes the one memory in which the values lie.
#[derive(Drop)]
pub struct Shard {
    slab: SSlab,
    keys: KeyTable,
}

impl Model for Shard {
    ghost use Rattle.eleos_shard.specs.Shards.{ShardState};

    ghost Value = { ShardState };

    ghost view = { λ s. record { blocks = s.slab; keys = s.keys.ids } };
}

impl Shard {
    ghost use Rattle.eleos_shard.specs.Keys.{id_of};
    ghost use Rattle.eleos_shard.specs.Shards.{IsShard, empty_shard};
    ghost use Rattle.eleos_shard.specs.Steps.{HasServed, stat_reply};
    ghost use Rattle.eleos_sslab.specs.Slabs.{IsHeld};

    /// No key.
    ///
    /// # Errors
    /// Want of memory.
    pub fn make(alloc: Global) -> Result<Self, NoMemory>
        ensures empty { IfOk result (λ shard. shard ≡ empty_shard) }
        ensures shard { IfOk result (λ shard. (p : Private) → IsShard p shard) }
    {
        let slab = SSlab::make(alloc, MOST_BLOCKS)?;
        Ok(Shard {
            slab,
            keys: KeyTable::new(alloc),
        })
    }

    /// Serves a command.
    ///
    /// # Errors
    /// Want of memory; then nothing has happened.
    pub fn serve<M: SubMemory>(
        &mut self,
        alloc: Global,
        mem: &mut M,
        act: &KvAct,
    ) -> Result<KvReply, NoMemory>
        requires shard { IsShard (owned (M.state mem.old)) self.old }
        requires left { 3 ≤ (M.state mem.old).left }
        requires sized { IsSized act.now }
        ensures served { IfOk result (λ reply. HasServed (M.state mem.old) self.old act.now reply
            (M.state mem.new) self.new) }
        ensures err { OnErr result (self.new ≡ self.old) }
        ensures kept { OnErr result (M.state mem.new ≡ M.state mem.old) }
    {
        match act {
            KvAct::Set { key, value } => self.set(alloc, mem, key.as_slice(), value.as_slice()),
            KvAct::Get { key } => self.get(alloc, mem, key.as_slice()),
            KvAct::Delete { key } => Ok(self.delete(mem, key.as_slice())),
            KvAct::Stat { key } => Ok(self.stat(key.as_slice())),
        }
    }

    /// Stores a value.
    fn set<M: SubMemory>(
        &mut self,
        alloc: Global,
        mem: &mut M,
        key: &[u8],
        value: &[u8],
    ) -> Result<KvReply, NoMemory>
        requires shard { IsShard (owned (M.state mem.old)) self.old }
        requires left { 3 ≤ (M.state mem.old).left }
        requires some { 1 ≤ length value.now }
        requires most { length value.now ≤ MOST_OBJECT_BYTES }
        ensures served { IfOk result (λ reply. HasServed (M.state mem.old) self.old
            (acts.Set key.now value.now) reply (M.state mem.new) self.new) }
        ensures err { OnErr result (self.new ≡ self.old) }
        ensures kept { OnErr result (M.state mem.new ≡ M.state mem.old) }
    {
        if let Some(id) = self.keys.id_of(key) {
            return Ok(self.replace(mem, key, id, value));
        }
        if self.keys.len() >= MOST_KEYS {
            return Ok(KvReply::Full);
        }
        self.add(mem, key.to_vec(alloc)?, value)
    }

    /// Stores a value in place of the one that the key has.
    fn replace<M: SubMemory>(&mut self, mem: &mut M, key: &[u8], id: ObjId, value: &[u8]) -> KvReply
        requires shard { IsShard (owned (M.state mem.old)) self.old }
        requires here { id_of self.old.keys key.now ≡ Some id }
        requires left { 3 ≤ (M.state mem.old).left }
        requires some { 1 ≤ length value.now }
        requires most { length value.now ≤ MOST_OBJECT_BYTES }
        ensures { HasServed (M.state mem.old) self.old (acts.Set key.now value.now) result
            (M.state mem.new) self.new }
    {
        match self.slab.replace(mem, id, value) {
            Ok(new) => {
                self.keys.set(key, new);
                KvReply::Stored
            }
            Err(why) => set_refusal(why),
        }
    }

    /// Stores the value of a key that has none. The room of the key is taken first.
    fn add<M: SubMemory>(
        &mut self,
        mem: &mut M,
        key: Vec<u8>,
        value: &[u8],
    ) -> Result<KvReply, NoMemory>
        requires shard { IsShard (owned (M.state mem.old)) self.old }
        requires new { id_of self.old.keys key.items ≡ None }
        requires few { length self.old.keys < MOST_KEYS }
        requires left { 3 ≤ (M.state mem.old).left }
        requires some { 1 ≤ length value.now }
        requires most { length value.now ≤ MOST_OBJECT_BYTES }
        ensures served { IfOk result (λ reply. HasServed (M.state mem.old) self.old
            (acts.Set key.items value.now) reply (M.state mem.new) self.new) }
        ensures err { OnErr result (self.new ≡ self.old) }
        ensures kept { OnErr result (M.state mem.new ≡ M.state mem.old) }
    {
        self.keys.reserve()?;
        match self.slab.put(mem, value) {
            Ok(id) => {
                self.keys.add(key, id);
                Ok(KvReply::Stored)
            }
            Err(why) => Ok(set_refusal(why)),
        }
    }

    /// Gets a value.
    fn get<M: SubMemory>(&self, alloc: Global, mem: &mut M, key: &[u8]) -> Result<KvReply, NoMemory>
        requires shard { IsShard (owned (M.state mem.old)) self.now }
        requires left { 3 ≤ (M.state mem.old).left }
        ensures served { IfOk result (λ reply. HasServed (M.state mem.old) self.now
            (acts.Get key.now) reply (M.state mem.new) self.now) }
        ensures kept { OnErr result (M.state mem.new ≡ M.state mem.old) }
    {
        let Some(id) = self.keys.id_of(key) else {
            return Ok(KvReply::Missing);
        };
        let text: Vec<u8> = vec![in alloc; 0; MOST_OBJECT_BYTES]?;
        Ok(self.read(mem, id, text))
    }

    /// Reads an object into the room for it.
    fn read<M: SubMemory>(&self, mem: &mut M, id: ObjId, text: Vec<u8>) -> KvReply
        requires shard { IsShard (owned (M.state mem.old)) self.now }
        requires held { IsHeld self.now.blocks id }
        requires left { 3 ≤ (M.state mem.old).left }
        requires room { length text.items ≡ MOST_OBJECT_BYTES }
        ensures { (key : List ℕ) → id_of self.now.keys key ≡ Some id
            → HasServed (M.state mem.old) self.now (acts.Get key) result
            (M.state mem.new) self.now }
    {
        let mut text = text;
        match self.slab.get(mem, id, &mut text) {
            Ok(len) => {
                text.truncate(len);
                KvReply::Value {
                    bytes: List::of(text),
                }
            }
            Err(why) => get_refusal(why),
        }
    }

    /// Deletes a value.
    fn delete<M: SubMemory>(&mut self, mem: &mut M, key: &[u8]) -> KvReply
        requires shard { IsShard (owned (M.state mem.old)) self.old }
        requires left { 3 ≤ (M.state mem.old).left }
        ensures { HasServed (M.state mem.old) self.old (acts.Delete key.now) result
            (M.state mem.new) self.new }
    {
        match self.keys.remove(key) {
            Some(id) => {
                self.slab.take(mem, id);
                KvReply::Deleted
            }
            None => KvReply::Missing,
        }
    }

    /// The length of a value.
    fn stat(&self, key: &[u8]) -> KvReply
        ensures { result ≡ stat_reply self.now key.now }
    {
        match self.keys.id_of(key) {
            Some(id) => KvReply::Size {
                bytes: u32::from(self.slab.len_of(id)),
            },
            None => KvReply::Missing,
        }
    }
}
