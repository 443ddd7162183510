// The keys of a shard, each with the id of the object that is its value.
ghost use Rattle.std.specs.Prelude.{◌≡◌, ◌≤◌, ◌+◌, ℕ, List, [], length, if◌then◌else◌};
ghost use Rattle.std.specs.Prelude.{None, Some, IsSome, IfNone, OnOk, OnErr, is_some};
ghost use Rattle.std.specs.Map.{update};
ghost use Rattle.std.specs.Str.{bytes_eq};

use eleos_base::NoMemory;
use eleos_sslab::ObjId;
use std::alloc::Global;
use std::collections::HashMap;
use std::marker::Model;

/// Keys of a shard.
pub const MOST_KEYS: usize = 1024;

/// Keys by their bytes. Looking one up takes about one step, however many there are.
#[derive(Drop)]
pub(crate) struct KeyTable {
    ids: HashMap<Vec<u8>, ObjId>,
}

impl Model for KeyTable {
    ghost use Rattle.std.specs.HashMap.{spare};
    ghost use Rattle.eleos_shard.specs.Keys.{KeyState, named};

    ghost Value = { KeyState };

    ghost view = { λ t. record { ids = named t.ids.entries; room = spare t.ids } };
}

impl KeyTable {
    ghost use Rattle.eleos_shard.specs.Keys.{id_of};

    pub(crate) fn new(alloc: Global) -> Self
        ensures { result.ids ≡ [] }
    {
        KeyTable {
            ids: HashMap::new(alloc),
        }
    }

    pub(crate) fn len(&self) -> usize
        ensures { result ≡ length self.now.ids }
    {
        self.ids.len()
    }

    pub(crate) fn id_of(&self, key: &[u8]) -> Option<ObjId>
        ensures { result ≡ id_of self.now.ids key.now }
    {
        self.ids.get(key).copied()
    }

    /// Takes the room of one more key.
    pub(crate) fn reserve(&mut self) -> Result<(), NoMemory>
        ensures ids { (key : List ℕ) → id_of self.new.ids key ≡ id_of self.old.ids key }
        ensures count { length self.new.ids ≡ length self.old.ids }
        ensures room { OnOk result (1 ≤ self.new.room) }
        ensures err { OnErr result (self.new.ids ≡ self.old.ids) }
    {
        self.ids.reserve(1)?;
        Ok(())
    }

    /// Adds a key that is not there, in the room for it.
    pub(crate) fn add(&mut self, key: Vec<u8>, id: ObjId)
        requires new { id_of self.old.ids key.items ≡ None }
        requires room { 1 ≤ self.old.room }
        ensures ids { (other : List ℕ) → id_of self.new.ids other
            ≡ update bytes_eq (id_of self.old.ids) key.items (Some id) other }
        ensures count { length self.new.ids ≡ length self.old.ids + 1 }
    {
        let Ok(_) = self.ids.insert(key, id) else {
            unreachable!()
        };
    }

    /// Gives a key that is there another id.
    pub(crate) fn set(&mut self, key: &[u8], id: ObjId)
        requires { IsSome (id_of self.old.ids key.now) }
        ensures ids { (other : List ℕ) → id_of self.new.ids other
            ≡ update bytes_eq (id_of self.old.ids) key.now (Some id) other }
        ensures count { length self.new.ids ≡ length self.old.ids }
    {
        if let Some(place) = self.ids.get_mut(key) {
            *place = id;
        }
    }

    /// Removes a key, and answers the id that it had.
    pub(crate) fn remove(&mut self, key: &[u8]) -> Option<ObjId>
        ensures was { result ≡ id_of self.old.ids key.now }
        ensures ids { (other : List ℕ) → id_of self.new.ids other
            ≡ update bytes_eq (id_of self.old.ids) key.now None other }
        ensures count { length self.new.ids + (if is_some result then 1 else 0)
            ≡ length self.old.ids }
        ensures none { IfNone result (self.new.ids ≡ self.old.ids) }
    {
        self.ids.remove(key)
    }
}
