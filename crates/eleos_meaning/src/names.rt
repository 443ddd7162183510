// The addresses of one caller's names.
ghost use Rattle.std.specs.Prelude.{◌≡◌, IsTrue, OnOk, List, ℕ};
ghost use Rattle.eleos_meaning.specs.Names.{names_after, no_names, with_name};

use eleos_base::{Addr, NoMemory, Reply};
use eleos_trace::Word;
use std::alloc::Global;
use std::collections::BTreeMap;

/// The names of one caller: all that its program and its header blocks bind, each with its address
/// once it has one. Looking one up takes the logarithm of their number.
#[derive(Drop)]
pub struct NameTable {
    rooms: BTreeMap<Vec<u8>, Option<Addr>>,
}

impl NameTable {
    ghost use Rattle.eleos_meaning.specs.NameTable.{has_room, names_in};

    pub fn new(alloc: Global) -> Self
        ensures { names_in result ≡ no_names }
    {
        NameTable {
            rooms: BTreeMap::new(alloc),
        }
    }

    /// Takes the room of a name, which has no address yet unless it had one.
    pub fn reserve(&mut self, alloc: Global, name: &[u8]) -> Result<(), NoMemory>
        ensures names { OnOk result (names_in self.new ≡ names_in self.old) }
        ensures room { OnOk result (IsTrue (has_room self.new name.now)) }
        ensures others { OnOk result ((text : List ℕ) → IsTrue (has_room self.old text)
            → IsTrue (has_room self.new text)) }
    {
        if self.rooms.get(name).is_none() {
            self.rooms.insert(name.to_vec(alloc)?, None)?;
        }
        Ok(())
    }

    /// The name has this address, from the start on.
    pub fn add(&mut self, alloc: Global, name: &[u8], at: Addr) -> Result<(), NoMemory>
        ensures { OnOk result (names_in self.new
            ≡ with_name name.now at (names_in self.old)) }
    {
        self.rooms.insert(name.to_vec(alloc)?, Some(at))?;
        Ok(())
    }

    /// The name, which has room, has this address now.
    pub fn bind(&mut self, name: &[u8], at: Addr)
        requires { IsTrue (has_room self.old name.now) }
        ensures names { names_in self.new
            ≡ with_name name.now at (names_in self.old) }
        ensures rooms { (text : List ℕ) → has_room self.new text
            ≡ has_room self.old text }
    {
        if let Some(room) = self.rooms.get_mut(name) {
            *room = Some(at);
        }
    }

    /// A command got this reply: the name of an alloc has the address that it was answered.
    pub fn bind_answered(
        &mut self,
        alloc: Global,
        word: &Word,
        reply: &Reply,
    ) -> Result<(), NoMemory>
        ensures { OnOk result
            (names_in self.new ≡ names_after word.now reply.now (names_in self.old)) }
    {
        match (word, reply) {
            (Word::Alloc { name, .. }, Reply::Got(at)) => self.add(alloc, name.as_slice(), *at),
            _ => Ok(()),
        }
    }

    /// The address that the name has, if any.
    pub fn address_of(&self, name: &[u8]) -> Option<Addr>
        ensures { result ≡ names_in self.now name.now }
    {
        match self.rooms.get(name) {
            Some(at) => *at,
            None => None,
        }
    }
}
