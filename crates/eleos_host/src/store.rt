// The blocks of a told host, and what each act makes of them.
ghost use Rattle.std.specs.Prelude.{◌≡◌, ◌<◌, OnErr, OnOk};
ghost use Rattle.eleos_host.specs.Blocks.{IsBlock};
ghost use Rattle.eleos_host.specs.Stores.{blank_store, with_room, get_from, put_to, flipped};
ghost use Rattle.eleos_host.specs.Stores.{swapped, kept_at, kept_of, is_kept, restored};

use crate::BLOCK_BITS;
use crate::block::{Block, ZEROS, add_copies};
use eleos_base::NoMemory;
use std::alloc::Global;
use std::marker::Model;

// A block for each place, and room for one kept block of each.
#[derive(Drop)]
pub(crate) struct Shelves {
    contents: Vec<Block>,
    kept: Vec<Option<Block>>,
}

impl Model for Shelves {
    ghost use Rattle.eleos_host.specs.Stores.{Store};

    ghost Value = { Store };

    ghost view = { λ s. record { contents = s.contents.items; kept = s.kept.items } };
}

impl Shelves {
    pub(crate) fn new(alloc: Global) -> Self
        ensures { result ≡ blank_store 0 }
    {
        Shelves {
            contents: Vec::new(alloc),
            kept: Vec::new(alloc),
        }
    }

    // So many places at least. Those that it had stay as they are.
    #[tactic(auto, unfolding(crate::specs::Blocks::zero_block))]
    pub(crate) fn make_room(&mut self, places: u32) -> Result<(), NoMemory>
        ensures ok { OnOk result (self.new ≡ with_room places self.old) }
        ensures err { OnErr result (self.new ≡ self.old) }
    {
        let places = places as usize;
        let had = self.contents.len();
        add_copies(&mut self.contents, places.saturating_sub(had), ZEROS)?;
        let keepable = self.kept.len();
        let added = add_copies(&mut self.kept, places.saturating_sub(keepable), None);
        if added.is_err() {
            self.contents.truncate(had);
        }
        added
    }

    #[tactic(auto, unfolding(crate::specs::Blocks::zero_block))]
    pub(crate) fn block_at(&self, place: u32) -> &Block
        ensures { result.now ≡ get_from self.now place }
    {
        match self.contents.get(place as usize) {
            Some(block) => block,
            None => &ZEROS,
        }
    }

    fn set(&mut self, place: u32, block: Block)
        ensures { self.new ≡ put_to self.old place block }
    {
        if let Some(old) = self.contents.get_mut(place as usize) {
            *old = block;
        }
    }

    pub(crate) fn put(&mut self, place: u32, bytes: &[u8])
        requires { IsBlock bytes.now }
        ensures { self.new ≡ put_to self.old place bytes.now }
    {
        if let Some(block) = self.contents.get_mut(place as usize) {
            block.copy_from_slice(bytes);
        }
    }

    pub(crate) fn flip(&mut self, place: u32, bit: u32)
        requires { bit < BLOCK_BITS }
        ensures { self.new ≡ flipped self.old place bit }
    {
        if let Some(block) = self.contents.get_mut(place as usize) {
            block[bit as usize / 8] ^= 1 << (bit % 8);
        }
    }

    pub(crate) fn swap(&mut self, a: u32, b: u32)
        ensures { self.new ≡ swapped self.old a b }
    {
        let at_a = *self.block_at(a);
        let at_b = *self.block_at(b);
        self.set(a, at_b);
        self.set(b, at_a);
    }

    pub(crate) fn keep(&mut self, place: u32)
        ensures { self.new ≡ kept_at self.old place }
    {
        let block = *self.block_at(place);
        if let Some(kept) = self.kept.get_mut(place as usize) {
            *kept = Some(block);
        }
    }

    fn kept_of(&self, place: u32) -> Option<Block>
        ensures { result ≡ kept_of self.now place }
    {
        self.kept.get(place as usize).copied().flatten()
    }

    pub(crate) fn restore(&mut self, place: u32) -> bool
        ensures store { self.new ≡ restored self.old place }
        ensures answer { result ≡ is_kept self.old place }
    {
        let Some(block) = self.kept_of(place) else {
            return false;
        };
        self.set(place, block);
        true
    }
}
