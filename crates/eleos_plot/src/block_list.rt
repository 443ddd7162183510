// An enclave's live blocks, with room for all that it can have.
ghost use Rattle.std.specs.Prelude.{◌≡◌, ◌<◌, ◌≤◌, length, map, filter, not, IfOk};
ghost use Rattle.std.specs.List.{find};
ghost use Rattle.eleos_base.specs.Plain.{lowest_run, shared_at, starts_at, with_block};
ghost use Rattle.eleos_core.specs.Order.{AreInOrder};

use eleos_base::{Addr, Live, NoMemory};
use eleos_core::{Alloc, add_block, block_at, lowest_run, remove_at, share_at};
use std::marker::Model;

/// The most live blocks of an enclave: it has at most 1,024 pages, and each block has at least one
/// of their sub-pages.
pub const MOST_LIVE: usize = 4096;

/// An enclave's live blocks, in rising order of start. The memory of all that there can be is
/// taken by `make`.
#[derive(Debug, Drop)]
pub struct BlockList {
    blocks: Vec<Live>,
}

impl Model for BlockList {
    ghost use Rattle.std.specs.Prelude.{List, ◌≤◌, vec_capacity};
    ghost use Rattle.eleos_base.specs.declared.memory.Live.{Live};
    ghost use Rattle.eleos_plot.specs.declared.block_list.TheConstants.{MOST_LIVE};

    ghost Value = { List Live };

    ghost view = { λ list. list.blocks.items };

    ghost invariant = { λ list. MOST_LIVE ≤ vec_capacity list.blocks };
}

impl BlockList {
    /// Takes the memory for what an enclave's blocks may become.
    pub fn make(alloc: Alloc) -> Result<BlockList, NoMemory>
        ensures { IfOk result (λ list. list ≡ alloc) }
    {
        let Alloc { mut blocks } = alloc;
        blocks.reserve(MOST_LIVE)?;
        Ok(BlockList { blocks })
    }

    /// The start of the lowest free run of so many of the enclave's sub-pages.
    pub fn lowest_run(&self, subs: u32, len: u32) -> Option<u32>
        requires in_order { AreInOrder 0 subs self.now }
        requires some { 1 ≤ len }
        ensures { result ≡ lowest_run self.now subs len }
    {
        lowest_run(&self.blocks, subs, len)
    }

    /// The block that starts at the address.
    pub fn block_at(&self, enclave: u16, at: Addr) -> Option<Live>
        ensures { result ≡ find (starts_at 1024 enclave at) self.now }
    {
        block_at(&self.blocks, enclave, at)
    }

    /// Puts the block in at its place in the order.
    pub fn add(&mut self, block: Live)
        requires room { length self.old < MOST_LIVE }
        ensures { self.new ≡ with_block block self.old }
    {
        let Ok(()) = add_block(&mut self.blocks, block) else {
            unreachable!()
        };
    }

    /// Takes away the block that starts at the address.
    pub fn remove_at(&mut self, enclave: u16, at: Addr)
        ensures { self.new ≡ filter (λ block. not (starts_at 1024 enclave at block)) self.old }
    {
        remove_at(&mut self.blocks, enclave, at);
    }

    /// Shares the block that starts at the address.
    pub fn share_at(&mut self, enclave: u16, at: Addr)
        ensures { self.new ≡ map (shared_at 1024 enclave at) self.old }
    {
        share_at(&mut self.blocks, enclave, at);
    }
}
