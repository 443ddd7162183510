// The room of one entry.
ghost use Rattle.std.specs.Prelude.{◌≡◌, ◌+◌, ◌<◌, ◌≤◌, ◌++◌, length, vec_capacity, IfOk, []};

use crate::kinds::{EventKind, ReplyKind};
use crate::refs::{EventRef, ReplyRef};
use eleos_base::{Looked, MOST_WRITTEN, NoMemory};
use std::alloc::Global;
use std::marker::Model;

/// The most bytes of a reply's text: those of a sub-page.
pub const MOST_TEXT: usize = 1024;
/// Bytes of a block.
pub const BLOCK_BYTES: usize = 1024;
/// The most blocks that one event takes from the host.
pub const MOST_BLOCKS: usize = 4;
/// The most frames of any machine, which is the most words of a sweep.
pub const MOST_LOOKED: usize = 512;

/// The room of one entry, which contracts see as that entry, with the length of the block that it
/// frees or shares, in sub-pages. All of its memory is taken by `make`.
#[derive(Drop)]
pub struct Draft {
    pub(crate) who: u32,
    pub(crate) event: EventKind,
    pub(crate) reply: ReplyKind,
    pub(crate) len: u32,
    /// The bytes of a write.
    pub(crate) written: Vec<u8>,
    /// The bytes of a reply.
    pub(crate) text: Vec<u8>,
    /// The bytes of the blocks, one block after another, and how many there are.
    pub(crate) blocks: Vec<u8>,
    pub(crate) count: usize,
    pub(crate) sweep: Vec<Looked>,
}

impl Model for Draft {
    ghost use Rattle.eleos_core.specs.Parts.{Stamp};

    ghost Value = { Stamp };

    ghost use Rattle.eleos_plot.specs.Drafts.{draft_of, IsDraft};

    ghost view = { draft_of };

    ghost invariant = { IsDraft };
}

impl Draft {
    ghost use Rattle.eleos_core.specs.Applying.{stamp_of};
    ghost use Rattle.eleos_plot.specs.Entries.{blank_stamp, HasSweep, is_survey, sweep_of};
    ghost use Rattle.eleos_plot.specs.Entries.{with_block, with_looked};
    ghost use Rattle.eleos_plot.specs.Refs.{event_bytes, event_of, reply_bytes, reply_of};

    /// Takes the memory of any entry of a machine.
    pub fn make(alloc: Global) -> Result<Draft, NoMemory>
        ensures { IfOk result (λ draft. draft ≡ blank_stamp) }
    {
        Ok(Draft {
            who: 0,
            event: EventKind::Unlink { page: 0 },
            reply: ReplyKind::Done,
            len: 0,
            written: Vec::with_capacity(alloc, MOST_WRITTEN)?,
            text: Vec::with_capacity(alloc, MOST_TEXT)?,
            blocks: Vec::with_capacity(alloc, MOST_BLOCKS * BLOCK_BYTES)?,
            count: 0,
            sweep: Vec::with_capacity(alloc, MOST_LOOKED)?,
        })
    }

    /// Makes it this entry, with no blocks, with an empty sweep, and with no length.
    pub fn set(&mut self, who: u32, event: EventRef<'_>, reply: ReplyRef<'_>)
        requires written { length (event_bytes event) ≤ MOST_WRITTEN }
        requires text { length (reply_bytes reply) ≤ MOST_TEXT }
        ensures { self.new ≡ stamp_of who (event_of event.entry) [] (reply_of reply.entry) 0 }
    {
        self.who = who;
        self.event = event.kind();
        self.reply = reply.kind();
        self.len = 0;
        refill(&mut self.written, event.bytes());
        refill(&mut self.text, reply.bytes());
        self.blocks.clear();
        self.count = 0;
        self.sweep.clear();
    }

    /// Whether the entry is the end of a search by swapper or balloon.
    pub fn is_survey(&self) -> bool
        ensures { result ≡ is_survey self.now.entry.event }
    {
        matches!(self.event, EventKind::Survey { .. })
    }

    /// Says how many sub-pages the block has that the entry frees or shares.
    pub fn set_len(&mut self, len: u32)
        ensures { self.new ≡ record self.old { len = len } }
    {
        self.len = len;
    }

    /// Appends a block.
    pub fn add_block(&mut self, block: &[u8])
        requires room { length self.old.entry.blocks < MOST_BLOCKS }
        requires whole { length block.now ≡ BLOCK_BYTES }
        ensures { self.new ≡ with_block self.old block.now }
    {
        append(&mut self.blocks, block);
        self.count += 1;
    }

    /// Appends a word to the sweep of the event, and to that of the reply if it has one.
    pub fn add_looked(&mut self, word: Looked)
        requires sweeps { HasSweep self.old.entry.event }
        requires room { length (sweep_of self.old.entry.event) < MOST_LOOKED }
        ensures { self.new ≡ with_looked self.old word }
    {
        let Ok(()) = self.sweep.push(word) else {
            unreachable!()
        };
    }
}

// Puts other bytes into a room that is large enough.
fn refill(room: &mut Vec<u8>, bytes: &[u8])
    requires { length bytes.now ≤ vec_capacity room.old }
    ensures items { room.new.items ≡ bytes.now }
    ensures capacity { vec_capacity room.old ≤ vec_capacity room.new }
{
    room.clear();
    append(room, bytes);
}

// Appends bytes for which there is room.
fn append(room: &mut Vec<u8>, bytes: &[u8])
    requires { length room.old.items + length bytes.now ≤ vec_capacity room.old }
    ensures items { room.new.items ≡ room.old.items ++ bytes.now }
    ensures capacity { vec_capacity room.old ≤ vec_capacity room.new }
{
    let Ok(()) = room.extend_from_slice(bytes) else {
        unreachable!()
    };
}
