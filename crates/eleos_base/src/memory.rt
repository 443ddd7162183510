// Calls on memory, with their replies.

use crate::{Bytes, List};
use std::alloc::{AllocError, AllocFailed};

/// A place in an enclave: `at` is an offset in bytes.
#[derive(Clone, Copy, Debug, PartialEq, Eq)]
pub struct Addr {
    pub enclave: u16,
    pub at: u32,
}

/// A live block of an enclave: a run of whole sub-pages, counted from the enclave's first, and who
/// may use it.
/// A shared block is used by every caller of the enclave and freed by its owner alone.
/// Owner 0 is nobody: such a block is shared from the start and never freed.
#[derive(Clone, Copy, Debug, PartialEq, Eq)]
pub struct Live {
    pub start: u32,
    pub len: u32,
    pub owner: u32,
    pub is_shared: bool,
}

/// A call on memory. Lengths are in bytes.
#[derive(Debug, Drop)]
pub enum Op {
    Alloc { bytes: u32 },
    Free { at: Addr },
    Share { at: Addr },
    Read { at: Addr, len: u32 },
    Write { at: Addr, bytes: Bytes },
}

/// A frame with the word that was seen there.
#[derive(Clone, Copy, Debug, PartialEq, Eq)]
pub struct Looked {
    pub frame: u32,
    pub word: u64,
}

/// The answer to a call on memory, or to another event of the machine.
#[derive(Debug, Drop)]
pub enum Reply {
    Got(Addr),
    Done,
    Text(Bytes),
    BadSize,
    NoSpace,
    NotABlock,
    BadRange,
    Unallocated,
    NotYours { owner: u32 },
    Worn { sub: u32 },
    NoFrame { sweep: List<Looked> },
    Tampered { sub: u32 },
    Enough { free: u32 },
    Swept { free: u32 },
    Reached { share: u32 },
    Pinned { share: u32 },
    Short { share: u32 },
}

/// What an event that is not legal offends against.
#[derive(Clone, Copy, Debug, PartialEq, Eq)]
pub enum Part {
    /// The page is in a frame.
    Present,
    /// The frame holds a page, or is not owned by the page's enclave.
    Frame,
    /// The page is not in that frame, or in none.
    Absent,
    /// Somebody links the page.
    Linked,
    /// The frame is not owned by that owner.
    Owner,
    /// The caller has no link of the page.
    Untied,
}

/// Want of memory.
#[derive(Clone, Copy, Debug, PartialEq, Eq)]
pub struct NoMemory;

impl From<AllocError> for NoMemory {
    fn from(_: AllocError) -> Self {
        NoMemory
    }
}

impl<T: Drop> From<AllocFailed<T>> for NoMemory {
    fn from(_: AllocFailed<T>) -> Self {
        NoMemory
    }
}
