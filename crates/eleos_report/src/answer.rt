// The replies of a log.

use eleos_base::{Bytes, List, Looked, Part};

/// The bytes of a sub-page as they came from the host.
pub type Block = Bytes;

/// What stands behind a command. Sub-pages are numbered over the whole machine.
#[derive(Debug, Drop)]
pub enum Answer {
    /// The offset in bytes at which a block begins.
    At { at: u32 },
    Okay,
    Got { bytes: Bytes },
    /// How many blocks were put at the host.
    Put { count: u32 },
    BadSize,
    NoSpace,
    NotABlock,
    NotYours { owner: u32 },
    BadRange,
    Unallocated,
    Worn { sub: u32 },
    /// A run tells the block that did not pass, a replay does not.
    Tampered { sub: u32, block: Option<Block> },
    /// Each frame that was looked at, with the word that was seen there.
    NoFrame { sweep: List<Looked> },
    /// A round of the swapper found or made so many frames free. What it noted of each frame stands
    /// behind it, as behind the four others with a sweep.
    Enough { free: u32, sweep: List<Looked> },
    /// A round of the swapper found or made fewer frames free than were wanted.
    Swept { free: u32, sweep: List<Looked> },
    /// The enclave's share is so many frames, as was wanted.
    Reached { share: u32 },
    /// The share is smaller, as no frame of the pool could be had.
    Short { share: u32, sweep: List<Looked> },
    /// The share is larger, as no frame of the enclave could be had.
    Pinned { share: u32, sweep: List<Looked> },
    /// What the command offends against.
    Illegal { part: Part },
    /// The host answered a call with this status and these bytes.
    Replied { status: u64, bytes: Bytes },
    /// A reply bore this number, and not that of the call.
    WrongId { seen: u64 },
    /// A reply had this length, above its room.
    TooLong { seen: u64 },
    /// A reply had this status, which is none.
    BadStatus { seen: u64 },
    /// The host had nothing of that place to restore.
    Nothing,
    /// The command's name is not bound.
    Skipped,
}
