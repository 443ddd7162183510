// An entry's event and reply, as a draft is told of them and keeps them: their bytes and their sweep
// are not in them. A draft is told of bytes that are lent, and keeps nothing in their place.

use eleos_base::Addr;
use eleos_core::Goal;

/// A call on memory, with what stands for the bytes of a write.
#[derive(Clone, Copy, Debug)]
pub enum OpOf<B> {
    Alloc { bytes: u32 },
    Free { at: Addr },
    Share { at: Addr },
    Read { at: Addr, len: u32 },
    Write { at: Addr, bytes: B },
}

/// What needed a frame, with what stands for the bytes of a write.
#[derive(Clone, Copy, Debug)]
pub enum WantedOf<B> {
    Link { at: Addr },
    Op(OpOf<B>),
}

/// An event of the machine without its sweep, and with what stands for the bytes of a write.
#[derive(Clone, Copy, Debug)]
pub enum EventOf<B> {
    Op(OpOf<B>),
    Link {
        at: Addr,
    },
    Unlink {
        page: u32,
    },
    Fill {
        page: u32,
        frame: u32,
    },
    Evict {
        page: u32,
        frame: u32,
    },
    Move {
        frame: u32,
        from: Option<u16>,
        to: Option<u16>,
    },
    Starved {
        wanted: WantedOf<B>,
    },
    Spoiled {
        wanted: WantedOf<B>,
    },
    Survey {
        enclave: u16,
        goal: Goal,
    },
}

/// A reply without its sweep, and with what stands for the bytes of its text.
#[derive(Clone, Copy, Debug)]
pub enum ReplyOf<B> {
    Got(Addr),
    Done,
    Text(B),
    BadSize,
    NoSpace,
    NotABlock,
    BadRange,
    Unallocated,
    NotYours { owner: u32 },
    Worn { sub: u32 },
    NoFrame,
    Tampered { sub: u32 },
    Enough { free: u32 },
    Swept { free: u32 },
    Reached { share: u32 },
    Pinned { share: u32 },
    Short { share: u32 },
}

/// A call, with the bytes of a write lent.
pub type OpRef<'a> = OpOf<&'a [u8]>;

/// What needed a frame, with the bytes of a write lent.
pub type WantedRef<'a> = WantedOf<&'a [u8]>;

/// An event with an empty sweep, and with the bytes of a write lent.
pub type EventRef<'a> = EventOf<&'a [u8]>;

/// A reply with an empty sweep, and with its text lent.
pub type ReplyRef<'a> = ReplyOf<&'a [u8]>;
