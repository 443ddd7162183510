// The commands of a trace, and who gives them.

use eleos_base::Bytes;

/// Who gives a command.
#[derive(Clone, Copy, Debug, PartialEq, Eq)]
pub enum Actor {
    /// A caller by its number, from 1.
    Caller(u32),
    Swapper,
    Balloon,
    Host,
}

/// What a call of the host does.
#[derive(Clone, Copy, Debug, PartialEq, Eq)]
pub enum CallWord {
    /// Gives the bytes back.
    Echo,
    /// Keeps a value under a key.
    Put,
    /// Gives the value of a key.
    Get,
    /// Lets a key go.
    Cut,
    /// Tells how many jobs were done.
    Clock,
}

/// A command. Lengths and offsets are in bytes, offsets from the start of the named block.
/// Pages, frames and places are numbered over the whole machine; a place keeps one sub-page.
#[derive(Debug, Drop)]
pub enum Word {
    Alloc {
        name: Bytes,
        bytes: u32,
    },
    Free {
        name: Bytes,
    },
    Share {
        name: Bytes,
    },
    Read {
        name: Bytes,
        offset: u32,
        len: u32,
    },
    Write {
        name: Bytes,
        offset: u32,
        bytes: Bytes,
    },
    Tie {
        name: Bytes,
        offset: u32,
    },
    Untie {
        name: Bytes,
        offset: u32,
    },
    Fill {
        page: u32,
        frame: u32,
    },
    Evict {
        page: u32,
        frame: u32,
    },
    /// From an enclave to the pool, or from the pool, which is `None`, to an enclave.
    Move {
        frame: u32,
        from: Option<u32>,
        to: Option<u32>,
    },
    /// `bit` counts from the lowest bit of the first byte.
    Flip {
        place: u32,
        bit: u32,
    },
    SwapPlaces {
        a: u32,
        b: u32,
    },
    Keep {
        place: u32,
    },
    Restore {
        place: u32,
    },
    /// A round of the swapper: the enclave is to have so many free frames.
    SwapRound {
        enclave: u32,
        low: u32,
    },
    /// A change of the enclave's share to so many frames.
    SetShare {
        enclave: u32,
        to: u32,
    },
    /// A call of the host: the bytes of the job, and the room for the reply in bytes.
    Call {
        call: CallWord,
        bytes: Bytes,
        room: u32,
    },
}
