// What may happen to the machine.

use eleos_base::{Addr, Bytes, List, Looked, Op, Reply};

/// The bytes of a sub-page as they lie with the host.
pub type Block = Bytes;

/// One step of the machine.
#[derive(Debug, Drop)]
pub enum Event {
    /// A call on memory.
    Op(Op),
    /// The page of the address is linked once more by the caller, and stays in its frame.
    Link {
        at: Addr,
    },
    /// The caller has one link of the page less.
    Unlink {
        page: u32,
    },
    /// An absent page is put into a free frame of its enclave.
    Fill {
        page: u32,
        frame: u32,
    },
    /// A present page leaves its frame.
    Evict {
        page: u32,
        frame: u32,
    },
    /// A free frame goes from an enclave to the pool or back. The pool is `None`.
    Move {
        frame: u32,
        from: Option<u16>,
        to: Option<u16>,
    },
    /// What was wanted is refused for want of a frame.
    Starved {
        wanted: Wanted,
        sweep: List<Looked>,
    },
    /// What was wanted is refused since a block of its page did not pass.
    Spoiled {
        wanted: Wanted,
    },
    /// The end of a search among the frames of an enclave. It changes nothing.
    Survey {
        enclave: u16,
        goal: Goal,
        sweep: List<Looked>,
    },
}

/// What needed a frame.
#[derive(Debug, Drop)]
pub enum Wanted {
    Link { at: Addr },
    Op(Op),
}

/// What a search among frames is for, as a number of frames.
#[derive(Clone, Copy, Debug, PartialEq, Eq)]
pub enum Goal {
    /// At least so many free ones.
    Low(u32),
    /// Just so many in the enclave's share.
    To(u32),
}

/// One entry of the machine's history: who did what, the blocks that came from the host for it in
/// rising order of place, and the answer.
#[derive(Debug, Drop)]
pub struct Entry {
    pub who: u32,
    pub event: Event,
    pub blocks: List<Block>,
    pub reply: Reply,
}
