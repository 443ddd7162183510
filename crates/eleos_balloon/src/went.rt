// A frame that went to another owner.

use eleos_swap::Evicted;

/// A frame that went from an enclave to the pool or back.
#[derive(Clone, Copy, Debug)]
pub struct Went {
    /// The page that left it before, where one was in it.
    pub evicted: Option<Evicted>,
    pub frame: u32,
    /// The place of its move in the history.
    pub stamp: u64,
}
