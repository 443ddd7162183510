// Why a call on memory is refused.

/// Why no block is allocated.
#[derive(Clone, Copy, Debug, PartialEq, Eq)]
pub enum AllocRefused {
    /// The size is not in 1 to 65,536 bytes.
    BadSize,
    /// The caller's enclave has no free run of sub-pages that is long enough.
    NoSpace,
}

/// Why a block is neither freed nor shared.
#[derive(Clone, Copy, Debug, PartialEq, Eq)]
pub enum BlockRefused {
    /// No live block of the caller's enclave starts at the address.
    NotABlock,
    /// The block is another's.
    NotYours { owner: u32 },
}

/// Why an access of memory is refused, in the order in which it is judged.
#[derive(Clone, Copy, Debug, PartialEq, Eq)]
pub enum AccessRefused {
    /// It reads or writes nothing, crosses a sub-page's end, or lies outside the caller's enclave.
    BadRange,
    /// Its sub-page is in no live block.
    Unallocated,
    /// The block is private, and another's.
    NotYours { owner: u32 },
    /// The sub-page is clean, and was sealed as often as it may be.
    Worn { sub: u32 },
    /// The block that came from the host for the sub-page does not pass.
    Tampered { sub: u32 },
}
