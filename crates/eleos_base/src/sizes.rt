// The parts that memory is split in, and the most that a machine has of each.

/// Bytes of a sub-page.
pub const SUB_BYTES: u32 = 1024;

/// Sub-pages of a page.
pub const SUBS_PER_PAGE: u32 = 4;

/// Bytes of a page.
pub const PAGE_BYTES: u32 = 4096;

/// Enclaves of a machine.
pub const MOST_ENCLAVES: u32 = 8;

/// Pages of an enclave.
pub const MOST_PAGES: u32 = 1024;

/// Pages of a machine.
pub const MOST_PAGES_IN_ALL: u32 = 4096;

/// Frames of a machine, those of the pool included.
pub const MOST_FRAMES: u32 = 512;

/// Callers of a machine.
pub const MOST_CALLERS: u32 = 8;

/// How often a sub-page may be sealed.
pub const MOST_WEAR: u64 = 1 << 63;

/// Blocks that are live from the start.
pub const MOST_HEADER_BLOCKS: u32 = 256;

/// Bytes of a block.
pub const MOST_BLOCK_BYTES: u32 = 65_536;

/// Bytes of one write.
pub const MOST_WRITTEN: usize = 8192;
