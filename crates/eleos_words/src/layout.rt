// Where the fields of a cell stand, and what its state says.

/// The cells of a ring, four for each of eight clients.
pub const CELLS: u32 = 32;

/// The words of a cell.
pub const CELL_WORDS: u32 = 136;

/// The words of a ring.
pub const RING_WORDS: u32 = CELLS * CELL_WORDS;

/// The word of the cell's state.
pub const STATE: u32 = 0;

/// The word of the job's number.
pub const ID: u32 = 1;

/// The word of the call's number.
pub const CALL: u32 = 2;

/// The word of the length, in bytes.
pub const LENGTH: u32 = 3;

/// The word of the reply's status.
pub const STATUS: u32 = 4;

/// The first word of the bytes. Those between the status and it are not used.
pub const BYTES: u32 = 8;

/// The bytes of a word.
pub const WORD_BYTES: usize = 8;

/// The most bytes of a job or a reply.
pub const MOST_BYTES: usize = 1024;

/// The state of a cell that was never posted to.
pub const FREE: u64 = 0;

/// The state of a cell that has a job.
pub const POSTED: u64 = 1;

/// The state of a cell that has a reply.
pub const DONE: u64 = 2;
