// What a command of a replay came to.

use eleos_base::{Part, Reply};

/// The answer to a line of a replay. Only one that is entered has a stamp.
#[derive(Debug, Drop)]
pub enum Response {
    /// The command's name has no address.
    Skipped,
    /// An entry of the machine's history, for which so many blocks were put at the host.
    Entered { stamp: u64, reply: Reply, puts: u64 },
    /// No entry, since the command offends against this.
    Refused(Part),
    /// An act of the host, and whether it did anything.
    Acted(bool),
}
