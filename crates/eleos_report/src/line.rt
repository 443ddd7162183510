// A line of a log.

use crate::Answer;
use eleos_trace::{Actor, Word};

/// A line of a log.
#[derive(Debug, Drop)]
pub enum LogLine {
    /// What a command, or a step of the machine on its way, came to. The stamp is the place of its
    /// entry
    /// in the history, from 0; a line that is no entry has none.
    Said {
        stamp: Option<u64>,
        actor: Actor,
        command: Word,
        reply: Answer,
    },
    /// The last line, with the number of stamps.
    End {
        count: u64,
    },
}
