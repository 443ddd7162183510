// What a trace has.
ghost use Rattle.std.specs.Prelude.{◌≡◌};

use crate::{Actor, Word};
use eleos_base::{Bytes, List, Plan};

/// What a trace is for: threads that run the programs of its callers, or one replay of all its
/// commands in their order.
#[derive(Clone, Copy, Debug, PartialEq, Eq)]
pub enum Kind {
    Run,
    Replay,
}

impl Kind {
    ghost use Rattle.eleos_trace.specs.Spelling.{kind_text};

    /// The kind as the first line of a trace spells it.
    pub(crate) fn word(self) -> &'static [u8]
        ensures { result.now ≡ kind_text self }
    {
        match self {
            Kind::Run => b"run",
            Kind::Replay => b"replay",
        }
    }
}

/// A line of a trace: a command, and who gives it.
#[derive(Debug, Drop)]
pub struct Line {
    pub actor: Actor,
    pub command: Word,
}

/// A kind, a machine, the key of its seals (16, 24 or 32 bytes), the names of its header blocks in
/// their order, and the commands in theirs.
#[derive(Debug, Drop)]
pub struct Trace {
    pub kind: Kind,
    pub plan: Plan,
    pub key: Bytes,
    pub names: List<Bytes>,
    pub lines: List<Line>,
}
