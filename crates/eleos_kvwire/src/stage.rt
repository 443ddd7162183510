// What a session's next bytes are.
ghost use Rattle.std.specs.Prelude.{◌≡◌};
ghost use Rattle.eleos_kvwire.specs.Header.{stage_after, is_ended};

use eleos_base::Bytes;

/// A line of the header, in their order.
#[derive(Clone, Copy, Debug, PartialEq, Eq)]
pub(crate) enum HeaderLine {
    Title,
    Sizes,
    Shards,
    Clients,
    Wear,
    Key,
    Start,
}

/// The line of a set whose value is still to come: who gives it, its key, and the bytes of its
/// value.
#[derive(Debug, Drop)]
pub(crate) struct SetLine {
    pub client: u32,
    pub key: Bytes,
    pub len: u32,
}

/// What stands at this place of a session.
#[derive(Debug, Drop)]
pub(crate) enum Stage {
    /// A line of the header.
    Header { due: HeaderLine },
    /// The line of a command, or the last line.
    Command,
    /// The bytes of a value, and the newline behind them.
    Value { set: SetLine },
    /// Nothing, behind the last line.
    End,
}

impl HeaderLine {
    /// What stands behind this line.
    pub(crate) fn next(self) -> Stage
        ensures { result ≡ stage_after self }
    {
        let due = match self {
            HeaderLine::Title => HeaderLine::Sizes,
            HeaderLine::Sizes => HeaderLine::Shards,
            HeaderLine::Shards => HeaderLine::Clients,
            HeaderLine::Clients => HeaderLine::Wear,
            HeaderLine::Wear => HeaderLine::Key,
            HeaderLine::Key => HeaderLine::Start,
            HeaderLine::Start => return Stage::Command,
        };
        Stage::Header { due }
    }
}

impl Stage {
    /// Whether the last line has come.
    pub(crate) fn is_ended(&self) -> bool
        ensures { result ≡ is_ended self.now }
    {
        matches!(self, Stage::End)
    }
}
