// What the program can be asked for.

use std::alloc::AllocError;

/// What the words ask for.
#[derive(Clone, Copy, Debug, PartialEq, Eq)]
pub enum Command {
    Run,
    Replay,
    CheckPlain,
    CheckFull,
    Serve,
    Gcm,
    /// The trace that is made from this number.
    Gen { n: u64 },
    /// A run of that trace.
    Work { n: u64 },
}

/// Why the words ask for nothing.
#[derive(Clone, Copy, Debug, PartialEq, Eq, thiserror::Error)]
pub enum ArgsRefused {
    #[error("the words are no command")]
    Usage,
    #[error("out of memory")]
    NoMemory,
}

impl From<AllocError> for ArgsRefused {
    ghost use Rattle.std.specs.Prelude.{◌≡◌};
    ghost use Rattle.eleos_args.specs.declared.command.ArgsRefused.TheVariants.{NoMemory};

    ghost from_gives = { λ _ e. e ≡ NoMemory };

    fn from(_: AllocError) -> Self {
        ArgsRefused::NoMemory
    }
}
