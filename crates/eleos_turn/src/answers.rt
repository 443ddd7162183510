//! What takes and tries answer.
ghost use Rattle.std.specs.Prelude.{◌≡◌};
ghost use Rattle.eleos_turn.specs.Hands.{no_refusal};

/// The last try that found a cell busy, and how many such tries there were.
#[derive(Clone, Copy, Debug, PartialEq, Eq)]
pub struct Refused {
    pub count: u64,
    pub cell: u32,
    pub word: u64,
}

impl Refused {
    /// No try was refused yet.
    pub(crate) fn none() -> Self
        ensures { result ≡ no_refusal }
    {
        Self {
            count: 0,
            cell: 0,
            word: 0,
        }
    }
}

/// Somebody had the turn: the word that the try found.
#[derive(Clone, Copy, Debug, PartialEq, Eq)]
pub struct Busy {
    pub word: u64,
}

/// The value of a cell whose turn was taken, and the word that was found.
#[derive(Drop)]
pub struct Taken<C> {
    pub word: u64,
    pub value: C,
}
