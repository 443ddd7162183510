// Why a text is no trace.
ghost use Rattle.std.specs.Prelude.{◌≡◌, Err};
ghost use Rattle.eleos_texts.specs.Reasons.{answer_at};
ghost use Rattle.eleos_texts.specs.declared.why.TraceRefused.TheVariants.{NoMemory};
ghost use Rattle.eleos_texts.specs.declared.why.LineRefused.TheVariants as line_refused;

use eleos_base::NoMemory;
use std::alloc::{AllocError, AllocFailed};

/// What is wrong with a line. Of several reasons the first of this list counts.
#[derive(Clone, Copy, Debug, PartialEq, Eq)]
pub enum Why {
    /// The whole text has too many bytes.
    TooLarge,
    /// The text ends in this line, or before it, and no `end` line came.
    Cut,
    /// Bytes follow the `end` line.
    After,
    /// The line is not of the grammar at this place.
    Form,
    /// The command is one too many.
    Many,
    /// The actor is not declared, or may not give this command in this kind.
    Actor,
    /// A number, a sum over the machine, the number of blocks, a key or the bytes of a write are
    /// outside their limits, or a page, frame or place is not in the machine.
    Range,
    /// The name or pointer is not bound, or is bound already; or a block of the enclave has it.
    Name,
    /// An enclave is not declared, or is not the caller's.
    Enclave,
    /// The size of a header block is not 1 to 65,536.
    BadSize,
    /// No free run is long enough for a header block.
    NoSpace,
    /// The owner of a header block is neither 0 nor a caller of its enclave.
    Owner,
    /// The command is not built yet; every command of kind replay is.
    Later,
}

impl Why {
    ghost use Rattle.eleos_texts.specs.Texts.{why_text};

    /// The reason as it is printed.
    pub fn word(&self) -> &'static [u8]
        ensures { result.now ≡ why_text self.now }
    {
        match self {
            Why::TooLarge => b"toolarge",
            Why::Cut => b"cut",
            Why::After => b"after",
            Why::Form => b"form",
            Why::Many => b"many",
            Why::Actor => b"actor",
            Why::Range => b"range",
            Why::Name => b"name",
            Why::Enclave => b"enclave",
            Why::BadSize => b"badsize",
            Why::NoSpace => b"nospace",
            Why::Owner => b"owner",
            Why::Later => b"later",
        }
    }
}

/// The first bad line, counted from 1, with its first reason; 0 is the text as a whole.
#[derive(Clone, Copy, Debug, PartialEq, Eq)]
pub struct Bad {
    pub line: u32,
    pub why: Why,
}

/// Why a text was not read.
#[derive(Clone, Copy, Debug, PartialEq, Eq, thiserror::Error)]
pub enum TraceRefused {
    #[error("out of memory")]
    NoMemory,
    #[error("line {line} is refused: {why:?}")]
    Bad { line: u32, why: Why },
}

impl From<AllocError> for TraceRefused {
    ghost from_gives = { λ _ e. e ≡ NoMemory };

    fn from(_: AllocError) -> Self {
        TraceRefused::NoMemory
    }
}

impl<T: Drop> From<AllocFailed<T>> for TraceRefused {
    ghost from_gives = { λ _ e. e ≡ NoMemory };

    fn from(_: AllocFailed<T>) -> Self {
        TraceRefused::NoMemory
    }
}

/// Why a line was not read.
#[derive(Clone, Copy, Debug, PartialEq, Eq)]
pub enum LineRefused {
    NoMemory,
    Bad { why: Why },
}

impl From<AllocError> for LineRefused {
    ghost from_gives = { λ _ e. e ≡ line_refused.NoMemory };

    fn from(_: AllocError) -> Self {
        LineRefused::NoMemory
    }
}

impl From<NoMemory> for LineRefused {
    ghost from_gives = { λ _ e. e ≡ line_refused.NoMemory };

    fn from(_: NoMemory) -> Self {
        LineRefused::NoMemory
    }
}

/// The answer of a reader of a line that refuses it.
pub fn refused<T>(why: Why) -> Result<T, LineRefused>
    ensures { result ≡ Err (line_refused.Bad why) }
{
    Err(LineRefused::Bad { why })
}

/// What a reader of a line answered, with the line's number.
pub fn at_line<T>(line: u32, read: Result<T, LineRefused>) -> Result<T, TraceRefused>
    ensures { result ≡ answer_at line read }
{
    match read {
        Ok(value) => Ok(value),
        Err(LineRefused::NoMemory) => Err(TraceRefused::NoMemory),
        Err(LineRefused::Bad { why }) => Err(TraceRefused::Bad { line, why }),
    }
}
