// The end of a text.
ghost use Rattle.std.specs.Prelude.{◌≡◌, codes};
ghost use Rattle.std.specs.List.{slice_split};
ghost use Rattle.std.specs.Str.{bytes_eq};
ghost use Rattle.eleos_texts.specs.Fields.{is_newline};
ghost use Rattle.eleos_texts.specs.Reasons.{Gives};
ghost use Rattle.eleos_texts.specs.Texts.{ended};

use crate::why::{TraceRefused, Why};

/// Bytes of a text.
pub const MOST_TEXT: u32 = 16_777_216;

/// Whether the line ends the text.
pub fn is_end(line: &[u8]) -> bool
    ensures { result ≡ bytes_eq line.now (codes "end") }
{
    line == b"end".as_slice()
}

/// Whether the line behind the end is none.
pub fn nothing_after(line: u32, after: &[u8]) -> Result<(), TraceRefused>
    ensures { Gives (λ _. tt) result (ended line (slice_split is_newline after.now)) }
{
    if after.is_empty() {
        Ok(())
    } else {
        Err(TraceRefused::Bad {
            line,
            why: Why::After,
        })
    }
}
