// The input, with what it means.
ghost use Rattle.std.specs.Prelude.{◌≡◌, IfOk, IsErrOf, IfSome};
ghost use Rattle.eleos_base.specs.Outside.{HasRisen};
ghost use Rattle.eleos_texts.specs.declared.why.Bad.{Bad};
ghost use Rattle.eleos_trace.specs.Kinds.{IsTrace};
ghost use Rattle.eleos_top.specs.Input.{TellsTrace, TellsBad};

use crate::streams::{ReadError, read_all};
use eleos_base::Source;
use eleos_texts::{Bad, TraceRefused, Why};
use eleos_trace::{Kind, Trace, parse};
use std::alloc::Global;

/// Why there is no trace.
#[derive(Clone, Copy, Debug, PartialEq, Eq)]
pub enum InputError {
    /// The input is not what was asked for, or has too many bytes.
    Refused { bad: Bad },
    /// The source failed.
    Failed,
    Memory,
}

/// The trace of this kind that the source has left.
pub fn trace_in<S: Source>(alloc: Global, kind: Kind, source: &mut S) -> Result<Trace, InputError>
    ensures trace { IfOk result (λ trace. IfSome (S.left source.old) (TellsTrace kind trace)) }
    ensures good { IfOk result (λ trace. IsTrace kind trace) }
    ensures refused { (bad : Bad) → result ≡ Err (InputError.Refused bad)
        → IfSome (S.left source.old) (TellsBad kind bad) }
    ensures failed { IsErrOf result InputError.Failed
        → HasRisen (S.faults source.old) (S.faults source.new) }
{
    let input = match read_all(alloc, source) {
        Ok(input) => input,
        Err(ReadError::TooLarge) => return Err(refused(0, Why::TooLarge)),
        Err(ReadError::Failed) => return Err(InputError::Failed),
        Err(ReadError::Memory) => return Err(InputError::Memory),
    };
    match parse(alloc, kind, &input) {
        Ok(trace) => Ok(trace),
        Err(TraceRefused::Bad { line, why }) => Err(refused(line, why)),
        Err(TraceRefused::NoMemory) => Err(InputError::Memory),
    }
}

/// The refusal of a line, by its number and reason.
pub(crate) fn refused(line: u32, why: Why) -> InputError
    ensures { result ≡ InputError.Refused (record { line = line; why = why }) }
{
    InputError::Refused {
        bad: Bad { line, why },
    }
}
