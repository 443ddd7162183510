// A session whose pieces are all there.
ghost use Rattle.std.specs.Prelude.{map, IfOk};
ghost use Rattle.std.specs.List.{concat};
ghost use Rattle.eleos_texts.specs.Reasons.{Gives};
ghost use Rattle.eleos_kvwire.specs.Reading.{session_of};
ghost use Rattle.eleos_kvwire.specs.Sessions.{IsSession};

use crate::{KvTrace, Session};
use eleos_texts::TraceRefused;
use std::alloc::Global;

/// The session whose text comes in these pieces, however it was cut.
///
/// # Errors
/// The first refusal of the text, or want of memory.
pub fn session_in(alloc: Global, pieces: &[&[u8]]) -> Result<KvTrace, TraceRefused>
    ensures exact { Gives (λ trace. trace) result
        (session_of (concat (map (λ piece. piece.now) pieces.now))) }
    ensures good { IfOk result (λ trace. IsSession trace) }
{
    let Ok(mut session) = Session::make(alloc) else {
        return Err(TraceRefused::NoMemory);
    };
    for piece in pieces {
        session.feed(piece)?;
    }
    session.finish()
}
