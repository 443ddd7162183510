// Calls of the host, from the words of their lines.
ghost use Rattle.std.specs.Prelude.{◌≡◌, List, ℕ, map};
ghost use Rattle.eleos_trace.specs.Calls.{call_text, call_named, call_of};
ghost use Rattle.eleos_texts.specs.Reasons.{Reads};

use crate::givers::Asked;
use crate::{CallWord, Word};
use eleos_texts::counts::three;
use eleos_texts::fields::{hex_bytes, is_numeral, number_up_to};
use eleos_texts::{LineRefused, Why, refused};
use std::alloc::Global;

/// Bytes of a call, and of the room for its reply.
const MOST_CALL: usize = 1024;

impl CallWord {
    /// The call as a line spells it.
    pub fn text(self) -> &'static [u8]
        ensures { result.now ≡ call_text self }
    {
        match self {
            CallWord::Echo => b"echo",
            CallWord::Put => b"put",
            CallWord::Get => b"get",
            CallWord::Cut => b"cut",
            CallWord::Clock => b"clock",
        }
    }

    /// The call that a word of a line spells, if any.
    pub fn named(word: &[u8]) -> Option<CallWord>
        ensures { result ≡ call_named word.now }
    {
        if word == b"echo".as_slice() {
            Some(CallWord::Echo)
        } else if word == b"put".as_slice() {
            Some(CallWord::Put)
        } else if word == b"get".as_slice() {
            Some(CallWord::Get)
        } else if word == b"cut".as_slice() {
            Some(CallWord::Cut)
        } else if word == b"clock".as_slice() {
            Some(CallWord::Clock)
        } else {
            None
        }
    }
}

/// `call WORD HEX ROOM`
pub(crate) fn call_of(alloc: Global, asked: &Asked, args: &[&[u8]]) -> Result<Word, LineRefused>
    ensures { Reads (λ x. x) result (call_of asked.now.header.now asked.now.seen.now
        asked.now.actor asked.now.givers (map (λ arg. arg.now) args.now)) }
{
    let (word, hex, room) = three(args)?;
    let Some(call) = CallWord::named(word) else {
        return refused(Why::Form);
    };
    let Some(bytes) = hex_bytes(alloc, hex)? else {
        return refused(Why::Form);
    };
    asked.admit(is_numeral(room))?;
    if bytes.len() > MOST_CALL {
        return refused(Why::Range);
    }
    let Some(room) = number_up_to(room, MOST_CALL as u64) else {
        return refused(Why::Range);
    };
    let room = room as u32;
    Ok(Word::Call { call, bytes, room })
}
