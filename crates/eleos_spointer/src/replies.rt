// What an access answers, as the reply of its entry.
ghost use Rattle.std.specs.Prelude.{◌≡◌, ◌≤◌, [], length};
ghost use Rattle.eleos_base.specs.Answers.{access_refusal_reply, read_reply, write_reply};
ghost use Rattle.eleos_plot.specs.Refs.{reply_bytes, reply_of};

use eleos_base::AccessRefused;
use eleos_plot::ReplyRef;

/// What a read that left this text answers, as a reply.
pub(crate) fn read_reply<'a>(answer: Result<(), AccessRefused>, text: &'a [u8]) -> ReplyRef<'a>
    ensures reply { reply_of result ≡ read_reply answer text.now }
    ensures bytes { length (reply_bytes result) ≤ length text.now }
{
    match answer {
        Ok(()) => ReplyRef::Text(text),
        Err(refused) => refusal_reply(refused),
    }
}

/// What a write answers, as a reply.
pub(crate) fn write_reply<'a>(answer: Result<(), AccessRefused>) -> ReplyRef<'a>
    ensures reply { reply_of result ≡ write_reply answer }
    ensures bytes { reply_bytes result ≡ [] }
{
    match answer {
        Ok(()) => ReplyRef::Done,
        Err(refused) => refusal_reply(refused),
    }
}

/// The refusal as a reply.
fn refusal_reply<'a>(refused: AccessRefused) -> ReplyRef<'a>
    ensures reply { reply_of result ≡ access_refusal_reply refused }
    ensures bytes { reply_bytes result ≡ [] }
{
    match refused {
        AccessRefused::BadRange => ReplyRef::BadRange,
        AccessRefused::Unallocated => ReplyRef::Unallocated,
        AccessRefused::NotYours { owner } => ReplyRef::NotYours { owner },
        AccessRefused::Worn { sub } => ReplyRef::Worn { sub },
        AccessRefused::Tampered { sub } => ReplyRef::Tampered { sub },
    }
}
