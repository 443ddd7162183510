// The words of a call, and the line that refuses an input.
ghost use Rattle.std.specs.Prelude.{◌≡◌, ◌↔◌, ◌⊎◌, [], ◌∷◌, map, IsTrue, IfOk, string_bytes};
ghost use Rattle.std.specs.Io.KnownBytes.{Keeps};
ghost use Rattle.eleos_top.specs.Outcome.{PutsFront, refused_text};

use crate::streams::put_all;
use eleos_base::{NoMemory, Sink, Status};
use eleos_texts::Bad;
use eleos_texts::printing::{push, push_number};
use std::alloc::Global;

/// Whether this is the only word.
pub fn is_only(words: &[String], name: &str) -> bool
    ensures { IsTrue result ↔ (map (λ word. string_bytes word) words.now ≡ name.now ∷ []) }
{
    match words {
        [word] => is_word(word.as_str(), name),
        _ => false,
    }
}

/// Whether the word is spelled so.
pub fn is_word(word: &str, name: &str) -> bool
    ensures { IsTrue result ↔ (word.now ≡ name.now) }
{
    word == name
}

/// Puts the line that refuses an input. Want of memory puts nothing.
pub fn refuse<K: Sink>(alloc: Global, sink: &mut K, bad: Bad) -> Status
    ensures line { result ≡ Status.Refused → PutsFront (refused_text bad)
        (K.got sink.old) (K.got sink.new) (K.faults sink.old) (K.faults sink.new) }
    ensures memory { result ≡ Status.Memory → Keeps (K.got sink.old) (K.got sink.new) }
    ensures only { (result ≡ Status.Refused) ⊎ (result ≡ Status.Memory) }
{
    let Ok(text) = refused_text(alloc, bad) else {
        return Status::Memory;
    };
    // a sink that fails here has a front of the line; the refusal stands
    match put_all(sink, &text) {
        Ok(()) => Status::Refused,
        Err(_) => Status::Refused,
    }
}

fn refused_text(alloc: Global, bad: Bad) -> Result<Vec<u8>, NoMemory>
    ensures { IfOk result (λ text. text.items ≡ refused_text bad) }
{
    let mut text = Vec::new(alloc);
    push(&mut text, b"refused ")?;
    push_number(alloc, &mut text, u64::from(bad.line))?;
    push(&mut text, b" ")?;
    push(&mut text, bad.why.word())?;
    push(&mut text, b"\n")?;
    Ok(text)
}
