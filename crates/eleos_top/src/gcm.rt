// The top call on vectors.
ghost use Rattle.std.specs.Prelude.{◌≡◌, ◌≢◌, ◌↔◌, [], ◌∷◌, map, codes, IfOk, IfSome, IsErrOf, Ok};
ghost use Rattle.std.specs.Prelude.{string_bytes};
ghost use Rattle.eleos_base.specs.Outside.{HasRisen};
ghost use Rattle.eleos_texts.specs.declared.why.Bad.{Bad};
ghost use Rattle.eleos_vectors.specs.Answers.{AnswersVectors};
ghost use Rattle.eleos_vectors.specs.Vectors.{vectors_in};
ghost use Rattle.eleos_top.specs.Outcome.{PutsBy};

use crate::input::{InputError, refused};
use crate::streams::{ReadError, put_all, read_all};
use crate::top::{is_only, refuse};
use eleos_base::{Sink, Source, Status};
use eleos_texts::{TraceRefused, Why};
use eleos_vectors::{Vector, answers, vectors_in};
use std::alloc::Global;

/// Answers vectors: reads them, asks the ciphers and puts what they say.
///
/// With status 0 the bytes put are the answers to the vectors; with another status nothing,
/// the line that refuses the input, or a front.
pub fn gcm_top<S: Source, K: Sink>(
    alloc: Global,
    words: &[String],
    source: &mut S,
    sink: &mut K,
) -> Status
    ensures puts { PutsBy vectors_in AnswersVectors result (S.left source.old)
        (K.got sink.old) (K.got sink.new) (K.faults sink.old) (K.faults sink.new) }
    ensures usage { (result ≡ Status.Usage)
        ↔ (map (λ word. string_bytes word) words.now ≢ codes "gcm" ∷ []) }
    ensures read_fault { result ≡ Status.ReadFault
        → HasRisen (S.faults source.old) (S.faults source.new) }
    ensures write_fault { result ≡ Status.WriteFault
        → HasRisen (K.faults sink.old) (K.faults sink.new) }
    ensures always_legal { result ≢ Status.NotLegal }
{
    if !is_only(words, "gcm") {
        return Status::Usage;
    }
    let vectors = match vectors_from(alloc, source) {
        Ok(vectors) => vectors,
        Err(InputError::Refused { bad }) => return refuse(alloc, sink, bad),
        Err(InputError::Failed) => return Status::ReadFault,
        Err(InputError::Memory) => return Status::Memory,
    };
    let Ok(text) = answers(alloc, vectors) else {
        return Status::Memory;
    };
    match put_all(sink, &text) {
        Ok(()) => Status::Done,
        Err(_) => Status::WriteFault,
    }
}

/// The vectors that the source has left.
fn vectors_from<S: Source>(alloc: Global, source: &mut S) -> Result<Vec<Vector>, InputError>
    ensures vectors { IfOk result (λ vectors.
        IfSome (S.left source.old) (λ input. vectors_in input ≡ Ok vectors.items)) }
    ensures refused { (bad : Bad) → result ≡ Err (InputError.Refused bad)
        → IfSome (S.left source.old) (λ input. vectors_in input ≡ Err bad) }
    ensures failed { IsErrOf result InputError.Failed
        → HasRisen (S.faults source.old) (S.faults source.new) }
{
    let input = match read_all(alloc, source) {
        Ok(input) => input,
        Err(ReadError::TooLarge) => return Err(refused(0, Why::TooLarge)),
        Err(ReadError::Failed) => return Err(InputError::Failed),
        Err(ReadError::Memory) => return Err(InputError::Memory),
    };
    match vectors_in(alloc, &input) {
        Ok(vectors) => Ok(vectors),
        Err(TraceRefused::Bad { line, why }) => Err(refused(line, why)),
        Err(TraceRefused::NoMemory) => Err(InputError::Memory),
    }
}
