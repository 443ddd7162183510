// What the ciphers answer.
ghost use Rattle.std.specs.Prelude.{◌≡◌, ◌++◌, ◌+◌, ◌<◌, ◌≤◌, ◌^◌, length, IfOk, SomeIff};
ghost use Rattle.std.specs.Prelude.{vec_capacity, vec_len};
ghost use Rattle.eleos_base.specs.AesCipher.{aes};
ghost use Rattle.eleos_base.specs.Gcm.{ciphertext_of};
ghost use Rattle.eleos_texts.specs.Texts.{hex_text};
ghost use Rattle.eleos_vectors.specs.Answers.{sealed_text, opened_text, answer_text};
ghost use Rattle.eleos_vectors.specs.Answers.{answers_text, vector_text};
ghost use Rattle.eleos_vectors.specs.Rooms.{answer_room, answers_room, opened_room, sealed_room};

use crate::keys::{KeptSealer, Key, keep, kept_sealer};
use crate::vector::Vector;
use eleos_base::{NoMemory, Sealer};
use eleos_gcm::Gcm;
use eleos_texts::printing::{push_end, push_hex, push_within};
use std::alloc::Global;

/// Bytes of the last line: `end`, a blank, the digits of a number and a newline.
const MOST_END: usize = 25;

/// The answers to vectors, a line for each, and their number. Each is answered in place.
pub fn answers(alloc: Global, vectors: Vec<Vector>) -> Result<Vec<u8>, NoMemory>
    ensures { IfOk result (λ text. text.items ≡ answers_text vectors.items) }
{
    let Some(room) = answer_room(&vectors) else {
        return Err(NoMemory);
    };
    let mut text = Vec::with_capacity(alloc, room)?;
    let count = vectors.len() as u64;
    let mut kept = None;
    for vector in vectors {
        push_answer(&mut text, &mut kept, vector);
    }
    push_end(alloc, &mut text, count)?;
    Ok(text)
}

/// Bytes that the answers have room in: those of the longest answers to such vectors. None comes
/// where no number of 64 bits says so many.
pub fn answer_room(vectors: &[Vector]) -> Option<usize>
    ensures { SomeIff result (answers_room vectors.now < 2 ^ 64) (answers_room vectors.now) }
{
    let mut room = MOST_END;
    for vector in vectors {
        room = room.checked_add(vector.answer_room())?;
    }
    Some(room)
}

/// Adds the line that answers the vector, for which there is room.
fn push_answer(out: &mut Vec<u8>, kept: &mut Option<KeptSealer>, vector: Vector)
    requires { vec_len out.old + answer_room vector ≤ vec_capacity out.old }
    ensures text { out.new.items ≡ out.old.items ++ answer_text vector }
    ensures within { vec_len out.new ≤ vec_len out.old + answer_room vector }
    ensures capacity { vec_capacity out.old ≤ vec_capacity out.new }
{
    push_vector(out, kept, vector);
    push_within(out, b"\n");
}

/// Adds the answer to the vector, and leaves room for a newline.
fn push_vector(out: &mut Vec<u8>, kept: &mut Option<KeptSealer>, vector: Vector)
    requires { vec_len out.old + answer_room vector ≤ vec_capacity out.old }
    ensures text { out.new.items ≡ out.old.items ++ vector_text vector }
    ensures within { vec_len out.new < vec_len out.old + answer_room vector }
    ensures capacity { vec_capacity out.old ≤ vec_capacity out.new }
{
    match vector {
        Vector::Aes { key, block } => push_encrypted(out, &key, &block),
        Vector::Seal {
            key,
            nonce,
            aad,
            text,
        } => {
            keep(kept, key);
            let mut text = text.into_vec();
            push_sealed(out, kept_sealer(kept), &nonce, aad.as_slice(), &mut text)
        }
        Vector::Open {
            key,
            nonce,
            aad,
            ciphertext,
            tag,
        } => {
            keep(kept, key);
            let sealer = kept_sealer(kept);
            let mut ciphertext = ciphertext.into_vec();
            push_opened(out, sealer, &nonce, aad.as_slice(), &mut ciphertext, &tag)
        }
    }
}

fn push_encrypted(out: &mut Vec<u8>, key: &Key, block: &[u8; 16])
    requires { vec_len out.old + 33 ≤ vec_capacity out.old }
    ensures text { out.new.items ≡ out.old.items ++ hex_text (aes key.now block.now) }
    ensures within { vec_len out.new < vec_len out.old + 33 }
    ensures capacity { vec_capacity out.old ≤ vec_capacity out.new }
{
    let mut encrypted = *block;
    key.cipher().encrypt(&mut encrypted);
    push_hex(out, &encrypted);
}

fn push_sealed(out: &mut Vec<u8>, sealer: &Gcm, nonce: &[u8; 12], aad: &[u8], text: &mut [u8])
    requires aad_fits { length aad.now ≤ 1048576 }
    requires text_fits { length text.old ≤ 1048576 }
    requires room { vec_len out.old + sealed_room (length text.old) ≤ vec_capacity out.old }
    ensures text { out.new.items ≡ out.old.items
        ++ sealed_text sealer.now nonce.now aad.now (ciphertext_of sealer.now nonce.now text.old) }
    ensures within { vec_len out.new < vec_len out.old + sealed_room (length text.old) }
    ensures capacity { vec_capacity out.old ≤ vec_capacity out.new }
{
    let tag = sealer.seal(nonce, aad, text);
    push_hex(out, text);
    push_within(out, b" ");
    push_hex(out, &tag);
}

fn push_opened(
    out: &mut Vec<u8>,
    sealer: &Gcm,
    nonce: &[u8; 12],
    aad: &[u8],
    text: &mut [u8],
    tag: &[u8; 16],
)
    requires aad_fits { length aad.now ≤ 1048576 }
    requires text_fits { length text.old ≤ 1048576 }
    requires room { vec_len out.old + opened_room (length text.old) ≤ vec_capacity out.old }
    ensures text { out.new.items ≡ out.old.items
        ++ opened_text sealer.now nonce.now aad.now text.old tag.now }
    ensures within { vec_len out.new < vec_len out.old + opened_room (length text.old) }
    ensures capacity { vec_capacity out.old ≤ vec_capacity out.new }
{
    if sealer.unseal(nonce, aad, text, tag) {
        push_hex(out, text)
    } else {
        push_within(out, b"fail")
    }
}
