// Vectors from the lines of a text.
ghost use Rattle.std.specs.Prelude.{◌≡◌, ◌≤◌, List, ℕ, map, length};
ghost use Rattle.std.specs.List.{slice_split};
ghost use Rattle.eleos_texts.specs.Fields.{is_newline};
ghost use Rattle.eleos_texts.specs.Texts.{most_text};
ghost use Rattle.eleos_texts.specs.Reasons.{Reads, Gives};
ghost use Rattle.eleos_vectors.specs.Vectors.{aes_of, seal_of, open_of, vector_of};
ghost use Rattle.eleos_vectors.specs.Vectors.{vectors_of, vectors_in};

use crate::keys::{Key, block_of, nonce_of};
use crate::vector::{ShortText, Vector};
use eleos_texts::counts::{five, four, one_and_more, two};
use eleos_texts::fields::hex_bytes;
use eleos_texts::splits::{first_line, words_of};
use eleos_texts::{
    LineRefused, MOST_TEXT, TraceRefused, Why, at_line, is_end, nothing_after, refused,
};
use std::alloc::Global;

fn aes_of(alloc: Global, args: &[&[u8]]) -> Result<Vector, LineRefused>
    ensures { Reads (λ vector. vector) result (aes_of (map (λ arg. arg.now) args.now)) }
{
    let (key, block) = two(args)?;
    let (Some(key), Some(block)) = (hex_bytes(alloc, key)?, hex_bytes(alloc, block)?) else {
        return refused(Why::Form);
    };
    let (Some(key), Some(block)) = (Key::of(key), block_of(block.as_slice())) else {
        return refused(Why::Range);
    };
    Ok(Vector::Aes { key, block })
}

fn seal_of(alloc: Global, args: &[&[u8]]) -> Result<Vector, LineRefused>
    ensures { Reads (λ vector. vector) result (seal_of (map (λ arg. arg.now) args.now)) }
{
    let (key, nonce, aad, text) = four(args)?;
    let (Some(key), Some(nonce), Some(aad), Some(text)) = (
        hex_bytes(alloc, key)?,
        hex_bytes(alloc, nonce)?,
        hex_bytes(alloc, aad)?,
        hex_bytes(alloc, text)?,
    ) else {
        return refused(Why::Form);
    };
    let (Some(key), Some(nonce), Some(aad), Some(text)) = (
        Key::of(key),
        nonce_of(nonce.as_slice()),
        ShortText::of(aad),
        ShortText::of(text),
    ) else {
        return refused(Why::Range);
    };
    Ok(Vector::Seal {
        key,
        nonce,
        aad,
        text,
    })
}

fn open_of(alloc: Global, args: &[&[u8]]) -> Result<Vector, LineRefused>
    ensures { Reads (λ vector. vector) result (open_of (map (λ arg. arg.now) args.now)) }
{
    let (key, nonce, aad, ciphertext, tag) = five(args)?;
    let (Some(key), Some(nonce), Some(aad), Some(ciphertext), Some(tag)) = (
        hex_bytes(alloc, key)?,
        hex_bytes(alloc, nonce)?,
        hex_bytes(alloc, aad)?,
        hex_bytes(alloc, ciphertext)?,
        hex_bytes(alloc, tag)?,
    ) else {
        return refused(Why::Form);
    };
    let (Some(key), Some(nonce), Some(aad), Some(ciphertext), Some(tag)) = (
        Key::of(key),
        nonce_of(nonce.as_slice()),
        ShortText::of(aad),
        ShortText::of(ciphertext),
        block_of(tag.as_slice()),
    ) else {
        return refused(Why::Range);
    };
    Ok(Vector::Open {
        key,
        nonce,
        aad,
        ciphertext,
        tag,
    })
}

fn vector_of(alloc: Global, words: &[&[u8]]) -> Result<Vector, LineRefused>
    ensures { Reads (λ vector. vector) result (vector_of (map (λ word. word.now) words.now)) }
{
    let (verb, args) = one_and_more(words)?;
    if verb == b"aes".as_slice() {
        aes_of(alloc, args)
    } else if verb == b"seal".as_slice() {
        seal_of(alloc, args)
    } else if verb == b"open".as_slice() {
        open_of(alloc, args)
    } else {
        refused(Why::Form)
    }
}

/// The vectors of a text, or its first bad line.
#[tactic(auto, unfolding(crate::specs::Vectors::vectors_in))]
pub fn vectors_in(alloc: Global, input: &[u8]) -> Result<Vec<Vector>, TraceRefused>
    ensures { Gives (λ vectors. vectors.items) result (vectors_in input.now) }
{
    if input.len() > MOST_TEXT as usize {
        return Err(TraceRefused::Bad {
            line: 0,
            why: Why::TooLarge,
        });
    }
    vectors_of(alloc, input)
}

/// The vectors of lines, up to the `end` line.
fn vectors_of(alloc: Global, text: &[u8]) -> Result<Vec<Vector>, TraceRefused>
    requires { length text.now ≤ most_text }
    ensures { Gives (λ vectors. vectors.items) result
        (vectors_of 1 (slice_split is_newline text.now)) }
{
    let mut vectors = Vec::new(alloc);
    let mut rest = text;
    let mut line = 1;
    while let Some((front, after)) = first_line(rest) {
        if is_end(front) {
            nothing_after(line + 1, after)?;
            return Ok(vectors);
        }
        let words = words_of(alloc, front)?;
        let vector = at_line(line, vector_of(alloc, &words))?;
        vectors.push(vector)?;
        rest = after;
        line += 1;
    }
    Err(TraceRefused::Bad {
        line,
        why: Why::Cut,
    })
}
