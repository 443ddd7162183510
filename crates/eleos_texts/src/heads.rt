// Lines that headers of several texts have.
ghost use Rattle.std.specs.Prelude.{◌≡◌, List, ℕ, map};
ghost use Rattle.eleos_texts.specs.Fields.{is_key_length};
ghost use Rattle.eleos_texts.specs.Heads.{key_line, start_line};
ghost use Rattle.eleos_texts.specs.Reasons.{Reads};

use crate::counts::{one, two};
use crate::fields::hex_bytes;
use crate::{LineRefused, Why, refused};
use eleos_base::Bytes;
use std::alloc::Global;

/// The bytes of `key HEX`: 16, 24 or 32.
pub fn key_line(alloc: Global, words: &[&[u8]]) -> Result<Bytes, LineRefused>
    ensures { Reads (λ x. x) result (key_line (map (λ word. word.now) words.now)) }
{
    let (first, key) = two(words)?;
    if first != b"key".as_slice() {
        return refused(Why::Form);
    }
    let Some(key) = hex_bytes(alloc, key)? else {
        return refused(Why::Form);
    };
    if !is_key_length(key.len()) {
        return refused(Why::Range);
    }
    Ok(key)
}

/// Whether a key may have so many bytes.
pub fn is_key_length(bytes: usize) -> bool
    ensures { result ≡ is_key_length bytes }
{
    bytes == 16 || bytes == 24 || bytes == 32
}

/// `start`
pub fn start_line(words: &[&[u8]]) -> Result<(), LineRefused>
    ensures { Reads (λ x. x) result (start_line (map (λ word. word.now) words.now)) }
{
    if one(words)? != b"start".as_slice() {
        return refused(Why::Form);
    }
    Ok(())
}
