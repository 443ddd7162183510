// Pieces of text.
ghost use Rattle.std.specs.Prelude.{◌≡◌, ◌≤◌, ◌<◌, ◌+◌, ◌^◌, ◌++◌, ◌*◌, ◌∷◌, [], length, OnOk};
ghost use Rattle.std.specs.Prelude.{vec_len, vec_capacity};
ghost use Rattle.std.specs.Fmt.{decimal};
ghost use Rattle.eleos_texts.specs.Texts.{end_text, hex_length, hex_text};

use crate::digits::write_pairs;
use eleos_base::NoMemory;
use std::alloc::Global;

/// Adds the text.
///
/// # Errors
/// Want of memory.
pub fn push(out: &mut Vec<u8>, text: &[u8]) -> Result<(), NoMemory>
    ensures { OnOk result (out.new.items ≡ out.old.items ++ text.now) }
{
    Ok(out.extend_from_slice(text)?)
}

/// Adds the number in decimal digits.
pub fn push_number(alloc: Global, out: &mut Vec<u8>, number: u64) -> Result<(), NoMemory>
    ensures { OnOk result (out.new.items ≡ out.old.items ++ decimal number) }
{
    let text = number.to_string(alloc)?;
    push(out, text.as_bytes())
}

/// Adds the text in room that was reserved.
pub fn push_within(out: &mut Vec<u8>, text: &[u8])
    requires { vec_len out.old + length text.now ≤ vec_capacity out.old }
    ensures text { out.new.items ≡ out.old.items ++ text.now }
    ensures len { vec_len out.new ≡ vec_len out.old + length text.now }
    ensures capacity { vec_capacity out.old ≤ vec_capacity out.new }
{
    let Ok(()) = out.extend_from_slice(text) else {
        unreachable!()
    };
}

/// Bytes of the text of so many bytes in hex.
pub fn hex_length(bytes: usize) -> usize
    requires { 2 * bytes < 2 ^ 64 }
    ensures { result ≡ hex_length bytes }
{
    if bytes == 0 { 1 } else { 2 * bytes }
}

/// Adds the bytes in hex, where a dash stands for none, in room that was reserved.
pub fn push_hex(out: &mut Vec<u8>, bytes: &[u8])
    requires { vec_len out.old + hex_length (length bytes.now) ≤ vec_capacity out.old }
    ensures text { out.new.items ≡ out.old.items ++ hex_text bytes.now }
    ensures len { vec_len out.new ≡ vec_len out.old + hex_length (length bytes.now) }
    ensures capacity { vec_capacity out.old ≤ vec_capacity out.new }
{
    if bytes.is_empty() {
        push_within(out, b"-");
        return;
    }
    let start = out.len();
    let Ok(()) = out.resize(start + 2 * bytes.len(), 0) else {
        unreachable!()
    };
    write_pairs(&mut out[start..], bytes);
}

/// A blank, and then the text.
pub fn push_field(out: &mut Vec<u8>, text: &[u8]) -> Result<(), NoMemory>
    ensures { OnOk result (out.new.items ≡ out.old.items ++ 32 ∷ text.now) }
{
    push(out, b" ")?;
    push(out, text)
}

/// A blank, and then the number.
pub fn push_number_field(alloc: Global, out: &mut Vec<u8>, number: u32) -> Result<(), NoMemory>
    ensures { OnOk result (out.new.items ≡ out.old.items ++ 32 ∷ decimal number) }
{
    push(out, b" ")?;
    push_number(alloc, out, u64::from(number))
}

/// A blank, and then the bytes in hex.
pub fn push_hex_field(out: &mut Vec<u8>, bytes: &[u8]) -> Result<(), NoMemory>
    ensures { OnOk result (out.new.items ≡ out.old.items ++ 32 ∷ hex_text bytes.now) }
{
    push(out, b" ")?;
    if bytes.len() > usize::MAX / 2 {
        return Err(NoMemory);
    }
    out.reserve(hex_length(bytes.len()))?;
    push_hex(out, bytes);
    Ok(())
}

/// A blank and a word, and then a blank and a number.
pub fn push_numbered(
    alloc: Global,
    out: &mut Vec<u8>,
    word: &[u8],
    number: u32,
) -> Result<(), NoMemory>
    ensures { OnOk result
        (out.new.items ≡ out.old.items ++ (32 ∷ word.now ++ 32 ∷ decimal number)) }
{
    push_field(out, word)?;
    push_number_field(alloc, out, number)
}

/// The last line of a log, or of the answers to vectors.
pub fn push_end(alloc: Global, out: &mut Vec<u8>, count: u64) -> Result<(), NoMemory>
    ensures { OnOk result (out.new.items ≡ out.old.items ++ end_text count) }
{
    push(out, b"end ")?;
    push_number(alloc, out, count)?;
    push(out, b"\n")
}
