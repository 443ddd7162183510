// All bytes of a source, and all bytes into a sink.
ghost use Rattle.std.specs.Prelude.{◌≡◌, ◌<◌, ◌≤◌, ℕ, List, length, take, IfOk, OnOk, OnErr};
ghost use Rattle.std.specs.Prelude.{IsErrOf, IfSome};
ghost use Rattle.std.specs.Io.KnownBytes.{Appends};
ghost use Rattle.eleos_base.specs.Outside.{HasRisen};

use eleos_base::{Failed, Sink, Source};
use eleos_texts::MOST_TEXT;
use memchr::memchr;
use std::alloc::Global;

/// Bytes that a source is asked for at once.
const PIECE: usize = 65_536;

#[derive(Clone, Copy, Debug, PartialEq, Eq)]
pub enum ReadError {
    Failed,
    TooLarge,
    Memory,
}

/// The bytes that a source has left, to its end.
pub fn read_all<S: Source>(alloc: Global, source: &mut S) -> Result<Vec<u8>, ReadError>
    ensures all { IfOk result (λ input. IfSome (S.left source.old) (λ left. input.items ≡ left)) }
    ensures most { IfOk result (λ input. length input.items ≤ 16777216) }
    ensures large { IsErrOf result ReadError.TooLarge
        → IfSome (S.left source.old) (λ left. 16777216 < length left) }
    ensures failed { IsErrOf result ReadError.Failed
        → HasRisen (S.faults source.old) (S.faults source.new) }
{
    let mut input = Vec::new(alloc);
    let mut piece = [0; PIECE];
    loop {
        let Ok(count) = source.take(&mut piece) else {
            return Err(ReadError::Failed);
        };
        if count == 0 {
            return Ok(input);
        }
        if count > MOST_TEXT as usize - input.len() {
            return Err(ReadError::TooLarge);
        }
        if input.extend_from_slice(&piece[..count]).is_err() {
            return Err(ReadError::Memory);
        }
    }
}

/// Puts the text whole, or a front of it where the sink fails.
pub fn put_all<K: Sink>(sink: &mut K, text: &[u8]) -> Result<(), Failed>
    ensures all { OnOk result (Appends (K.got sink.old) (K.got sink.new) text.now) }
    ensures front { (count : ℕ) × Appends (K.got sink.old) (K.got sink.new) (take count text.now) }
    ensures later { K.faults sink.old ≤ K.faults sink.new }
    ensures failed { OnErr result (HasRisen (K.faults sink.old) (K.faults sink.new)) }
{
    let mut done = 0;
    while done < text.len() {
        let count = sink.put(&text[done..])?;
        if count == 0 {
            return Err(Failed);
        }
        done += count;
    }
    Ok(())
}

/// Puts the text line by line, or a front of it where the sink fails.
pub fn put_lines<K: Sink>(sink: &mut K, text: &[u8]) -> Result<(), Failed>
    ensures all { OnOk result (Appends (K.got sink.old) (K.got sink.new) text.now) }
    ensures front { (count : ℕ) × Appends (K.got sink.old) (K.got sink.new) (take count text.now) }
    ensures failed { OnErr result (HasRisen (K.faults sink.old) (K.faults sink.new)) }
{
    let mut done = 0;
    while done < text.len() {
        let end = line_end(text, done);
        put_all(sink, &text[done..end])?;
        done = end;
    }
    Ok(())
}

/// Where the line that begins there ends, its newline included.
fn line_end(text: &[u8], from: usize) -> usize
    requires { from < length text.now }
    ensures later { from < result }
    ensures within { result ≤ length text.now }
{
    match memchr(b'\n', &text[from..]) {
        Some(count) => from + count + 1,
        None => text.len(),
    }
}
