// Bytes as they stand in words.
ghost use Rattle.std.specs.Prelude.{◌≡◌, ◌≤◌, ◌<◌, ◌*◌, ◌++◌, length, take, drop, slice_index};
ghost use Rattle.eleos_words.specs.declared.layout.TheConstants.{MOST_BYTES, WORD_BYTES};
ghost use Rattle.eleos_words.specs.Bytes.{word_in, words_for, bytes_of_word, with_word_at};

use crate::layout::WORD_BYTES;

/// How many words so many bytes need.
pub fn words_for(count: usize) -> u32
    requires { count ≤ MOST_BYTES }
    ensures { result ≡ words_for count }
{
    count.div_ceil(WORD_BYTES) as u32
}

/// Word j of the bytes: eight of them, the first one highest, zeros past the end.
#[tactic(auto, unfolding(crate::specs::Bytes::word_in))]
pub fn word_in(bytes: &[u8], j: u32) -> u64
    ensures { result ≡ word_in bytes.now j }
{
    let i = WORD_BYTES * j as usize;
    u64::from_be_bytes([
        byte_at(bytes, i),
        byte_at(bytes, i + 1),
        byte_at(bytes, i + 2),
        byte_at(bytes, i + 3),
        byte_at(bytes, i + 4),
        byte_at(bytes, i + 5),
        byte_at(bytes, i + 6),
        byte_at(bytes, i + 7),
    ])
}

// The byte, or 0 past the end.
fn byte_at(bytes: &[u8], i: usize) -> u8
    ensures { result ≡ slice_index bytes.now i }
{
    match bytes.get(i) {
        Some(byte) => *byte,
        None => 0,
    }
}

/// Puts the bytes of a word as word j, as many as there is room for.
pub fn put_word(buf: &mut [u8], j: u32, word: u64)
    requires room { WORD_BYTES * j < length buf.old }
    ensures { buf.new ≡ with_word_at buf.old j word }
{
    let from = WORD_BYTES * j as usize;
    let (_, rest) = buf.split_at_mut(from);
    put_front(rest, word);
}

// Puts the bytes of a word at the front, as many as there is room for.
#[tactic(auto, unfolding(crate::specs::Bytes::bytes_of_word))]
fn put_front(buf: &mut [u8], word: u64)
    ensures { buf.new ≡ take (length buf.old) (bytes_of_word word) ++ drop WORD_BYTES buf.old }
{
    let bytes = word.to_be_bytes();
    let count = buf.len().min(WORD_BYTES);
    buf[..count].copy_from_slice(&bytes[..count]);
}
