// The fields of a line: numbers, names, bytes and actors. A line that lacks one of them is of no
// form.
ghost use Rattle.std.specs.Prelude.{◌≡◌, ℕ, List, IfOk, map};
ghost use Rattle.std.specs.List.{slice_split};
ghost use Rattle.eleos_texts.specs.Fields.{most_u32};
ghost use Rattle.eleos_texts.specs.Reasons.{Reads};
ghost use Rattle.eleos_report.specs.Fields.{most_u64, number_of, name_of, bytes_of, block_of};
ghost use Rattle.eleos_report.specs.Fields.{optional_of, who_of, is_colon, looked_of};

use crate::Block;
use eleos_base::{Bytes, Looked};
use eleos_texts::counts::two;
use eleos_texts::fields::{hex_bytes, is_name, number_u32, number_up_to};
use eleos_texts::{LineRefused, Why, refused};
use eleos_trace::{Actor, actor_of};
use std::alloc::{AllocError, Global};

/// Bytes of a block.
const BLOCK_BYTES: usize = 1024;

/// A number of 32 bits.
pub(crate) fn number_of(text: &[u8]) -> Result<u32, LineRefused>
    ensures { Reads (λ n. n) result (number_of most_u32 text.now) }
{
    let Some(number) = number_u32(text) else {
        return refused(Why::Form);
    };
    Ok(number)
}

/// A number of 64 bits.
pub(crate) fn long_number_of(text: &[u8]) -> Result<u64, LineRefused>
    ensures { Reads (λ n. n) result (number_of most_u64 text.now) }
{
    let Some(number) = number_up_to(text, u64::MAX) else {
        return refused(Why::Form);
    };
    Ok(number)
}

pub(crate) fn name_of(alloc: Global, text: &[u8]) -> Result<Bytes, LineRefused>
    ensures { Reads (λ name. name) result (name_of text.now) }
{
    if !is_name(text) {
        return refused(Why::Form);
    }
    Ok(Bytes::of(text.to_vec(alloc)?))
}

/// Bytes in hex, where a dash stands for none.
pub(crate) fn bytes_of(alloc: Global, text: &[u8]) -> Result<Bytes, LineRefused>
    ensures { Reads (λ bytes. bytes) result (bytes_of text.now) }
{
    let Some(bytes) = hex_bytes(alloc, text)? else {
        return refused(Why::Form);
    };
    Ok(bytes)
}

/// The bytes of a block in hex.
pub(crate) fn block_of(alloc: Global, text: &[u8]) -> Result<Block, LineRefused>
    ensures { Reads (λ block. block) result (block_of text.now) }
{
    let block = bytes_of(alloc, text)?;
    if block.len() != BLOCK_BYTES {
        return refused(Why::Form);
    }
    Ok(block)
}

/// An enclave by its number, where a dash stands for the pool.
pub(crate) fn owner_of(text: &[u8]) -> Result<Option<u32>, LineRefused>
    ensures { Reads (λ owner. owner) result (optional_of most_u32 text.now) }
{
    if text == b"-".as_slice() {
        return Ok(None);
    }
    Ok(Some(number_of(text)?))
}

/// The place in the history, where a dash stands for none.
pub(crate) fn stamp_of(text: &[u8]) -> Result<Option<u64>, LineRefused>
    ensures { Reads (λ stamp. stamp) result (optional_of most_u64 text.now) }
{
    if text == b"-".as_slice() {
        return Ok(None);
    }
    Ok(Some(long_number_of(text)?))
}

pub(crate) fn who_of(text: &[u8]) -> Result<Actor, LineRefused>
    ensures { Reads (λ who. who) result (who_of text.now) }
{
    let Some(who) = actor_of(text) else {
        return refused(Why::Form);
    };
    Ok(who)
}

/// `FRAME:WORD`
pub(crate) fn looked_of(alloc: Global, text: &[u8]) -> Result<Looked, LineRefused>
    ensures { Reads (λ looked. looked) result (looked_of text.now) }
{
    let parts = parts_at_colons(alloc, text)?;
    let (frame, word) = two(&parts)?;
    let frame = number_of(frame)?;
    let word = long_number_of(word)?;
    Ok(Looked { frame, word })
}

fn parts_at_colons(alloc: Global, text: &[u8]) -> Result<Vec<&[u8]>, AllocError>
    ensures { IfOk result (λ parts.
        map (λ part. part.now) parts.items ≡ slice_split is_colon text.now) }
{
    Ok(text.split(|c| *c == b':').collect(alloc)?)
}
