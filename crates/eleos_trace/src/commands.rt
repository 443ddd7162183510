// Commands of a caller on its memory, from the words of their lines.
ghost use Rattle.std.specs.Prelude.{◌≡◌, List, ℕ, map};
ghost use Rattle.eleos_trace.specs.Commands.{alloc_of, name_of, offset_of, read_of, write_of};
ghost use Rattle.eleos_texts.specs.Reasons.{Reads};

use crate::Word;
use crate::givers::Asked;
use eleos_base::Bytes;
use eleos_texts::counts::{one, three, two};
use eleos_texts::fields::{hex_bytes, is_name, is_numeral, number_u32};
use eleos_texts::{LineRefused, Why, refused};
use std::alloc::Global;

/// Bytes of a write.
pub(crate) const MOST_BYTES: usize = 2048;

/// `alloc NAME N` binds a new name.
pub(crate) fn alloc_of(alloc: Global, asked: &Asked, args: &[&[u8]]) -> Result<Word, LineRefused>
    ensures { Reads (λ x. x) result (alloc_of asked.now.header.now asked.now.seen.now
        asked.now.actor asked.now.givers (map (λ arg. arg.now) args.now)) }
{
    let (name, bytes) = two(args)?;
    asked.admit(is_name(name) && is_numeral(bytes))?;
    let Some(bytes) = number_u32(bytes) else {
        return refused(Why::Range);
    };
    if asked.is_bound(name) {
        return refused(Why::Name);
    }
    let name = Bytes::of(name.to_vec(alloc)?);
    Ok(Word::Alloc { name, bytes })
}

/// The name alone, which is bound: `free NAME` and `share NAME`.
pub(crate) fn name_of(alloc: Global, asked: &Asked, args: &[&[u8]]) -> Result<Bytes, LineRefused>
    ensures { Reads (λ x. x) result (name_of asked.now.header.now asked.now.seen.now
        asked.now.actor asked.now.givers (map (λ arg. arg.now) args.now)) }
{
    let name = one(args)?;
    asked.admit(is_name(name))?;
    if !asked.is_bound(name) {
        return refused(Why::Name);
    }
    Ok(Bytes::of(name.to_vec(alloc)?))
}

/// The name, which is bound, and the offset: `tie NAME OFFSET` and `untie NAME OFFSET`.
pub(crate) fn offset_of(
    alloc: Global,
    asked: &Asked,
    args: &[&[u8]],
) -> Result<(Bytes, u32), LineRefused>
    ensures { Reads (λ x. x) result (offset_of asked.now.header.now asked.now.seen.now
        asked.now.actor asked.now.givers (map (λ arg. arg.now) args.now)) }
{
    let (name, offset) = two(args)?;
    asked.admit(is_name(name) && is_numeral(offset))?;
    let Some(offset) = number_u32(offset) else {
        return refused(Why::Range);
    };
    if !asked.is_bound(name) {
        return refused(Why::Name);
    }
    Ok((Bytes::of(name.to_vec(alloc)?), offset))
}

/// `read NAME OFFSET N`
pub(crate) fn read_of(alloc: Global, asked: &Asked, args: &[&[u8]]) -> Result<Word, LineRefused>
    ensures { Reads (λ x. x) result (read_of asked.now.header.now asked.now.seen.now
        asked.now.actor asked.now.givers (map (λ arg. arg.now) args.now)) }
{
    let (name, offset, len) = three(args)?;
    asked.admit(is_name(name) && is_numeral(offset) && is_numeral(len))?;
    let (Some(offset), Some(len)) = (number_u32(offset), number_u32(len)) else {
        return refused(Why::Range);
    };
    if !asked.is_bound(name) {
        return refused(Why::Name);
    }
    let name = Bytes::of(name.to_vec(alloc)?);
    Ok(Word::Read { name, offset, len })
}

/// `write NAME OFFSET HEX`
pub(crate) fn write_of(alloc: Global, asked: &Asked, args: &[&[u8]]) -> Result<Word, LineRefused>
    ensures { Reads (λ x. x) result (write_of asked.now.header.now asked.now.seen.now
        asked.now.actor asked.now.givers (map (λ arg. arg.now) args.now)) }
{
    let (name, offset, text) = three(args)?;
    let Some(bytes) = hex_bytes(alloc, text)? else {
        return refused(Why::Form);
    };
    asked.admit(is_name(name) && is_numeral(offset))?;
    let Some(offset) = number_u32(offset) else {
        return refused(Why::Range);
    };
    if bytes.len() > MOST_BYTES {
        return refused(Why::Range);
    }
    if !asked.is_bound(name) {
        return refused(Why::Name);
    }
    let name = Bytes::of(name.to_vec(alloc)?);
    Ok(Word::Write {
        name,
        offset,
        bytes,
    })
}
