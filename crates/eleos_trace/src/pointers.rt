// The tests of commands on pointers, which are not built yet: no line binds a pointer.
ghost use Rattle.std.specs.Prelude.{◌≡◌, List, ℕ, map};
ghost use Rattle.eleos_trace.specs.Pointers.{is_signed, is_step, of_pointer, point_of, copy_of};
ghost use Rattle.eleos_trace.specs.Pointers.{pointer_of, step_of, read_at_of, write_at_of};
ghost use Rattle.eleos_texts.specs.Reasons.{Reads};

use crate::commands::MOST_BYTES;
use crate::givers::Asked;
use eleos_texts::counts::{one, two};
use eleos_texts::fields::{hex_bytes, is_name, is_numeral, number_u32, number_up_to};
use eleos_texts::{LineRefused, Why, refused};
use std::alloc::Global;

/// Whether it is a number, with a minus before it where it is below zero.
fn is_signed(text: &[u8]) -> bool
    ensures { result ≡ is_signed text.now }
{
    match text {
        [b'-', digits @ ..] => is_numeral(digits) && digits != b"0".as_slice(),
        _ => is_numeral(text),
    }
}

/// Whether it is a number of 32 bits with its sign.
fn is_step(text: &[u8]) -> bool
    ensures { result ≡ is_step text.now }
{
    match text {
        [] => false,
        [b'-', digits @ ..] => number_up_to(digits, 1 << 31).is_some(),
        _ => number_up_to(text, (1 << 31) - 1).is_some(),
    }
}

/// The tests of a command on a pointer, which has its form and its range or not.
fn of_pointer(asked: &Asked, form: bool, range: bool) -> Result<(), LineRefused>
    ensures { Reads (λ x. x) result (of_pointer asked.now.header.now asked.now.seen.now
        asked.now.actor asked.now.givers form range) }
{
    asked.admit(form)?;
    if !range {
        return refused(Why::Range);
    }
    refused(Why::Name)
}

/// `point PTR NAME`
pub(crate) fn point_of(asked: &Asked, args: &[&[u8]]) -> Result<(), LineRefused>
    ensures { Reads (λ x. x) result (point_of asked.now.header.now asked.now.seen.now
        asked.now.actor asked.now.givers (map (λ arg. arg.now) args.now)) }
{
    let (pointer, name) = two(args)?;
    asked.admit(is_name(pointer) && is_name(name))?;
    if asked.is_bound(pointer) || !asked.is_bound(name) {
        return refused(Why::Name);
    }
    Ok(())
}

/// `copy PTR PTR`
pub(crate) fn copy_of(asked: &Asked, args: &[&[u8]]) -> Result<(), LineRefused>
    ensures { Reads (λ x. x) result (copy_of asked.now.header.now asked.now.seen.now
        asked.now.actor asked.now.givers (map (λ arg. arg.now) args.now)) }
{
    let (pointer, other) = two(args)?;
    of_pointer(asked, is_name(pointer) && is_name(other), true)
}

/// The pointer alone: `drop PTR`, `link PTR` and `unlink PTR`.
pub(crate) fn pointer_of(asked: &Asked, args: &[&[u8]]) -> Result<(), LineRefused>
    ensures { Reads (λ x. x) result (pointer_of asked.now.header.now asked.now.seen.now
        asked.now.actor asked.now.givers (map (λ arg. arg.now) args.now)) }
{
    let pointer = one(args)?;
    of_pointer(asked, is_name(pointer), true)
}

/// `step PTR N`
pub(crate) fn step_of(asked: &Asked, args: &[&[u8]]) -> Result<(), LineRefused>
    ensures { Reads (λ x. x) result (step_of asked.now.header.now asked.now.seen.now
        asked.now.actor asked.now.givers (map (λ arg. arg.now) args.now)) }
{
    let (pointer, bytes) = two(args)?;
    let form = is_name(pointer) && is_signed(bytes);
    of_pointer(asked, form, is_step(bytes))
}

/// `sread PTR N`
pub(crate) fn read_at_of(asked: &Asked, args: &[&[u8]]) -> Result<(), LineRefused>
    ensures { Reads (λ x. x) result (read_at_of asked.now.header.now asked.now.seen.now
        asked.now.actor asked.now.givers (map (λ arg. arg.now) args.now)) }
{
    let (pointer, len) = two(args)?;
    if !is_numeral(len) {
        return refused(Why::Form);
    }
    of_pointer(asked, is_name(pointer), number_u32(len).is_some())
}

/// `swrite PTR HEX`
pub(crate) fn write_at_of(alloc: Global, asked: &Asked, args: &[&[u8]]) -> Result<(), LineRefused>
    ensures { Reads (λ x. x) result (write_at_of asked.now.header.now asked.now.seen.now
        asked.now.actor asked.now.givers (map (λ arg. arg.now) args.now)) }
{
    let (pointer, hex) = two(args)?;
    let Some(bytes) = hex_bytes(alloc, hex)? else {
        return refused(Why::Form);
    };
    of_pointer(asked, is_name(pointer), bytes.len() <= MOST_BYTES)
}
