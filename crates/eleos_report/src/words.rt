// The printed spelling of commands, and of who gives them.
ghost use Rattle.std.specs.Prelude.{◌≡◌, ◌++◌, ◌∷◌, OnOk};
ghost use Rattle.std.specs.Fmt.{decimal};
ghost use Rattle.eleos_trace.specs.Spelling.{actor_text, fields, owner_text};
ghost use Rattle.eleos_report.specs.Log.{spaced};

use eleos_base::NoMemory;
use eleos_texts::printing::{
    push, push_field, push_hex_field, push_number, push_number_field, push_numbered,
};
use eleos_trace::{Actor, Word};
use std::alloc::Global;

pub(crate) fn push_actor(alloc: Global, out: &mut Vec<u8>, actor: Actor) -> Result<(), NoMemory>
    ensures { OnOk result (out.new.items ≡ out.old.items ++ actor_text actor) }
{
    match actor {
        Actor::Caller(number) => {
            push(out, b"c")?;
            push_number(alloc, out, u64::from(number))
        }
        Actor::Swapper => push(out, b"s"),
        Actor::Balloon => push(out, b"b"),
        Actor::Host => push(out, b"h"),
    }
}

/// A command word by word, with a blank before each.
pub(crate) fn push_command(alloc: Global, out: &mut Vec<u8>, command: &Word) -> Result<(), NoMemory>
    ensures { OnOk result (out.new.items ≡ out.old.items ++ spaced (fields command.now)) }
{
    match command {
        Word::Alloc { name, bytes } => push_call(alloc, out, b"alloc", name.as_slice(), *bytes),
        Word::Free { name } => push_named(out, b"free", name.as_slice()),
        Word::Share { name } => push_named(out, b"share", name.as_slice()),
        Word::Read { name, offset, len } => {
            push_call(alloc, out, b"read", name.as_slice(), *offset)?;
            push_number_field(alloc, out, *len)
        }
        Word::Write {
            name,
            offset,
            bytes,
        } => {
            push_call(alloc, out, b"write", name.as_slice(), *offset)?;
            push_hex_field(out, bytes.as_slice())
        }
        Word::Tie { name, offset } => push_call(alloc, out, b"tie", name.as_slice(), *offset),
        Word::Untie { name, offset } => push_call(alloc, out, b"untie", name.as_slice(), *offset),
        Word::Fill { page, frame } => push_two(alloc, out, b"fill", *page, *frame),
        Word::Evict { page, frame } => push_two(alloc, out, b"evict", *page, *frame),
        Word::Move { frame, from, to } => {
            push_numbered(alloc, out, b"move", *frame)?;
            push_owner_field(alloc, out, *from)?;
            push_owner_field(alloc, out, *to)
        }
        Word::Flip { place, bit } => push_two(alloc, out, b"flip", *place, *bit),
        Word::SwapPlaces { a, b } => push_two(alloc, out, b"swap", *a, *b),
        Word::Keep { place } => push_numbered(alloc, out, b"keep", *place),
        Word::Restore { place } => push_numbered(alloc, out, b"restore", *place),
        Word::SwapRound { enclave, low } => push_two(alloc, out, b"swap", *enclave, *low),
        Word::SetShare { enclave, to } => push_two(alloc, out, b"balloon", *enclave, *to),
        Word::Call { call, bytes, room } => {
            push(out, b" call")?;
            push_field(out, call.text())?;
            push_hex_field(out, bytes.as_slice())?;
            push_number_field(alloc, out, *room)
        }
    }
}

/// A verb and a name.
fn push_named(out: &mut Vec<u8>, verb: &[u8], name: &[u8]) -> Result<(), NoMemory>
    ensures { OnOk result (out.new.items ≡ out.old.items ++ (32 ∷ verb.now ++ 32 ∷ name.now)) }
{
    push_field(out, verb)?;
    push_field(out, name)
}

/// A verb, a name and a number.
fn push_call(
    alloc: Global,
    out: &mut Vec<u8>,
    verb: &[u8],
    name: &[u8],
    number: u32,
) -> Result<(), NoMemory>
    ensures { OnOk result (out.new.items
        ≡ out.old.items ++ (32 ∷ verb.now ++ 32 ∷ name.now ++ 32 ∷ decimal number)) }
{
    push_named(out, verb, name)?;
    push_number_field(alloc, out, number)
}

/// A verb and two numbers.
fn push_two(
    alloc: Global,
    out: &mut Vec<u8>,
    verb: &[u8],
    first: u32,
    second: u32,
) -> Result<(), NoMemory>
    ensures { OnOk result (out.new.items
        ≡ out.old.items ++ (32 ∷ verb.now ++ 32 ∷ decimal first ++ 32 ∷ decimal second)) }
{
    push_numbered(alloc, out, verb, first)?;
    push_number_field(alloc, out, second)
}

/// A blank and an enclave by its number, where a dash stands for the pool.
fn push_owner_field(alloc: Global, out: &mut Vec<u8>, owner: Option<u32>) -> Result<(), NoMemory>
    ensures { OnOk result (out.new.items ≡ out.old.items ++ 32 ∷ owner_text owner) }
{
    match owner {
        Some(enclave) => push_number_field(alloc, out, enclave),
        None => push(out, b" -"),
    }
}
