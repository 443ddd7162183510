// What a command means.
ghost use Rattle.std.specs.Prelude.{◌≡◌, ◌<◌, ◌^◌, ℕ, Some, None, Ok, IfOk, option_copied};
ghost use Rattle.eleos_base.specs.Plans.{IsGood};
ghost use Rattle.eleos_host.specs.declared.hand.Act.{Act};
ghost use Rattle.eleos_trace.specs.Replays.{MayGive};
ghost use Rattle.eleos_meaning.specs.NameTable.{names_in};
ghost use Rattle.eleos_meaning.specs.Meanings.{IsAct, meaning_alone, meaning_at, meaning_of};
ghost use Rattle.eleos_meaning.specs.Meanings.{name_used};

use crate::names::NameTable;
use crate::offsets::at_offset;
use crate::unties::untie_of;
use eleos_base::{Addr, NoMemory, Op, Part, Plan};
use eleos_core::Event;
use eleos_host::Act;
use eleos_trace::{Line, Word};
use std::alloc::Global;

/// What a command means.
#[derive(Debug, Drop)]
pub enum Meaning {
    /// Nothing: its name has no address, or it is a call of the host.
    Nameless,
    /// An event of the machine.
    Happens(Event),
    /// An offence, which needs no machine to tell.
    Offends(Part),
    /// An act of the host.
    Acts(Act),
}

/// What the command of a line means, where its caller's names have these addresses.
pub fn meaning_of(
    alloc: Global,
    plan: &Plan,
    names: &NameTable,
    line: &Line,
) -> Result<Meaning, NoMemory>
    requires good { IsGood plan.now }
    requires given { MayGive plan.now line.now.actor line.now.command }
    ensures meaning { IfOk result (λ meaning. meaning
        ≡ meaning_of plan.now (names_in names.now) line.now.command) }
    ensures act { (act : Act) → result ≡ Ok (Meaning.Acts act) → IsAct act }
{
    let Some(name) = name_used(&line.command) else {
        return Ok(meaning_alone(plan, line));
    };
    match names.address_of(name) {
        None => Ok(Meaning::Nameless),
        Some(at) => meaning_at(alloc, plan, &line.command, at),
    }
}

/// The name whose address a command needs, if it needs one.
fn name_used(command: &Word) -> Option<&[u8]>
    ensures { option_copied result ≡ name_used command.now }
{
    match command {
        Word::Free { name } => Some(name.as_slice()),
        Word::Share { name } => Some(name.as_slice()),
        Word::Read { name, .. } => Some(name.as_slice()),
        Word::Write { name, .. } => Some(name.as_slice()),
        Word::Tie { name, .. } => Some(name.as_slice()),
        Word::Untie { name, .. } => Some(name.as_slice()),
        _ => None,
    }
}

/// What a command means that needs none.
fn meaning_alone(plan: &Plan, line: &Line) -> Meaning
    requires good { IsGood plan.now }
    requires given { MayGive plan.now line.now.actor line.now.command }
    ensures meaning { result ≡ meaning_alone line.now.command }
    ensures act { (act : Act) → result ≡ Meaning.Acts act → IsAct act }
{
    match &line.command {
        Word::Alloc { bytes, .. } => call(Op::Alloc { bytes: *bytes }),
        Word::Fill { page, frame } => Meaning::Happens(Event::Fill {
            page: *page,
            frame: *frame,
        }),
        Word::Evict { page, frame } => Meaning::Happens(Event::Evict {
            page: *page,
            frame: *frame,
        }),
        Word::Move { frame, from, to } => Meaning::Happens(Event::Move {
            frame: *frame,
            from: enclave_in(*from),
            to: enclave_in(*to),
        }),
        Word::Flip { place, bit } => Meaning::Acts(Act::Flip {
            place: *place,
            bit: *bit,
        }),
        Word::SwapPlaces { a, b } => Meaning::Acts(Act::Swap { a: *a, b: *b }),
        Word::Keep { place } => Meaning::Acts(Act::Keep { place: *place }),
        Word::Restore { place } => Meaning::Acts(Act::Restore { place: *place }),
        _ => Meaning::Nameless,
    }
}

/// What a command means whose name has this address.
fn meaning_at(alloc: Global, plan: &Plan, command: &Word, at: Addr) -> Result<Meaning, NoMemory>
    requires { IsGood plan.now }
    ensures meaning { IfOk result (λ meaning. meaning ≡ meaning_at plan.now command.now at) }
    ensures act { (act : Act) → result ≡ Ok (Meaning.Acts act) → IsAct act }
{
    Ok(match command {
        Word::Free { .. } => call(Op::Free { at }),
        Word::Share { .. } => call(Op::Share { at }),
        Word::Read { offset, len, .. } => call(Op::Read {
            at: at_offset(at, *offset),
            len: *len,
        }),
        Word::Write { offset, bytes, .. } => call(Op::Write {
            at: at_offset(at, *offset),
            bytes: bytes.copy(alloc)?,
        }),
        Word::Tie { offset, .. } => Meaning::Happens(Event::Link {
            at: at_offset(at, *offset),
        }),
        Word::Untie { offset, .. } => untie_of(plan, at_offset(at, *offset)),
        _ => Meaning::Nameless,
    })
}

/// A call on memory.
fn call(op: Op) -> Meaning
    ensures { result ≡ Meaning.Happens (Event.Op op) }
{
    Meaning::Happens(Event::Op(op))
}

/// The number of an enclave, where a move names one.
fn enclave_in(owner: Option<u32>) -> Option<u16>
    requires { (enclave : ℕ) → owner ≡ Some enclave → enclave < 2 ^ 16 }
    ensures { result ≡ owner }
{
    match owner {
        Some(enclave) => Some(enclave as u16),
        None => None,
    }
}
