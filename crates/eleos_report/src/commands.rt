// Commands by their words.
ghost use Rattle.std.specs.Prelude.{◌≡◌, ℕ, List, map};
ghost use Rattle.eleos_texts.specs.Reasons.{Reads};
ghost use Rattle.eleos_report.specs.Commands.{is_command, is_move, name_alone, name_and_number};
ghost use Rattle.eleos_report.specs.Commands.{number_alone, two_numbers, read_of, write_of};
ghost use Rattle.eleos_report.specs.Commands.{call_of, move_of};
ghost use Rattle.eleos_report.specs.Commands.{command_in, command_of, frame_command_of};
ghost use Rattle.eleos_report.specs.Commands.{host_command_of, means_round, swap_word};

use crate::fields::{bytes_of, name_of, number_of, owner_of};
use eleos_base::Bytes;
use eleos_texts::counts::{one, one_and_more, three, two};
use eleos_texts::{LineRefused, Why, refused};
use eleos_trace::{Actor, CallWord, Kind, Word, is_host};
use std::alloc::Global;

/// A command of this actor in a log of this kind.
pub(crate) fn command_in(
    alloc: Global,
    kind: Kind,
    actor: Actor,
    words: &[&[u8]],
) -> Result<Word, LineRefused>
    ensures { Reads (λ command. command) result
        (command_in kind actor (map (λ word. word.now) words.now)) }
{
    let (verb, args) = one_and_more(words)?;
    let command = command_of(alloc, kind, actor, verb, args)?;
    if !is_command(kind, actor, &command) {
        return refused(Why::Form);
    }
    Ok(command)
}

/// Whether the command of this actor stands in logs of this kind.
fn is_command(kind: Kind, actor: Actor, command: &Word) -> bool
    ensures { result ≡ is_command kind actor command.now }
{
    match (kind, command) {
        (Kind::Run, Word::Tie { .. } | Word::Untie { .. }) => false,
        (Kind::Run, Word::SwapPlaces { .. }) => is_host(actor),
        (Kind::Run, Word::SwapRound { .. }) => !is_host(actor),
        (Kind::Replay, Word::SwapRound { .. } | Word::SetShare { .. }) => false,
        (Kind::Replay, Word::Call { .. }) => false,
        _ => true,
    }
}

fn command_of(
    alloc: Global,
    kind: Kind,
    actor: Actor,
    verb: &[u8],
    args: &[&[u8]],
) -> Result<Word, LineRefused>
    ensures { Reads (λ command. command) result
        (command_of kind actor verb.now (map (λ arg. arg.now) args.now)) }
{
    if verb == b"alloc".as_slice() {
        let (name, bytes) = name_and_number(alloc, args)?;
        Ok(Word::Alloc { name, bytes })
    } else if verb == b"free".as_slice() {
        let name = name_alone(alloc, args)?;
        Ok(Word::Free { name })
    } else if verb == b"share".as_slice() {
        let name = name_alone(alloc, args)?;
        Ok(Word::Share { name })
    } else if verb == b"read".as_slice() {
        read_of(alloc, args)
    } else if verb == b"write".as_slice() {
        write_of(alloc, args)
    } else if verb == b"call".as_slice() {
        call_of(alloc, args)
    } else {
        frame_command_of(alloc, kind, actor, verb, args)
    }
}

fn frame_command_of(
    alloc: Global,
    kind: Kind,
    actor: Actor,
    verb: &[u8],
    args: &[&[u8]],
) -> Result<Word, LineRefused>
    ensures { Reads (λ command. command) result
        (frame_command_of kind actor verb.now (map (λ arg. arg.now) args.now)) }
{
    if verb == b"tie".as_slice() {
        let (name, offset) = name_and_number(alloc, args)?;
        Ok(Word::Tie { name, offset })
    } else if verb == b"untie".as_slice() {
        let (name, offset) = name_and_number(alloc, args)?;
        Ok(Word::Untie { name, offset })
    } else if verb == b"fill".as_slice() {
        let (page, frame) = two_numbers(args)?;
        Ok(Word::Fill { page, frame })
    } else if verb == b"evict".as_slice() {
        let (page, frame) = two_numbers(args)?;
        Ok(Word::Evict { page, frame })
    } else if verb == b"move".as_slice() {
        move_of(args)
    } else if verb == b"balloon".as_slice() {
        let (enclave, to) = two_numbers(args)?;
        Ok(Word::SetShare { enclave, to })
    } else {
        host_command_of(kind, actor, verb, args)
    }
}

fn host_command_of(
    kind: Kind,
    actor: Actor,
    verb: &[u8],
    args: &[&[u8]],
) -> Result<Word, LineRefused>
    ensures { Reads (λ command. command) result
        (host_command_of kind actor verb.now (map (λ arg. arg.now) args.now)) }
{
    if verb == b"flip".as_slice() {
        let (place, bit) = two_numbers(args)?;
        Ok(Word::Flip { place, bit })
    } else if verb == b"swap".as_slice() {
        let (a, b) = two_numbers(args)?;
        Ok(swap_word(kind, actor, a, b))
    } else if verb == b"keep".as_slice() {
        let place = number_alone(args)?;
        Ok(Word::Keep { place })
    } else if verb == b"restore".as_slice() {
        let place = number_alone(args)?;
        Ok(Word::Restore { place })
    } else {
        refused(Why::Form)
    }
}

/// What the actor means by `swap`.
fn swap_word(kind: Kind, actor: Actor, a: u32, b: u32) -> Word
    ensures { result ≡ swap_word kind actor a b }
{
    if means_round(kind, actor) {
        Word::SwapRound { enclave: a, low: b }
    } else {
        Word::SwapPlaces { a, b }
    }
}

/// Whether the actor means a round of the swapper by it.
fn means_round(kind: Kind, actor: Actor) -> bool
    ensures { result ≡ means_round kind actor }
{
    match kind {
        Kind::Run => !is_host(actor),
        Kind::Replay => false,
    }
}

fn name_alone(alloc: Global, args: &[&[u8]]) -> Result<Bytes, LineRefused>
    ensures { Reads (λ name. name) result (name_alone (map (λ arg. arg.now) args.now)) }
{
    name_of(alloc, one(args)?)
}

fn name_and_number(alloc: Global, args: &[&[u8]]) -> Result<(Bytes, u32), LineRefused>
    ensures { Reads (λ both. both) result (name_and_number (map (λ arg. arg.now) args.now)) }
{
    let (name, number) = two(args)?;
    let name = name_of(alloc, name)?;
    let number = number_of(number)?;
    Ok((name, number))
}

pub(crate) fn number_alone(args: &[&[u8]]) -> Result<u32, LineRefused>
    ensures { Reads (λ n. n) result (number_alone (map (λ arg. arg.now) args.now)) }
{
    number_of(one(args)?)
}

fn two_numbers(args: &[&[u8]]) -> Result<(u32, u32), LineRefused>
    ensures { Reads (λ both. both) result (two_numbers (map (λ arg. arg.now) args.now)) }
{
    let (first, second) = two(args)?;
    let first = number_of(first)?;
    let second = number_of(second)?;
    Ok((first, second))
}

/// `read NAME OFFSET N`
fn read_of(alloc: Global, args: &[&[u8]]) -> Result<Word, LineRefused>
    ensures { Reads (λ command. command) result (read_of (map (λ arg. arg.now) args.now)) }
{
    let (name, offset, len) = three(args)?;
    let name = name_of(alloc, name)?;
    let offset = number_of(offset)?;
    let len = number_of(len)?;
    Ok(Word::Read { name, offset, len })
}

/// `write NAME OFFSET HEX`
fn write_of(alloc: Global, args: &[&[u8]]) -> Result<Word, LineRefused>
    ensures { Reads (λ command. command) result (write_of (map (λ arg. arg.now) args.now)) }
{
    let (name, offset, hex) = three(args)?;
    let name = name_of(alloc, name)?;
    let offset = number_of(offset)?;
    let bytes = bytes_of(alloc, hex)?;
    Ok(Word::Write {
        name,
        offset,
        bytes,
    })
}

/// `call WORD HEX ROOM`
fn call_of(alloc: Global, args: &[&[u8]]) -> Result<Word, LineRefused>
    ensures { Reads (λ command. command) result (call_of (map (λ arg. arg.now) args.now)) }
{
    let (word, hex, room) = three(args)?;
    let Some(call) = CallWord::named(word) else {
        return refused(Why::Form);
    };
    let bytes = bytes_of(alloc, hex)?;
    let room = number_of(room)?;
    Ok(Word::Call { call, bytes, room })
}

/// `move FRAME FROM TO`
fn move_of(args: &[&[u8]]) -> Result<Word, LineRefused>
    ensures { Reads (λ command. command) result (move_of (map (λ arg. arg.now) args.now)) }
{
    let (frame, from, to) = three(args)?;
    let frame = number_of(frame)?;
    let from = owner_of(from)?;
    let to = owner_of(to)?;
    if !is_move(from, to) {
        return refused(Why::Form);
    }
    Ok(Word::Move { frame, from, to })
}

/// Whether one of both owners is the pool and the other an enclave.
fn is_move(from: Option<u32>, to: Option<u32>) -> bool
    ensures { result ≡ is_move from to }
{
    matches!((from, to), (None, Some(_)) | (Some(_), None))
}
