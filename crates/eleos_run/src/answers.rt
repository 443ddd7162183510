// What is printed behind a command.
ghost use Rattle.std.specs.Prelude.{vec_capacity, ◌≡◌, ◌≤◌, [], IsTrue, length, Some, None};
ghost use Rattle.eleos_base.specs.Answers.{block_reply, access_refusal_reply, write_reply};
ghost use Rattle.eleos_base.specs.Answers.{read_reply};
ghost use Rattle.eleos_pages.specs.Entered.{CanCall};
ghost use Rattle.eleos_host.specs.Taps.{failed_block};
ghost use Rattle.eleos_machine.specs.Passes.{last_stamp};
ghost use Rattle.eleos_pages.specs.Crossed.{came, spoiled_by};
ghost use Rattle.eleos_base.specs.Lists.{last_of};
ghost use Rattle.eleos_plot.specs.Terms.{core_terms};
ghost use Rattle.eleos_trace.specs.declared.word.Word.TheVariants as words;
ghost use Rattle.eleos_turn.specs.Hands.{entries};
ghost use Rattle.eleos_meaning.specs.Calls.{answer_of};
ghost use Rattle.eleos_pages.specs.Exchanges.{Exchanges};
ghost use Rattle.eleos_meaning.specs.NameTable.{has_room, names_in};
ghost use Rattle.eleos_run.specs.Steps.{Speaks, word_of};
ghost use Rattle.eleos_run.specs.Tasks.{KeepsRooms};

use eleos_alloc::{Change, alloc, change_block};
use eleos_base::{AccessRefused, AllocRefused, BlockRefused, List, SUB_BYTES, Sealer};
use eleos_direct::{read, refuse_read, write};
use eleos_host::{HostPort, Tap};
use eleos_machine::{Machine, Pass};
use eleos_meaning::{NameTable, at_offset};
use eleos_report::Answer;
use std::sync::Wait;

/// The most bytes of a text, and of a block that did not pass: those of a sub-page.
pub(crate) const MOST_TEXT: usize = SUB_BYTES as usize;

/// What stands behind a command in its line.
#[derive(Debug, Drop)]
pub(crate) struct Spoken {
    pub stamp: Option<u64>,
    pub reply: Answer,
}

/// The reply, with the stamp of the entry that the pass made last.
pub(crate) fn stamped(pass: &Pass, reply: Answer) -> Spoken
    ensures stamp { result.stamp ≡ Some (last_stamp (entries core_terms pass.now.hand)) }
    ensures reply { result.reply ≡ reply }
{
    Spoken {
        stamp: Some(pass.last_stamp()),
        reply,
    }
}

/// The name has no address.
fn skipped() -> Spoken
    ensures stamp { result.stamp ≡ None }
    ensures reply { result.reply ≡ Answer.Skipped }
{
    Spoken {
        stamp: None,
        reply: Answer::Skipped,
    }
}

/// Allocates a block, and binds the name to its address.
pub(crate) fn answer_alloc<S: Sealer, R: Wait>(
    rt: &R,
    machine: &Machine<S>,
    pass: &mut Pass,
    names: &mut NameTable,
    name: &[u8],
    bytes: u32,
) -> Spoken
    requires can { CanCall machine.now pass.old }
    requires room { IsTrue (has_room names.old name.now) }
    ensures speaks { Speaks machine.now (words.Alloc name.now bytes) [] result pass.old pass.new
        (names_in names.old) (names_in names.new) }
    ensures rooms { KeepsRooms names.old names.new }
{
    match alloc(rt, machine, pass, bytes) {
        Ok(at) => {
            names.bind(name, at);
            stamped(pass, Answer::At { at: at.at })
        }
        Err(AllocRefused::BadSize) => stamped(pass, Answer::BadSize),
        Err(AllocRefused::NoSpace) => stamped(pass, Answer::NoSpace),
    }
}

/// Frees or shares the block of the name.
pub(crate) fn answer_change<S: Sealer, R: Wait>(
    rt: &R,
    machine: &Machine<S>,
    pass: &mut Pass,
    names: &NameTable,
    name: &[u8],
    change: Change,
) -> Spoken
    requires can { CanCall machine.now pass.old }
    ensures { Speaks machine.now (word_of change name.now) [] result pass.old pass.new
        (names_in names.now) (names_in names.now) }
{
    let Some(at) = names.address_of(name) else {
        return skipped();
    };
    let answer = change_block(rt, machine, pass, at, change);
    stamped(pass, block_answer(answer))
}

/// The answer of a free or a share, as it is printed.
fn block_answer(answer: Result<(), BlockRefused>) -> Answer
    ensures { result ≡ answer_of (block_reply answer) [] }
{
    match answer {
        Ok(()) => Answer::Okay,
        Err(BlockRefused::NotABlock) => Answer::NotABlock,
        Err(BlockRefused::NotYours { owner }) => Answer::NotYours { owner },
    }
}

/// Reads so many bytes of the name's block into the room.
pub(crate) fn answer_read<S: Sealer, P: HostPort, R: Wait>(
    rt: &R,
    machine: &Machine<S>,
    pass: &mut Pass,
    tap: &mut Tap<P>,
    names: &NameTable,
    name: &[u8],
    offset: u32,
    len: u32,
    room: Vec<u8>,
) -> Spoken
    requires can { CanCall machine.now pass.old }
    requires empty { room.items ≡ [] }
    requires room { MOST_TEXT ≤ vec_capacity room }
    ensures speaks { Speaks machine.now (words.Read name.now offset len) [] result pass.old pass.new
        (names_in names.now) (names_in names.now) }
    ensures exchanged { Exchanges P.gave P.took machine.now pass.old pass.new }
{
    let Some(start) = names.address_of(name) else {
        return skipped();
    };
    let at = at_offset(start, offset);
    if len as usize > MOST_TEXT {
        refuse_read(machine, pass, at, len);
        return stamped(pass, Answer::BadRange);
    }
    let mut text = zeros_in(room, len as usize);
    let answer = read(rt, machine, pass, tap, at, &mut text);
    stamped(pass, read_answer(tap, answer, text))
}

/// So many zeros in the room.
fn zeros_in(room: Vec<u8>, len: usize) -> Vec<u8>
    requires len { len ≤ MOST_TEXT }
    requires empty { room.items ≡ [] }
    requires room { MOST_TEXT ≤ vec_capacity room }
    ensures len { length result.items ≡ len }
    ensures room { MOST_TEXT ≤ vec_capacity result }
{
    let mut text = room;
    let Ok(()) = text.extend_from_slice(&[0; MOST_TEXT][..len]) else {
        unreachable!()
    };
    text
}

/// Writes the bytes to the name's block.
pub(crate) fn answer_write<S: Sealer, P: HostPort, R: Wait>(
    rt: &R,
    machine: &Machine<S>,
    pass: &mut Pass,
    tap: &mut Tap<P>,
    names: &NameTable,
    name: &[u8],
    offset: u32,
    bytes: &[u8],
    room: Vec<u8>,
) -> Spoken
    requires can { CanCall machine.now pass.old }
    requires bytes { length bytes.now ≤ 2048 }
    requires room { MOST_TEXT ≤ vec_capacity room }
    ensures speaks { Speaks machine.now
        (words.Write name.now offset bytes.now) [] result pass.old pass.new
        (names_in names.now) (names_in names.now) }
    ensures exchanged { Exchanges P.gave P.took machine.now pass.old pass.new }
{
    let Some(start) = names.address_of(name) else {
        return skipped();
    };
    let at = at_offset(start, offset);
    let answer = write(rt, machine, pass, tap, at, bytes);
    stamped(pass, write_answer(tap, answer, room))
}

/// The answer of a read that left the text, as it is printed.
fn read_answer<P: HostPort>(
    tap: &Tap<P>,
    answer: Result<(), AccessRefused>,
    text: Vec<u8>,
) -> Answer
    requires room { MOST_TEXT ≤ vec_capacity text }
    requires spoiled { failed_block tap.now
        ≡ spoiled_by (read_reply answer text.items) (came tap.now) }
    ensures { result ≡ answer_of (read_reply answer text.items) (came tap.now) }
{
    match answer {
        Ok(()) => Answer::Got {
            bytes: List::of(text),
        },
        Err(refused) => refused_answer(tap, refused, text),
    }
}

/// The answer of a write, as it is printed.
fn write_answer<P: HostPort>(
    tap: &Tap<P>,
    answer: Result<(), AccessRefused>,
    room: Vec<u8>,
) -> Answer
    requires room { MOST_TEXT ≤ vec_capacity room }
    requires spoiled { failed_block tap.now ≡ spoiled_by (write_reply answer) (came tap.now) }
    ensures { result ≡ answer_of (write_reply answer) (came tap.now) }
{
    match answer {
        Ok(()) => Answer::Okay,
        Err(refused) => refused_answer(tap, refused, room),
    }
}

/// The answer of an access that is refused, as it is printed. The room takes the block that did not
/// pass.
fn refused_answer<P: HostPort>(tap: &Tap<P>, refused: AccessRefused, room: Vec<u8>) -> Answer
    requires room { MOST_TEXT ≤ vec_capacity room }
    requires spoiled { failed_block tap.now
        ≡ spoiled_by (access_refusal_reply refused) (came tap.now) }
    ensures { result ≡ answer_of (access_refusal_reply refused) (came tap.now) }
{
    match refused {
        AccessRefused::BadRange => Answer::BadRange,
        AccessRefused::Unallocated => Answer::Unallocated,
        AccessRefused::NotYours { owner } => Answer::NotYours { owner },
        AccessRefused::Worn { sub } => Answer::Worn { sub },
        AccessRefused::Tampered { sub } => Answer::Tampered {
            sub,
            block: spoiled_block(tap, room),
        },
    }
}

/// The block that did not pass, in this room. An access fetches one block, into the first slot.
fn spoiled_block<P: HostPort>(tap: &Tap<P>, room: Vec<u8>) -> Option<List<u8>>
    requires room { MOST_TEXT ≤ vec_capacity room }
    requires spoiled { failed_block tap.now ≡ last_of (came tap.now) }
    ensures { result ≡ last_of (came tap.now) }
{
    if tap.failed().is_none() {
        return None;
    }
    let mut block = room;
    block.clear();
    let Ok(()) = block.extend_from_slice(tap.block(0)) else {
        unreachable!()
    };
    Some(List::of(block))
}
