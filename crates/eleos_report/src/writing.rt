// The printed spelling of replies and of whole lines.
ghost use Rattle.std.specs.Prelude.{◌≡◌, ◌++◌, ◌∷◌, IfOk, OnOk, Some, codes, map};
ghost use Rattle.eleos_report.specs.declared.answer.Answer.TheVariants.{Put};
ghost use Rattle.eleos_report.specs.declared.line.LogLine.TheVariants.{End, Said};
ghost use Rattle.std.specs.Fmt.{decimal};
ghost use Rattle.std.specs.String.{string_bytes};
ghost use Rattle.eleos_trace.specs.declared.trace.Kind.{Kind};
ghost use Rattle.eleos_report.specs.Grammar.{IsLine};
ghost use Rattle.eleos_trace.specs.Spelling.{actor_text, fields};
ghost use Rattle.eleos_report.specs.Log.{answer_fields, line_text, looked_text, part_text};
ghost use Rattle.eleos_report.specs.Log.{block_fields, counted_fields, spaced, stamp_text};

use crate::words::{push_actor, push_command};
use crate::{Answer, Block, LogLine};
use eleos_base::{Looked, NoMemory, Part};
use eleos_texts::printing::{
    push, push_end, push_field, push_hex_field, push_number, push_number_field, push_numbered,
};
use eleos_trace::{Actor, Word};
use std::alloc::Global;

/// A line with its newline. Bytes of a name that are no text are printed as U+FFFD.
pub fn write_line(alloc: Global, line: &LogLine) -> Result<String, NoMemory>
    ensures { (kind : Kind) → IsLine kind line.now
        → IfOk result (λ text. string_bytes text ≡ line_text line.now) }
{
    let mut out = Vec::new(alloc);
    push_line(alloc, &mut out, line)?;
    Ok(String::from_utf8_lossy(alloc, &out)?)
}

/// Adds a line with its newline.
pub fn push_line(alloc: Global, out: &mut Vec<u8>, line: &LogLine) -> Result<(), NoMemory>
    ensures { OnOk result (out.new.items ≡ out.old.items ++ line_text line.now) }
{
    match line {
        LogLine::Said {
            stamp,
            actor,
            command,
            reply,
        } => push_said(alloc, out, *stamp, *actor, command, reply),
        LogLine::End { count } => push_end(alloc, out, *count),
    }
}

/// Adds the line of a command with its newline.
pub fn push_said(
    alloc: Global,
    out: &mut Vec<u8>,
    stamp: Option<u64>,
    actor: Actor,
    command: &Word,
    reply: &Answer,
) -> Result<(), NoMemory>
    ensures { OnOk result (out.new.items
        ≡ out.old.items ++ line_text (Said stamp actor command.now reply.now)) }
{
    push_asked(alloc, out, stamp, actor, command)?;
    push_answer(alloc, out, reply)?;
    push(out, b"\n")
}

/// Adds the line of an evict that put so many blocks.
pub fn push_put(
    alloc: Global,
    out: &mut Vec<u8>,
    stamp: u64,
    actor: Actor,
    command: &Word,
    count: u64,
) -> Result<(), NoMemory>
    ensures { OnOk result (out.new.items
        ≡ out.old.items ++ line_text (Said (Some stamp) actor command.now (Put count))) }
{
    push_asked(alloc, out, Some(stamp), actor, command)?;
    push_put_answer(alloc, out, count)?;
    push(out, b"\n")
}

/// `put N`, with a blank before each.
fn push_put_answer(alloc: Global, out: &mut Vec<u8>, count: u64) -> Result<(), NoMemory>
    ensures { OnOk result (out.new.items ≡ out.old.items ++ spaced (answer_fields (Put count))) }
{
    push_long(alloc, out, b" put ", count)
}

/// A stamp, an actor, a command and `=`, before a reply.
fn push_asked(
    alloc: Global,
    out: &mut Vec<u8>,
    stamp: Option<u64>,
    actor: Actor,
    command: &Word,
) -> Result<(), NoMemory>
    ensures { OnOk result
        (out.new.items ≡ out.old.items ++ (stamp_text stamp ++ 32 ∷ actor_text actor
        ++ spaced (fields command.now) ++ codes " =")) }
{
    push_stamp(alloc, out, stamp)?;
    push(out, b" ")?;
    push_actor(alloc, out, actor)?;
    push_command(alloc, out, command)?;
    push(out, b" =")
}

fn push_stamp(alloc: Global, out: &mut Vec<u8>, stamp: Option<u64>) -> Result<(), NoMemory>
    ensures { OnOk result (out.new.items ≡ out.old.items ++ stamp_text stamp) }
{
    match stamp {
        Some(stamp) => push_number(alloc, out, stamp),
        None => push(out, b"-"),
    }
}

/// A reply word by word, with a blank before each.
fn push_answer(alloc: Global, out: &mut Vec<u8>, answer: &Answer) -> Result<(), NoMemory>
    ensures { OnOk result (out.new.items ≡ out.old.items ++ spaced (answer_fields answer.now)) }
{
    match answer {
        Answer::At { at } => push_numbered(alloc, out, b"at", *at),
        Answer::Okay => push(out, b" ok"),
        Answer::Got { bytes } => {
            push(out, b" got")?;
            push_hex_field(out, bytes.as_slice())
        }
        Answer::Put { count } => push_numbered(alloc, out, b"put", *count),
        Answer::BadSize => push(out, b" badsize"),
        Answer::NoSpace => push(out, b" nospace"),
        Answer::NotABlock => push(out, b" notablock"),
        Answer::NotYours { owner } => push_numbered(alloc, out, b"notyours", *owner),
        Answer::BadRange => push(out, b" badrange"),
        Answer::Unallocated => push(out, b" unallocated"),
        Answer::Worn { sub } => push_numbered(alloc, out, b"worn", *sub),
        Answer::Tampered { sub, block } => {
            push_numbered(alloc, out, b"tampered", *sub)?;
            push_block(out, block)
        }
        Answer::NoFrame { sweep } => {
            push(out, b" noframe")?;
            push_sweep(alloc, out, sweep.as_slice())
        }
        Answer::Enough { free, sweep } => {
            push_counted(alloc, out, b"enough", *free, sweep.as_slice())
        }
        Answer::Swept { free, sweep } => {
            push_counted(alloc, out, b"swept", *free, sweep.as_slice())
        }
        Answer::Reached { share } => push_numbered(alloc, out, b"done", *share),
        Answer::Short { share, sweep } => {
            push_counted(alloc, out, b"short", *share, sweep.as_slice())
        }
        Answer::Pinned { share, sweep } => {
            push_counted(alloc, out, b"pinned", *share, sweep.as_slice())
        }
        Answer::Illegal { part } => {
            push(out, b" illegal")?;
            push_field(out, part_word(*part))
        }
        Answer::Replied { status, bytes } => {
            push_long(alloc, out, b" reply ", *status)?;
            push_hex_field(out, bytes.as_slice())
        }
        Answer::WrongId { seen } => push_long(alloc, out, b" wrongid ", *seen),
        Answer::TooLong { seen } => push_long(alloc, out, b" toolong ", *seen),
        Answer::BadStatus { seen } => push_long(alloc, out, b" badstatus ", *seen),
        Answer::Nothing => push(out, b" none"),
        Answer::Skipped => push(out, b" skipped"),
    }
}

/// A text and a number of 64 bits.
fn push_long(alloc: Global, out: &mut Vec<u8>, text: &[u8], number: u64) -> Result<(), NoMemory>
    ensures { OnOk result (out.new.items ≡ out.old.items ++ (text.now ++ decimal number)) }
{
    push(out, text)?;
    push_number(alloc, out, number)
}

/// The block that did not pass, where it is told.
fn push_block(out: &mut Vec<u8>, block: &Option<Block>) -> Result<(), NoMemory>
    ensures { OnOk result (out.new.items ≡ out.old.items ++ spaced (block_fields block.now)) }
{
    match block {
        Some(block) => push_hex_field(out, block.as_slice()),
        None => Ok(()),
    }
}

/// A word, a number, and each frame with its word.
fn push_counted(
    alloc: Global,
    out: &mut Vec<u8>,
    word: &[u8],
    count: u32,
    sweep: &[Looked],
) -> Result<(), NoMemory>
    ensures { OnOk result (out.new.items
        ≡ out.old.items ++ spaced (counted_fields word.now count sweep.now)) }
{
    push_numbered(alloc, out, word, count)?;
    push_sweep(alloc, out, sweep)
}

/// Each frame with its word.
fn push_sweep(alloc: Global, out: &mut Vec<u8>, sweep: &[Looked]) -> Result<(), NoMemory>
    ensures { OnOk result (out.new.items
        ≡ out.old.items ++ spaced (map looked_text sweep.now)) }
{
    for looked in sweep {
        push_number_field(alloc, out, looked.frame)?;
        push(out, b":")?;
        push_number(alloc, out, looked.word)?;
    }
    Ok(())
}

/// What is offended against.
fn part_word(part: Part) -> &'static [u8]
    ensures { result.now ≡ part_text part }
{
    match part {
        Part::Present => b"present",
        Part::Frame => b"frame",
        Part::Absent => b"absent",
        Part::Linked => b"linked",
        Part::Owner => b"owner",
        Part::Untied => b"untied",
    }
}
