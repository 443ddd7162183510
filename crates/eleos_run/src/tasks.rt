// The commands of a caller, each with the room of what may be printed behind it.
ghost use Rattle.std.specs.Prelude.{◌≡◌, ◌≤◌, IfOk, OnOk, map};
ghost use Rattle.eleos_base.specs.Places.{all_frames};
ghost use Rattle.eleos_meaning.specs.Table.{lines_for, most_lines};
ghost use Rattle.eleos_trace.specs.Kinds.{IsRun, MayRun};
ghost use Rattle.eleos_run.specs.Lines.{is_same_actor, program_of};
ghost use Rattle.eleos_meaning.specs.NameTable.{names_in};
ghost use Rattle.eleos_run.specs.Tasks.{AllReady, CanRun, HasWords, IsReady, IsReadyFor, KeepsRooms};

use crate::answers::MOST_TEXT;
use eleos_base::{Bytes, Looked, MOST_FRAMES, NoMemory, Plan};
use eleos_meaning::NameTable;
use eleos_trace::{Actor, Trace, Word, all_frames};
use std::alloc::Global;
use std::collections::VecDeque;

/// A command that an actor is to give, with the room of a text, of a block or of a reply that may
/// be printed behind it, and with that of the words that a survey may note.
#[derive(Drop)]
pub(crate) struct Task {
    pub command: Word,
    pub room: Vec<u8>,
    pub words: Vec<Looked>,
}

/// Whether two actors are one.
pub(crate) fn is_same_actor(actor: Actor, other: Actor) -> bool
    ensures { result ≡ is_same_actor actor other }
{
    match (actor, other) {
        (Actor::Caller(number), Actor::Caller(other)) => number == other,
        (Actor::Swapper, Actor::Swapper) => true,
        (Actor::Balloon, Actor::Balloon) => true,
        (Actor::Host, Actor::Host) => true,
        _ => false,
    }
}

/// The command once more.
fn copy_of(alloc: Global, command: &Word) -> Result<Word, NoMemory>
    requires { CanRun command.now }
    ensures { IfOk result (λ word. word ≡ command.now) }
{
    Ok(match command {
        Word::Alloc { name, bytes } => Word::Alloc {
            name: name.copy(alloc)?,
            bytes: *bytes,
        },
        Word::Free { name } => Word::Free {
            name: name.copy(alloc)?,
        },
        Word::Share { name } => Word::Share {
            name: name.copy(alloc)?,
        },
        Word::Read { name, offset, len } => Word::Read {
            name: name.copy(alloc)?,
            offset: *offset,
            len: *len,
        },
        Word::Write {
            name,
            offset,
            bytes,
        } => Word::Write {
            name: name.copy(alloc)?,
            offset: *offset,
            bytes: bytes.copy(alloc)?,
        },
        Word::SwapRound { enclave, low } => Word::SwapRound {
            enclave: *enclave,
            low: *low,
        },
        Word::SetShare { enclave, to } => Word::SetShare {
            enclave: *enclave,
            to: *to,
        },
        Word::Call { call, bytes, room } => Word::Call {
            call: *call,
            bytes: bytes.copy(alloc)?,
            room: *room,
        },
        _ => unreachable!(),
    })
}

/// The room of what may be printed behind the command: a text, a block that did not pass, or the
/// reply to a call.
fn room_for(alloc: Global, command: &Word) -> Result<Vec<u8>, NoMemory>
    ensures { IfOk result (λ room. IsReadyFor command.now room) }
{
    Ok(match command {
        Word::Read { .. } | Word::Write { .. } => Vec::with_capacity(alloc, MOST_TEXT)?,
        Word::Call { room, .. } => vec![in alloc; 0; *room as usize]?,
        _ => Vec::new(alloc),
    })
}

/// The room of the words that a survey may note.
fn words_for(alloc: Global, command: &Word) -> Result<Vec<Looked>, NoMemory>
    ensures { IfOk result (λ words. HasWords command.now words) }
{
    Ok(match command {
        Word::SwapRound { .. } | Word::SetShare { .. } => {
            Vec::with_capacity(alloc, MOST_FRAMES as usize)?
        }
        _ => Vec::new(alloc),
    })
}

/// The command with its room, and room for the name that it binds.
fn task_of(
    alloc: Global,
    plan: &Plan,
    actor: Actor,
    names: &mut NameTable,
    command: &Word,
) -> Result<Task, NoMemory>
    requires may { MayRun plan.now actor command.now }
    ensures command { IfOk result (λ task. task.command ≡ command.now) }
    ensures ready { IfOk result (λ task. IsReady plan.now actor names.new task) }
    ensures names { OnOk result (names_in names.new
        ≡ names_in names.old) }
    ensures others { OnOk result (KeepsRooms names.old names.new) }
{
    let _ = plan;
    if let Word::Alloc { name, .. } = command {
        names.reserve(alloc, name.as_slice())?;
    }
    Ok(Task {
        command: copy_of(alloc, command)?,
        room: room_for(alloc, command)?,
        words: words_for(alloc, command)?,
    })
}

/// The tasks of an actor, in order, and room for the names that they bind.
pub(crate) fn tasks_of(
    alloc: Global,
    trace: &Trace,
    actor: Actor,
    names: &mut NameTable,
) -> Result<VecDeque<Task>, NoMemory>
    requires { IsRun trace.now }
    ensures commands { IfOk result (λ tasks. map (λ task. task.command) tasks.items
        ≡ program_of trace.now actor) }
    ensures ready { IfOk result (λ tasks. AllReady trace.now.plan actor names.new tasks.items) }
    ensures names { OnOk result (names_in names.new
        ≡ names_in names.old) }
{
    let mut tasks = VecDeque::new(alloc);
    for line in trace.lines.as_slice() {
        if is_same_actor(line.actor, actor) {
            tasks.push_back(task_of(alloc, &trace.plan, actor, names, &line.command)?)?;
        }
    }
    Ok(tasks)
}

/// How many lines a command has at most in a machine of so many frames: its own, and before it one
/// for each frame in a round of the swapper, and two in a change of a share.
fn most_lines(frames: u32, command: &Word) -> u32
    requires { frames ≤ 512 }
    ensures exact { result ≡ most_lines frames command.now }
    ensures few { result ≤ 1025 }
{
    match command {
        Word::SwapRound { .. } => frames + 1,
        Word::SetShare { .. } => 2 * frames + 1,
        _ => 1,
    }
}

/// How many lines the program of an actor has at most.
pub(crate) fn line_count(trace: &Trace, actor: Actor) -> u32
    requires { IsRun trace.now }
    ensures { result ≡ lines_for (all_frames trace.now.plan) (program_of trace.now actor) }
{
    let frames = all_frames(&trace.plan);
    let mut count = 0;
    for line in trace.lines.as_slice() {
        if is_same_actor(line.actor, actor) {
            count += most_lines(frames, &line.command);
        }
    }
    count
}
