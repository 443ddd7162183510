// The program of one actor.
ghost use Rattle.std.specs.Prelude.{vec_capacity, ◌≡◌, [], ◌+◌, ◌≤◌, ◌<◌, ◌^◌, length};
ghost use Rattle.std.specs.Prelude.{IsSome, is_some};
ghost use Rattle.eleos_pages.specs.Entered.{CanCall};
ghost use Rattle.eleos_pages.specs.Exchanges.{Exchanges};
ghost use Rattle.eleos_ring.specs.Rings.{idle};
ghost use Rattle.eleos_run.specs.Calls.{IsCalled, calls_after};
ghost use Rattle.eleos_run.specs.Jobs.{HasRun, HasSpoken, HasStepped, IsReadyJob, names_of};
ghost use Rattle.eleos_meaning.specs.NameTable.{names_in};
ghost use Rattle.eleos_meaning.specs.Table.{most_lines};
ghost use Rattle.eleos_base.specs.Places.{all_frames};
ghost use Rattle.eleos_machine.specs.Machines.{plan_at};
ghost use Rattle.eleos_trace.specs.Kinds.{MayRun};
ghost use Rattle.eleos_trace.specs.Replays.{IsCallerOf};
ghost use Rattle.eleos_run.specs.Lines.{actor_of};
ghost use Rattle.eleos_run.specs.Steps.{IsIdle, Speaks};
ghost use Rattle.eleos_run.specs.Surveys.{SpeaksAround};
ghost use Rattle.eleos_run.specs.Tasks.{CanRun, HasName, HasWords, IsCall, IsReady};
ghost use Rattle.eleos_run.specs.Tasks.{IsReadyFor, KeepsRooms};

use crate::answers::{Spoken, answer_alloc, answer_change, answer_read, answer_write};
use crate::clients::Client;
use crate::host_calls::answer_call;
use crate::jobs::Job;
use crate::rounds::answer_round;
use crate::shares::answer_share;
use crate::tasks::Task;
use eleos_alloc::Change;
use eleos_base::{Gate, Looked, Sealer};
use eleos_host::{HostPort, Tap};
use eleos_machine::{Machine, Pass};
use eleos_meaning::NameTable;
use eleos_report::LogLine;
use eleos_ring::Ring;
use eleos_trace::Word;
use std::sync::Wait;

/// Does the tasks of an actor, in order.
pub(crate) fn perform<S: Sealer, P: HostPort, C: Client, R: Wait, G: Gate>(
    rt: &R,
    machine: &Machine<S>,
    gate: &G,
    job: &mut Job<P, C>,
)
    requires { IsReadyJob machine.now job.old }
    ensures { HasRun P.gave P.took C.shown C.written machine.now job.old job.new }
{
    let mut at = 0;
    while let Some(task) = job.tasks.pop_front() {
        gate.reach(job.pass.who(), at);
        step(rt, machine, job, task);
        at += 1;
    }
    gate.reach(job.pass.who(), at);
}

/// Does a task, and writes its line.
fn step<S: Sealer, P: HostPort, C: Client, R: Wait>(
    rt: &R,
    machine: &Machine<S>,
    job: &mut Job<P, C>,
    task: Task,
)
    requires idle_pass { IsIdle machine.now job.old.pass }
    requires actor { job.old.actor
        ≡ actor_of (length (plan_at machine.now).callers) job.old.pass.hand.number }
    requires reach { IsCallerOf (plan_at machine.now) job.old.actor → IsSome job.old.client }
    requires ready { IsReady (plan_at machine.now) job.old.actor job.old.names task }
    requires room { length job.old.lines.items
        + most_lines (all_frames (plan_at machine.now)) task.command ≤ vec_capacity job.old.lines }
    requires left { most_lines (all_frames (plan_at machine.now)) task.command
        ≤ job.old.pass.hand.left }
    requires idle { job.old.ring ≡ idle job.old.ring.client job.old.ring.posts }
    requires posts { job.old.ring.posts < 2 ^ 40 }
    ensures stepped { HasStepped P.gave P.took machine.now task job.old job.new }
    ensures spoken { HasSpoken C.shown C.written task job.old job.new }
{
    let Task {
        command,
        room,
        words,
    } = task;
    let Spoken { stamp, reply } = speak(rt, machine, job, &command, room, words);
    let line = LogLine::Said {
        stamp,
        actor: job.actor,
        command,
        reply,
    };
    let Ok(()) = job.lines.push(line) else {
        unreachable!()
    };
}

/// Gives the command, writes the lines of what happens on its way, and tells what stands behind it in
/// its own line.
fn speak<S: Sealer, P: HostPort, C: Client, R: Wait>(
    rt: &R,
    machine: &Machine<S>,
    job: &mut Job<P, C>,
    command: &Word,
    room: Vec<u8>,
    words: Vec<Looked>,
) -> Spoken
    requires idle_pass { IsIdle machine.now job.old.pass }
    requires actor { job.old.actor
        ≡ actor_of (length (plan_at machine.now).callers) job.old.pass.hand.number }
    requires reach { IsCallerOf (plan_at machine.now) job.old.actor → IsSome job.old.client }
    requires may { MayRun (plan_at machine.now) job.old.actor command.now }
    requires run { CanRun command.now }
    requires bytes_room { IsReadyFor command.now room }
    requires words_room { HasWords command.now words }
    requires name { HasName job.old.names command.now }
    requires room { length job.old.lines.items
        + most_lines (all_frames (plan_at machine.now)) command.now ≤ vec_capacity job.old.lines }
    requires left { most_lines (all_frames (plan_at machine.now)) command.now
        ≤ job.old.pass.hand.left }
    requires idle { job.old.ring ≡ idle job.old.ring.client job.old.ring.posts }
    requires posts { job.old.ring.posts < 2 ^ 40 }
    ensures around { SpeaksAround P.gave P.took machine.now command.now result
        job.old.pass job.new.pass (names_of job.old) (names_of job.new)
        job.old.actor job.old.lines job.new.lines }
    ensures rooms { KeepsRooms job.old.names job.new.names }
    ensures called { IsCalled C.shown C.written
        job.old.ring.client job.old.ring.posts command.now result.reply }
    ensures ring { job.new.ring
        ≡ idle job.old.ring.client (calls_after job.old.ring.posts command.now) }
    ensures client { is_some job.new.client ≡ is_some job.old.client }
    ensures actor { job.new.actor ≡ job.old.actor }
    ensures tasks { job.new.tasks ≡ job.old.tasks }
{
    // What it has seen is a legal history.
    let _ = job.pass.left();
    match command {
        Word::SwapRound { enclave, low } => answer_round(
            rt,
            machine,
            &mut job.pass,
            &mut job.tap,
            &mut job.lines,
            job.actor,
            *enclave as u16,
            *low,
            words,
        ),
        Word::SetShare { enclave, to } => answer_share(
            rt,
            machine,
            &mut job.pass,
            &mut job.tap,
            &mut job.lines,
            job.actor,
            *enclave as u16,
            *to,
            words,
        ),
        _ => answer(
            rt,
            machine,
            &mut job.pass,
            &mut job.tap,
            &mut job.names,
            &mut job.ring,
            &mut job.client,
            command,
            room,
        ),
    }
}

/// Gives a call on memory or one of the host, and tells what stands behind it in its line.
fn answer<S: Sealer, P: HostPort, C: Client, R: Wait>(
    rt: &R,
    machine: &Machine<S>,
    pass: &mut Pass,
    tap: &mut Tap<P>,
    names: &mut NameTable,
    ring: &mut Ring,
    client: &mut Option<C>,
    command: &Word,
    room: Vec<u8>,
) -> Spoken
    requires can { CanCall machine.now pass.old }
    requires run { CanRun command.now }
    requires call { IsCall command.now }
    requires reach { IsSome client.old }
    requires room { IsReadyFor command.now room }
    requires name { HasName names.old command.now }
    requires idle { ring.old ≡ idle ring.old.client ring.old.posts }
    requires posts { ring.old.posts < 2 ^ 40 }
    ensures speaks { Speaks machine.now command.now [] result pass.old pass.new
        (names_in names.old) (names_in names.new) }
    ensures exchanged { Exchanges P.gave P.took machine.now pass.old pass.new }
    ensures rooms { KeepsRooms names.old names.new }
    ensures called { IsCalled C.shown C.written
        ring.old.client ring.old.posts command.now result.reply }
    ensures client { IsSome client.new }
    ensures ring { ring.new
        ≡ idle ring.old.client (calls_after ring.old.posts command.now) }
{
    match command {
        Word::Alloc { name, bytes } => answer_alloc(
            rt,
            machine,
            pass,
            names,
            name.as_slice(),
            *bytes,
        ),
        Word::Free { name } => answer_change(
            rt,
            machine,
            pass,
            names,
            name.as_slice(),
            Change::Free,
        ),
        Word::Share { name } => answer_change(
            rt,
            machine,
            pass,
            names,
            name.as_slice(),
            Change::Share,
        ),
        Word::Read { name, offset, len } => answer_read(
            rt,
            machine,
            pass,
            tap,
            names,
            name.as_slice(),
            *offset,
            *len,
            room,
        ),
        Word::Write {
            name,
            offset,
            bytes,
        } => answer_write(
            rt,
            machine,
            pass,
            tap,
            names,
            name.as_slice(),
            *offset,
            bytes.as_slice(),
            room,
        ),
        Word::Call { call, bytes, .. } => {
            let Some(client) = client.as_mut() else {
                unreachable!()
            };
            answer_call(rt, client, ring, *call, bytes.as_slice(), room)
        }
        _ => unreachable!(),
    }
}
