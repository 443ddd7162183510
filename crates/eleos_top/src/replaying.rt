// The top call on traces of kind replay.
ghost use Rattle.std.specs.Prelude.{◌≡◌, ◌≢◌, ◌↔◌, [], ◌∷◌, map, codes, IfOk, string_bytes};
ghost use Rattle.eleos_base.specs.Outside.{HasRisen};
ghost use Rattle.eleos_trace.specs.declared.trace.Kind.TheVariants.{Replay};
ghost use Rattle.eleos_trace.specs.Reading.{trace_of};
ghost use Rattle.eleos_trace.specs.Kinds.{IsReplay};
ghost use Rattle.eleos_top.specs.Outcome.{PutsBy};
ghost use Rattle.eleos_top.specs.Replays.{IsReplayLog};

use crate::input::{InputError, trace_in};
use crate::said::push_answered;
use crate::sessions::Session;
use crate::streams::put_lines;
use crate::top::{is_only, refuse};
use eleos_base::{NoMemory, Sink, Source, Status};
use eleos_host::{HostHand, HostPort, HostRoom};
use eleos_texts::printing::push_end;
use eleos_trace::{Kind, Trace, places};
use std::alloc::Global;

/// Replays a trace over a host: reads it, answers its commands and puts the log.
///
/// First the host gets room for the trace's places, so that no command wants memory there.
///
/// With status 0 the bytes put are the log of the trace, by what the host had before: each command
/// that became an entry is legal by the machine's step over the blocks of the host, and where no
/// altered or replaced block passed, the calls are one run of plain memory. The host then has what
/// the commands left there. With another status nothing is put, the line that refuses the input, or
/// a front.
pub fn replay_top<S: Source, K: Sink, P: HostPort + HostHand + HostRoom>(
    alloc: Global,
    words: &[String],
    source: &mut S,
    sink: &mut K,
    host: &mut P,
) -> Status
    ensures puts { PutsBy (trace_of Replay)
        (IsReplayLog (P.store host.old) (P.store host.new)) result
        (S.left source.old) (K.got sink.old) (K.got sink.new)
        (K.faults sink.old) (K.faults sink.new) }
    ensures usage { (result ≡ Status.Usage)
        ↔ (map (λ word. string_bytes word) words.now ≢ codes "replay" ∷ []) }
    ensures read_fault { result ≡ Status.ReadFault
        → HasRisen (S.faults source.old) (S.faults source.new) }
    ensures write_fault { result ≡ Status.WriteFault
        → HasRisen (K.faults sink.old) (K.faults sink.new) }
    ensures always_legal { result ≢ Status.NotLegal }
{
    if !is_only(words, "replay") {
        return Status::Usage;
    }
    let trace = match trace_in(alloc, Kind::Replay, source) {
        Ok(trace) => trace,
        Err(InputError::Refused { bad }) => return refuse(alloc, sink, bad),
        Err(InputError::Failed) => return Status::ReadFault,
        Err(InputError::Memory) => return Status::Memory,
    };
    let Ok(text) = replay(alloc, &trace, host) else {
        return Status::Memory;
    };
    match put_lines(sink, &text) {
        Ok(()) => Status::Done,
        Err(_) => Status::WriteFault,
    }
}

/// The log of a trace over a host.
fn replay<P: HostPort + HostHand + HostRoom>(
    alloc: Global,
    trace: &Trace,
    host: &mut P,
) -> Result<Vec<u8>, NoMemory>
    requires { IsReplay trace.now }
    ensures { IfOk result (λ text.
        IsReplayLog (P.store host.old) (P.store host.new) trace.now text.items) }
{
    host.make_room(places(&trace.plan))?;
    let mut session = Session::open(alloc, trace)?;
    let mut text = Vec::new(alloc);
    for line in trace.lines.as_slice() {
        let answer = session.answer(alloc, host, &trace.plan, line)?;
        push_answered(alloc, &mut text, line, answer)?;
    }
    push_end(alloc, &mut text, session.stamps())?;
    Ok(text)
}
