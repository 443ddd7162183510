// The top call on traces of kind run.
ghost use Rattle.std.specs.Prelude.{◌≡◌, ◌≢◌, ◌↔◌, ◌⊎◌, ℕ, [], ◌∷◌, None, map, take, codes, IfOk};
ghost use Rattle.std.specs.Prelude.{string_bytes};
ghost use Rattle.std.specs.Io.KnownBytes.{Appends, Keeps};
ghost use Rattle.eleos_base.specs.Outside.{HasRisen};
ghost use Rattle.eleos_report.specs.Log.{log_text};
ghost use Rattle.eleos_run.specs.Runs.{IsRunOf};
ghost use Rattle.eleos_trace.specs.declared.trace.Kind.TheVariants.{Run};
ghost use Rattle.eleos_trace.specs.Reading.{trace_of};
ghost use Rattle.eleos_top.specs.Outcome.{PutsBy};
ghost use Rattle.eleos_top.specs.RunEnds.{IsRunText, RanBy};

use crate::input::{InputError, trace_in};
use crate::streams::put_lines;
use crate::top::{is_only, refuse};
use eleos_base::{Gate, List, NoMemory, Sink, Source, Status};
use eleos_host::HostOpener;
use eleos_machine::Pass;
use eleos_report::{LogLine, push_line};
use eleos_run::run;
use eleos_trace::{Kind, places};
use eleos_words::RingSpace;
use std::alloc::Global;
use std::sync::Wait;
use std::thread::Threads;

/// How a run of the program on a trace of kind run ended.
#[derive(Drop)]
pub struct RunEnd {
    pub status: Status,
    /// A pass that has seen all that the callers did, where they ran.
    pub pass: Option<Pass>,
    /// The lines of their log, also where not all of it was put. It is empty where no callers ran.
    pub log: List<LogLine>,
}

/// Runs a trace over a host: reads it, lets its callers run their programs in threads, and puts the
/// log.
///
/// With status 0 the bytes put are the log of the run: each caller's commands once and in order,
/// each entry of the machine's one history just one line, and behind each call the host's reply to
/// it, by words of the ring. With another status nothing is put, the line that refuses the input,
/// or a front. Where memory is wanting only when the log is printed, the
/// callers have run, and nothing is put.
pub fn run_top<
    R: Threads + Wait + Sync,
    S: Source,
    K: Sink,
    H: HostOpener,
    W: RingSpace,
    G: Gate + Sync,
>(
    rt: &R,
    alloc: Global,
    words: &[String],
    source: &mut S,
    sink: &mut K,
    host: H,
    ring: &W,
    gate: &G,
) -> RunEnd
    ensures puts { PutsBy (trace_of Run)
        (IsRunText (IsRunOf H.Space.Port.gave H.Space.Port.took W.Port.showed W.Port.wrote) result)
        result.status
        (S.left source.old) (K.got sink.old) (K.got sink.new)
        (K.faults sink.old) (K.faults sink.new) }
    ensures ran { RanBy (IsRunOf H.Space.Port.gave H.Space.Port.took W.Port.showed W.Port.wrote)
        result.status (S.left source.old) result }

    ensures usage { (result.status ≡ Status.Usage)
        ↔ (map (λ word. string_bytes word) words.now ≢ codes "run" ∷ []) }
    ensures read_fault { result.status ≡ Status.ReadFault
        → HasRisen (S.faults source.old) (S.faults source.new) }
    ensures write_fault { result.status ≡ Status.WriteFault
        → HasRisen (K.faults sink.old) (K.faults sink.new) }
    ensures always_legal { result.status ≢ Status.NotLegal }
{
    if !is_only(words, "run") {
        return none_ran(alloc, Status::Usage);
    }
    let trace = match trace_in(alloc, Kind::Run, source) {
        Ok(trace) => trace,
        Err(InputError::Refused { bad }) => return none_ran(alloc, refuse(alloc, sink, bad)),
        Err(InputError::Failed) => return none_ran(alloc, Status::ReadFault),
        Err(InputError::Memory) => return none_ran(alloc, Status::Memory),
    };
    // No command wants memory at the host.
    let Ok(space) = host.open(places(&trace.plan)) else {
        return none_ran(alloc, Status::Memory);
    };
    let Ok(done) = run(rt, alloc, &trace, &space, ring, gate) else {
        return none_ran(alloc, Status::Memory);
    };
    RunEnd {
        status: put_log(alloc, sink, done.log.as_slice()),
        pass: Some(done.pass),
        log: done.log,
    }
}

/// The end with this status where no callers ran.
fn none_ran(alloc: Global, status: Status) -> RunEnd
    ensures status { result.status ≡ status }
    ensures pass { result.pass ≡ None }
    ensures log { result.log ≡ [] }
{
    RunEnd {
        status,
        pass: None,
        log: List::of(Vec::new(alloc)),
    }
}

/// Puts a log. Want of memory puts nothing.
fn put_log<K: Sink>(alloc: Global, sink: &mut K, log: &[LogLine]) -> Status
    ensures done { result ≡ Status.Done
        → Appends (K.got sink.old) (K.got sink.new) (log_text log.now) }
    ensures front { result ≡ Status.WriteFault
        → (count : ℕ) × Appends (K.got sink.old) (K.got sink.new) (take count (log_text log.now)) }
    ensures failed { result ≡ Status.WriteFault → HasRisen (K.faults sink.old) (K.faults sink.new) }
    ensures memory { result ≡ Status.Memory → Keeps (K.got sink.old) (K.got sink.new) }
    ensures only { (result ≡ Status.Done) ⊎ (result ≡ Status.WriteFault) ⊎
        (result ≡ Status.Memory) }
{
    let Ok(text) = log_text(alloc, log) else {
        return Status::Memory;
    };
    match put_lines(sink, &text) {
        Ok(()) => Status::Done,
        Err(_) => Status::WriteFault,
    }
}

/// The text of a log.
fn log_text(alloc: Global, log: &[LogLine]) -> Result<Vec<u8>, NoMemory>
    ensures { IfOk result (λ text. text.items ≡ log_text log.now) }
{
    let mut text = Vec::new(alloc);
    for line in log {
        push_line(alloc, &mut text, line)?;
    }
    Ok(text)
}
