// Which top call the words ask for.
ghost use Rattle.std.specs.Prelude.{◌≡◌, ◌≢◌, ◌↔◌, Some, map, IsTrue, codes, string_bytes};
ghost use Rattle.std.specs.Io.KnownBytes.{Keeps};
ghost use Rattle.eleos_run.specs.Runs.{IsRunOf};
ghost use Rattle.eleos_trace.specs.declared.trace.Kind.TheVariants.{Replay};
ghost use Rattle.eleos_trace.specs.Reading.{trace_of};
ghost use Rattle.eleos_vectors.specs.Answers.{AnswersVectors};
ghost use Rattle.eleos_vectors.specs.Vectors.{vectors_in};
ghost use Rattle.eleos_top.specs.MainEnds.{IsPlainEnd, IsRunEnd, status_of};
ghost use Rattle.eleos_top.specs.Outcome.{EndsBy, first_of};
ghost use Rattle.eleos_top.specs.Replays.{IsReplayLog};
ghost use Rattle.eleos_top.specs.RunEnds.{RunEndsBy};

use crate::gcm::gcm_top;
use crate::replaying::replay_top;
use crate::running::{RunEnd, run_top};
use crate::top::is_word;
use eleos_base::{Gate, Sink, Source, Status};
use eleos_host::{HostHand, HostOpener, HostPort, HostRoom};
use eleos_words::RingSpace;
use std::alloc::Global;
use std::sync::Wait;
use std::thread::Threads;

/// How the top call that was picked ended.
#[derive(Drop)]
pub enum MainEnd {
    /// The words begin with `run`.
    Run(RunEnd),
    /// They do not.
    Plain(Status),
}

impl MainEnd {
    /// The status with which the program ends.
    pub fn status(&self) -> Status
        ensures { result ≡ status_of self.now }
    {
        match self {
            MainEnd::Run(end) => end.status,
            MainEnd::Plain(status) => *status,
        }
    }
}

/// Makes the top call that the first word names. A replay takes its blocks from the told host, and
/// a run from the other; its calls go through the words of this ring, and it has this gate before
/// its commands.
pub fn main_top<
    R: Threads + Wait + Sync,
    S: Source,
    K: Sink,
    P: HostPort + HostHand + HostRoom,
    H: HostOpener,
    W: RingSpace,
    G: Gate + Sync,
>(
    rt: &R,
    alloc: Global,
    words: &[String],
    source: &mut S,
    sink: &mut K,
    told: &mut P,
    host: H,
    ring: &W,
    gate: &G,
) -> MainEnd
    ensures run { first_of (map (λ word. string_bytes word) words.now) ≡ Some (codes "run")
        → IsRunEnd (λ end. RunEndsBy
        (IsRunOf H.Space.Port.gave H.Space.Port.took W.Port.showed W.Port.wrote)
        (map (λ word. string_bytes word) words.now) end
        (S.left source.old) (K.got sink.old) (K.got sink.new)
        (S.faults source.old) (S.faults source.new) (K.faults sink.old) (K.faults sink.new)) result }
    ensures replay { first_of (map (λ word. string_bytes word) words.now) ≡ Some (codes "replay")
        → IsPlainEnd (λ status. EndsBy (trace_of Replay)
        (IsReplayLog (P.store told.old) (P.store told.new)) (codes "replay")
        (map (λ word. string_bytes word) words.now) status
        (S.left source.old) (K.got sink.old) (K.got sink.new)
        (S.faults source.old) (S.faults source.new) (K.faults sink.old) (K.faults sink.new)) result }
    ensures gcm { first_of (map (λ word. string_bytes word) words.now) ≡ Some (codes "gcm")
        → IsPlainEnd (λ status. EndsBy vectors_in AnswersVectors (codes "gcm")
        (map (λ word. string_bytes word) words.now) status
        (S.left source.old) (K.got sink.old) (K.got sink.new)
        (S.faults source.old) (S.faults source.new) (K.faults sink.old) (K.faults sink.new)) result }

    // Other words are no command, and nothing is put.
    ensures other { first_of (map (λ word. string_bytes word) words.now) ≢ Some (codes "run")
        → first_of (map (λ word. string_bytes word) words.now) ≢ Some (codes "replay")
        → first_of (map (λ word. string_bytes word) words.now) ≢ Some (codes "gcm")
        → result ≡ MainEnd.Plain Status.Usage }
    ensures nothing { first_of (map (λ word. string_bytes word) words.now) ≢ Some (codes "run")
        → first_of (map (λ word. string_bytes word) words.now) ≢ Some (codes "replay")
        → first_of (map (λ word. string_bytes word) words.now) ≢ Some (codes "gcm")
        → Keeps (K.got sink.old) (K.got sink.new) }
{
    if starts_with(words, "run") {
        MainEnd::Run(run_top(rt, alloc, words, source, sink, host, ring, gate))
    } else if starts_with(words, "replay") {
        MainEnd::Plain(replay_top(alloc, words, source, sink, told))
    } else if starts_with(words, "gcm") {
        MainEnd::Plain(gcm_top(alloc, words, source, sink))
    } else {
        MainEnd::Plain(Status::Usage)
    }
}

/// Whether this is the first word.
fn starts_with(words: &[String], name: &str) -> bool
    ensures { IsTrue result
        ↔ (first_of (map (λ word. string_bytes word) words.now) ≡ Some name.now) }
{
    match words {
        [word, ..] => is_word(word.as_str(), name),
        _ => false,
    }
}
