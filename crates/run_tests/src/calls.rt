// The program's call on an input in memory, over hosts that have no place yet.

use eleos_base::{Gate, ListSink, ListSource, Status};
use eleos_host::{SharedHost, ToldHost};
use eleos_top::{MainEnd, main_top};
use eleos_words::{RING_WORDS, RingSpace, WordRing};
use std::alloc::Global;
use std::sync::Wait;
use std::test::Fail;
use std::thread::Threads;

/// A word, what comes in, and which takes and puts fail.
#[derive(Clone, Copy)]
pub struct Call<'a> {
    pub word: &'static str,
    pub input: &'a str,
    pub failing_take: Option<u64>,
    pub failing_put: Option<u64>,
}

/// What came of a call.
#[derive(Drop)]
pub struct Came {
    pub status: Status,
    pub put: String,
    /// How many lines the log of a run has, where its callers ran.
    pub lines: Option<usize>,
}

/// It lets each caller pass at once.
pub struct OpenGate;

impl Gate for OpenGate {
    fn reach(&self, _who: u32, _command: u32) {}
}

/// Makes the call, with this gate before each command of a run.
pub fn made<R: Threads + Wait + Sync, G: Gate + Sync>(
    rt: &R,
    alloc: Global,
    gate: &G,
    call: Call<'_>,
) -> Result<Came, Fail> {
    let ring = WordRing::make(alloc, RING_WORDS)?;
    made_by(rt, alloc, &&ring, gate, call)
}

/// The same by the words of this ring.
pub fn made_by<R: Threads + Wait + Sync, W: RingSpace, G: Gate + Sync>(
    rt: &R,
    alloc: Global,
    ring: &W,
    gate: &G,
    call: Call,
) -> Result<Came, Fail> {
    let words = vec![in alloc; call.word.to_string(alloc)?]?;
    let failing = listed(alloc, call.failing_take)?;
    let mut source = ListSource::new(call.input.as_bytes().to_vec(alloc)?, failing);
    let mut sink = ListSink::new(alloc, listed(alloc, call.failing_put)?);
    let mut told = ToldHost::new(alloc);
    let mut shared = SharedHost::new(alloc);
    let end = main_top(
        rt,
        alloc,
        &words,
        &mut source,
        &mut sink,
        &mut told,
        &mut shared,
        ring,
        gate,
    );
    ended(alloc, &end, &sink)
}

fn listed(alloc: Global, call: Option<u64>) -> Result<Vec<u64>, Fail> {
    let mut calls = Vec::new(alloc);
    if let Some(number) = call {
        calls.push(number)?;
    }
    Ok(calls)
}

fn ended(alloc: Global, end: &MainEnd, sink: &ListSink) -> Result<Came, Fail> {
    let put = std::str::from_utf8(sink.bytes()).map_err(|_| "no text")?;
    Ok(Came {
        status: end.status(),
        put: put.to_string(alloc)?,
        lines: lines_of(end),
    })
}

fn lines_of(end: &MainEnd) -> Option<usize> {
    match end {
        MainEnd::Run(end) if end.pass.is_some() => Some(end.log.len()),
        _ => None,
    }
}
