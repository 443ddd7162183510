//! The program: `eleos replay`, `eleos run` and `eleos gcm`.
#![tactic(auto)]

use eleos_base::{Gate, Status, StdSink, StdSource};
use eleos_host::{SharedHost, ToldHost};
use eleos_top::main_top;
use eleos_words::{RING_WORDS, WordRing};
use std::process::ExitCode;
use std::{env, io};

/// It lets each caller pass at once.
struct OpenGate;

impl Gate for OpenGate {
    fn reach(&self, _who: u32, _command: u32) {}
}

fn main(rt: HostRuntime) -> io::Result<ExitCode> {
    let alloc = rt.alloc();
    let mut words = Vec::new(alloc);
    for word in env::args(&rt)?.skip(1) {
        words.push(word)?;
    }
    let mut source = StdSource::new(rt.stdin());
    let mut sink = StdSink::new(rt.stdout());
    // They have no place until a trace is read.
    let mut told = ToldHost::new(alloc);
    let mut shared = SharedHost::new(alloc);
    let Ok(ring) = WordRing::make(alloc, RING_WORDS) else {
        return Ok(ExitCode::from(Status::Memory.code()));
    };
    let status = main_top(
        &rt,
        alloc,
        &words,
        &mut source,
        &mut sink,
        &mut told,
        &mut shared,
        &&ring,
        &OpenGate,
    )
    .status();
    if status == Status::Usage {
        eprintln!(rt; "usage: eleos replay|run|gcm")?;
    }
    Ok(ExitCode::from(status.code()))
}
