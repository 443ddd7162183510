//! What a thread is given to be a caller.
ghost use Rattle.run_bench.specs.Callers.{IsReady};

use crate::caller::{Call, Caller};
use eleos_base::NoMemory;
use eleos_gcm::Gcm;
use eleos_host::SharedHost;
use eleos_machine::{Machine, Pass};
use std::alloc::Global;
use std::marker::Model;
use std::sync::Wait;

/// A caller's pass, which has no turn, with its machine and its host. Its way to the host is made
/// in
/// its thread.
#[derive(Drop)]
pub struct Job<'a> {
    machine: &'a Machine<Gcm>,
    host: &'a SharedHost,
    pass: Pass,
    enclave: u16,
}

impl<'a> Model for Job<'a> {
    ghost use Rattle.eleos_machine.specs.Machines.{Site};
    ghost use Rattle.run_bench.specs.Callers.{IsReady};

    ghost Value = { Site };

    ghost view = { λ job. job.machine.now };

    ghost invariant = { λ job. IsReady job.machine.now job.pass };
}

impl<'a> Job<'a> {
    /// The job of the caller that has this pass, in the enclave of this number.
    pub fn make(
        machine: &'a Machine<Gcm>,
        host: &'a SharedHost,
        pass: Pass,
        enclave: u16,
    ) -> Job<'a>
        requires { IsReady machine.now pass }
    {
        Job {
            machine,
            host,
            pass,
            enclave,
        }
    }

    /// Makes the caller's rounds, and answers how many there were before the first that was refused
    /// or
    /// answered otherwise than it should.
    pub fn make_rounds<R: Wait>(
        self,
        rt: &R,
        alloc: Global,
        call: Call,
        rounds: u64,
    ) -> Result<u64, NoMemory> {
        let Job {
            machine,
            host,
            pass,
            enclave,
        } = self;
        let mut caller = Caller::make(alloc, machine, host, pass, enclave)?;
        Ok(caller.make_rounds(rt, call, rounds))
    }
}
