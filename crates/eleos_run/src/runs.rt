//! A run: the machine is made, its callers run their programs, and it is closed.
ghost use Rattle.std.specs.Prelude.{vec_capacity, ◌≡◌, ◌+◌, ◌<◌, ◌≤◌, ◌^◌, [], length, IfOk};
ghost use Rattle.std.specs.Prelude.{None};
ghost use Rattle.eleos_machine.specs.Closing.{AllOfMachine, HasClosed, close_fault, hands_of};
ghost use Rattle.eleos_machine.specs.Machines.{IsMachine, all_passes};
ghost use Rattle.eleos_trace.specs.Kinds.{IsRun};
ghost use Rattle.eleos_turn.specs.Hands.{dealt};
ghost use Rattle.eleos_run.specs.Callers.{AreDoneJobs, lines_of};
ghost use Rattle.eleos_run.specs.Runs.{IsRunOf};
ghost use Rattle.eleos_run.specs.Workers.{AreWorkers};

use crate::clients::{Client, clients_of};
use crate::jobs::Job;
use crate::making::jobs_of;
use crate::parting::{line_room, part, with_end};
use crate::threads::perform_beside;
use crate::workers::{Worker, workers_for, workers_of};
use eleos_base::{Gate, List, NoMemory};
use eleos_gcm::Gcm;
use eleos_host::{HostPort, HostSpace};
use eleos_machine::{CloseRefused, Machine, MakeRefused, Pass, fault_of};
use eleos_report::LogLine;
use eleos_trace::Trace;
use eleos_words::{RingPort, RingSpace};
use eleos_work::Jobs;
use std::alloc::Global;
use std::collections::VecDeque;
use std::sync::Wait;
use std::thread::Threads;

/// The log of a run, and a pass that has seen the machine's whole history.
#[derive(Drop)]
pub struct RunDone {
    pub log: List<LogLine>,
    pub pass: Pass,
}

/// Runs the programs of a trace's callers, its swapper and its balloon, each in a thread of its own
/// where one can be made, over one machine with this host, beside workers that do the jobs of their calls by the words of this
/// ring. All memory is taken before they start.
pub fn run<R: Threads + Wait + Sync, H: HostSpace + Sync, W: RingSpace, G: Gate + Sync>(
    rt: &R,
    alloc: Global,
    trace: &Trace,
    host: &H,
    ring: &W,
    gate: &G,
) -> Result<RunDone, NoMemory>
    requires { IsRun trace.now }
    ensures { IfOk result (λ done. IsRunOf H.Port.gave H.Port.took
        W.Port.showed W.Port.wrote trace.now done.pass done.log) }
{
    let Ok(sealer) = Gcm::new(trace.key.as_slice()) else {
        unreachable!()
    };
    // A machine can be made of the plan of each run.
    let None = fault_of(&trace.plan) else {
        unreachable!()
    };
    match Machine::make(alloc, &trace.plan, sealer) {
        Ok((machine, passes)) => run_on(rt, alloc, trace, host, ring, gate, machine, passes),
        Err(MakeRefused::NoMemory) => Err(NoMemory),
        Err(MakeRefused::BadPlan { .. }) => unreachable!(),
    }
}

/// Runs the programs on the machine that was made for them, and closes it.
fn run_on<R: Threads + Wait + Sync, H: HostSpace + Sync, W: RingSpace, G: Gate + Sync>(
    rt: &R,
    alloc: Global,
    trace: &Trace,
    host: &H,
    ring: &W,
    gate: &G,
    machine: Machine<Gcm>,
    passes: Vec<Pass>,
) -> Result<RunDone, NoMemory>
    requires run { IsRun trace.now }
    requires machine { IsMachine machine }
    requires plan { machine.base.grounds.plan ≡ trace.now.plan }
    requires key { machine.base.grounds.key ≡ trace.now.key }
    requires passes { hands_of passes.items ≡ dealt machine 0 (all_passes trace.now.plan) }
    ensures { IfOk result (λ done. IsRunOf H.Port.gave H.Port.took
        W.Port.showed W.Port.wrote trace.now done.pass done.log) }
{
    let count = trace.plan.callers.len() as u32;
    let (workplace, spare) = Jobs::make(alloc, count)?;
    let mut spare = spare;
    let clients = clients_of(rt, alloc, &workplace, ring, count, &mut spare)?;
    let workers = workers_of(alloc, &workplace, ring, count, workers_for(trace), spare)?;
    run_beside(
        rt, alloc, trace, host, gate, &workplace, machine, passes, clients, workers,
    )
}

/// Runs the programs by these ways to the host, beside these workers of it.
fn run_beside<
    R: Threads + Wait + Sync,
    H: HostSpace + Sync,
    C: Client + Send,
    Q: RingPort + Send,
    G: Gate + Sync,
>(
    rt: &R,
    alloc: Global,
    trace: &Trace,
    host: &H,
    gate: &G,
    workplace: &Jobs,
    machine: Machine<Gcm>,
    passes: Vec<Pass>,
    clients: VecDeque<C>,
    workers: Vec<Worker<Q>>,
) -> Result<RunDone, NoMemory>
    requires run { IsRun trace.now }
    requires machine { IsMachine machine }
    requires plan { machine.base.grounds.plan ≡ trace.now.plan }
    requires key { machine.base.grounds.key ≡ trace.now.key }
    requires passes { hands_of passes.items ≡ dealt machine 0 (all_passes trace.now.plan) }
    requires clients { length clients.items ≡ length trace.now.plan.callers }
    requires workers { AreWorkers workplace.now workers.items }
    ensures { IfOk result (λ done. IsRunOf H.Port.gave H.Port.took
        C.shown C.written trace.now done.pass done.log) }
{
    let jobs = jobs_of(alloc, trace, host, &machine, passes, clients)?;
    let log = Vec::with_capacity(alloc, line_room(&jobs) + 1)?;
    let passes = Vec::with_capacity(alloc, jobs.len())?;
    let jobs = perform_beside(rt, &machine, gate, workplace, jobs, workers);
    Ok(finish(trace, machine, jobs, passes, log))
}

/// Puts together what the actors left, in the room for all passes and for the log, and closes the
/// machine.
fn finish<P: HostPort, C: Client>(
    _trace: &Trace,
    machine: Machine<Gcm>,
    jobs: Vec<Job<P, C>>,
    passes: Vec<Pass>,
    log: Vec<LogLine>,
) -> RunDone
    requires run { IsRun _trace.now }
    requires machine { IsMachine machine }
    requires plan { machine.base.grounds.plan ≡ _trace.now.plan }
    requires key { machine.base.grounds.key ≡ _trace.now.key }
    requires done { AreDoneJobs P.gave P.took C.shown C.written _trace.now machine 0 jobs.items }
    requires count { length jobs.items ≡ all_passes _trace.now.plan }
    requires no_passes { passes.items ≡ [] }
    requires no_lines { log.items ≡ [] }
    requires passes_room { length jobs.items ≤ vec_capacity passes }
    requires log_room { length (lines_of jobs.items) + 1 ≤ vec_capacity log }
    requires few { length (lines_of jobs.items) < 2 ^ 32 }
    ensures { IsRunOf P.gave P.took C.shown C.written _trace.now result.pass result.log }
{
    let mut passes = passes;
    let mut lines = log;
    part(jobs, &mut passes, &mut lines);
    let pass = closed(machine, passes);
    let log = List::of(with_end(lines));
    RunDone { log, pass }
}

/// Closes the machine with all its passes.
fn closed(machine: Machine<Gcm>, passes: Vec<Pass>) -> Pass
    requires own { AllOfMachine machine passes.items }
    requires no_fault { close_fault machine.base.hands passes.items ≡ None }
    ensures { HasClosed machine passes.items result }
{
    match machine.close(passes) {
        Ok(pass) => pass,
        Err(CloseRefused { .. }) => unreachable!(),
    }
}
