// The jobs of all actors that have a pass: all room that they need is taken here.
ghost use Rattle.std.specs.Prelude.{ℕ, ◌≡◌, ◌-◌, ◌<◌, ◌≤◌, IfOk, IsSome, length};
ghost use Rattle.eleos_core.specs.Legal.{IsActor};
ghost use Rattle.eleos_machine.specs.Closing.{hands_of};
ghost use Rattle.eleos_machine.specs.Machines.{IsMachine, all_passes};
ghost use Rattle.eleos_meaning.specs.NameTable.{names_in};
ghost use Rattle.eleos_trace.specs.Kinds.{IsRun};
ghost use Rattle.eleos_turn.specs.Hands.{dealt, fresh};
ghost use Rattle.eleos_run.specs.Callers.{AreNewJobs, IsNewJob};
ghost use Rattle.eleos_run.specs.Lines.{actor_of, names_at};

use crate::clients::Client;
use crate::jobs::Job;
use crate::tasks::{line_count, tasks_of};
use eleos_base::{NoMemory, Sealer};
use eleos_host::{HostPort, HostSpace, Tap};
use eleos_machine::{Machine, Pass};
use eleos_meaning::{NameTable, opening_names};
use eleos_ring::Ring;
use eleos_trace::{Actor, Trace};
use std::alloc::Global;
use std::collections::VecDeque;

/// The jobs of the actors that have these passes: the callers with these ways to the host, and
/// behind them the swapper and the balloon.
pub(crate) fn jobs_of<S: Sealer, P: HostPort, C: Client, H: HostSpace<Port = P>>(
    alloc: Global,
    trace: &Trace,
    host: &H,
    machine: &Machine<S>,
    passes: Vec<Pass>,
    clients: VecDeque<C>,
) -> Result<Vec<Job<P, C>>, NoMemory>
    requires run { IsRun trace.now }
    requires machine { IsMachine machine.now }
    requires plan { machine.now.base.grounds.plan ≡ trace.now.plan }
    requires passes { hands_of passes.items
        ≡ dealt machine.now 0 (all_passes trace.now.plan) }
    requires clients { length clients.items ≡ length trace.now.plan.callers }
    ensures jobs { IfOk result (λ jobs. AreNewJobs trace.now machine.now 0 jobs.items) }
    ensures count { IfOk result (λ jobs. length jobs.items ≡ all_passes trace.now.plan) }
{
    let mut clients = clients;
    let mut jobs = Vec::with_capacity(alloc, passes.len())?;
    for pass in passes {
        let client = next_client(&mut clients);
        jobs.push(job_of(alloc, trace, host, machine, pass, client)?)?;
    }
    Ok(jobs)
}

/// The first of these ways to the host, where there is one.
fn next_client<C: Client>(clients: &mut VecDeque<C>) -> Option<C>
    ensures first { 0 < length clients.old.items → IsSome result }
    ensures rest { length clients.new.items ≡ length clients.old.items - 1 }
{
    clients.pop_front()
}

/// The actor that has the pass with this number, behind so many callers.
fn actor_of(callers: u32, who: u32) -> Actor
    ensures { result ≡ actor_of callers who }
{
    if who <= callers {
        Actor::Caller(who)
    } else if who == callers + 1 {
        Actor::Swapper
    } else {
        Actor::Balloon
    }
}

/// The addresses that an actor's names have before its first command: a caller has those of the
/// header blocks of its enclave.
fn names_at(alloc: Global, trace: &Trace, who: u32) -> Result<NameTable, NoMemory>
    requires run { IsRun trace.now }
    requires some { 0 < who }
    ensures { IfOk result (λ names. names_in names ≡ names_at trace.now who) }
{
    if who as usize <= trace.plan.callers.len() {
        return opening_names(alloc, trace, who);
    }
    Ok(NameTable::new(alloc))
}

/// The number of the actor's client at the ring, which only a caller uses.
fn client_at(actor: Actor) -> u32
    requires { (who : ℕ) → actor ≡ Actor.Caller who → (0 < who) × (who ≤ 8) }
    ensures few { result < 8 }
    ensures own { (who : ℕ) → actor ≡ Actor.Caller who → result ≡ who - 1 }
{
    match actor {
        Actor::Caller(who) => who - 1,
        _ => 0,
    }
}

/// The job of the actor that has this pass, and this way to the host where it is a caller.
fn job_of<S: Sealer, P: HostPort, C: Client, H: HostSpace<Port = P>>(
    alloc: Global,
    trace: &Trace,
    host: &H,
    machine: &Machine<S>,
    pass: Pass,
    client: Option<C>,
) -> Result<Job<P, C>, NoMemory>
    requires run { IsRun trace.now }
    requires machine { IsMachine machine.now }
    requires plan { machine.now.base.grounds.plan ≡ trace.now.plan }
    requires actor { IsActor trace.now.plan pass.hand.number }
    requires client { pass.hand.number ≤ length trace.now.plan.callers → IsSome client }
    requires unused { pass.hand ≡ fresh machine.now pass.hand.number }
    ensures { IfOk result (λ job. IsNewJob trace.now machine.now pass.hand.number job) }
{
    let _ = machine;
    let who = pass.who();
    let actor = actor_of(trace.plan.callers.len() as u32, who);
    let mut names = names_at(alloc, trace, who)?;
    let tasks = tasks_of(alloc, trace, actor, &mut names)?;
    let lines = Vec::with_capacity(alloc, line_count(trace, actor) as usize)?;
    let tap = Tap::make(alloc, host.port(who))?;
    let ring = Ring::make(client_at(actor));
    Ok(Job {
        actor,
        pass,
        tap,
        ring,
        client,
        names,
        tasks,
        lines,
    })
}
