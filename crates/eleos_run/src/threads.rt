// The programs of all actors, each in a thread of its own, beside the workers of the host.
ghost use Rattle.std.specs.Prelude.{ℕ, ◌≡◌, ◌<◌, length, slice_index_or};
ghost use Rattle.std.specs.Thread.{IsSync};
ghost use Rattle.eleos_run.specs.Jobs.{AreReady, HasRun, HaveRun, IsReadyJob};
ghost use Rattle.eleos_run.specs.Workers.{AreWorkers};

use crate::callers::perform;
use crate::clients::Client;
use crate::jobs::Job;
use crate::workers::{Worker, work_all};
use eleos_base::{Gate, MOST_CALLERS, Sealer};
use eleos_host::HostPort;
use eleos_machine::Machine;
use eleos_words::RingPort;
use eleos_work::Jobs;
use std::sync::Wait;
use std::sync::atomic::{AtomicBool, Ordering};
use std::thread;
use std::thread::{Threads, join};

/// All callers do their tasks, while the workers do the jobs of their calls.
pub(crate) fn perform_beside<
    R: Threads + Wait + Sync,
    S: Sealer + Sync,
    P: HostPort + Send,
    C: Client + Send,
    Q: RingPort + Send,
    G: Gate + Sync,
>(
    rt: &R,
    machine: &Machine<S>,
    gate: &G,
    host: &Jobs,
    jobs: Vec<Job<P, C>>,
    workers: Vec<Worker<Q>>,
) -> Vec<Job<P, C>>
    requires ready { AreReady machine.now jobs.items }
    requires workers { AreWorkers host.now workers.items }
    ensures { HaveRun P.gave P.took C.shown C.written machine.now jobs.items result.items }
{
    let ended = AtomicBool::new(false);
    let over = &ended;
    let (jobs, ()) = join(
        rt,
        move || -> Vec<Job<P, C>>
            requires { IsSync R.row × IsSync S.row × IsSync G.row
                × AreReady machine.now jobs.items }
            ensures { HaveRun P.gave P.took C.shown C.written
                machine.entry.now jobs.items result.items }
        { perform_each(rt, machine, gate, over, jobs) },
        move || -> ()
            requires { IsSync R.row × AreWorkers host.now workers.items }
        { work_all(rt, host, over, workers) },
    );
    jobs
}

/// All callers do their tasks, and then it is said that they have ended.
fn perform_each<
    R: Threads + Wait + Sync,
    S: Sealer + Sync,
    P: HostPort + Send,
    C: Client + Send,
    G: Gate + Sync,
>(
    rt: &R,
    machine: &Machine<S>,
    gate: &G,
    ended: &AtomicBool,
    jobs: Vec<Job<P, C>>,
) -> Vec<Job<P, C>>
    requires { AreReady machine.now jobs.items }
    ensures { HaveRun P.gave P.took C.shown C.written machine.now jobs.items result.items }
{
    let mut jobs = jobs;
    perform_all(rt, machine, gate, jobs.as_mut_slice());
    ended.store(true, Ordering::SeqCst);
    jobs
}

/// All callers do their tasks, each in a thread of its own where one can be made.
fn perform_all<
    R: Threads + Wait + Sync,
    S: Sealer + Sync,
    P: HostPort + Send,
    C: Client + Send,
    G: Gate + Sync,
>(rt: &R, machine: &Machine<S>, gate: &G, jobs: &mut [Job<P, C>])
    requires ready { AreReady machine.now jobs.old }
    ensures { (k : ℕ) (j : _) → k < length jobs.old
        → HasRun P.gave P.took C.shown C.written machine.now
        (slice_index_or jobs.old k j) (slice_index_or jobs.new k j) }
{
    thread::for_each_mut(
        rt,
        jobs,
        MOST_CALLERS as usize + 2,
        &|_k, job: &mut Job<P, C>|
            requires { IsReadyJob machine.now job.now }
            ensures { HasRun P.gave P.took C.shown C.written
                machine.entry.now job.entry.now job.exit.now }
        { perform(rt, machine, gate, job) },
    );
}
