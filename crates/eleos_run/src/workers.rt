// The workers of the host, which do the jobs of the callers beside them.
ghost use Rattle.std.specs.Prelude.{ℕ, ◌≡◌, ◌≤◌, ◌<◌, length, slice_index_or, IfOk};
ghost use Rattle.std.specs.List.{All};
ghost use Rattle.eleos_work.specs.Passes.{IsNewPass, IsOf};
ghost use Rattle.eleos_run.specs.Workers.{AreWorkers};

use crate::clients::next_pass;
use eleos_base::NoMemory;
use eleos_trace::{Line, Trace, Word};
use eleos_words::{RingPort, RingSpace};
use eleos_work::{JobPass, Jobs};
use std::alloc::Global;
use std::sync::Wait;
use std::sync::atomic::{AtomicBool, Ordering};
use std::thread;
use std::thread::Threads;

/// The workers of a run whose callers call the host.
pub(crate) const WORKERS: u32 = 2;

/// A worker of the host: its pass, and its port.
#[derive(Drop)]
pub(crate) struct Worker<Q> {
    pub pass: JobPass,
    pub port: Q,
}

/// How many workers a run has: none where no caller calls the host.
pub(crate) fn workers_for(trace: &Trace) -> u32
    ensures { result ≤ WORKERS }
{
    let calls = |line: &Line| matches!(line.command, Word::Call { .. });
    if trace.lines.as_slice().iter().any(calls) {
        WORKERS
    } else {
        0
    }
}

/// So many workers, each with one of the passes. Their threads have the numbers behind those of the
/// callers.
pub(crate) fn workers_of<Q: RingPort, W: RingSpace<Port = Q>>(
    alloc: Global,
    jobs: &Jobs,
    ring: &W,
    callers: u32,
    count: u32,
    passes: Vec<JobPass>,
) -> Result<Vec<Worker<Q>>, NoMemory>
    requires few { callers ≤ 8 }
    requires at_most { count ≤ WORKERS }
    requires enough { count ≤ length passes.items }
    requires new { All (IsNewPass jobs.now) passes.items }
    ensures { IfOk result (λ workers. AreWorkers jobs.now workers.items) }
{
    let mut passes = passes;
    let mut workers = Vec::new(alloc);
    for worker in 0..count {
        workers.push(Worker {
            pass: next_pass(jobs, &mut passes),
            port: ring.port(callers + 1 + worker),
        })?;
    }
    Ok(workers)
}

/// The workers do jobs until the callers have ended, each in a thread of its own where one can be
/// made.
pub(crate) fn work_all<R: Threads + Wait + Sync, Q: RingPort + Send>(
    rt: &R,
    jobs: &Jobs,
    ended: &AtomicBool,
    workers: Vec<Worker<Q>>,
)
    requires { AreWorkers jobs.now workers.items }
{
    let mut workers = workers;
    thread::for_each_mut(
        rt,
        workers.as_mut_slice(),
        WORKERS as usize,
        &|_k, worker: &mut Worker<Q>|
            requires { IsOf jobs.now worker.now.pass }
        { work(rt, jobs, ended, worker) },
    );
}

/// A worker does jobs until the callers have ended.
fn work<R: Wait, Q: RingPort>(rt: &R, jobs: &Jobs, ended: &AtomicBool, worker: &mut Worker<Q>)
    requires { IsOf jobs.now worker.old.pass }
{
    for _ in rt.forever() {
        if ended.load(Ordering::SeqCst) {
            break;
        }
        if !jobs.worker_turn(rt, &mut worker.pass, &mut worker.port) {
            thread::yield_now();
        }
    }
}
