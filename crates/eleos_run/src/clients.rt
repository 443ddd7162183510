// How a caller reaches the workers of the host.
ghost use Rattle.std.specs.Prelude.{◌≡◌, ◌≤◌, ◌<◌, ◌+◌, ◌*◌, ◌^◌, ℕ, length, IfOk};
ghost use Rattle.std.specs.List.{All};
ghost use Rattle.eleos_ring.specs.Calls.{IsAnswered};
ghost use Rattle.eleos_ring.specs.Rings.{idle};
ghost use Rattle.eleos_words.specs.declared.layout.TheConstants.{MOST_BYTES};
ghost use Rattle.eleos_work.specs.Passes.{IsNewPass, IsOf};

use eleos_base::NoMemory;
use eleos_ring::{Aide, Bell, Called, Ring};
use eleos_words::{RingPort, RingSpace};
use eleos_work::{JobAide, JobBell, JobPass, Jobs};
use std::alloc::Global;
use std::collections::VecDeque;
use std::sync::Wait;

/// A caller's way to the workers of the host.
pub(crate) trait Client: Drop {
    /// The ring showed this word at this place.
    ghost shown: { ℕ → ℕ → Type 0 };

    /// This word was written to this place of the ring.
    ghost written: { ℕ → ℕ → Type 0 };

    /// Posts a job by a ring that has no ticket out, and waits for the reply.
    fn call<R: Wait>(
        &mut self,
        rt: &R,
        ring: &mut Ring,
        number: u64,
        bytes: &[u8],
        room: &mut [u8],
    ) -> Called
        requires idle { ring.old ≡ idle ring.old.client ring.old.posts }
        requires posts { ring.old.posts < 2 ^ 40 }
        requires few { length bytes.now ≤ MOST_BYTES }
        requires room { length room.old ≤ MOST_BYTES }
        ensures answered { IsAnswered shown written
            ring.old 0 number bytes.now room.old room.new result }
        ensures after { ring.new ≡ idle ring.old.client (ring.old.posts + 1) };
}

/// A port of the ring, a bell that tells the workers of a job, and an aide that takes a turn while
/// the job is pending.
#[derive(Drop)]
pub(crate) struct WorkerClient<Q, B, A> {
    port: Q,
    bell: B,
    aide: A,
}

/// A client of the workers of these jobs.
pub(crate) type JobClient<'a, R, Q> = WorkerClient<Q, JobBell<'a, R>, JobAide<'a, R, Q>>;

impl<Q: RingPort, B: Bell + Drop, A: Aide + Drop> Client for WorkerClient<Q, B, A> {
    ghost shown = { Q.showed };

    ghost written = { Q.wrote };

    fn call<R: Wait>(
        &mut self,
        rt: &R,
        ring: &mut Ring,
        number: u64,
        bytes: &[u8],
        room: &mut [u8],
    ) -> Called {
        let Self { port, bell, aide } = self;
        ring.call(rt, port, bell, aide, number, bytes, room)
    }
}

/// A client for each of so many callers, in their order. Each takes two of the passes.
pub(crate) fn clients_of<'a, R: Wait, Q: RingPort, W: RingSpace<Port = Q>>(
    rt: &'a R,
    alloc: Global,
    jobs: &'a Jobs,
    ring: &W,
    callers: u32,
    passes: &mut Vec<JobPass>,
) -> Result<VecDeque<JobClient<'a, R, Q>>, NoMemory>
    requires new { All (IsNewPass jobs.now) passes.old.items }
    requires enough { 2 * callers ≤ length passes.old.items }
    ensures count { IfOk result (λ clients. length clients.items ≡ callers) }
    ensures rest { All (IsNewPass jobs.now) passes.new.items }
    ensures left { IfOk result (λ _. length passes.old.items
        ≡ 2 * callers + length passes.new.items) }
{
    let mut clients = VecDeque::new(alloc);
    for caller in 0..callers {
        let bell = next_pass(jobs, passes);
        let aide = next_pass(jobs, passes);
        clients.push_back(WorkerClient {
            port: ring.port(caller + 1),
            bell: jobs.bell(rt, bell),
            aide: jobs.aide(rt, aide, ring.port(caller + 1)),
        })?;
    }
    Ok(clients)
}

/// One of the passes.
pub(crate) fn next_pass(_jobs: &Jobs, passes: &mut Vec<JobPass>) -> JobPass
    requires some { 0 < length passes.old.items }
    requires new { All (IsNewPass _jobs.now) passes.old.items }
    ensures of { IsOf _jobs.now result }
    ensures rest { All (IsNewPass _jobs.now) passes.new.items }
    ensures left { length passes.old.items ≡ length passes.new.items + 1 }
{
    let Some(pass) = passes.pop() else {
        unreachable!()
    };
    pass
}
