// Two callers beside two workers, each in a thread of its own.
ghost use Rattle.std.specs.Prelude.{◌<◌};
ghost use Rattle.std.specs.Thread.{IsSync};
ghost use Rattle.eleos_ring.specs.declared.cells.TheConstants.{CLIENTS};
ghost use Rattle.eleos_work.specs.Passes.{IsOf};

use crate::passes::two_of;
use eleos_ring::{Called, Ring};
use eleos_words::{RING_WORDS, RingSpace, WordRing};
use eleos_work::{HostCall, JobPass, Jobs};
use std::sync::Wait;
use std::sync::atomic::{AtomicBool, Ordering};
use std::test::Fail;
use std::thread;
use std::thread::{Threads, join};

const CALLS: u32 = 200;

#[test]
fn each_caller_has_its_own_replies(rt: HostRuntime) -> Result<(), Fail> {
    let words = WordRing::make(rt.alloc(), RING_WORDS)?;
    let (jobs, passes) = Jobs::make(rt.alloc(), 2)?;
    let mut passes = passes;
    let one = two_of(&jobs, &mut passes);
    let two = two_of(&jobs, &mut passes);
    let three = two_of(&jobs, &mut passes);
    let (Some(one), Some(two), Some(three)) = (one, two, three) else {
        return Err("passes".into());
    };
    let ended = AtomicBool::new(false);
    let (right, ()) = beside(&rt, &jobs, &words, &ended, one, two, three);
    assert_eq!(rt; right, (CALLS, CALLS));
    Ok(())
}

// The callers, with the passes of the first and the second, and the workers, with those of the
// third.
fn beside<R: Threads + Wait + Sync>(
    rt: &R,
    jobs: &Jobs,
    words: &WordRing,
    ended: &AtomicBool,
    one: (JobPass, JobPass),
    two: (JobPass, JobPass),
    three: (JobPass, JobPass),
) -> ((u32, u32), ())
    requires one { IsOf jobs.now one.0 × IsOf jobs.now one.1 }
    requires two { IsOf jobs.now two.0 × IsOf jobs.now two.1 }
    requires three { IsOf jobs.now three.0 × IsOf jobs.now three.1 }
{
    join(
        rt,
        move || -> (u32, u32)
            requires { IsSync R.row × (IsOf jobs.now one.0 × IsOf jobs.now one.1)
                × (IsOf jobs.now two.0 × IsOf jobs.now two.1) }
        { call_both(rt, jobs, words, ended, one, two) },
        move || -> ()
            requires { IsSync R.row × (IsOf jobs.now three.0 × IsOf jobs.now three.1) }
        { work_both(rt, jobs, words, ended, three) },
    )
}

// Both callers, and then the sign that they have ended.
fn call_both<R: Threads + Wait + Sync>(
    rt: &R,
    jobs: &Jobs,
    words: &WordRing,
    ended: &AtomicBool,
    one: (JobPass, JobPass),
    two: (JobPass, JobPass),
) -> (u32, u32)
    requires one { IsOf jobs.now one.0 × IsOf jobs.now one.1 }
    requires two { IsOf jobs.now two.0 × IsOf jobs.now two.1 }
{
    let right = join(
        rt,
        move || -> u32
            requires { IsSync R.row × (IsOf jobs.now one.0 × IsOf jobs.now one.1) }
        { echo_many(rt, jobs, words, 0, one) },
        move || -> u32
            requires { IsSync R.row × (IsOf jobs.now two.0 × IsOf jobs.now two.1) }
        { echo_many(rt, jobs, words, 1, two) },
    );
    ended.store(true, Ordering::SeqCst);
    right
}

fn work_both<R: Threads + Wait + Sync>(
    rt: &R,
    jobs: &Jobs,
    words: &WordRing,
    ended: &AtomicBool,
    three: (JobPass, JobPass),
)
    requires three { IsOf jobs.now three.0 × IsOf jobs.now three.1 }
{
    let (first, second) = three;
    join(
        rt,
        move || -> ()
            requires { IsSync R.row × IsOf jobs.now first }
        { work(rt, jobs, words, ended, first) },
        move || -> ()
            requires { IsSync R.row × IsOf jobs.now second }
        { work(rt, jobs, words, ended, second) },
    );
}

// A caller asks for echoes of its own, and counts the right ones.
fn echo_many<R: Wait>(
    rt: &R,
    jobs: &Jobs,
    words: &WordRing,
    client: u32,
    two: (JobPass, JobPass),
) -> u32
    requires client { client < CLIENTS }
    requires two { IsOf jobs.now two.0 × IsOf jobs.now two.1 }
{
    let mut port = words.port(client + 1);
    let mut bell = jobs.bell(rt, two.0);
    let mut aide = jobs.aide(rt, two.1, words.port(client + 1));
    let mut ring = Ring::make(client);
    let echo = HostCall::Echo.number();
    let mut right = 0u32;
    for i in 0..CALLS {
        let text = (u64::from(client) << 32 | u64::from(i)).to_be_bytes();
        let mut room = [0; 8];
        let called = ring.call(rt, &mut port, &mut bell, &mut aide, echo, &text, &mut room);
        if called == (Called::Reply { len: 8, status: 0 }) && room == text {
            right = right.saturating_add(1);
        }
    }
    right
}

// A worker does jobs until the callers have ended.
fn work<R: Wait>(rt: &R, jobs: &Jobs, words: &WordRing, ended: &AtomicBool, pass: JobPass)
    requires { IsOf jobs.now pass }
{
    let mut pass = pass;
    let mut port = words.port(0);
    for _ in rt.forever() {
        if ended.load(Ordering::SeqCst) {
            break;
        }
        if !jobs.worker_turn(rt, &mut pass, &mut port) {
            thread::yield_now();
        }
    }
}
