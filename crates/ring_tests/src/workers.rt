// What a worker makes of a client that stores any words.
ghost use Rattle.eleos_work.specs.Passes.{IsOf};

use crate::passes::two_of;
use eleos_ring::Bell;
use eleos_words::{
    CALL, DONE, ID, LENGTH, RING_WORDS, RingPort, RingSpace, STATE, STATUS, WordRing,
};
use eleos_work::{BAD_JOB, JobPass, Jobs, MISSING, OKAY};
use std::process::Abort;
use std::sync::Wait;
use std::test::*;

// The words that a client stores in cell 0, without a state, and what is answered.
struct Job {
    id: u64,
    call: u64,
    length: u64,
    status: u64,
    replied: u64,
}

const JOBS: [Job; 9] = [
    // A call that there isn't, and lengths above what a cell has.
    Job {
        id: 1,
        call: 0,
        length: 0,
        status: BAD_JOB,
        replied: 0,
    },
    Job {
        id: 1,
        call: u64::MAX,
        length: 8,
        status: BAD_JOB,
        replied: 0,
    },
    Job {
        id: 0,
        call: 1,
        length: 1025,
        status: BAD_JOB,
        replied: 0,
    },
    Job {
        id: u64::MAX,
        call: 1,
        length: u64::MAX,
        status: BAD_JOB,
        replied: 0,
    },
    // Lengths that are not those of the call.
    Job {
        id: 2,
        call: 2,
        length: 7,
        status: BAD_JOB,
        replied: 0,
    },
    Job {
        id: 2,
        call: 3,
        length: 9,
        status: BAD_JOB,
        replied: 0,
    },
    Job {
        id: 2,
        call: 5,
        length: 1,
        status: BAD_JOB,
        replied: 0,
    },
    // A job is answered whoever stored it.
    Job {
        id: 3,
        call: 1,
        length: 1024,
        status: OKAY,
        replied: 1024,
    },
    Job {
        id: 3,
        call: 4,
        length: 8,
        status: MISSING,
        replied: 0,
    },
];

#[test]
fn a_worker_answers_any_words(rt: HostRuntime) -> Result<(), Fail> {
    let words = WordRing::make(rt.alloc(), RING_WORDS)?;
    let (jobs, passes) = Jobs::make(rt.alloc(), 1)?;
    let mut passes = passes;
    let Some(two) = two_of(&jobs, &mut passes) else {
        return Err("passes".into());
    };
    answer_all(&rt, &jobs, &words, two);
    Ok(())
}

fn answer_all<R: Wait + Abort>(rt: &R, jobs: &Jobs, words: &WordRing, two: (JobPass, JobPass))
    requires { IsOf jobs.now two.0 × IsOf jobs.now two.1 }
{
    let mut bell = jobs.bell(rt, two.0);
    let mut pass = two.1;
    let mut port = words.port(2);
    for job in JOBS.iter() {
        store(words, job);
        bell.ring(0);
        assert!(rt; jobs.worker_turn(rt, &mut pass, &mut port));
        assert_eq!(rt; reply_of(words), (DONE, job.id, job.status, job.replied));
    }
}

// Stores the fields of a job in cell 0.
fn store(words: &WordRing, job: &Job) {
    let mut client = words.port(1);
    client.store(ID, job.id);
    client.store(CALL, job.call);
    client.store(LENGTH, job.length);
}

// State, id, status and length of cell 0.
fn reply_of(words: &WordRing) -> (u64, u64, u64, u64) {
    let mut client = words.port(1);
    let state = client.load(STATE);
    let id = client.load(ID);
    let status = client.load(STATUS);
    (state, id, status, client.load(LENGTH))
}

// The queue of one client has room for 16 numbers.
#[test]
fn a_full_queue_drops_the_number(rt: HostRuntime) -> Result<(), Fail> {
    let words = WordRing::make(rt.alloc(), RING_WORDS)?;
    let (jobs, passes) = Jobs::make(rt.alloc(), 1)?;
    let mut passes = passes;
    let Some(two) = two_of(&jobs, &mut passes) else {
        return Err("passes".into());
    };
    let mut bell = jobs.bell(&rt, two.0);
    for _ in 0..20 {
        bell.ring(31);
    }
    assert_eq!(rt; serve_all(&rt, &jobs, &words, two.1), 16);
    Ok(())
}

// Twenty turns of a worker. It answers how many found a number.
fn serve_all<R: Wait>(rt: &R, jobs: &Jobs, words: &WordRing, pass: JobPass) -> u32
    requires { IsOf jobs.now pass }
{
    let mut pass = pass;
    let mut port = words.port(2);
    let mut found = 0u32;
    for _ in 0..20 {
        if jobs.worker_turn(rt, &mut pass, &mut port) {
            found = found.saturating_add(1);
        }
    }
    found
}
