//! What a thread is given to be a caller or a worker of the ring.
ghost use Rattle.std.specs.Prelude.{◌<◌, ◌≤◌};
ghost use Rattle.eleos_ring.specs.declared.cells.TheConstants.{CLIENTS};
ghost use Rattle.eleos_work.specs.Passes.{IsOf};
ghost use Rattle.ring_bench.specs.Seats.{IsFilled};

use eleos_ring::{Aide, Called, Ring};
use eleos_words::{RingSpace, WordRing};
use eleos_work::{HostCall, JobPass, Jobs};
use std::marker::Model;
use std::sync::Wait;
use std::sync::atomic::{AtomicU32, Ordering};
use std::thread;

/// The most bytes of a message.
const ROOM: usize = 1024;

/// What all threads share.
#[derive(Clone, Copy)]
pub struct Site<'a> {
    pub jobs: &'a Jobs,
    pub words: &'a WordRing,
    /// How many callers have not ended yet.
    pub running: &'a AtomicU32,
}

/// What a thread does.
#[derive(Clone, Copy)]
pub enum Role {
    /// It calls, as this client of the ring, with messages of so many bytes.
    Caller { client: u32, bytes: u32 },
    /// It does jobs until all callers have ended.
    Worker,
}

/// A thread's seat at the ring, with its pass.
#[derive(Drop)]
pub struct Seat<'a> {
    site: Site<'a>,
    pass: JobPass,
    role: Role,
}

impl<'a> Model for Seat<'a> {
    ghost use Rattle.eleos_work.specs.declared.jobs.Jobs.{Jobs};
    ghost use Rattle.ring_bench.specs.Seats.{IsFilled};

    ghost Value = { Jobs };

    ghost view = { λ seat. seat.site.jobs.now };

    ghost invariant = { λ seat. IsFilled seat.site.jobs.now seat.pass seat.role };
}

impl<'a> Seat<'a> {
    /// The seat of a thread that has this pass and does this.
    pub fn make(site: Site<'a>, pass: JobPass, role: Role) -> Seat<'a>
        requires { IsFilled site.jobs.now pass role }
    {
        Seat { site, pass, role }
    }

    /// The right rounds of a caller, none of a worker.
    pub fn sit<R: Wait>(self, rt: &R, rounds: u32) -> u64 {
        let Seat { site, pass, role } = self;
        match role {
            Role::Caller { client, bytes } => call_many(rt, site, pass, client, bytes, rounds),
            Role::Worker => {
                work(rt, site, pass);
                0
            }
        }
    }
}

/// An aide that does nothing: what a call takes is then what its worker takes.
#[derive(Drop)]
struct NoAide;

impl Aide for NoAide {
    fn turn(&mut self) {}
}

// Asks for an echo in each round, and answers how many came back right.
fn call_many<R: Wait>(
    rt: &R,
    site: Site<'_>,
    pass: JobPass,
    client: u32,
    bytes: u32,
    rounds: u32,
) -> u64
    requires of { IsOf site.jobs.now pass }
    requires few { client < CLIENTS }
    requires short { bytes ≤ 1024 }
{
    let mut port = site.words.port(client + 1);
    let mut bell = site.jobs.bell(rt, pass);
    let mut ring = Ring::make(client);
    let mut right = 0u64;
    let text = [7; ROOM];
    let text = &text[..bytes as usize];
    for _round in 0..rounds {
        let mut room = [0; ROOM];
        let reply = &mut room[..bytes as usize];
        let echo = HostCall::Echo.number();
        let called = ring.call(rt, &mut port, &mut bell, &mut NoAide, echo, text, reply);
        if called
            == (Called::Reply {
                len: bytes,
                status: 0,
            })
            && *reply == *text
        {
            right = right.saturating_add(1);
        }
    }
    site.running.fetch_sub(1, Ordering::SeqCst);
    right
}

fn work<R: Wait>(rt: &R, site: Site<'_>, pass: JobPass)
    requires { IsOf site.jobs.now pass }
{
    let mut pass = pass;
    let mut port = site.words.port(0);
    for _ in rt.forever() {
        if site.running.load(Ordering::SeqCst) == 0 {
            break;
        }
        if !site.jobs.worker_turn(rt, &mut pass, &mut port) {
            thread::yield_now();
        }
    }
}
