// A call that waits for its reply.
ghost use Rattle.std.specs.Prelude.{◌≡◌, ◌≤◌, ◌<◌, ◌^◌, length, IsSome};
ghost use Rattle.eleos_words.specs.declared.layout.TheConstants.{MOST_BYTES};
ghost use Rattle.eleos_ring.specs.Rings.{free_cell, after_call};
ghost use Rattle.eleos_ring.specs.Calls.{HasCalled};

use crate::{Aide, Bell, Polled, Ring, RingWhy};
use eleos_words::RingPort;
use std::sync::Wait;

/// What a call came to.
#[derive(Clone, Copy, Debug, PartialEq, Eq)]
pub enum Called {
    /// The reply has so many bytes.
    Reply { len: u32, status: u64 },
    /// The copy that was seen is not good.
    Refused { why: RingWhy, seen: u64 },
}

impl Ring {
    /// Posts a job and polls until its reply is no longer pending.
    /// The aide takes a turn each time it is. It waits.
    pub fn call<R: Wait, P: RingPort, B: Bell, A: Aide>(
        &mut self,
        rt: &R,
        port: &mut P,
        bell: &mut B,
        aide: &mut A,
        call: u64,
        text: &[u8],
        buf: &mut [u8],
    ) -> Called
        requires few { length text.now ≤ MOST_BYTES }
        requires room { length buf.old ≤ MOST_BYTES }
        requires posts { self.old.posts < 2 ^ 40 }
        requires free { IsSome (free_cell self.old) }

        ensures calls { HasCalled P.RingPort.own self.old call text.now buf.old buf.new result }
        ensures after { self.new ≡ after_call self.old }
    {
        let Ok(mut ticket) = self.post(port, bell, call, text) else {
            unreachable!()
        };
        for _ in rt.forever() {
            match self.poll(port, ticket, buf) {
                Polled::Pending {
                    ticket: again,
                    state: _,
                } => {
                    aide.turn();
                    ticket = again;
                }
                Polled::Refused { why, seen } => return Called::Refused { why, seen },
                Polled::Reply { len, status } => return Called::Reply { len, status },
            }
        }
        unreachable!()
    }
}
