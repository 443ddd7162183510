// The cells of one client.
ghost use Rattle.std.specs.Prelude.{◌≡◌, ◌≤◌, ◌<◌, ◌+◌, ◌^◌, length, position, is_none, Some, IfOk};
ghost use Rattle.std.specs.Prelude.{IfSome, OnErr};
ghost use Rattle.eleos_words.specs.declared.layout.TheConstants.{MOST_BYTES};
ghost use Rattle.eleos_words.specs.Told.{more_calls};
ghost use Rattle.eleos_ring.specs.Jobs.{Posts};
ghost use Rattle.eleos_ring.specs.Rings.{idle, free_cell, post_answer, after_post, IsOut};
ghost use Rattle.eleos_ring.specs.Rings.{after_poll};
ghost use Rattle.eleos_ring.specs.Polls.{Polls, words_read};

use crate::look::look;
use crate::post::store_job;
use crate::{Bell, Polled, Ticket};
use eleos_words::RingPort;
use std::marker::Model;

/// The cells of a client.
pub const CELLS_EACH: u32 = 4;

/// The most clients.
pub const CLIENTS: u32 = 8;

/// All cells have a ticket out.
#[derive(Clone, Copy, Debug, PartialEq, Eq)]
pub struct RingFull;

/// The cells of one client, and which of them has a ticket out.
/// A ticket's number is that of its job: from 1 on, over all cells of the client.
#[derive(Drop)]
pub struct Ring {
    client: u32,
    posts: u64,
    out: [Option<u64>; CELLS_EACH as usize],
}

impl Model for Ring {
    ghost use Rattle.std.specs.Prelude.{◌<◌};
    ghost use Rattle.eleos_ring.specs.declared.cells.TheConstants.{CLIENTS};
    ghost use Rattle.eleos_ring.specs.States.{RingState};

    ghost Value = { RingState };

    ghost view = { λ r. record { client = r.client; posts = r.posts; out = r.out } };

    ghost invariant = { λ r. r.client < CLIENTS };
}

impl Ring {
    /// The ring of a client, with no ticket out.
    pub fn make(client: u32) -> Ring
        requires { client < CLIENTS }
        ensures { result ≡ idle client 0 }
    {
        Ring {
            client,
            posts: 0,
            out: [None; CELLS_EACH as usize],
        }
    }

    /// Whether each cell has a ticket out.
    pub fn is_full(&self) -> bool
        ensures { result ≡ is_none (free_cell self.now) }
    {
        lowest_free(&self.out).is_none()
    }

    /// Posts a job in the lowest free cell, and rings the bell with the cell's number.
    /// It is refused where each cell has a ticket out.
    pub fn post<P: RingPort, B: Bell>(
        &mut self,
        port: &mut P,
        bell: &mut B,
        call: u64,
        text: &[u8],
    ) -> Result<Ticket, RingFull>
        requires few { length text.now ≤ MOST_BYTES }
        requires posts { self.old.posts < 2 ^ 40 }

        ensures answer { result ≡ post_answer self.old }
        ensures after { self.new ≡ after_post self.old }
        ensures out { IfOk result (λ t. IsOut self.new t) }
        ensures posted { IfOk result (λ t. Posts P.RingPort.own port.old port.new t call text.now) }
        ensures rung { IfOk result (λ t. B.rung bell.old bell.new t.cell) }
        ensures full { OnErr result (port.new ≡ port.old) }
        ensures quiet { OnErr result (bell.new ≡ bell.old) }
    {
        let Some(free) = lowest_free(&self.out) else {
            return Err(RingFull);
        };
        let id = self.posts + 1;
        let cell = CELLS_EACH * self.client + free as u32;
        self.out[free] = Some(id);
        self.posts = id;
        store_job(port, cell, id, call, text);
        bell.ring(cell);
        Ok(Ticket { cell, id })
    }

    /// Copies each field of the ticket's cell once, judges the copies, and fills the buffer from
    /// a reply. On Pending and Refused the buffer is unchanged.
    pub fn poll<P: RingPort>(&mut self, port: &mut P, ticket: Ticket, buf: &mut [u8]) -> Polled
        requires out { IsOut self.old ticket }
        requires room { length buf.old ≤ MOST_BYTES }

        ensures polls { Polls P.RingPort.own ticket buf.old buf.new port.new result }
        ensures calls { P.calls port.new ≡ more_calls (P.calls port.old) (5 + words_read result) }
        ensures after { self.new ≡ after_poll self.old ticket result }
    {
        let mine = (ticket.cell - CELLS_EACH * self.client) as usize;
        let polled = look(port, ticket, buf);
        match &polled {
            Polled::Pending { .. } => {}
            Polled::Refused { .. } | Polled::Reply { .. } => self.out[mine] = None,
        }
        polled
    }
}

// The lowest cell, of the client's, that has no ticket out.
fn lowest_free(out: &[Option<u64>; CELLS_EACH as usize]) -> Option<usize>
    ensures answer { result ≡ position is_none out.now }
    ensures within { IfSome result (λ mine. mine < CELLS_EACH) }
{
    out.iter().position(|id| id.is_none())
}
