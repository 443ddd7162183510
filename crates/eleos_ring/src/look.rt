// One look at the cell of a ticket.
ghost use Rattle.std.specs.Prelude.{◌≡◌, ◌≤◌, ◌<◌, ◌+◌, length};
ghost use Rattle.eleos_words.specs.declared.layout.TheConstants.{CELLS, MOST_BYTES};
ghost use Rattle.eleos_words.specs.Glances.{IsNewAt};
ghost use Rattle.eleos_words.specs.Told.{more_calls};
ghost use Rattle.eleos_ring.specs.Polls.{CopiesFields, Polls, words_read};

use crate::accept::accept;
use crate::{Fields, Polled, Ticket};
use eleos_words::{Glance, RingPort};

/// Copies each field of the ticket's cell once and judges the copies.
/// The bytes of a reply are copied into the buffer, and no others.
#[tactic(auto, using(crate::proofs::Looks::looked_calls))]
pub(crate) fn look<P: RingPort>(port: &mut P, ticket: Ticket, buf: &mut [u8]) -> Polled
    requires cell { ticket.cell < CELLS }
    requires room { length buf.old ≤ MOST_BYTES }
    ensures polls { Polls P.RingPort.own ticket buf.old buf.new port.new result }
    ensures calls { P.calls port.new ≡ more_calls (P.calls port.old) (5 + words_read result) }
{
    let mut glance = Glance::of(port, ticket.cell);
    look_at(&mut glance, ticket, buf)
}

// The same by a look of which nothing is copied yet.
fn look_at<P: RingPort>(glance: &mut Glance<'_, P>, ticket: Ticket, buf: &mut [u8]) -> Polled
    requires new { IsNewAt P.RingPort.own glance.old ticket.cell }
    requires room { length buf.old ≤ MOST_BYTES }
    ensures port { glance.new.port.ghost_name ≡ glance.old.port.ghost_name }
    ensures polls { Polls P.RingPort.own ticket buf.old buf.new glance.new.port.now result }
    ensures calls { P.calls glance.new.port.now
        ≡ more_calls (P.calls glance.old.port.now) (4 + words_read result) }
{
    let fields = copy_fields(glance);
    let polled = accept(ticket, fields, buf.len());
    if let Polled::Reply { len, .. } = &polled {
        glance.copy_bytes(&mut buf[..*len as usize]);
    }
    polled
}

// One copy of each field, in the order state, number, length, status.
fn copy_fields<P: RingPort>(glance: &mut Glance<'_, P>) -> Fields
    requires { IsNewAt P.RingPort.own glance.old glance.old.cell }
    ensures port { glance.new.port.ghost_name ≡ glance.old.port.ghost_name }
    ensures copies { CopiesFields P.RingPort.own glance.old glance.new result }
{
    let state = glance.state();
    let id = glance.id();
    let length = glance.len();
    let status = glance.status();
    Fields {
        state,
        id,
        length,
        status,
    }
}
