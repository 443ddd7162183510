// What is made of the one copy of each field.
ghost use Rattle.std.specs.Prelude.{◌≡◌, ◌≤◌};
ghost use Rattle.eleos_words.specs.declared.layout.TheConstants.{MOST_BYTES};
ghost use Rattle.eleos_ring.specs.Accept.{accept};

use crate::Ticket;
use eleos_words::DONE;

/// The highest status of a reply.
pub const MOST_STATUS: u64 = 3;

/// One copy of each field of a cell.
#[derive(Clone, Copy, Debug, PartialEq, Eq)]
pub struct Fields {
    pub state: u64,
    pub id: u64,
    /// In bytes.
    pub length: u64,
    pub status: u64,
}

/// Why a reply is refused.
#[derive(Clone, Copy, Debug, PartialEq, Eq)]
pub enum RingWhy {
    /// The number is not that of the job.
    WrongId,
    /// The length is above the buffer's.
    TooLong,
    /// The status is above `MOST_STATUS`.
    BadStatus,
}

/// What a poll found.
#[must_use]
#[derive(Debug)]
pub enum Polled {
    /// The state is not that of a reply; the ticket stays out.
    Pending { ticket: Ticket, state: u64 },
    /// The copy that was seen is not good.
    Refused { why: RingWhy, seen: u64 },
    /// The reply has so many bytes.
    Reply { len: u32, status: u64 },
}

/// Judges the copies, in the order state, number, length, status.
/// `room` is the length of the buffer for the reply, in bytes.
pub(crate) fn accept(ticket: Ticket, fields: Fields, room: usize) -> Polled
    requires { room ≤ MOST_BYTES }
    ensures { result ≡ accept ticket room fields }
{
    if fields.state != DONE {
        return Polled::Pending {
            ticket,
            state: fields.state,
        };
    }
    let Ticket {
        cell: _,
        id: wanted,
    } = ticket;
    if fields.id != wanted {
        return refused(RingWhy::WrongId, fields.id);
    }
    if fields.length > room as u64 {
        return refused(RingWhy::TooLong, fields.length);
    }
    if fields.status > MOST_STATUS {
        return refused(RingWhy::BadStatus, fields.status);
    }
    Polled::Reply {
        len: fields.length as u32,
        status: fields.status,
    }
}

fn refused(why: RingWhy, seen: u64) -> Polled
    ensures { result ≡ Polled.Refused why seen }
{
    Polled::Refused { why, seen }
}
