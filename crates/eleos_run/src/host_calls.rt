// What is printed behind a call of the host.
ghost use Rattle.std.specs.Prelude.{◌≡◌, ◌≤◌, ◌<◌, ◌+◌, ◌^◌, length, Some, None};
ghost use Rattle.eleos_ring.specs.Rings.{idle};
ghost use Rattle.eleos_words.specs.declared.layout.TheConstants.{MOST_BYTES};
ghost use Rattle.eleos_work.specs.Numbers.{call_of};
ghost use Rattle.eleos_run.specs.Calls.{IsCallReply, called_answer, host_call, refusal_answer};

use crate::answers::Spoken;
use crate::clients::Client;
use eleos_base::List;
use eleos_report::Answer;
use eleos_ring::{Called, Ring, RingWhy};
use eleos_trace::CallWord;
use eleos_work::HostCall;
use std::sync::Wait;

/// Makes a call of the host, with room for its reply, and waits for it.
pub(crate) fn answer_call<C: Client, R: Wait>(
    rt: &R,
    client: &mut C,
    ring: &mut Ring,
    call: CallWord,
    bytes: &[u8],
    room: Vec<u8>,
) -> Spoken
    requires idle { ring.old ≡ idle ring.old.client ring.old.posts }
    requires posts { ring.old.posts < 2 ^ 40 }
    requires few { length bytes.now ≤ MOST_BYTES }
    requires room { length room.items ≤ MOST_BYTES }
    ensures stamp { result.stamp ≡ None }
    ensures reply { IsCallReply C.shown C.written
        ring.old.client ring.old.posts call bytes.now room.items result.reply }
    ensures ring { ring.new ≡ idle ring.old.client (ring.old.posts + 1) }
{
    let mut buffer = room;
    let called = client.call(rt, ring, call_number(call), bytes, &mut buffer);
    Spoken {
        stamp: None,
        reply: called_answer(called, buffer),
    }
}

/// The number by which a job names the call.
fn call_number(call: CallWord) -> u64
    ensures { call_of result ≡ Some (host_call call) }
{
    host_call(call).number()
}

/// The call of the host's table that a command names.
fn host_call(call: CallWord) -> HostCall
    ensures { result ≡ host_call call }
{
    match call {
        CallWord::Echo => HostCall::Echo,
        CallWord::Put => HostCall::Put,
        CallWord::Get => HostCall::Get,
        CallWord::Cut => HostCall::Cut,
        CallWord::Clock => HostCall::Clock,
    }
}

/// What is printed behind a call, where the bytes of a reply stand at the front of the buffer.
fn called_answer(called: Called, buffer: Vec<u8>) -> Answer
    ensures { result ≡ called_answer called buffer.items }
{
    match called {
        Called::Reply { len, status } => {
            let mut bytes = buffer;
            bytes.truncate(len as usize);
            Answer::Replied {
                status,
                bytes: List::of(bytes),
            }
        }
        Called::Refused { why, seen } => refusal_answer(why, seen),
    }
}

/// How a refused reply is printed.
fn refusal_answer(why: RingWhy, seen: u64) -> Answer
    ensures { result ≡ refusal_answer why seen }
{
    match why {
        RingWhy::WrongId => Answer::WrongId { seen },
        RingWhy::TooLong => Answer::TooLong { seen },
        RingWhy::BadStatus => Answer::BadStatus { seen },
    }
}
