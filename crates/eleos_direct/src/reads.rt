// Reads within one sub-page.
ghost use Rattle.std.specs.Prelude.{◌≡◌, ◌<◌, ◌^◌, [], length, OnErr};
ghost use Rattle.eleos_base.specs.declared.memory.Op.TheVariants as calls;
ghost use Rattle.eleos_base.specs.declared.memory.Reply.TheVariants as replies;
ghost use Rattle.eleos_direct.specs.Accesses.{HasAccessed, TriesAccess};
ghost use Rattle.eleos_pages.specs.Entered.{CanCall, Enters};
ghost use Rattle.eleos_direct.specs.Held.{AccessesHeld};
ghost use Rattle.eleos_pages.specs.Held.{HoldsPage, IsOutside, access_stamp};
ghost use Rattle.eleos_machine.specs.Machines.{plan_at};
ghost use Rattle.eleos_pages.specs.Crossed.{IsReady};
ghost use Rattle.eleos_base.specs.Answers.{read_reply};
ghost use Rattle.eleos_plot.specs.declared.refs.OpOf.TheVariants as op_refs;

use crate::access::{begin_access, draft, refuse};
use crate::refusals::{TryRefused, read_reply};
use eleos_base::{AccessRefused, Addr, Sealer};
use eleos_host::{HostPort, Tap};
use eleos_machine::{Machine, Pass};
use eleos_pages::{end, read_page};
use eleos_plot::{Cell, OpRef};
use std::sync::Wait;

/// Reads within one sub-page into the buffer, which a refusal leaves as it was. It waits for the
/// turn of the page.
pub fn read<S: Sealer, P: HostPort, R: Wait>(
    rt: &R,
    m: &Machine<S>,
    pass: &mut Pass,
    tap: &mut Tap<P>,
    at: Addr,
    buf: &mut [u8],
) -> Result<(), AccessRefused>
    requires can { CanCall m.now pass.old }
    requires buffer { length buf.old < 2 ^ 32 }
    ensures accessed { HasAccessed P.HostPort.own P.HostStore.own pass.old tap.old at
        (calls.Read at (length buf.old)) (read_reply result buf.new) pass.new tap.new }
    ensures refused { OnErr result (buf.new ≡ buf.old) }
{
    let Some(cell) = begin_access(m, pass, tap, at, buf.len(), read_of(at, buf)) else {
        return Err(AccessRefused::BadRange);
    };
    let taken = m.take(rt, pass, cell, true);
    read_held(m, pass, tap, at, cell, taken.value, buf)
}

/// The same, but it never waits.
pub fn try_read<S: Sealer, P: HostPort>(
    m: &Machine<S>,
    pass: &mut Pass,
    tap: &mut Tap<P>,
    at: Addr,
    buf: &mut [u8],
) -> Result<(), TryRefused>
    requires can { CanCall m.now pass.old }
    requires buffer { length buf.old < 2 ^ 32 }
    ensures accessed { TriesAccess P.HostPort.own P.HostStore.own pass.old tap.old at
        (calls.Read at (length buf.old)) (length buf.old) (replies.Text buf.new) result pass.new tap.new }
    ensures refused { OnErr result (buf.new ≡ buf.old) }
{
    let Some(cell) = begin_access(m, pass, tap, at, buf.len(), read_of(at, buf)) else {
        return Err(TryRefused::Access(AccessRefused::BadRange));
    };
    let taken = match m.try_take(pass, cell, true) {
        Ok(taken) => taken,
        Err(busy) => return Err(TryRefused::Busy { word: busy.word }),
    };
    match read_held(m, pass, tap, at, cell, taken.value, buf) {
        Ok(()) => Ok(()),
        Err(refused) => Err(TryRefused::Access(refused)),
    }
}

/// Stamps the refusal of a read of so many bytes that is out of range. It has no buffer, so the
/// read may be longer than any.
pub fn refuse_read<S: Sealer>(m: &Machine<S>, pass: &mut Pass, at: Addr, len: u32)
    requires can { CanCall m.now pass.old }
    requires outside { IsOutside (plan_at m.now) pass.old.hand.number at len }
    ensures { Enters pass.old
        (access_stamp pass.old (calls.Read at len) [] replies.BadRange) [] pass.new }
{
    refuse(m, pass, at, len as usize, OpRef::Read { at, len });
}

/// Reads on the page whose turn was taken, and gives it back.
fn read_held<S: Sealer, P: HostPort>(
    m: &Machine<S>,
    pass: &mut Pass,
    tap: &mut Tap<P>,
    at: Addr,
    cell: u32,
    value: Cell,
    buf: &mut [u8],
) -> Result<(), AccessRefused>
    requires holds { HoldsPage m.now pass.old at (length buf.old) cell value }
    requires ready { IsReady tap.old }
    ensures accessed { AccessesHeld P.HostPort.own P.HostStore.own pass.old tap.old at
        cell (calls.Read at (length buf.old)) (read_reply result buf.new) pass.new tap.new }
    ensures refused { OnErr result (buf.new ≡ buf.old) }
{
    let Cell::Page(page) = value else {
        unreachable!()
    };
    let accessed = read_page(m.plan(), m.sealer(), tap, &page, pass.who(), at, buf);
    let reply = read_reply(accessed.answer, buf);
    draft(pass, tap, read_of(at, buf), reply, accessed.has_block);
    end(m, pass, cell, page);
    accessed.answer
}

/// A read of as many bytes as the buffer has.
fn read_of<'a>(at: Addr, buf: &[u8]) -> OpRef<'a>
    requires { length buf.now < 2 ^ 32 }
    ensures { result ≡ op_refs.Read at (length buf.now) }
{
    OpRef::Read {
        at,
        len: buf.len() as u32,
    }
}
