// Writes within one sub-page.
ghost use Rattle.std.specs.Prelude.{◌≡◌, ◌≤◌, length};
ghost use Rattle.eleos_base.specs.declared.memory.Op.TheVariants as calls;
ghost use Rattle.eleos_base.specs.declared.memory.Reply.TheVariants as replies;
ghost use Rattle.eleos_direct.specs.Accesses.{HasAccessed, TriesAccess};
ghost use Rattle.eleos_pages.specs.Entered.{CanCall};
ghost use Rattle.eleos_direct.specs.Held.{AccessesHeld};
ghost use Rattle.eleos_pages.specs.Held.{HoldsPage};
ghost use Rattle.eleos_pages.specs.Crossed.{IsReady};
ghost use Rattle.eleos_base.specs.Answers.{write_reply};

use crate::access::{begin_access, draft};
use crate::refusals::{TryRefused, write_reply};
use eleos_base::{AccessRefused, Addr, MOST_WRITTEN, Sealer};
use eleos_host::{HostPort, Tap};
use eleos_machine::{Machine, Pass};
use eleos_pages::{end, write_page};
use eleos_plot::{Cell, OpRef};
use std::sync::Wait;

/// Writes within one sub-page. It waits for the turn of the page.
pub fn write<S: Sealer, P: HostPort, R: Wait>(
    rt: &R,
    m: &Machine<S>,
    pass: &mut Pass,
    tap: &mut Tap<P>,
    at: Addr,
    bytes: &[u8],
) -> Result<(), AccessRefused>
    requires can { CanCall m.now pass.old }
    requires bytes { length bytes.now ≤ MOST_WRITTEN }
    ensures { HasAccessed P.HostPort.own P.HostStore.own pass.old tap.old at
        (calls.Write at bytes.now) (write_reply result) pass.new tap.new }
{
    let Some(cell) = begin_access(m, pass, tap, at, bytes.len(), OpRef::Write { at, bytes }) else {
        return Err(AccessRefused::BadRange);
    };
    let taken = m.take(rt, pass, cell, true);
    write_held(m, pass, tap, at, cell, taken.value, bytes)
}

/// The same, but it never waits.
pub fn try_write<S: Sealer, P: HostPort>(
    m: &Machine<S>,
    pass: &mut Pass,
    tap: &mut Tap<P>,
    at: Addr,
    bytes: &[u8],
) -> Result<(), TryRefused>
    requires can { CanCall m.now pass.old }
    requires bytes { length bytes.now ≤ MOST_WRITTEN }
    ensures { TriesAccess P.HostPort.own P.HostStore.own pass.old tap.old at
        (calls.Write at bytes.now) (length bytes.now) replies.Done result pass.new tap.new }
{
    let Some(cell) = begin_access(m, pass, tap, at, bytes.len(), OpRef::Write { at, bytes }) else {
        return Err(TryRefused::Access(AccessRefused::BadRange));
    };
    let taken = match m.try_take(pass, cell, true) {
        Ok(taken) => taken,
        Err(busy) => return Err(TryRefused::Busy { word: busy.word }),
    };
    match write_held(m, pass, tap, at, cell, taken.value, bytes) {
        Ok(()) => Ok(()),
        Err(refused) => Err(TryRefused::Access(refused)),
    }
}

/// Writes on the page whose turn was taken, and gives it back.
fn write_held<S: Sealer, P: HostPort>(
    m: &Machine<S>,
    pass: &mut Pass,
    tap: &mut Tap<P>,
    at: Addr,
    cell: u32,
    value: Cell,
    bytes: &[u8],
) -> Result<(), AccessRefused>
    requires holds { HoldsPage m.now pass.old at (length bytes.now) cell value }
    requires ready { IsReady tap.old }
    ensures { AccessesHeld P.HostPort.own P.HostStore.own pass.old tap.old at
        cell (calls.Write at bytes.now) (write_reply result) pass.new tap.new }
{
    let Cell::Page(mut page) = value else {
        unreachable!()
    };
    let accessed = write_page(m.plan(), m.sealer(), tap, &mut page, pass.who(), at, bytes);
    let reply = write_reply(accessed.answer);
    draft(
        pass,
        tap,
        OpRef::Write { at, bytes },
        reply,
        accessed.has_block,
    );
    end(m, pass, cell, page);
    accessed.answer
}
