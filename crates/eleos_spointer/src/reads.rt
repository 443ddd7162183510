// Reads through linked pointers.
ghost use Rattle.std.specs.Prelude.{◌≡◌, ◌<◌, ◌^◌, [], length, OnErr, Some, true};
ghost use Rattle.eleos_base.specs.declared.memory.Op.TheVariants as calls;
ghost use Rattle.eleos_base.specs.declared.memory.Reply.TheVariants as replies;
ghost use Rattle.eleos_base.specs.Answers.{read_reply};
ghost use Rattle.eleos_plot.specs.declared.refs.OpOf.TheVariants as op_refs;
ghost use Rattle.eleos_plot.specs.Terms.{core_terms};
ghost use Rattle.eleos_turn.specs.Hands.{links_on};
ghost use Rattle.eleos_machine.specs.declared.pointers.Pointer.{Pointer as Placed};
ghost use Rattle.eleos_machine.specs.Passes.{IsLawful, pointer_of};
ghost use Rattle.eleos_machine.specs.Pointers.{place_of};
ghost use Rattle.eleos_pages.specs.Entered.{CanCall};
ghost use Rattle.eleos_pages.specs.Held.{EntersHeld, HoldsPage, access_stamp};
ghost use Rattle.eleos_spointer.specs.Accessed.{HasAccessed, TriesAccess};
ghost use Rattle.eleos_spointer.specs.Ranges.{ArePointers, is_linked};

use crate::access::begin_access;
use crate::points::place_of;
use crate::replies::read_reply;
use eleos_base::{AccessRefused, Addr, Sealer};
use eleos_core::read_present;
use eleos_direct::TryRefused;
use eleos_machine::{Machine, Pass, SpId};
use eleos_pages::end;
use eleos_plot::{Cell, EventRef, OpRef};
use std::sync::Wait;

/// Reads from where a linked pointer stands into the buffer, which a refusal leaves as it was.
/// Waits for the turn of the page.
pub fn read<R: Wait, S: Sealer>(
    rt: &R,
    m: &Machine<S>,
    pass: &mut Pass,
    id: SpId,
    buf: &mut [u8],
) -> Result<(), AccessRefused>
    requires can { CanCall m.now pass.old }
    requires linked { is_linked (pointer_of pass.old id) ≡ true }
    requires pointers { ArePointers pass.old }
    requires buffer { length buf.old < 2 ^ 32 }
    ensures accessed { (pointer : Placed) → pointer_of pass.old id ≡ Some pointer
        → HasAccessed pass.old (place_of pointer)
        (calls.Read (place_of pointer) (length buf.old)) (read_reply result buf.new) pass.new }
    ensures refused { OnErr result (buf.new ≡ buf.old) }
    ensures pointers { ArePointers pass.new }
{
    let Some(pointer) = pass.pointer(id) else {
        unreachable!()
    };
    let at = place_of(pointer);
    let Some(cell) = begin_access(m, pass, pointer, buf.len(), read_of(at, buf)) else {
        return Err(AccessRefused::BadRange);
    };
    let taken = m.take(rt, pass, cell, true);
    read_held(m, pass, at, cell, taken.value, buf)
}

/// The same, but it never waits.
pub fn try_read<S: Sealer>(
    m: &Machine<S>,
    pass: &mut Pass,
    id: SpId,
    buf: &mut [u8],
) -> Result<(), TryRefused>
    requires can { CanCall m.now pass.old }
    requires linked { is_linked (pointer_of pass.old id) ≡ true }
    requires pointers { ArePointers pass.old }
    requires buffer { length buf.old < 2 ^ 32 }
    ensures accessed { (pointer : Placed) → pointer_of pass.old id ≡ Some pointer
        → TriesAccess pass.old (place_of pointer)
        (calls.Read (place_of pointer) (length buf.old)) (length buf.old)
        (replies.Text buf.new) result pass.new }
    ensures refused { OnErr result (buf.new ≡ buf.old) }
    ensures pointers { ArePointers pass.new }
{
    let Some(pointer) = pass.pointer(id) else {
        unreachable!()
    };
    let at = place_of(pointer);
    let Some(cell) = begin_access(m, pass, pointer, buf.len(), read_of(at, buf)) else {
        return Err(TryRefused::Access(AccessRefused::BadRange));
    };
    let taken = match m.try_take(pass, cell, true) {
        Ok(taken) => taken,
        Err(busy) => return Err(TryRefused::Busy { word: busy.word }),
    };
    match read_held(m, pass, at, cell, taken.value, buf) {
        Ok(()) => Ok(()),
        Err(refused) => Err(TryRefused::Access(refused)),
    }
}

/// Reads on the page whose turn was taken and on which the pass has a link, and gives it back.
fn read_held<S: Sealer>(
    m: &Machine<S>,
    pass: &mut Pass,
    at: Addr,
    cell: u32,
    value: Cell,
    buf: &mut [u8],
) -> Result<(), AccessRefused>
    requires holds { HoldsPage m.now pass.old at (length buf.old) cell value }
    requires link { 0 < links_on core_terms pass.old.hand cell }
    requires lawful { IsLawful pass.old }
    requires buffer { length buf.old < 2 ^ 32 }
    ensures entered { EntersHeld pass.old cell
        (access_stamp pass.old (calls.Read at (length buf.old)) [] (read_reply result buf.new)) pass.new }
    ensures refused { OnErr result (buf.new ≡ buf.old) }
    ensures lawful { IsLawful pass.new }
{
    let Cell::Page(page) = value else {
        unreachable!()
    };
    let answer = read_present(m.plan(), &page, pass.who(), at, buf);
    pass.set(EventRef::Op(read_of(at, buf)), read_reply(answer, buf));
    end(m, pass, cell, page);
    // What it has seen is a legal history.
    let _ = pass.left();
    answer
}

/// A read of as many bytes as the buffer has.
fn read_of<'a>(at: Addr, buf: &[u8]) -> OpRef<'a>
    requires { length buf.now < 2 ^ 32 }
    ensures { result ≡ op_refs.Read at (length buf.now) }
{
    OpRef::Read {
        at,
        len: buf.len() as u32,
    }
}
