// Writes through linked pointers.
ghost use Rattle.std.specs.Prelude.{◌≡◌, ◌<◌, ◌≤◌, [], length, Some, true};
ghost use Rattle.eleos_base.specs.declared.memory.Op.TheVariants as calls;
ghost use Rattle.eleos_base.specs.declared.memory.Reply.TheVariants as replies;
ghost use Rattle.eleos_base.specs.Answers.{write_reply};
ghost use Rattle.eleos_plot.specs.Terms.{core_terms};
ghost use Rattle.eleos_turn.specs.Hands.{links_on};
ghost use Rattle.eleos_machine.specs.declared.pointers.Pointer.{Pointer as Placed};
ghost use Rattle.eleos_machine.specs.Passes.{IsLawful, pointer_of};
ghost use Rattle.eleos_machine.specs.Pointers.{place_of};
ghost use Rattle.eleos_pages.specs.Entered.{CanCall};
ghost use Rattle.eleos_pages.specs.Held.{EntersHeld, HoldsPage, access_stamp};
ghost use Rattle.eleos_spointer.specs.Accessed.{HasAccessed, TriesAccess};
ghost use Rattle.eleos_spointer.specs.Ranges.{ArePointers, is_linked};

use crate::access::begin_access;
use crate::points::place_of;
use crate::replies::write_reply;
use eleos_base::{AccessRefused, Addr, MOST_WRITTEN, Sealer};
use eleos_core::write_present;
use eleos_direct::TryRefused;
use eleos_machine::{Machine, Pass, SpId};
use eleos_pages::end;
use eleos_plot::{Cell, EventRef, OpRef};
use std::sync::Wait;

/// Writes from where a linked pointer stands. Waits for the turn of the page.
pub fn write<R: Wait, S: Sealer>(
    rt: &R,
    m: &Machine<S>,
    pass: &mut Pass,
    id: SpId,
    bytes: &[u8],
) -> Result<(), AccessRefused>
    requires can { CanCall m.now pass.old }
    requires linked { is_linked (pointer_of pass.old id) ≡ true }
    requires pointers { ArePointers pass.old }
    requires bytes { length bytes.now ≤ MOST_WRITTEN }
    ensures accessed { (pointer : Placed) → pointer_of pass.old id ≡ Some pointer
        → HasAccessed pass.old (place_of pointer)
        (calls.Write (place_of pointer) bytes.now) (write_reply result) pass.new }
    ensures pointers { ArePointers pass.new }
{
    let Some(pointer) = pass.pointer(id) else {
        unreachable!()
    };
    let at = place_of(pointer);
    let op = OpRef::Write { at, bytes };
    let Some(cell) = begin_access(m, pass, pointer, bytes.len(), op) else {
        return Err(AccessRefused::BadRange);
    };
    let taken = m.take(rt, pass, cell, true);
    write_held(m, pass, at, cell, taken.value, bytes)
}

/// The same, but it never waits.
pub fn try_write<S: Sealer>(
    m: &Machine<S>,
    pass: &mut Pass,
    id: SpId,
    bytes: &[u8],
) -> Result<(), TryRefused>
    requires can { CanCall m.now pass.old }
    requires linked { is_linked (pointer_of pass.old id) ≡ true }
    requires pointers { ArePointers pass.old }
    requires bytes { length bytes.now ≤ MOST_WRITTEN }
    ensures accessed { (pointer : Placed) → pointer_of pass.old id ≡ Some pointer
        → TriesAccess pass.old (place_of pointer)
        (calls.Write (place_of pointer) bytes.now) (length bytes.now)
        replies.Done result pass.new }
    ensures pointers { ArePointers pass.new }
{
    let Some(pointer) = pass.pointer(id) else {
        unreachable!()
    };
    let at = place_of(pointer);
    let op = OpRef::Write { at, bytes };
    let Some(cell) = begin_access(m, pass, pointer, bytes.len(), op) else {
        return Err(TryRefused::Access(AccessRefused::BadRange));
    };
    let taken = match m.try_take(pass, cell, true) {
        Ok(taken) => taken,
        Err(busy) => return Err(TryRefused::Busy { word: busy.word }),
    };
    match write_held(m, pass, at, cell, taken.value, bytes) {
        Ok(()) => Ok(()),
        Err(refused) => Err(TryRefused::Access(refused)),
    }
}

/// Writes on the page whose turn was taken and on which the pass has a link, and gives it back.
fn write_held<S: Sealer>(
    m: &Machine<S>,
    pass: &mut Pass,
    at: Addr,
    cell: u32,
    value: Cell,
    bytes: &[u8],
) -> Result<(), AccessRefused>
    requires holds { HoldsPage m.now pass.old at (length bytes.now) cell value }
    requires link { 0 < links_on core_terms pass.old.hand cell }
    requires lawful { IsLawful pass.old }
    requires bytes { length bytes.now ≤ MOST_WRITTEN }
    ensures entered { EntersHeld pass.old cell
        (access_stamp pass.old (calls.Write at bytes.now) [] (write_reply result)) pass.new }
    ensures lawful { IsLawful pass.new }
{
    let Cell::Page(mut page) = value else {
        unreachable!()
    };
    let answer = write_present(m.plan(), &mut page, pass.who(), at, bytes);
    pass.set(
        EventRef::Op(OpRef::Write { at, bytes }),
        write_reply(answer),
    );
    end(m, pass, cell, page);
    // What it has seen is a legal history.
    let _ = pass.left();
    answer
}
