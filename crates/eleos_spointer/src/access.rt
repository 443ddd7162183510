// What accesses through linked pointers have in common: how one begins, and how it ends.
ghost use Rattle.std.specs.Prelude.{◌≡◌, ◌<◌, ◌≤◌, [], length, IfNone, IfSome, MatchOption};
ghost use Rattle.eleos_base.specs.declared.memory.Reply.TheVariants as replies;
ghost use Rattle.eleos_base.specs.Plans.{IsCaller, IsGood, enclave_of};
ghost use Rattle.eleos_plot.specs.Refs.{op_bytes, op_of};
ghost use Rattle.eleos_plot.specs.Terms.{core_terms};
ghost use Rattle.eleos_turn.specs.Hands.{links_on};
ghost use Rattle.eleos_machine.specs.Machines.{plan_at};
ghost use Rattle.eleos_machine.specs.Passes.{IsLawful, plan_of};
ghost use Rattle.eleos_machine.specs.Pointers.{cell_under, place_of};
ghost use Rattle.eleos_pages.specs.Entered.{CanCall, Enters};
ghost use Rattle.eleos_pages.specs.Held.{IsOutside, IsPageOf, access_stamp};
ghost use Rattle.eleos_direct.specs.Accesses.{IsAccessAt};
ghost use Rattle.eleos_spointer.specs.Accessed.{HasAccessed};
ghost use Rattle.eleos_spointer.specs.Ranges.{IsPointer, home_of};

use crate::letting::page_under;
use crate::points::place_of;
use eleos_base::{Addr, MOST_WRITTEN, Plan, Sealer};
use eleos_core::is_in_range;
use eleos_machine::{Machine, Pass, Pointer, page_cell};
use eleos_plot::{EventRef, OpRef, ReplyRef};

/// Finds the number of the cell of the page of an access of so many bytes through a linked pointer.
/// There is none where the access is out of range, and it was stamped as refused then.
pub(crate) fn begin_access<S: Sealer>(
    m: &Machine<S>,
    pass: &mut Pass,
    pointer: Pointer,
    len: usize,
    op: OpRef<'_>,
) -> Option<u32>
    requires can { CanCall m.now pass.old }
    requires placed { IsPointer (plan_of pass.old) (home_of pass.old) pointer }
    requires link { 0 < links_on core_terms pass.old.hand (cell_under (plan_of pass.old) pointer) }
    requires access { IsAccessAt (place_of pointer) len (op_of op) }
    requires written { length (op_bytes op) ≤ MOST_WRITTEN }
    ensures found { IfSome result (λ cell.
        IsPageOf (plan_at m.now) pass.old.hand.number (place_of pointer) len cell) }
    ensures kept { IfSome result (λ _. pass.new ≡ pass.old) }
    ensures refused { IfNone result (HasAccessed pass.old (place_of pointer) (op_of op.entry)
        replies.BadRange pass.new) }
    ensures lawful { IsLawful pass.new }
{
    // What it has seen is a legal history.
    let _ = pass.left();
    let Some(cell) = find_cell(m.plan(), pass.who(), pointer, len) else {
        refuse(m, pass, place_of(pointer), len, op);
        return None;
    };
    Some(cell)
}

/// The number of the cell of the page on which the pointer stands, where so many bytes from there
/// lie in one sub-page.
fn find_cell(plan: &Plan, who: u32, pointer: Pointer, len: usize) -> Option<u32>
    requires good { IsGood plan.now }
    requires caller { IsCaller plan.now who }
    requires placed { IsPointer plan.now (enclave_of plan.now who) pointer }
    ensures { MatchOption result (IsOutside plan.now who (place_of pointer) len)
        (λ cell. IsPageOf plan.now who (place_of pointer) len cell) }
{
    let at = place_of(pointer);
    if is_in_range(plan, at.enclave, at, len) {
        Some(page_cell(plan, page_under(plan, pointer)))
    } else {
        None
    }
}

/// Stamps the refusal of an access that is out of range.
fn refuse<S: Sealer>(m: &Machine<S>, pass: &mut Pass, at: Addr, len: usize, op: OpRef<'_>)
    requires can { CanCall m.now pass.old }
    requires access { IsAccessAt at len (op_of op) }
    requires written { length (op_bytes op) ≤ MOST_WRITTEN }
    requires outside { IsOutside (plan_at m.now) pass.old.hand.number at len }
    ensures entered { Enters pass.old
        (access_stamp pass.old (op_of op.entry) [] replies.BadRange) [] pass.new }
    ensures lawful { IsLawful pass.new }
{
    pass.set(EventRef::Op(op), ReplyRef::BadRange);
    m.stamp(pass);
}
