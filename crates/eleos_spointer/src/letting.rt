// A pointer becomes another, or is gone, and its page is unlinked where it leaves it.
ghost use Rattle.std.specs.Prelude.{◌≡◌, ◌<◌, Some, IfSome, IsSome, length, slice_set, true};
ghost use Rattle.eleos_base.specs.Plans.{IsGood};
ghost use Rattle.eleos_plot.specs.Terms.{core_terms};
ghost use Rattle.eleos_turn.specs.Hands.{links_on};
ghost use Rattle.eleos_machine.specs.Passes.{plan_of, pointer_of};
ghost use Rattle.eleos_machine.specs.Pointers.{cell_under, page_under};
ghost use Rattle.eleos_pages.specs.Entered.{CanCall};
ghost use Rattle.eleos_spointer.specs.Changes.{Becomes, LetsGo, MayBecome};
ghost use Rattle.eleos_spointer.specs.Ranges.{ArePointers, IsPointer, home_of};
ghost use Rattle.eleos_spointer.specs.Unlinked.{Unlinks};

use crate::points::place_of;
use eleos_base::{Plan, Sealer};
use eleos_core::spot_of;
use eleos_machine::{Machine, Pass, Pointer, SpId, page_cell};
use eleos_plot::{EventRef, ReplyRef};

/// Makes another of a pointer, or takes it out. Where it leaves its page by that, the page is
/// unlinked first.
pub(crate) fn change<S: Sealer>(
    m: &Machine<S>,
    pass: &mut Pass,
    id: SpId,
    pointer: Pointer,
    leaves: bool,
    now: Option<Pointer>,
)
    requires can { CanCall m.now pass.old }
    requires pointers { ArePointers pass.old }
    requires was { pointer_of pass.old id ≡ Some pointer }
    requires may { MayBecome (plan_of pass.old) pointer leaves now }
    requires placed { IfSome now (λ one. IsPointer (plan_of pass.old) (home_of pass.old) one) }
    ensures becomes { Becomes pass.old id pointer leaves now pass.new }
    ensures pointers { ArePointers pass.new }
{
    let_go(m, pass, pointer, leaves);
    put(pass, id, now);
}

/// Unlinks the page of a pointer, where it leaves it.
fn let_go<S: Sealer>(m: &Machine<S>, pass: &mut Pass, pointer: Pointer, leaves: bool)
    requires can { CanCall m.now pass.old }
    requires pointers { ArePointers pass.old }
    requires placed { IsPointer (plan_of pass.old) (home_of pass.old) pointer }
    requires link { leaves ≡ true
        → 0 < links_on core_terms pass.old.hand (cell_under (plan_of pass.old) pointer) }
    ensures page { LetsGo pass.old (page_under (plan_of pass.old) pointer) leaves pass.new }
    ensures pointers { pass.new.pointers ≡ pass.old.pointers }
{
    if leaves {
        unlink_page(m, pass, pointer);
    }
}

/// Unlinks the page of a pointer.
fn unlink_page<S: Sealer>(m: &Machine<S>, pass: &mut Pass, pointer: Pointer)
    requires can { CanCall m.now pass.old }
    requires pointers { ArePointers pass.old }
    requires placed { IsPointer (plan_of pass.old) (home_of pass.old) pointer }
    requires link { 0 < links_on core_terms pass.old.hand (cell_under (plan_of pass.old) pointer) }
    ensures page { Unlinks pass.old (page_under (plan_of pass.old) pointer) pass.new }
    ensures pointers { pass.new.pointers ≡ pass.old.pointers }
{
    let page = page_under(m.plan(), pointer);
    pass.set(EventRef::Unlink { page }, ReplyRef::Done);
    m.stamp(pass);
    // The link goes before the pin that covers it.
    m.unpin(pass, page_cell(m.plan(), page));
}

/// The page on which a pointer stands.
pub(crate) fn page_under(plan: &Plan, pointer: Pointer) -> u32
    requires good { IsGood plan.now }
    requires enclave { pointer.block.enclave < length plan.now.enclaves }
    requires placed { IsPointer plan.now pointer.block.enclave pointer }
    ensures { result ≡ page_under plan.now pointer }
{
    spot_of(plan, place_of(pointer)).page
}

/// Puts this in the place of a pointer, or takes it out.
fn put(pass: &mut Pass, id: SpId, now: Option<Pointer>)
    requires held { IsSome (pointer_of pass.old id) }
    ensures { pass.new ≡ record pass.old { pointers = slice_set pass.old.pointers id.key now } }
{
    match now {
        Some(pointer) => pass.set_pointer(id, pointer),
        None => pass.remove_pointer(id),
    }
}
