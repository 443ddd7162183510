// Pointers go on in their ranges.
ghost use Rattle.std.specs.Prelude.{◌≡◌, ◌↔◌, ◌<◌, ◌≤◌, ℕ, IsErr, IsSome, MatchOption, OnErr};
ghost use Rattle.std.specs.Prelude.{◌&&◌, Some, length, not};
ghost use Rattle.eleos_base.specs.declared.plan.Plan.{Plan as Plans};
ghost use Rattle.eleos_base.specs.Plans.{IsGood};
ghost use Rattle.eleos_machine.specs.declared.pointers.Pointer.{Pointer as Placed};
ghost use Rattle.eleos_machine.specs.Passes.{plan_of, pointer_of};
ghost use Rattle.eleos_pages.specs.Entered.{CanCall};
ghost use Rattle.eleos_spointer.specs.Changes.{Becomes, IsStep, at_place, leaves_for, moved_to};
ghost use Rattle.eleos_spointer.specs.Ranges.{ArePointers, IsPointer};

use crate::letting::{change, page_under};
use eleos_base::{Plan, SUB_BYTES, Sealer};
use eleos_machine::{Machine, Pass, Pointer, SpId};

/// The step would leave the range that was given to `point`.
#[derive(Clone, Copy, Debug, PartialEq, Eq)]
pub struct OutOfBlock;

/// Moves a pointer by so many bytes within its range. A linked pointer that leaves its page by it
/// unlinks that page. Never waits.
pub fn step<S: Sealer>(m: &Machine<S>, pass: &mut Pass, id: SpId, by: i32) -> Result<(), OutOfBlock>
    requires can { CanCall m.now pass.old }
    requires held { IsSome (pointer_of pass.old id) }
    requires pointers { ArePointers pass.old }
    ensures out { (pointer : Placed) → pointer_of pass.old id ≡ Some pointer
        → IsErr result ↔ ((to : ℕ) → IsStep (plan_of pass.old) pointer by to → ⊥) }
    ensures same { OnErr result (pass.new ≡ pass.old) }
    ensures steps { (pointer : Placed) (to : ℕ) → pointer_of pass.old id ≡ Some pointer
        → IsStep (plan_of pass.old) pointer by to
        → Becomes pass.old id pointer (leaves_for (plan_of pass.old) pointer to)
        (Some (moved_to (plan_of pass.old) pointer to)) pass.new }
    ensures pointers { ArePointers pass.new }
{
    let Some(pointer) = pass.pointer(id) else {
        unreachable!()
    };
    let Some(to) = target(pointer, by) else {
        return Err(OutOfBlock);
    };
    let moved = moved_to(m.plan(), pointer, to);
    let leaves = leaves_for(pointer, moved);
    change(m, pass, id, pointer, leaves, Some(moved));
    Ok(())
}

/// Where a pointer stands so many bytes further, unless that is outside its range.
fn target(pointer: Pointer, by: i32) -> Option<u32>
    requires { pointer.subs ≤ 64 }
    ensures { (k : Plans) → MatchOption result
        ((to : ℕ) → IsStep k pointer by to → ⊥) (λ to. IsStep k pointer by to) }
{
    let to = pointer.at.checked_add_signed(by)?;
    if to < pointer.subs * SUB_BYTES {
        Some(to)
    } else {
        None
    }
}

/// Whether a pointer that becomes this one leaves its page.
fn leaves_for(pointer: Pointer, moved: Pointer) -> bool
    ensures { result ≡ pointer.is_linked && not moved.is_linked }
{
    pointer.is_linked && !moved.is_linked
}

/// The pointer at another place of its range. It stays linked on its page alone.
fn moved_to(plan: &Plan, pointer: Pointer, to: u32) -> Pointer
    requires good { IsGood plan.now }
    requires enclave { pointer.block.enclave < length plan.now.enclaves }
    requires from { IsPointer plan.now pointer.block.enclave pointer }
    requires there { IsPointer plan.now pointer.block.enclave (at_place pointer to) }
    ensures { result ≡ moved_to plan.now pointer to }
{
    let there = Pointer { at: to, ..pointer };
    let stays = page_under(plan, there) == page_under(plan, pointer);
    Pointer {
        is_linked: pointer.is_linked && stays,
        ..there
    }
}
