// Pointers give up their pages, and go.
ghost use Rattle.std.specs.Prelude.{◌≡◌, IsSome, None, Some, false, true};
ghost use Rattle.eleos_machine.specs.declared.pointers.Pointer.{Pointer as Placed};
ghost use Rattle.eleos_machine.specs.Passes.{pointer_of};
ghost use Rattle.eleos_pages.specs.Entered.{CanCall};
ghost use Rattle.eleos_spointer.specs.Changes.{Becomes};
ghost use Rattle.eleos_spointer.specs.Ranges.{ArePointers, is_linked, unlinked};

use crate::letting::change;
use eleos_base::Sealer;
use eleos_machine::{Machine, Pass, Pointer, SpId};

/// Unlinks the page of a pointer, and answers whether it was linked. Never waits.
pub fn unlink<S: Sealer>(m: &Machine<S>, pass: &mut Pass, id: SpId) -> bool
    requires can { CanCall m.now pass.old }
    requires held { IsSome (pointer_of pass.old id) }
    requires pointers { ArePointers pass.old }
    ensures told { result ≡ is_linked (pointer_of pass.old id) }
    ensures same { result ≡ false → pass.new ≡ pass.old }
    ensures unlinked { result ≡ true → (pointer : Placed) → pointer_of pass.old id ≡ Some pointer
        → Becomes pass.old id pointer true (Some (unlinked pointer)) pass.new }
    ensures pointers { ArePointers pass.new }
{
    let Some(pointer) = pass.pointer(id) else {
        unreachable!()
    };
    if !pointer.is_linked {
        return false;
    }
    let alone = Pointer {
        is_linked: false,
        ..pointer
    };
    change(m, pass, id, pointer, true, Some(alone));
    true
}

/// Takes a pointer out of the pass, and unlinks its page if it is linked. Never waits.
pub fn drop_pointer<S: Sealer>(m: &Machine<S>, pass: &mut Pass, id: SpId)
    requires can { CanCall m.now pass.old }
    requires held { IsSome (pointer_of pass.old id) }
    requires pointers { ArePointers pass.old }
    ensures dropped { (pointer : Placed) → pointer_of pass.old id ≡ Some pointer
        → Becomes pass.old id pointer pointer.is_linked None pass.new }
    ensures pointers { ArePointers pass.new }
{
    let Some(pointer) = pass.pointer(id) else {
        unreachable!()
    };
    change(m, pass, id, pointer, pointer.is_linked, None);
}
