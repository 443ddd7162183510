// Pointers are made, and asked where they stand.
ghost use Rattle.std.specs.Prelude.{◌≡◌, ◌↔◌, ◌+◌, ◌<◌, ◌^◌, IsErr, IsSome, IfOk, OnErr, Some};
ghost use Rattle.std.specs.Prelude.{false, is_some};
ghost use Rattle.eleos_machine.specs.declared.pointers.Pointer.{Pointer as Placed};
ghost use Rattle.eleos_machine.specs.declared.pointers.TheConstants.{MOST_POINTERS as most};
ghost use Rattle.eleos_machine.specs.Passes.{plan_of, pointer_of};
ghost use Rattle.eleos_machine.specs.Pointers.{place_of, pointers_in};
ghost use Rattle.eleos_spointer.specs.Changes.{HasAdded};
ghost use Rattle.eleos_spointer.specs.Ranges.{ArePointers, IsPointer, IsRange, home_of, is_linked};
ghost use Rattle.eleos_spointer.specs.Ranges.{pointer_to, unlinked};

use eleos_base::Addr;
use eleos_machine::{MOST_POINTERS, Pass, Pointer, SpId};

/// The pass has as many pointers as it may have.
#[derive(Clone, Copy, Debug, PartialEq, Eq)]
pub struct TooManyLinks;

/// Makes a pointer to the beginning of a range of so many whole sub-pages, without a link.
pub fn point(pass: &mut Pass, block: Addr, subs: u32) -> Result<SpId, TooManyLinks>
    requires range { IsRange (plan_of pass.old) (home_of pass.old) block subs }
    requires pointers { ArePointers pass.old }
    ensures full { IsErr result ↔ (pointers_in pass.old.pointers ≡ most) }
    ensures added { IfOk result (λ id. HasAdded pass.old id (pointer_to block subs) pass.new) }
    ensures same { OnErr result (pass.new ≡ pass.old) }
    ensures pointers { ArePointers pass.new }
{
    let pointer = Pointer {
        block,
        subs,
        at: 0,
        is_linked: false,
    };
    add(pass, pointer)
}

/// Makes a pointer that stands where this one does, without a link.
pub fn copy(pass: &mut Pass, id: SpId) -> Result<SpId, TooManyLinks>
    requires held { IsSome (pointer_of pass.old id) }
    requires pointers { ArePointers pass.old }
    ensures full { IsErr result ↔ (pointers_in pass.old.pointers ≡ most) }
    ensures added { (pointer : Placed) → pointer_of pass.old id ≡ Some pointer
        → IfOk result (λ copied. HasAdded pass.old copied (unlinked pointer) pass.new) }
    ensures same { OnErr result (pass.new ≡ pass.old) }
    ensures pointers { ArePointers pass.new }
{
    let Some(pointer) = pass.pointer(id) else {
        unreachable!()
    };
    let copied = Pointer {
        is_linked: false,
        ..pointer
    };
    add(pass, copied)
}

/// Adds a pointer without a link, if there is room.
fn add(pass: &mut Pass, pointer: Pointer) -> Result<SpId, TooManyLinks>
    requires placed { IsPointer (plan_of pass.old) (home_of pass.old) pointer }
    requires unlinked { pointer.is_linked ≡ false }
    requires pointers { ArePointers pass.old }
    ensures full { IsErr result ↔ (pointers_in pass.old.pointers ≡ most) }
    ensures added { IfOk result (λ id. HasAdded pass.old id pointer pass.new) }
    ensures same { OnErr result (pass.new ≡ pass.old) }
    ensures pointers { ArePointers pass.new }
{
    if pass.pointer_count() == MOST_POINTERS {
        return Err(TooManyLinks);
    }
    Ok(pass.add_pointer(pointer))
}

/// Where a pointer stands.
pub fn place(pass: &Pass, id: SpId) -> Addr
    requires held { IsSome (pointer_of pass.now id) }
    requires pointers { ArePointers pass.now }
    ensures { (pointer : Placed) → pointer_of pass.now id ≡ Some pointer
        → result ≡ place_of pointer }
{
    let Some(pointer) = pass.pointer(id) else {
        unreachable!()
    };
    place_of(pointer)
}

/// Whether the pass has a pointer of this name.
pub fn holds(pass: &Pass, id: SpId) -> bool
    ensures { result ≡ is_some (pointer_of pass.now id) }
{
    pass.pointer(id).is_some()
}

/// Whether the pass has a pointer of this name that is linked.
pub fn linked(pass: &Pass, id: SpId) -> bool
    ensures { result ≡ is_linked (pointer_of pass.now id) }
{
    pass.pointer(id).is_some_and(|pointer| pointer.is_linked)
}

/// Where this pointer stands.
pub(crate) fn place_of(pointer: Pointer) -> Addr
    requires { pointer.block.at + pointer.at < 2 ^ 32 }
    ensures { result ≡ place_of pointer }
{
    Addr {
        enclave: pointer.block.enclave,
        at: pointer.block.at + pointer.at,
    }
}
