//! The laws of allocs after every history.

ghost use Rattle.eleos_alloc.specs.Laws.{AllocsComplete};

/// An alloc of 1 to 65,536 bytes is answered with an address where the caller's enclave has a free
/// run that is long enough.
pub fn allocs_are_complete()
    ensures complete { AllocsComplete }
{}
