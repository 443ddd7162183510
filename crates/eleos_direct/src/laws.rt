//! The laws of accesses after every history.

ghost use Rattle.eleos_direct.specs.Laws.{AccessesComplete};

/// An access that plain memory does not refuse, and for which the block came that was last sealed,
/// answers a text, or is done, or says that its sub-page is worn.
pub fn accesses_are_complete()
    ensures complete { AccessesComplete }
{}
