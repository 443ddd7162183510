//! What the definitions keep to, whatever the values.

ghost use Rattle.eleos_base.specs.Own.{Said};
ghost use Rattle.eleos_base.specs.SubMemory.{AreCounted};
ghost use Rattle.std.specs.Prelude.{List};

/// An answer of NoSpace, Worn or Tampered comes only where its number over the calls of a memory
/// rises, and none of these numbers falls.
pub fn refusals_are_counted()
    ensures counted { (calls : List Said) (call : Said) → AreCounted calls call }
{}
