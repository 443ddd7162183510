//! The slot of a cell.
ghost use Rattle.std.specs.Prelude.{◌≡◌};

use std::marker::Model;

/// Words behind each value: 64 bytes, so that no two values lie in one line of the processor's
/// cache.
const BEHIND: usize = 8;

/// What lies in the slot of a cell: its value, or nothing while somebody has its turn.
#[derive(Drop)]
pub struct Slot<C> {
    value: Option<C>,
    behind: [u64; BEHIND],
}

impl<C> Model for Slot<C> {
    ghost use Rattle.std.specs.Prelude.{Option};

    ghost Value = { Option C };

    ghost view = { λ s. s.value };
}

impl<C> Slot<C> {
    pub(crate) fn of(value: Option<C>) -> Slot<C>
        ensures { result ≡ value }
    {
        Slot {
            value,
            behind: [0; BEHIND],
        }
    }

    pub(crate) fn into_value(self) -> Option<C>
        ensures { result ≡ self }
    {
        let Slot { value, behind: _ } = self;
        value
    }
}
