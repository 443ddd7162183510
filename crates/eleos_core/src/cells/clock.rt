// The cell of an owner's frames.

use std::marker::Model;

/// The frames that an enclave owns, or those of the pool, in the order in which they came.
#[derive(Debug, Drop)]
pub struct Clock {
    pub frames: Vec<u32>,
}

impl Model for Clock {
    ghost use Rattle.std.specs.Prelude.{List, ℕ};

    ghost Value = { List ℕ };

    ghost view = { λ cell. cell.frames.items };
}
