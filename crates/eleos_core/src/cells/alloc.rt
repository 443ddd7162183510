// The cell of an enclave's allocations.

use eleos_base::Live;
use std::marker::Model;

/// An enclave's live blocks, in rising order of start.
#[derive(Debug, Drop)]
pub struct Alloc {
    pub blocks: Vec<Live>,
}

impl Model for Alloc {
    ghost use Rattle.std.specs.Prelude.{List};
    ghost use Rattle.eleos_base.specs.declared.memory.Live.{Live};

    ghost Value = { List Live };

    ghost view = { λ cell. cell.blocks.items };
}
