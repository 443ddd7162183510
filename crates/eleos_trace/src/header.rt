// What stands before the first command.
ghost use Rattle.std.specs.Prelude.{◌≡◌};
ghost use Rattle.eleos_trace.specs.Blocks.{has_name};

use crate::Kind;
use eleos_base::{BlockPlan, Bytes, List, Plan};

mod blocks;
mod homes;
mod lines;
mod rooms;
mod whole;

pub(crate) use whole::{header_lines, header_of, machine_lines};

/// A header block with its name.
#[derive(Debug, Drop)]
pub(crate) struct NamedBlock {
    pub name: Bytes,
    pub block: BlockPlan,
}

/// What the header says. The plan is without the blocks.
#[derive(Debug, Drop)]
pub(crate) struct Header {
    pub kind: Kind,
    pub plan: Plan,
    pub key: Bytes,
    pub blocks: List<NamedBlock>,
}

/// Whether a block of the enclave has the name.
pub(crate) fn has_name(blocks: &[NamedBlock], enclave: u16, name: &[u8]) -> bool
    ensures { result ≡ has_name blocks.now enclave name.now }
{
    blocks.iter().any(|named| named.block.enclave == enclave && named.name.as_slice() == name)
}
