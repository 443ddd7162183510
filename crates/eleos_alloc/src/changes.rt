// What a free and a share have in common, and in what they differ.
ghost use Rattle.std.specs.Prelude.{◌≡◌, []};
ghost use Rattle.eleos_plot.specs.Refs.{op_bytes, op_of};
ghost use Rattle.eleos_alloc.specs.Changes.{call_of, changed, mark_of};

use eleos_base::Addr;
use eleos_core::Mark;
use eleos_plot::{BlockList, OpRef};

/// What becomes of a live block.
#[derive(Clone, Copy, Debug, PartialEq, Eq)]
pub enum Change {
    Free,
    Share,
}

impl Change {
    /// The call.
    pub(crate) fn call<'a>(self, at: Addr) -> OpRef<'a>
        ensures call { op_of result ≡ call_of self at }
        ensures bytes { op_bytes result ≡ [] }
    {
        match self {
            Change::Free => OpRef::Free { at },
            Change::Share => OpRef::Share { at },
        }
    }

    /// What becomes of the block's sub-pages.
    pub(crate) fn mark(self) -> Mark
        ensures { result ≡ mark_of self }
    {
        match self {
            Change::Free => Mark::Blank(None),
            Change::Share => Mark::Shared,
        }
    }

    /// Changes the block that starts at the address.
    pub(crate) fn apply(self, blocks: &mut BlockList, enclave: u16, at: Addr)
        ensures { blocks.new ≡ changed self enclave at blocks.old }
    {
        match self {
            Change::Free => blocks.remove_at(enclave, at),
            Change::Share => blocks.share_at(enclave, at),
        }
    }
}
